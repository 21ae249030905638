//! One number made of a goal. Nothing is proved of it: it only chooses where a goal is kept.

use rx_poly::{Poly, digest_with};
use rx_row::Row;
use rx_term::{Equation, Term};

/// The digest so far, and then those of the polynomials in order.
fn after_polys(before: u128, polys: &[Poly]) -> u128 {
    let mut digest = before;
    for poly in polys {
        digest = digest_with(digest, poly.digest());
    }
    digest
}

/// The digest so far, and then that of the term, from the outermost frame inwards.
fn after_term(before: u128, term: &Term) -> u128 {
    let mut digest = before;
    let mut here = term;
    while let Term::Frame(sym, args, inner) = here {
        digest = after_polys(digest_with(digest, sym.0 as u128), args.as_slice());
        here = inner.get();
    }
    match here {
        Term::Return(value) => digest_with(digest, value.digest()),
        Term::Fail(code) => digest_with(digest, *code as u128),
        Term::Call(sym, args) => after_polys(digest_with(digest, sym.0 as u128), args.as_slice()),
        Term::Frame(_, _, _) => digest,
    }
}

/// The digest so far, and then those of the rows' polynomials in order; kinds of rows don't count.
fn after_rows(before: u128, rows: &[Row]) -> u128 {
    let mut digest = before;
    for row in rows {
        digest = digest_with(digest, row.poly().digest());
    }
    digest
}

/// The digest of a goal. Equal goals have one; goals that differ only in the kind of a row, or
/// within quotients and remainders, have one too. The last product carries its low half into the
/// high half.
pub(crate) fn digest_of(goal: &Equation) -> u128 {
    let sides = after_term(after_term(0, &goal.left), &goal.right);
    digest_with(after_rows(sides, goal.rows.rows()), 0)
}
