//! Terms and equations. They are walked in loops.
ghost use Rattle.std.specs.Prelude.{◌≡◌};
ghost use Rattle.rx_term_words.specs.Equations.{equations};
ghost use Rattle.rx_term_words.specs.Terms.{is_readable_call, terms};

use crate::polynomials::{poly_has_text, polys_have_text, rows_have_text};
use rx_poly::Poly;
use rx_row::Row;
use rx_term::{Sym, Term};

/// Whether a symbol with its polynomials has a text.
fn call_has_text(sym: Sym, polys: &[Poly]) -> bool
    ensures { result ≡ is_readable_call sym polys.now }
{
    let _number = sym.0;
    polys_have_text(polys)
}

/// Whether the term has a text: whether all its polynomials have. It may have as many frames as
/// memory holds.
pub fn term_has_text(term: &Term) -> bool
    ensures { result ≡ terms.in_range term.now }
{
    let mut here = term;
    loop {
        match here {
            Term::Return(value) => return poly_has_text(value),
            Term::Fail(code) => {
                let _code = *code;
                return true;
            }
            Term::Call(sym, polys) => return call_has_text(*sym, polys.as_slice()),
            Term::Frame(sym, polys, inner) => {
                if !call_has_text(*sym, polys.as_slice()) {
                    return false;
                }
                here = inner.get();
            }
        }
    }
}

/// Whether the equation of the two sides under those rows has a text: whether both sides and the
/// list of rows have.
pub fn equation_has_text(left: &Term, right: &Term, rows: &[Row]) -> bool
    ensures { result ≡ equations.in_range (record {
      left = left.now;
      right = right.now;
      rows = rows.now;
    }) }
{
    term_has_text(left) && term_has_text(right) && rows_have_text(rows)
}
