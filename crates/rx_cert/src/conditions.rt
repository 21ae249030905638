//! Lists of rows that are to follow from others, with certificates for those that aren't plain.
ghost use Rattle.std.specs.Prelude.{◌≡◌, ◌<◌, ◌+◌, ◌^◌, ◌++◌, ℕ, ℤ, Some, None, IsTrue, IfOk, IfErr, OnOk, length};
ghost use Rattle.rx_cert.specs.Conditions.{asked_for, conditions, in_order, is_evident, is_plain_row};
ghost use Rattle.rx_cert.specs.Examination.{row_finding};
ghost use Rattle.rx_row.specs.Holds.{AllHold, RowHolds};

use crate::cert::Cert;
use crate::refutation::{copy_rows, examine_negation};
use rx_poly::PolyEnd;
use rx_row::{Constraint, Row};
use std::alloc::Global;

/// What is found of a list of conditions.
#[derive(Clone, Copy, Debug, PartialEq, Eq)]
pub enum ConditionsAnswer {
    /// Each row is plain or shown by its certificate.
    Shown,
    /// There are more or fewer certificates than rows that aren't plain.
    WrongCount,
    /// The row of that number, counted from 0 over all rows, isn't shown by its certificate.
    NotShown(usize),
}

/// Whether the row says what is evident of a number.
fn says_evident(row: &Row) -> bool
    ensures { result ≡ is_evident row.now }
{
    let Some(number) = row.poly().is_constant() else {
        return false;
    };
    match row {
        Row::Ge(_) => number >= 0,
        Row::Eq(_) => number == 0,
        Row::Ne(_) => number != 0,
    }
}

/// Whether the row follows from the rows without a certificate: it is one of them, or it is `k >=
/// 0`, `0 = 0` or
/// `k != 0` of a number for which that is so. Takes no memory.
pub fn is_plain(rows: &Constraint, row: &Row) -> bool
    ensures plain { result ≡ is_plain_row rows.now row.now }
    ensures holds { IsTrue result → (a : ℕ → ℤ) → AllHold a rows.now → RowHolds a row.now }
{
    rows.contains(row) || says_evident(row)
}

/// How many certificates the rows ask for: one for each that isn't plain. Takes no memory.
pub fn count_asked(given: &Constraint, rows: &[Row]) -> usize
    ensures { result ≡ asked_for given.now rows.now }
{
    rows.iter().filter(|row| !is_plain(given, row)).count()
}

/// Whether the rows follow from the given ones, the first row having that number: each that isn't
/// plain takes the next certificate, and there are as many of these as are asked for
/// (`count_asked`). The given rows are copied only where there is a certificate to examine. Large
/// exactly where a certificate, or the negation of its row, comes to a polynomial that passes the
/// limits before another answer is found.
pub fn check_in_order(
    alloc: Global,
    first: usize,
    given: &Constraint,
    rows: &[Row],
    certs: &[Cert],
) -> Result<ConditionsAnswer, PolyEnd>
    requires count { length certs.now ≡ asked_for given.now rows.now }
    requires room { first + length rows.now < 2 ^ 64 }
    ensures answer { IfOk result (λ c. in_order first given.now rows.now certs.now ≡ Some c) }
    ensures large { IfErr result (λ e. e ≡ PolyEnd.Large →
        in_order first given.now rows.now certs.now ≡ None) }
{
    if certs.is_empty() {
        return Ok(ConditionsAnswer::Shown);
    }
    let mut lent = copy_rows(alloc, given.rows())?;
    let mut left = certs;
    for (at, row) in rows.iter().enumerate() {
        if is_plain(given, row) {
            continue;
        }
        let Some((cert, more)) = left.split_first() else {
            return Ok(ConditionsAnswer::WrongCount);
        };
        if !examine_negation(alloc, &mut lent, row, cert)? {
            return Ok(ConditionsAnswer::NotShown(first + at));
        }
        left = more;
    }
    Ok(ConditionsAnswer::Shown)
}

/// Whether the rows follow from the given ones, with one certificate for each that isn't plain. The
/// number of certificates is looked at first, then the rows are taken in order; the given rows are
/// copied only where there is a certificate to examine. Large exactly where a certificate, or the
/// negation of its row, comes to a polynomial that passes the limits before another answer is
/// found. A caller that forms the rows answers Large first where one of them passes the limits.
pub fn check_conditions(
    alloc: Global,
    given: &Constraint,
    rows: &[Row],
    certs: &[Cert],
) -> Result<ConditionsAnswer, PolyEnd>
    ensures answer { IfOk result (λ c. conditions given.now (Some rows.now) certs.now ≡ Some c) }
    ensures large { IfErr result (λ e. e ≡ PolyEnd.Large →
        conditions given.now (Some rows.now) certs.now ≡ None) }
    ensures holds { IfOk result (λ c. c ≡ ConditionsAnswer.Shown → (a : ℕ → ℤ) →
        AllHold a given.now → AllHold a rows.now) }
{
    if certs.len() != count_asked(given, rows) {
        return Ok(ConditionsAnswer::WrongCount);
    }
    check_in_order(alloc, 0, given, rows, certs)
}
