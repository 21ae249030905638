//! Sums of multiples of rows.
ghost use Rattle.std.specs.Prelude.{Some, slice_get, ◌≡◌, ℕ, ℤ, pos, ◌≤ℤ◌, true, false, IfOk, IfSome};
ghost use Rattle.std.specs.Option.{option_copied};
ghost use Rattle.rx_plain.specs.Formed.{Forms};
ghost use Rattle.rx_poly.specs.Value.{value};
ghost use Rattle.rx_row.specs.Holds.{AllHold};
ghost use Rattle.rx_poly.specs.Constants.{number};
ghost use Rattle.rx_row.specs.Parts.{are_lawful, multiple_formed, parts_formed, sum_formed, takes};

use crate::constraint::Constraint;
use crate::row::Row;
use rx_poly::{Poly, PolyEnd};
use std::alloc::Global;

/// Whether the row may be multiplied by the number in a sum.
fn is_taken_by(row: &Row, by: &i128) -> bool
    ensures { result ≡ takes row.now by.now }
{
    match row {
        Row::Ge(_) => *by > 0,
        Row::Eq(_) => *by != 0,
        Row::Ne(_) => false,
    }
}

/// The row with that number, if there is one.
fn row_at(rows: &[Row], at: u32) -> Option<&Row>
    ensures { option_copied result ≡ slice_get rows.now at }
{
    rows.get(at as usize)
}

/// Whether each part is lawful.
fn are_lawful_parts(rows: &[Row], parts: &[(u32, i128)]) -> bool
    ensures { result ≡ are_lawful rows.now parts.now }
{
    let mut from: usize = 0;
    for (at, by) in parts {
        let number = *at as usize;
        if number < from {
            return false;
        }
        match row_at(rows, *at) {
            Some(row) if is_taken_by(row, by) => from = number + 1,
            _ => return false,
        }
    }
    true
}

/// The sum with the row's polynomial times the number. Large exactly where the multiple passes the
/// limits, or the sum with it does.
fn plus_multiple(alloc: Global, sum: &Poly, row: &Row, by: &i128) -> Result<Poly, PolyEnd>
    ensures forms { Forms PolyEnd.Large result (multiple_formed sum.now (Some row.now) by.now) }
{
    let multiple = row.poly().scale(alloc, *by)?;
    sum.add(alloc, &multiple)
}

/// The sum of the parts' multiples, in order.
fn sum_of_multiples(alloc: Global, rows: &[Row], parts: &[(u32, i128)]) -> Result<Poly, PolyEnd>
    ensures forms { Forms PolyEnd.Large result (sum_formed (number (pos 0)) rows.now parts.now) }
{
    let mut sum = Poly::constant(alloc, 0)?;
    for (at, by) in parts {
        if let Some(row) = row_at(rows, *at) {
            sum = plus_multiple(alloc, &sum, row, by)?;
        }
    }
    Ok(sum)
}

/// The sum of the parts: of each row's polynomial times its multiplier, in order. None exactly
/// where a part is not lawful: where its row is missing or its number is not above that of the part
/// before, where an inequality has no positive multiplier or an equation the multiplier 0, and on
/// any disequality. That is seen before anything is multiplied. Large exactly where a multiple, or
/// the sum up to it, passes the limits.
pub fn combine_rows(
    alloc: Global,
    rows: &[Row],
    parts: &[(u32, i128)],
) -> Result<Option<Poly>, PolyEnd>
    ensures forms { Forms PolyEnd.Large result (parts_formed rows.now parts.now) }
    ensures holds { IfOk result (λ s. IfSome s
        (λ p. (a : ℕ → ℤ) → AllHold a rows.now → pos 0 ≤ℤ value a p)) }
{
    if !are_lawful_parts(rows, parts) {
        return Ok(None);
    }
    Ok(Some(sum_of_multiples(alloc, rows, parts)?))
}

/// The sum of the parts of the rows of a constraint, as `combine_rows` says.
pub fn combine(
    alloc: Global,
    rows: &Constraint,
    parts: &[(u32, i128)],
) -> Result<Option<Poly>, PolyEnd>
    ensures forms { Forms PolyEnd.Large result (parts_formed rows.now parts.now) }
    ensures holds { IfOk result (λ s. IfSome s
        (λ p. (a : ℕ → ℤ) → AllHold a rows.now → pos 0 ≤ℤ value a p)) }
{
    combine_rows(alloc, rows.rows(), parts)
}
