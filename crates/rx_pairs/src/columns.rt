//! The rows that a column asks for at a pair.
ghost use Rattle.std.specs.Prelude.{◌≡◌, ◌∷◌, ◌++◌, []};
ghost use Rattle.std.specs.Option.{option_to_list};
ghost use Rattle.rx_plain.specs.Formed.{Forms, FormsAs};
ghost use Rattle.rx_pairs.specs.Columns.{at_left, at_right, falls_rows, holds_rows, is_below_zero, not_greater, one_less};

use crate::pair::Pair;
use rx_poly::{Poly, PolyEnd};
use rx_row::Row;
use std::alloc::Global;

/// Whether the polynomial is a number below 0.
fn is_below_zero(poly: &Poly) -> bool
    ensures { result ≡ is_below_zero poly.now }
{
    match poly.is_constant() {
        Some(number) => number < 0,
        None => false,
    }
}

/// The column's instance at the pair's arguments on the left. Large exactly where it passes the
/// limits.
pub fn on_left(alloc: Global, pair: &Pair, column: &Poly) -> Result<Poly, PolyEnd>
    ensures { Forms PolyEnd.Large result (at_left pair.now column.now) }
{
    column.at_args(alloc, pair.left_args.as_slice())
}

/// The column's instance at the pair's arguments on the right. Large exactly where it passes the
/// limits.
pub fn on_right(alloc: Global, pair: &Pair, column: &Poly) -> Result<Poly, PolyEnd>
    ensures { Forms PolyEnd.Large result (at_right pair.now column.now) }
{
    column.at_args(alloc, pair.right_args.as_slice())
}

/// The row that says that the column's value on the left is at least that of the instance on the
/// right.
fn difference_row(alloc: Global, pair: &Pair, column: &Poly, other: &Poly) -> Result<Row, PolyEnd>
    ensures { FormsAs (λ row. row ∷ []) PolyEnd.Large result
        (not_greater pair.now column.now other.now) }
{
    let instance = on_left(alloc, pair, column)?;
    let difference = instance.sub(alloc, other)?;
    Ok(Row::Ge(difference))
}

/// The row that says that the column's value doesn't rise at the pair; none where its instance on
/// the right, which is formed first, is a number below 0. Large exactly where what is formed passes
/// the limits.
pub fn hold_row(
    alloc: Global,
    pair: &Pair,
    left: &Poly,
    right: &Poly,
) -> Result<Option<Row>, PolyEnd>
    ensures { FormsAs (λ row. option_to_list row) PolyEnd.Large result
        (holds_rows pair.now left.now right.now) }
{
    let other = on_right(alloc, pair, right)?;
    if is_below_zero(&other) {
        return Ok(None);
    }
    let row = difference_row(alloc, pair, left, &other)?;
    Ok(Some(row))
}

/// The first less the second, less 1. Large exactly where a difference passes the limits.
pub fn one_less(alloc: Global, left: &Poly, right: &Poly) -> Result<Poly, PolyEnd>
    ensures { Forms PolyEnd.Large result (one_less left.now right.now) }
{
    let one = Poly::constant(alloc, 1)?;
    let difference = left.sub(alloc, right)?;
    difference.sub(alloc, &one)
}

/// The two rows that say that the column's value falls at the pair.
pub(crate) fn fall_rows(
    alloc: Global,
    pair: &Pair,
    left: &Poly,
    right: &Poly,
) -> Result<(Row, Row), PolyEnd>
    ensures { FormsAs (λ rows. rows.0 ∷ rows.1 ∷ []) PolyEnd.Large result
        (falls_rows pair.now left.now right.now) }
{
    let here = on_left(alloc, pair, left)?;
    let there = on_right(alloc, pair, right)?;
    let less = one_less(alloc, &here, &there)?;
    Ok((Row::Ge(here), Row::Ge(less)))
}
