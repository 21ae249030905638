//! Remainder places: what the divisions at the places of a goal leave.
ghost use Rattle.std.specs.Prelude.{◌≡◌, ◌↔◌, ◌+◌, ◌-ℤ◌, ◌<◌, ◌^◌, [], ◌∷◌, length, pos, unsigned_abs, IsTrue, IfOk, OnOk};
ghost use Rattle.rx_plain.specs.Formed.{Forms, FormsAs};
ghost use Rattle.rx_row.specs.declared.row.Row.TheVariants.{Ge};
ghost use Rattle.rx_cert.specs.DivisionFacts.{greatest_remainder};
ghost use Rattle.rx_inference.specs.Pieces.{all_pushed};
ghost use Rattle.rx_relations.specs.Applying.{form_within};
ghost use Rattle.rx_shapes.specs.RemainderRows as rows_spec;
ghost use Rattle.rx_shapes.specs.Remainders as spec;

use crate::applying::form_within;
use crate::followed::Followed;
use crate::general::variables_from;
use crate::places::places_of;
use rx_plain::{Items, NoMemory};
use rx_poly::{Poly, PolyEnd};
use rx_relations::{Division, divisions_of};
use rx_row::{Constraint, Row};
use rx_term::Equation;
use std::alloc::{AllocError, Global};

/// At most as many places are added.
const MOST_REMAINDERS: usize = 2;

/// The divisions by numbers at the places of the goal, the first two of them.
pub(crate) fn place_divisions(alloc: Global, goal: &Equation) -> Result<Items<Division>, AllocError>
    ensures { IfOk result (λ ds. ds ≡ spec.place_divisions goal.now) }
{
    let places = places_of(alloc, goal)?;
    let mut divisions = divisions_of(alloc, places.as_slice())?;
    divisions.truncate(MOST_REMAINDERS);
    Ok(divisions)
}

/// What these divisions leave.
pub(crate) fn all_remainders(
    alloc: Global,
    divisions: &[Division],
) -> Result<Items<Poly>, AllocError>
    ensures { IfOk result (λ ps. ps ≡ spec.all_remainders divisions.now) }
{
    let mut made = Items::with_capacity(alloc, divisions.len())?;
    for division in divisions {
        made.push(division.remainder.try_clone(alloc)?)?;
    }
    Ok(made)
}

/// What stands at the remainder places of the goal: what is left by the first two divisions by
/// numbers at its places, those that are factors of their monomials, each once. Fails only where
/// there is no memory.
pub fn remainders_of(alloc: Global, goal: &Equation) -> Result<Items<Poly>, AllocError>
    ensures { IfOk result (λ ps. ps ≡ spec.remainders_of goal.now) }
{
    let divisions = place_divisions(alloc, goal)?;
    all_remainders(alloc, divisions.as_slice())
}

/// The size of the number, minus 1.
fn size_minus_one(number: &i128) -> i128
    ensures { result ≡ pos (unsigned_abs number.now) -ℤ pos 1 }
{
    if *number == i128::MIN {
        return i128::MAX;
    }
    number.abs() - 1
}

/// The size of the divisor, minus 1.
fn greatest(alloc: Global, divisor: &i128) -> Result<Poly, AllocError>
    ensures { IfOk result (λ p. p ≡ greatest_remainder divisor.now) }
{
    Poly::constant(alloc, size_minus_one(divisor))
}

/// The four in order.
fn four(
    alloc: Global,
    first: Poly,
    second: Poly,
    third: Poly,
    fourth: Poly,
) -> Result<Items<Row>, AllocError>
    ensures { IfOk result (λ rows. rows ≡ Ge first ∷ Ge second ∷ Ge third ∷ Ge fourth ∷ []) }
{
    let rows = vec![in alloc;
        Row::Ge(first),
        Row::Ge(second),
        Row::Ge(third),
        Row::Ge(fourth),
    ]?;
    Ok(Items::from_vec(rows))
}

/// The rows that may hold of a remainder: it is smaller in size than the divisor. Large
/// exactly where a polynomial of them passes the limits.
fn remainder_rows(alloc: Global, remainder: &Poly, divisor: &i128) -> Result<Items<Row>, PolyEnd>
    ensures { Forms PolyEnd.Large result (rows_spec.remainder_rows remainder.now divisor.now) }
{
    let most = greatest(alloc, divisor)?;
    let above = remainder.add(alloc, &most)?;
    let opposite = remainder.scale(alloc, -1)?;
    let below = opposite.add(alloc, &most)?;
    let copy = remainder.try_clone(alloc)?;
    Ok(four(alloc, copy, above, opposite, below)?)
}

/// Adds each of the rows, unless it stands there.
fn push_each(kept: &mut Constraint, rows: Items<Row>) -> Result<(), NoMemory>
    ensures { OnOk result (kept.new ≡ all_pushed kept.old rows) }
{
    for row in rows.into_vec() {
        kept.push(row)?;
    }
    Ok(())
}

/// Adds the rows of a remainder by that divisor at that place; Large exactly where a polynomial of
/// them passes the limits.
fn push_remainder(
    rows: &mut Constraint,
    alloc: Global,
    place: u32,
    divisor: &i128,
) -> Result<(), PolyEnd>
    ensures { FormsAs (λ _. rows.new) PolyEnd.Large result
        (rows_spec.with_remainder place rows.old divisor.now) }
{
    let variable = Poly::variable(alloc, place)?;
    let more = remainder_rows(alloc, &variable, divisor)?;
    push_each(rows, more).map_err(|_| PolyEnd::NoMemory)
}

/// The rows, and those of what these divisions leave at places numbered on from `first`; Large
/// exactly where a polynomial of them passes the limits.
fn with_remainders(
    alloc: Global,
    first: u32,
    rows: Constraint,
    divisions: &[Division],
) -> Result<Constraint, PolyEnd>
    requires few { first + length divisions.now < 2 ^ 32 }
    ensures { Forms PolyEnd.Large result (rows_spec.with_remainders first rows divisions.now) }
{
    let mut rows = rows;
    let mut place = first;
    for division in divisions {
        push_remainder(&mut rows, alloc, place, &division.divisor)?;
        place += 1;
    }
    Ok(rows)
}

/// The rows, and those of what these divisions leave at places numbered on from `first`; None
/// exactly where a polynomial of them passes the limits.
fn remainder_bounds(
    alloc: Global,
    first: u32,
    rows: Constraint,
    divisions: &[Division],
) -> Result<Option<Constraint>, NoMemory>
    requires few { first + length divisions.now < 2 ^ 32 }
    ensures { IfOk result (λ o. o ≡
        form_within (rows_spec.with_remainders first rows divisions.now)) }
{
    form_within(with_remainders(alloc, first, rows, divisions))
}

/// The shape with these remainder places.
fn opened(
    shape: Followed,
    remainders: Items<Poly>,
    variables: Items<Poly>,
    bounds: Constraint,
) -> Followed
    ensures { result ≡ record shape {
      remainders = remainders;
      variables = variables;
      bounds = bounds;
    } }
{
    Followed {
        remainders,
        variables,
        bounds,
        ..shape
    }
}

/// The shape of the goal, with remainder places for these divisions, from the place `first` on; None
/// exactly where a polynomial of the rows that may hold there passes the limits.
fn opened_at(
    alloc: Global,
    first: u32,
    shape: Followed,
    divisions: &[Division],
) -> Result<Option<Followed>, NoMemory>
    requires few { first + length divisions.now < 2 ^ 32 }
    ensures { IfOk result (λ o. o ≡ spec.opened_at first shape divisions.now) }
{
    let remainders = all_remainders(alloc, divisions)?;
    let variables = variables_from(alloc, first, remainders.as_slice())?;
    let bounds = shape.bounds.try_clone(alloc)?;
    match remainder_bounds(alloc, first, bounds, divisions)? {
        Some(rows) => Ok(Some(opened(shape, remainders, variables, rows))),
        None => Ok(None),
    }
}

/// Whether there are numbers for so many places, and for so many more.
fn has_room(count: usize, more: usize) -> bool
    ensures { IsTrue result ↔ (count + more < 2 ^ 32) }
{
    count < 1 << 32 && more < (1 << 32) - count
}

/// The shape of the goal, from which it is followed, with its remainder places; None exactly where
/// a polynomial of the rows that may hold there passes the limits.
pub(crate) fn with_remainder_places(
    alloc: Global,
    goal: &Equation,
    shape: Followed,
) -> Result<Option<Followed>, NoMemory>
    ensures { IfOk result (λ o. o ≡ spec.with_remainder_places goal.now shape) }
{
    let count = places_of(alloc, goal)?.len();
    let divisions = place_divisions(alloc, goal)?;
    if !has_room(count, divisions.len()) {
        return Err(NoMemory);
    }
    opened_at(alloc, count as u32, shape, divisions.as_slice())
}
