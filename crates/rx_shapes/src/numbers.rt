//! Rows that may hold at all goals of a shape, since places are numbers at some of them.
ghost use Rattle.std.specs.Prelude.{◌≡◌, IfOk};
ghost use Rattle.rx_plain.specs.Formed.{Forms, FormsAs};
ghost use Rattle.rx_relations.specs.Applying.{form_within};
ghost use Rattle.rx_shapes.specs.Numbers as spec;

use crate::applying::form_within;
use rx_plain::NoMemory;
use rx_poly::{Poly, PolyEnd};
use rx_relations::Instance;
use rx_row::{Constraint, Row};
use std::alloc::Global;

/// Adds that the place is at least the number, if there is one; Large exactly where their difference
/// passes the limits.
fn push_number(
    rows: &mut Constraint,
    alloc: Global,
    place: u32,
    number: Option<i128>,
) -> Result<(), PolyEnd>
    ensures { FormsAs (λ _. rows.new) PolyEnd.Large result
        (spec.with_number place rows.old number) }
{
    let Some(number) = number else {
        return Ok(());
    };
    let variable = Poly::variable(alloc, place)?;
    let least = Poly::constant(alloc, number)?;
    let above = variable.sub(alloc, &least)?;
    rows.push(Row::Ge(above)).map_err(|_| PolyEnd::NoMemory)
}

/// Adds what the values say that are numbers; Large exactly where a difference passes the limits.
fn push_numbers(rows: &mut Constraint, alloc: Global, values: &[Poly]) -> Result<(), PolyEnd>
    ensures { FormsAs (λ _. rows.new) PolyEnd.Large result
        (spec.with_numbers 0 rows.old values.now) }
{
    for (place, value) in values.iter().enumerate() {
        if place as u64 >= 1 << 32 {
            return Err(PolyEnd::NoMemory);
        }
        push_number(rows, alloc, place as u32, value.is_constant())?;
    }
    Ok(())
}

/// Adds what the first values of the goal, so many, say that are numbers; Large exactly where a
/// difference passes the limits.
fn push_goal(
    rows: &mut Constraint,
    alloc: Global,
    count: usize,
    goal: &Instance,
) -> Result<(), PolyEnd>
    ensures { FormsAs (λ _. rows.new) PolyEnd.Large result
        (spec.with_goal_numbers count rows.old goal.now) }
{
    let (first, _) = goal
        .values
        .as_slice()
        .split_at(count.min(goal.values.len()));
    push_numbers(rows, alloc, first)
}

/// The rows, and what the first values of each goal, so many, say that are numbers; Large exactly
/// where a difference passes the limits.
fn formed_bounds(
    alloc: Global,
    count: usize,
    rows: Constraint,
    goals: &[Instance],
) -> Result<Constraint, PolyEnd>
    ensures { Forms PolyEnd.Large result (spec.number_bounds count rows goals.now) }
{
    let mut rows = rows;
    for goal in goals {
        push_goal(&mut rows, alloc, count, goal)?;
    }
    Ok(rows)
}

/// The rows, and that each of the first places, so many, is at least what it is at each of these
/// goals, where it is a number there. None exactly where a difference passes the limits.
pub(crate) fn number_bounds(
    alloc: Global,
    count: usize,
    rows: Constraint,
    goals: &[Instance],
) -> Result<Option<Constraint>, NoMemory>
    ensures { IfOk result (λ o. o ≡ form_within (spec.number_bounds count rows goals.now)) }
{
    form_within(formed_bounds(alloc, count, rows, goals))
}
