//! Rows that may hold at all goals of a shape, since they hold at the first one.
ghost use Rattle.std.specs.Prelude.{◌≡◌, ◌<◌, ◌^◌, [], length, IfOk, OnOk};
ghost use Rattle.std.specs.List.{list_all};
ghost use Rattle.rx_plain.specs.Formed.{Forms, FormsAs, fold_formed};
ghost use Rattle.rx_poly.specs.Variables.{is_one_of};
ghost use Rattle.rx_lemma.specs.Calls.{lone_variable};
ghost use Rattle.rx_shapes.specs.GoalBounds as spec;
ghost use Rattle.rx_shapes.specs.Places as places;

use crate::places::places_of;
use rx_plain::Items;
use rx_poly::{Poly, PolyEnd};
use rx_poly_laws::variables_of;
use rx_row::Row;
use rx_term::Equation;
use std::alloc::{AllocError, Global};

/// Whether the variable has a place.
fn is_placed(placed: &[(u32, Poly)], variable: u32) -> bool
    ensures { result ≡ is_one_of variable (spec.placed placed.now) }
{
    for (other, _) in placed {
        if *other == variable {
            return true;
        }
    }
    false
}

/// Adds the variable with that of the place, unless it has an earlier one.
fn put_place(
    placed: &mut Vec<(u32, Poly)>,
    alloc: Global,
    place: u32,
    variable: Option<u32>,
) -> Result<(), AllocError>
    ensures { OnOk result (placed.new.items ≡ spec.with_place place placed.old.items variable) }
{
    if let Some(variable) = variable {
        if !is_placed(placed.as_slice(), variable) {
            placed.push((variable, Poly::variable(alloc, place)?))?;
        }
    }
    Ok(())
}

/// Each variable that is alone at one of these places, with the variable of its first place.
fn first_places(alloc: Global, polys: &[Poly]) -> Result<Vec<(u32, Poly)>, AllocError>
    requires few { length polys.now < 2 ^ 32 }
    ensures { IfOk result (λ ws. ws.items ≡ spec.places_from 0 [] polys.now) }
{
    let mut placed = Vec::new(alloc);
    for (place, poly) in polys.iter().enumerate() {
        put_place(&mut placed, alloc, place as u32, poly.as_variable())?;
    }
    Ok(placed)
}

/// Whether all these variables have a place.
fn are_placed(placed: &[(u32, Poly)], variables: &[u32]) -> bool
    ensures { result ≡ list_all (λ v. is_one_of v (spec.placed placed.now)) variables.now }
{
    for variable in variables {
        if !is_placed(placed, *variable) {
            return false;
        }
    }
    true
}

/// Whether the row is no equation, and all its variables have a place.
fn is_of_places(alloc: Global, placed: &[(u32, Poly)], row: &Row) -> Result<bool, AllocError>
    ensures { IfOk result (λ b. b ≡ spec.is_of_places placed.now row.now) }
{
    if matches!(row, Row::Eq(_)) {
        return Ok(false);
    }
    let variables = variables_of(alloc, row.poly())?;
    Ok(are_placed(placed, variables.as_slice()))
}

/// Adds the row, said of the places, where it is of these.
fn push_bound(
    rows: &mut Items<Row>,
    alloc: Global,
    placed: &[(u32, Poly)],
    row: &Row,
) -> Result<(), PolyEnd>
    ensures { FormsAs (λ _. rows.new) PolyEnd.Large result
        (spec.with_bound placed.now rows.old row.now) }
{
    if is_of_places(alloc, placed, row)? {
        rows.push(row.subst(alloc, placed)?)?;
    }
    Ok(())
}

/// Adds those of these rows that are of the places, said of these.
fn push_bounds(
    rows: &mut Items<Row>,
    alloc: Global,
    placed: &[(u32, Poly)],
    held: &[Row],
) -> Result<(), PolyEnd>
    ensures { FormsAs (λ _. rows.new) PolyEnd.Large result
        (fold_formed (spec.with_bound placed.now) rows.old held.now) }
{
    for row in held {
        push_bound(rows, alloc, placed, row)?;
    }
    Ok(())
}

/// The inequalities and disequalities of the goal that speak of nothing but variables that stand
/// alone at places of it, said of the first such place of each. Large exactly where a polynomial of
/// them passes the limits.
pub fn goal_bounds(alloc: Global, goal: &Equation) -> Result<Items<Row>, PolyEnd>
    requires few { length (places.places_of goal.now) < 2 ^ 32 }
    ensures { Forms PolyEnd.Large result (spec.goal_bounds goal.now) }
{
    let polys = places_of(alloc, goal)?;
    let placed = first_places(alloc, polys.as_slice())?;
    let mut rows = Items::new(alloc);
    push_bounds(&mut rows, alloc, placed.as_slice(), goal.rows.rows())?;
    Ok(rows)
}
