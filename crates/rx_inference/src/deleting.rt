//! Steps on goals whose rows are contradictory, or whose sides have one shape.
ghost use Rattle.std.specs.Prelude.{◌≡◌, map, IfOk};
ghost use Rattle.rx_plain.specs.Formed.{Forms};
ghost use Rattle.rx_inference.specs.Forming.{Gives};
ghost use Rattle.rx_inference.specs.Kinds.{deleted, different, equated};
ghost use Rattle.rx_inference.specs.Making.{different_by, differing, equal_by};

use crate::form_end::FormEnd;
use crate::formed_step::{Asked, FormedStep};
use crate::pieces::{
    asking, asking_nothing, equal_arguments, have_one_shape, limited, term_differences, with_row,
};
use crate::step::Delete;
use rx_plain::Items;
use rx_poly::{Poly, PolyEnd};
use rx_row::Row;
use rx_term::Equation;
use std::alloc::{AllocError, Global};

/// What deleting makes of a goal whose sides are to be equal, polynomial by polynomial.
fn equal_by(alloc: Global, goal: &Equation) -> Result<FormedStep, PolyEnd>
    ensures forms { Forms PolyEnd.Large result (equal_by goal.now) }
{
    let rows = equal_arguments(alloc, &goal.left, &goal.right)?;
    Ok(asking(alloc, rows, Items::new(alloc))?)
}

/// Both sides of one shape are equal.
fn equate(alloc: Global, goal: &Equation) -> Result<FormedStep, FormEnd>
    ensures { Gives result (equated goal.now) }
{
    if !have_one_shape(&goal.left, &goal.right) {
        return Err(FormEnd::WrongShape);
    }
    limited(equal_by(alloc, goal))
}

/// The goal is left out.
pub(crate) fn delete(alloc: Global, goal: &Equation, by: &Delete) -> Result<FormedStep, FormEnd>
    ensures { Gives result (deleted goal.now by.now) }
{
    match by {
        Delete::Absurd(_) => Ok(FormedStep {
            asked: Asked::Refuted,
            goals: Items::new(alloc),
            kept: Items::new(alloc),
        }),
        Delete::Equal(_) => equate(alloc, goal),
    }
}

/// The goal, each time with one of the polynomials not 0.
fn differing_goals(
    alloc: Global,
    goal: &Equation,
    polys: Items<Poly>,
) -> Result<Items<Equation>, AllocError>
    ensures { IfOk result (λ goals. goals ≡ map (differing goal.now) polys) }
{
    let mut goals = Items::new(alloc);
    for poly in polys.into_vec() {
        let made = with_row(alloc, goal, Row::Ne(poly))?;
        goals.push(made)?;
    }
    Ok(goals)
}

/// One of the pairs of polynomials differs.
fn different_by(alloc: Global, goal: &Equation) -> Result<FormedStep, PolyEnd>
    ensures forms { Forms PolyEnd.Large result (different_by goal.now) }
{
    let polys = term_differences(alloc, &goal.left, &goal.right)?;
    let goals = differing_goals(alloc, goal, polys)?;
    Ok(asking_nothing(alloc, goals, Items::new(alloc)))
}

/// A goal remains for each pair of polynomials of both sides.
pub(crate) fn tell_apart(alloc: Global, goal: &Equation) -> Result<FormedStep, FormEnd>
    ensures { Gives result (different goal.now) }
{
    if !have_one_shape(&goal.left, &goal.right) {
        return Err(FormEnd::WrongShape);
    }
    limited(different_by(alloc, goal))
}
