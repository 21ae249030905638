//! Steps on frames, and on parts that are replaced by results.
ghost use Rattle.std.specs.Prelude.{◌≡◌, ◌++◌, List, map, IfOk, OnOk};
ghost use Rattle.rx_plain.specs.Formed.{Formed, Forms};
ghost use Rattle.rx_row.specs.declared.row.Row.{Row};
ghost use Rattle.rx_term.specs.Stacks.{replace_at};
ghost use Rattle.rx_inference.specs.Forming.{Gives};
ghost use Rattle.rx_inference.specs.Kinds.{are_common, decomposed, resulting};
ghost use Rattle.rx_inference.specs.Making.{asking_formed, decomposed_by, failures, results_of, with_result, with_sides};

use crate::form_end::FormEnd;
use crate::formed_step::FormedStep;
use crate::pieces::{
    VARIABLE_LIMIT, asking, asking_for, equal_arguments, equal_lists, have_one_shape, limited,
};
use rx_plain::Items;
use rx_poly::{Poly, PolyEnd};
use rx_row::Row;
use rx_term::{Equation, Term};
use std::alloc::{AllocError, Global};

/// A goal of the two terms under the rows of another.
fn inner_goal(
    alloc: Global,
    goal: &Equation,
    left: &Term,
    right: &Term,
) -> Result<Equation, AllocError>
    ensures { IfOk result (λ e. e ≡ with_sides goal.now left.now right.now) }
{
    Ok(Equation {
        left: left.try_clone(alloc)?,
        right: right.try_clone(alloc)?,
        rows: goal.rows.try_clone(alloc)?,
    })
}

/// What decomposing makes of a goal whose sides are frames of one symbol over these terms, with
/// these polynomials: that the terms are equal.
fn decompose_by(
    alloc: Global,
    goal: &Equation,
    args: &[Poly],
    others: &[Poly],
    left: &Term,
    right: &Term,
) -> Result<FormedStep, PolyEnd>
    ensures forms { Forms PolyEnd.Large result
        (decomposed_by goal.now args.now others.now left.now right.now) }
{
    let rows = equal_lists(alloc, args, others)?;
    let made = inner_goal(alloc, goal, left, right)?;
    Ok(asking_for(alloc, rows, made)?)
}

/// What decomposing makes of the goal, whose sides are to be frames of one symbol.
pub(crate) fn decompose(alloc: Global, goal: &Equation) -> Result<FormedStep, FormEnd>
    ensures { Gives result (decomposed goal.now) }
{
    let Term::Frame(one, args, left) = &goal.left else {
        return Err(FormEnd::WrongShape);
    };
    let Term::Frame(other, others, right) = &goal.right else {
        return Err(FormEnd::WrongShape);
    };
    if one.0 != other.0 {
        return Err(FormEnd::WrongShape);
    }
    let (args, others) = (args.as_slice(), others.as_slice());
    limited(decompose_by(alloc, goal, args, others, left.get(), right.get()))
}

/// The term with another in place of a part; both are copied.
fn replaced(alloc: Global, term: &Term, place: u32, inner: &Term) -> Result<Term, AllocError>
    ensures { IfOk result (λ t. t ≡ replace_at place term.now inner.now) }
{
    let whole = term.try_clone(alloc)?;
    let inner = inner.try_clone(alloc)?;
    Ok(whole.replace(place, inner))
}

/// The goal with the result in place of both parts.
fn with_result(
    alloc: Global,
    goal: &Equation,
    left: u32,
    right: u32,
    end: &Term,
) -> Result<Equation, AllocError>
    ensures { IfOk result (λ e. e ≡ with_result goal.now left right end.now) }
{
    Ok(Equation {
        left: replaced(alloc, &goal.left, left, end)?,
        right: replaced(alloc, &goal.right, right, end)?,
        rows: goal.rows.try_clone(alloc)?,
    })
}

/// Adds the goal with each of n failures in place of both parts.
fn push_failures(
    goals: &mut Items<Equation>,
    alloc: Global,
    goal: &Equation,
    left: u32,
    right: u32,
    fails: u8,
) -> Result<(), AllocError>
    ensures { OnOk result (goals.new ≡ goals.old ++
        map (with_result goal.now left right) (failures fails)) }
{
    for before in 0..fails {
        let made = with_result(alloc, goal, left, right, &Term::Fail(before + 1))?;
        goals.push(made)?;
    }
    Ok(())
}

/// The goal with each result in place of both parts; the variable represents the integers.
fn goals_by_result(
    alloc: Global,
    goal: &Equation,
    left: u32,
    right: u32,
    fails: u8,
    fresh: u32,
) -> Result<Items<Equation>, AllocError>
    ensures { IfOk result (λ goals. goals ≡ map (with_result goal.now left right)
        (results_of fails fresh)) }
{
    let returned = Term::Return(Poly::variable(alloc, fresh)?);
    let mut goals = Items::new(alloc);
    goals.push(with_result(alloc, goal, left, right, &returned)?)?;
    push_failures(&mut goals, alloc, goal, left, right, fails)?;
    Ok(goals)
}

/// Whether the two parts at these places have one shape, which ends in a call, and aren't both
/// whole sides.
fn are_common(one: &Term, other: &Term, left: u32, right: u32) -> bool
    ensures { result ≡ are_common one.now other.now left right }
{
    have_one_shape(one, other) && one.ends_in_call() && !(left == 0 && right == 0)
}

/// New goals, where those rows are asked.
fn result_by(
    alloc: Global,
    rows: Result<Items<Row>, PolyEnd>,
    goals: Items<Equation>,
) -> Result<FormedStep, PolyEnd>
    ensures forms { (f : Formed (List Row)) → Forms PolyEnd.Large rows f →
        Forms PolyEnd.Large result (asking_formed f goals) }
{
    Ok(asking(alloc, rows?, goals)?)
}

/// Parts of both sides that are equal are replaced by each result.
pub(crate) fn replace_by_results(
    alloc: Global,
    fails: u8,
    goal: &Equation,
    left: u32,
    right: u32,
) -> Result<FormedStep, FormEnd>
    ensures { Gives result (resulting fails goal.now left right) }
{
    let Some(one) = goal.left.suffix(left) else {
        return Err(FormEnd::WrongShape);
    };
    let Some(other) = goal.right.suffix(right) else {
        return Err(FormEnd::WrongShape);
    };
    let fresh = goal.variable_bound();
    if !are_common(one, other, left, right) || fresh >= VARIABLE_LIMIT {
        return Err(FormEnd::WrongShape);
    }
    let goals = goals_by_result(alloc, goal, left, right, fails, fresh as u32)?;
    limited(result_by(alloc, equal_arguments(alloc, one, other), goals))
}
