//! Which shapes are followed.
ghost use Rattle.std.specs.Prelude.{◌≡◌, ◌<◌, ◌^◌, ◌↔◌, nat_le, length, IfOk, IfSome, IsTrue};
ghost use Rattle.std.specs.List.{find, list_all};
ghost use Rattle.std.specs.Option.{option_copied};
ghost use Rattle.rx_pairs.specs.Loops.{AreLoopsOf};
ghost use Rattle.rx_relations.specs.Applying.{form_within};
ghost use Rattle.rx_term.specs.Stacks.{depth_of};
ghost use Rattle.rx_shapes.specs.Candidates.{candidate_rows};
ghost use Rattle.rx_shapes.specs.Following as spec;
ghost use Rattle.rx_shapes.specs.Places as places;

use crate::aim::Aim;
use crate::applying::form_within;
use crate::bounds::candidate_rows;
use crate::followed::Followed;
use crate::general::{GeneralSides, general_sides};
use crate::inside::with_inside;
use crate::places::places_of;
use rx_inference::{Side, have_one_shape, side_of};
use rx_plain::{Items, NoMemory};
use rx_row::Constraint;
use rx_term::{Equation, Term};
use std::alloc::{AllocError, Global};

/// At most as many shapes are followed together.
const MOST_SHAPES: usize = 4;

/// The first of the shapes that the equation is of.
pub(crate) fn shape_of<'a>(shapes: &'a [Followed], equation: &Equation) -> Option<&'a Followed>
    ensures { option_copied result ≡ find (spec.is_of equation.now) shapes.now }
{
    for shape in shapes {
        if shape.has(equation) {
            return Some(shape);
        }
    }
    None
}

/// Whether the equation is of one of the shapes.
fn is_followed(shapes: &[Followed], equation: &Equation) -> bool
    ensures { result ≡ spec.is_followed shapes.now equation.now }
{
    for shape in shapes {
        if shape.has(equation) {
            return true;
        }
    }
    false
}

/// Those of the equations that are of one of the shapes.
pub(crate) fn followed_of(
    alloc: Global,
    shapes: &[Followed],
    equations: Items<Equation>,
) -> Result<Items<Equation>, AllocError>
    ensures { IfOk result (λ es. es ≡ spec.followed_of shapes.now equations) }
{
    let mut kept = Items::new(alloc);
    for equation in equations.into_vec() {
        if is_followed(shapes, &equation) {
            kept.push(equation)?;
        }
    }
    Ok(kept)
}

/// Whether the side has another shape than that of the goal.
fn has_left(goal: &Equation, equation: &Equation, side: Side) -> bool
    ensures { result ≡ spec.has_left goal.now equation.now side }
{
    !have_one_shape(side_of(goal, side), side_of(equation, side))
}

/// The sides of the plan that have another shape than those of the goal.
fn task_in(
    alloc: Global,
    plan: &[Side],
    goal: &Equation,
    equation: &Equation,
) -> Result<Items<Side>, AllocError>
    ensures { IfOk result (λ task. task ≡ spec.task_in plan.now goal.now equation.now) }
{
    let mut task = Items::new(alloc);
    for side in plan {
        if has_left(goal, equation, *side) {
            task.push(*side)?;
        }
    }
    Ok(task)
}

/// Whether the side has a redex.
fn has_redex(equation: &Equation, side: Side) -> bool
    ensures { result ≡ spec.has_redex equation.now side }
{
    !side_of(equation, side).is_result()
}

/// Whether all these sides have one.
fn have_redexes(equation: &Equation, task: &[Side]) -> bool
    ensures { result ≡ list_all (spec.has_redex equation.now) task.now }
{
    for side in task {
        if !has_redex(equation, *side) {
            return false;
        }
    }
    true
}

/// Whether the first term has no more frames than the second.
fn is_no_deeper(one: &Term, other: &Term) -> bool
    ensures { result ≡ nat_le (depth_of one.now) (depth_of other.now) }
{
    let mut here = one;
    let mut there = other;
    while let Term::Frame(_, _, inner) = here {
        let Term::Frame(_, _, below) = there else {
            return false;
        };
        here = inner.get();
        there = below.get();
    }
    true
}

/// Whether neither side of the equation has more frames than that of the goal.
fn is_as_shallow(goal: &Equation, equation: &Equation) -> bool
    ensures { result ≡ spec.is_as_shallow goal.now equation.now }
{
    is_no_deeper(&equation.left, &goal.left) && is_no_deeper(&equation.right, &goal.right)
}

/// Whether the shape of the equation may be followed with that task.
fn may_follow(task: &[Side], goal: &Equation, equation: &Equation) -> bool
    ensures { result ≡ spec.may_follow task.now goal.now equation.now }
{
    !task.is_empty() && have_redexes(equation, task) && is_as_shallow(goal, equation)
}

/// Whether the equation has fewer than 2^32 places.
pub(crate) fn has_few_places(alloc: Global, equation: &Equation) -> Result<bool, AllocError>
    ensures { IfOk result (λ b. IsTrue b ↔ (length (places.places_of equation.now) < 2 ^ 32)) }
{
    let places = places_of(alloc, equation)?;
    Ok((places.len() as u64) < (1 << 32))
}

/// The shape of the equation, without a goal.
fn shape_with(
    alloc: Global,
    equation: &Equation,
    task: Items<Side>,
    rows: Constraint,
) -> Result<Followed, AllocError>
    requires few { length (places.places_of equation.now) < 2 ^ 32 }
    ensures { IfOk result (λ f. f ≡ spec.shape_with equation.now task rows) }
{
    let GeneralSides { left, right } = general_sides(alloc, equation)?;
    Ok(Followed {
        general: Equation {
            left,
            right,
            rows: Constraint::from_rows(Vec::new(alloc)),
        },
        task,
        remainders: Items::new(alloc),
        variables: Items::new(alloc),
        inside: Items::new(alloc),
        bounds: rows,
        goals: Items::new(alloc),
        values: Items::new(alloc),
    })
}

/// The candidates of the equation; None exactly where a polynomial of them passes the limits.
fn candidates(
    alloc: Global,
    aim: &Aim<'_>,
    equation: &Equation,
) -> Result<Option<Constraint>, NoMemory>
    requires loops { AreLoopsOf aim.now.rules.now aim.now.loops.now }
    requires few { length (places.places_of equation.now) < 2 ^ 32 }
    ensures { IfOk result (λ o. o ≡
        form_within (candidate_rows aim.now.rules.now equation.now)) }
{
    form_within(candidate_rows(alloc, aim.rules, aim.loops, equation))
}

/// The shape of the equation, from which on it is followed with that task; None exactly where a
/// polynomial of its candidates passes the limits.
pub(crate) fn followed_from(
    alloc: Global,
    aim: &Aim<'_>,
    task: Items<Side>,
    equation: &Equation,
) -> Result<Option<Followed>, NoMemory>
    requires loops { AreLoopsOf aim.now.rules.now aim.now.loops.now }
    ensures { IfOk result (λ o. o ≡ spec.followed_from aim.now.rules.now task equation.now) }
{
    if !has_few_places(alloc, equation)? {
        return Err(NoMemory);
    }
    match candidates(alloc, aim, equation)? {
        Some(rows) => Ok(Some(shape_with(alloc, equation, task, rows)?)),
        None => Ok(None),
    }
}

/// The same with the rows that put its general sides inside the domains; None exactly where a
/// polynomial of these or of its candidates passes the limits.
fn followed_inside(
    alloc: Global,
    aim: &Aim<'_>,
    task: Items<Side>,
    equation: &Equation,
) -> Result<Option<Followed>, NoMemory>
    requires loops { AreLoopsOf aim.now.rules.now aim.now.loops.now }
    ensures { IfOk result (λ o. o ≡ spec.followed_inside aim.now.rules.now task equation.now) }
{
    match followed_from(alloc, aim, task, equation)? {
        Some(shape) => with_inside(alloc, aim.rules, shape),
        None => Ok(None),
    }
}

/// The shapes, and that of the equation after them; None exactly where a polynomial of its bounds
/// passes the limits.
fn follow_further(
    alloc: Global,
    aim: &Aim<'_>,
    shapes: Items<Followed>,
    task: Items<Side>,
    equation: &Equation,
) -> Result<Option<Items<Followed>>, NoMemory>
    requires loops { AreLoopsOf aim.now.rules.now aim.now.loops.now }
    ensures { IfOk result (λ o. task ≡ spec.task_in aim.now.plan.now aim.now.goal.now equation.now →
        o ≡ spec.follow_further aim.now.rules.now aim.now.plan.now aim.now.goal.now shapes
        equation.now) }
{
    match followed_inside(alloc, aim, task, equation)? {
        Some(shape) => {
            let mut shapes = shapes;
            shapes.push(shape)?;
            Ok(Some(shapes))
        }
        None => Ok(None),
    }
}

/// The shapes with that of the equation, if it is new and may be followed; None exactly where a
/// polynomial of its bounds passes the limits then.
fn follow(
    alloc: Global,
    aim: &Aim<'_>,
    shapes: Items<Followed>,
    equation: &Equation,
) -> Result<Option<Items<Followed>>, NoMemory>
    requires loops { AreLoopsOf aim.now.rules.now aim.now.loops.now }
    ensures { IfOk result (λ o. o ≡ spec.follow aim.now.rules.now aim.now.plan.now aim.now.goal.now
        shapes equation.now) }
{
    if is_followed(shapes.as_slice(), equation) || shapes.len() >= MOST_SHAPES {
        return Ok(Some(shapes));
    }
    let task = task_in(alloc, aim.plan, aim.goal, equation)?;
    if !may_follow(task.as_slice(), aim.goal, equation) {
        return Ok(Some(shapes));
    }
    follow_further(alloc, aim, shapes, task, equation)
}

/// The shapes with those of the equations that are new and may be followed, in order; None exactly
/// where a polynomial of a bound passes the limits.
pub(crate) fn follow_all(
    alloc: Global,
    aim: &Aim<'_>,
    shapes: Items<Followed>,
    equations: &[Equation],
) -> Result<Option<Items<Followed>>, NoMemory>
    requires loops { AreLoopsOf aim.now.rules.now aim.now.loops.now }
    ensures { IfOk result (λ o. o ≡ spec.follow_all aim.now.rules.now aim.now.plan.now
        aim.now.goal.now shapes equations.now) }
{
    let mut shapes = shapes;
    for equation in equations {
        match follow(alloc, aim, shapes, equation)? {
            Some(more) => shapes = more,
            None => return Ok(None),
        }
    }
    Ok(Some(shapes))
}
