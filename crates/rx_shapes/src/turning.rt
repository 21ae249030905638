//! Turns: what comes of general equations is added where it doesn't show their rows.
ghost use Rattle.std.specs.Prelude.{◌≡◌, IfOk};
ghost use Rattle.std.specs.List.{list_any};
ghost use Rattle.std.specs.Option.{option_copied};
ghost use Rattle.rx_pairs.specs.Loops.{AreLoopsOf};
ghost use Rattle.rx_shapes.specs.Kept as spec;

use crate::aim::Aim;
use crate::explores::Explores;
use crate::followed::Followed;
use crate::following::{follow_all, followed_of, shape_of};
use crate::offering::{Turn, met_all};
use rx_plain::{Items, NoMemory};
use rx_term::Equation;
use std::alloc::Global;

/// At most as many turns are made.
const MOST_TURNS: u32 = 8;

/// What comes of the general equation of the shape, if it has a goal.
fn unfolded<E: Explores>(
    alloc: Global,
    explores: &mut E,
    shape: Option<&Followed>,
) -> Result<Option<Items<Equation>>, NoMemory>
    requires ready { E.ready explores.old }
    ensures ready { E.ready explores.new }
    ensures world { E.world explores.new ≡ E.world explores.old }
    ensures exact { IfOk result (λ o. o ≡
        spec.unfolded (E.found (E.world explores.old)) (option_copied shape.entry)) }
{
    match shape {
        Some(shape) if !shape.goals.is_empty() => {
            explores.descendants(shape.task.as_slice(), &shape.general)
        }
        _ => Ok(Some(Items::new(alloc))),
    }
}

/// Whether the shape has remainder places.
fn has_places(shape: Option<&Followed>) -> bool
    ensures { result ≡ spec.has_places (option_copied shape.entry) }
{
    match shape {
        Some(shape) => !shape.remainders.is_empty(),
        None => false,
    }
}

/// Whether the equation is of such a shape.
fn has_remainders(shapes: &[Followed], equation: &Equation) -> bool
    ensures { result ≡ spec.has_remainders shapes.now equation.now }
{
    has_places(shape_of(shapes, equation))
}

/// Whether one of the equations is.
fn have_remainders(shapes: &[Followed], equations: &[Equation]) -> bool
    ensures { result ≡ list_any (spec.has_remainders shapes.now) equations.now }
{
    for equation in equations {
        if has_remainders(shapes, equation) {
            return true;
        }
    }
    false
}

/// Whether one of the equations, which came of the shape at that place, is of another shape, which
/// has remainder places.
fn come_from_elsewhere(at: usize, shapes: &[Followed], equations: &[Equation]) -> bool
    ensures { result ≡ spec.come_from_elsewhere at shapes.now equations.now }
{
    at > 0 && have_remainders(shapes, equations)
}

/// The shapes with those of these equations, which came of the shape at that place, once each of
/// these was offered to them; None where something passes the limits, or one comes from elsewhere.
fn reached<E: Explores>(
    alloc: Global,
    aim: &Aim<'_>,
    explores: &mut E,
    at: usize,
    turn: Turn,
    equations: Items<Equation>,
) -> Result<Option<Turn>, NoMemory>
    requires ready { E.ready explores.old }
    requires loops { AreLoopsOf aim.now.rules.now aim.now.loops.now }
    ensures ready { E.ready explores.new }
    ensures world { E.world explores.new ≡ E.world explores.old }
    ensures exact { IfOk result (λ o. o ≡ spec.reached aim.now.rules.now aim.now.plan.now
        aim.now.goal.now at turn equations) }
{
    let Turn { shapes, grown } = turn;
    let Some(shapes) = follow_all(alloc, aim, shapes, equations.as_slice())? else {
        return Ok(None);
    };
    if come_from_elsewhere(at, shapes.as_slice(), equations.as_slice()) {
        return Ok(None);
    }
    let equations = followed_of(alloc, shapes.as_slice(), equations)?;
    met_all(alloc, explores, Turn { shapes, grown }, equations)
}

/// The turn, once what comes of the general equation of the shape at that place was offered.
fn turned_at<E: Explores>(
    alloc: Global,
    aim: &Aim<'_>,
    explores: &mut E,
    turn: Turn,
    at: usize,
) -> Result<Option<Turn>, NoMemory>
    requires ready { E.ready explores.old }
    requires loops { AreLoopsOf aim.now.rules.now aim.now.loops.now }
    ensures ready { E.ready explores.new }
    ensures world { E.world explores.new ≡ E.world explores.old }
    ensures exact { IfOk result (λ o. o ≡ spec.turned_at aim.now.rules.now
        (E.found (E.world explores.old)) aim.now.plan.now aim.now.goal.now turn at) }
{
    match unfolded(alloc, explores, turn.shapes.as_slice().get(at))? {
        Some(equations) => reached(alloc, aim, explores, at, turn, equations),
        None => Ok(None),
    }
}

/// A turn: what comes of the general equation of each of the shapes, in order, is offered.
fn turned<E: Explores>(
    alloc: Global,
    aim: &Aim<'_>,
    explores: &mut E,
    shapes: Items<Followed>,
) -> Result<Option<Turn>, NoMemory>
    requires ready { E.ready explores.old }
    requires loops { AreLoopsOf aim.now.rules.now aim.now.loops.now }
    ensures ready { E.ready explores.new }
    ensures world { E.world explores.new ≡ E.world explores.old }
    ensures exact { IfOk result (λ o. o ≡ spec.turned aim.now.rules.now
        (E.found (E.world explores.old)) aim.now.plan.now aim.now.goal.now shapes) }
{
    let count = shapes.len();
    let mut turn = Turn {
        shapes,
        grown: false,
    };
    for at in 0..count {
        match turned_at(alloc, aim, explores, turn, at)? {
            Some(next) => turn = next,
            None => return Ok(None),
        }
    }
    Ok(Some(turn))
}

/// A copy of the general equation of the first shape, if there is one.
fn first_equation(alloc: Global, shapes: &[Followed]) -> Result<Option<Equation>, NoMemory>
    ensures { IfOk result (λ o. o ≡ spec.first_equation shapes.now) }
{
    match shapes.first() {
        Some(shape) => Ok(Some(shape.general.try_clone(alloc)?)),
        None => Ok(None),
    }
}

/// Turns, at most eight, up to the first in which no goal is added: the general equation of the
/// first shape then.
pub(crate) fn turns<E: Explores>(
    alloc: Global,
    aim: &Aim<'_>,
    explores: &mut E,
    shapes: Items<Followed>,
) -> Result<Option<Equation>, NoMemory>
    requires ready { E.ready explores.old }
    requires loops { AreLoopsOf aim.now.rules.now aim.now.loops.now }
    ensures ready { E.ready explores.new }
    ensures world { E.world explores.new ≡ E.world explores.old }
    ensures exact { IfOk result (λ o. o ≡ spec.turns aim.now.rules.now
        (E.found (E.world explores.old)) aim.now.plan.now aim.now.goal.now spec.most_turns
        shapes) }
{
    let mut shapes = shapes;
    let mut left = MOST_TURNS;
    while left > 0 {
        match turned(alloc, aim, explores, shapes)? {
            Some(turn) if turn.grown => shapes = turn.shapes,
            Some(turn) => return first_equation(alloc, turn.shapes.as_slice()),
            None => return Ok(None),
        }
        left -= 1;
    }
    Ok(None)
}
