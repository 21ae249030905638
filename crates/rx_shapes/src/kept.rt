//! The equation that two sides keep.
ghost use Rattle.std.specs.Prelude.{◌≡◌, IfOk};
ghost use Rattle.rx_pairs.specs.Loops.{AreLoopsOf};
ghost use Rattle.rx_shapes.specs.Kept as spec;

use crate::aim::Aim;
use crate::explores::Explores;
use crate::followed::Followed;
use crate::following::followed_from;
use crate::gathering::{Gathering, gather_times};
use crate::generalising::all_generalised;
use crate::goals::put;
use crate::inside::with_inside;
use crate::remaining::with_remainder_places;
use crate::turning::turns;
use rx_inference::Side;
use rx_pairs::Loops;
use rx_plain::{Items, NoMemory};
use rx_term::{Equation, RuleSet};
use std::alloc::Global;

/// At most as many goals are added to the first one before general equations are unfolded.
const MOST_OTHERS: usize = 9;

/// The goals, where the goal was added to these shapes first.
fn gathering_from(
    alloc: Global,
    goal: &Equation,
    shapes: Items<Followed>,
) -> Result<Gathering, NoMemory>
    ensures { IfOk result (λ g. g ≡ spec.gathering_from goal.now shapes) }
{
    let mut last = Items::new(alloc);
    last.push(goal.try_clone(alloc)?)?;
    Ok(Gathering {
        shapes,
        last,
        room: MOST_OTHERS,
    })
}

/// The shape of the goal, with remainder places; None exactly where a polynomial of its bounds passes
/// the limits.
fn followed_first(alloc: Global, aim: &Aim<'_>) -> Result<Option<Followed>, NoMemory>
    requires loops { AreLoopsOf aim.now.rules.now aim.now.loops.now }
    ensures { IfOk result (λ o. o ≡
        spec.followed_first aim.now.rules.now aim.now.plan.now aim.now.goal.now) }
{
    let task = Items::from_slice(alloc, aim.plan)?;
    let Some(shape) = followed_from(alloc, aim, task, aim.goal)? else {
        return Ok(None);
    };
    match with_remainder_places(alloc, aim.goal, shape)? {
        Some(shape) => with_inside(alloc, aim.rules, shape),
        None => Ok(None),
    }
}

/// The goal alone, as the first one of its shape; None exactly where something passes the limits.
fn begin(alloc: Global, aim: &Aim<'_>) -> Result<Option<Gathering>, NoMemory>
    requires loops { AreLoopsOf aim.now.rules.now aim.now.loops.now }
    ensures { IfOk result (λ o. o ≡
        spec.begun aim.now.rules.now aim.now.plan.now aim.now.goal.now) }
{
    let Some(shape) = followed_first(alloc, aim)? else {
        return Ok(None);
    };
    let mut shapes = Items::new(alloc);
    shapes.push(shape)?;
    match put(alloc, shapes, aim.goal)? {
        Some(shapes) => Ok(Some(gathering_from(alloc, aim.goal, shapes)?)),
        None => Ok(None),
    }
}

/// The equation that the sides of the plan keep when they are unfolded in the goal, side by side:
/// an equation of the goal's shape, whose rows are shown again at each goal that comes of it. None
/// where none is found, also where a polynomial passes the limits. Fails only where there is no
/// memory.
pub fn kept_equation<E: Explores>(
    alloc: Global,
    rules: &RuleSet,
    loops: &Loops,
    explores: &mut E,
    plan: &[Side],
    goal: &Equation,
) -> Result<Option<Equation>, NoMemory>
    requires ready { E.ready explores.old }
    requires loops { AreLoopsOf rules.now loops.now }
    ensures ready { E.ready explores.new }
    ensures world { E.world explores.new ≡ E.world explores.old }
    ensures exact { IfOk result (λ o. o ≡
        spec.kept rules.now (E.found (E.world explores.old)) plan.now goal.now) }
{
    let aim = Aim {
        rules,
        loops,
        plan,
        goal,
    };
    let Some(first) = begin(alloc, &aim)? else {
        return Ok(None);
    };
    let Some(all) = gather_times(alloc, &aim, explores, first)? else {
        return Ok(None);
    };
    let Some(shapes) = all_generalised(alloc, explores, all.shapes)? else {
        return Ok(None);
    };
    turns(alloc, &aim, explores, shapes)
}
