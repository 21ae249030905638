//! The goals at first: those that come of others, as they are.
ghost use Rattle.std.specs.Prelude.{◌≡◌, IfOk};
ghost use Rattle.std.specs.Option.{option_copied};
ghost use Rattle.rx_pairs.specs.Loops.{AreLoopsOf};
ghost use Rattle.rx_shapes.specs.Kept as spec;

use crate::aim::Aim;
use crate::explores::Explores;
use crate::followed::Followed;
use crate::following::{follow_all, followed_of, shape_of};
use crate::goals::put_all;
use rx_plain::{Items, NoMemory};
use rx_term::Equation;
use std::alloc::Global;

/// How often what comes of goals is added to them.
const MOST_TIMES: u32 = 4;

/// The goals so far, as they are gathered.
#[derive(Drop)]
pub(crate) struct Gathering {
    /// The followed shapes, with their goals.
    pub(crate) shapes: Items<Followed>,
    /// The goals that were added last.
    pub(crate) last: Items<Equation>,
    /// How many more may be added.
    pub(crate) room: usize,
}

/// What comes of the equation under the task of the shape; without a shape nothing does.
fn descended_in<E: Explores>(
    alloc: Global,
    explores: &mut E,
    shape: Option<&Followed>,
    equation: &Equation,
) -> Result<Option<Items<Equation>>, NoMemory>
    requires ready { E.ready explores.old }
    ensures ready { E.ready explores.new }
    ensures world { E.world explores.new ≡ E.world explores.old }
    ensures exact { IfOk result (λ o. o ≡ spec.descended_in
        (E.found (E.world explores.old)) (option_copied shape.entry) equation.now) }
{
    match shape {
        Some(shape) => explores.descendants(shape.task.as_slice(), equation),
        None => Ok(Some(Items::new(alloc))),
    }
}

/// The equations found, and then what comes of this one under the task of its shape.
fn descended<E: Explores>(
    alloc: Global,
    explores: &mut E,
    shapes: &[Followed],
    found: Items<Equation>,
    equation: &Equation,
) -> Result<Option<Items<Equation>>, NoMemory>
    requires ready { E.ready explores.old }
    ensures ready { E.ready explores.new }
    ensures world { E.world explores.new ≡ E.world explores.old }
    ensures exact { IfOk result (λ o. o ≡ spec.descended
        (E.found (E.world explores.old)) shapes.now found equation.now) }
{
    match descended_in(alloc, explores, shape_of(shapes, equation), equation)? {
        Some(more) => {
            let mut all = found;
            all.append(more)?;
            Ok(Some(all))
        }
        None => Ok(None),
    }
}

/// What comes of each of the equations under the task of its shape.
fn descended_all<E: Explores>(
    alloc: Global,
    explores: &mut E,
    shapes: &[Followed],
    equations: &[Equation],
) -> Result<Option<Items<Equation>>, NoMemory>
    requires ready { E.ready explores.old }
    ensures ready { E.ready explores.new }
    ensures world { E.world explores.new ≡ E.world explores.old }
    ensures exact { IfOk result (λ o. o ≡ spec.descended_all
        (E.found (E.world explores.old)) shapes.now equations.now) }
{
    let mut found = Items::new(alloc);
    for equation in equations {
        match descended(alloc, explores, shapes, found, equation)? {
            Some(more) => found = more,
            None => return Ok(None),
        }
    }
    Ok(Some(found))
}

/// The shapes with these goals, all or none of them, as there is room; None exactly where a value of
/// one passes the limits.
fn gathered(
    alloc: Global,
    room: usize,
    shapes: Items<Followed>,
    equations: Items<Equation>,
) -> Result<Option<Gathering>, NoMemory>
    ensures { IfOk result (λ o. o ≡ spec.gathered room shapes equations) }
{
    if equations.len() > room {
        return Ok(Some(Gathering {
            shapes,
            last: Items::new(alloc),
            room,
        }));
    }
    let room = room - equations.len();
    match put_all(alloc, shapes, equations.as_slice())? {
        Some(shapes) => Ok(Some(Gathering {
            shapes,
            last: equations,
            room,
        })),
        None => Ok(None),
    }
}

/// The shapes with those of these equations, which are their goals too, as there is room; None where
/// something passes the limits.
fn gather_found(
    alloc: Global,
    aim: &Aim<'_>,
    room: usize,
    shapes: Items<Followed>,
    found: Items<Equation>,
) -> Result<Option<Gathering>, NoMemory>
    requires loops { AreLoopsOf aim.now.rules.now aim.now.loops.now }
    ensures { IfOk result (λ o. o ≡ spec.gathered_of aim.now.rules.now aim.now.plan.now
        aim.now.goal.now room shapes found) }
{
    match follow_all(alloc, aim, shapes, found.as_slice())? {
        Some(shapes) => {
            let equations = followed_of(alloc, shapes.as_slice(), found)?;
            gathered(alloc, room, shapes, equations)
        }
        None => Ok(None),
    }
}

/// The goals, and those that come of what was added last, as there is room.
fn gather<E: Explores>(
    alloc: Global,
    aim: &Aim<'_>,
    explores: &mut E,
    so_far: Gathering,
) -> Result<Option<Gathering>, NoMemory>
    requires ready { E.ready explores.old }
    requires loops { AreLoopsOf aim.now.rules.now aim.now.loops.now }
    ensures ready { E.ready explores.new }
    ensures world { E.world explores.new ≡ E.world explores.old }
    ensures exact { IfOk result (λ o. o ≡ spec.gather aim.now.rules.now
        (E.found (E.world explores.old)) aim.now.plan.now aim.now.goal.now so_far) }
{
    let Gathering { shapes, last, room } = so_far;
    match descended_all(alloc, explores, shapes.as_slice(), last.as_slice())? {
        Some(found) => gather_found(alloc, aim, room, shapes, found),
        None => Ok(None),
    }
}

/// So four times.
pub(crate) fn gather_times<E: Explores>(
    alloc: Global,
    aim: &Aim<'_>,
    explores: &mut E,
    so_far: Gathering,
) -> Result<Option<Gathering>, NoMemory>
    requires ready { E.ready explores.old }
    requires loops { AreLoopsOf aim.now.rules.now aim.now.loops.now }
    ensures ready { E.ready explores.new }
    ensures world { E.world explores.new ≡ E.world explores.old }
    ensures exact { IfOk result (λ o. o ≡ spec.gather_times aim.now.rules.now
        (E.found (E.world explores.old)) aim.now.plan.now aim.now.goal.now spec.most_times
        so_far) }
{
    let mut so_far = so_far;
    let mut left = MOST_TIMES;
    while left > 0 {
        match gather(alloc, aim, explores, so_far)? {
            Some(next) => so_far = next,
            None => return Ok(None),
        }
        left -= 1;
    }
    Ok(Some(so_far))
}
