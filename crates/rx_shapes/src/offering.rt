//! A goal that is offered to shapes.
ghost use Rattle.std.specs.Prelude.{◌≡◌, IfOk};
ghost use Rattle.rx_shapes.specs.Kept as spec;
ghost use Rattle.rx_shapes.specs.Options.{try_fold};

use crate::explores::Explores;
use crate::followed::{Followed, KnownGoal, PlacedGoal};
use crate::generalising::taken;
use crate::goals::{known_goal, placed_later};
use crate::shown::shows_all;
use rx_plain::{Items, NoMemory};
use rx_term::Equation;
use std::alloc::Global;

/// The followed shapes in a turn.
#[derive(Drop)]
pub(crate) struct Turn {
    /// The shapes, with their goals.
    pub(crate) shapes: Items<Followed>,
    /// Whether a goal was added in it.
    pub(crate) grown: bool,
}

/// Whether the shape has no goal, or the given one doesn't show all rows of its general equation.
fn is_missed<E: Explores>(
    alloc: Global,
    explores: &mut E,
    goal: &PlacedGoal,
    shape: &Followed,
) -> Result<bool, NoMemory>
    requires ready { E.ready explores.old }
    ensures ready { E.ready explores.new }
    ensures world { E.world explores.new ≡ E.world explores.old }
    ensures exact { IfOk result (λ b. b ≡ spec.is_missed goal.now shape.now) }
{
    if shape.goals.is_empty() {
        return Ok(true);
    }
    let shown = shows_all(alloc, explores, goal, shape.general.rows.rows())?;
    Ok(!shown)
}

/// Whether the goal is of the shape, and missed by its general equation.
fn is_taken<E: Explores>(
    alloc: Global,
    explores: &mut E,
    goal: &PlacedGoal,
    shape: &Followed,
) -> Result<bool, NoMemory>
    requires ready { E.ready explores.old }
    ensures ready { E.ready explores.new }
    ensures world { E.world explores.new ≡ E.world explores.old }
    ensures exact { IfOk result (λ b. b ≡ spec.takes goal.now shape.now) }
{
    if !shape.has(&goal.equation) {
        return Ok(false);
    }
    is_missed(alloc, explores, goal, shape)
}

/// The turn with the shape after the others.
fn after_others(turn: Turn, shape: Followed, grows: bool) -> Result<Turn, NoMemory>
    ensures { IfOk result (λ t. t ≡ spec.after_others turn shape grows) }
{
    let mut turn = turn;
    turn.shapes.push(shape)?;
    turn.grown = turn.grown || grows;
    Ok(turn)
}

/// The turn with the shape after the others, once the goal was offered to it; None exactly where
/// something passes the limits.
fn offered<E: Explores>(
    alloc: Global,
    explores: &mut E,
    known: &KnownGoal,
    turn: Turn,
    shape: Followed,
) -> Result<Option<Turn>, NoMemory>
    requires ready { E.ready explores.old }
    ensures ready { E.ready explores.new }
    ensures world { E.world explores.new ≡ E.world explores.old }
    ensures exact { IfOk result (λ o. o ≡ spec.offered known.now turn shape) }
{
    if !is_taken(alloc, explores, &known.goal, &shape)? {
        return Ok(Some(after_others(turn, shape, false)?));
    }
    match taken(alloc, explores, known, shape)? {
        Some(shape) => Ok(Some(after_others(turn, shape, true)?)),
        None => Ok(None),
    }
}

/// The shapes, once the goal was offered to each of them; None exactly where something passes the
/// limits.
fn offered_all<E: Explores>(
    alloc: Global,
    explores: &mut E,
    known: &KnownGoal,
    turn: Turn,
) -> Result<Option<Turn>, NoMemory>
    requires ready { E.ready explores.old }
    ensures ready { E.ready explores.new }
    ensures world { E.world explores.new ≡ E.world explores.old }
    ensures exact { IfOk result (λ o. o ≡ spec.offered_all known.now turn) }
{
    let Turn { shapes, grown } = turn;
    let mut done = Turn {
        shapes: Items::new(alloc),
        grown,
    };
    for shape in shapes.into_vec() {
        match offered(alloc, explores, known, done, shape)? {
            Some(next) => done = next,
            None => return Ok(None),
        }
    }
    Ok(Some(done))
}

/// The shapes, once the equation with its values was offered to each of them; None exactly where
/// something passes the limits.
fn met<E: Explores>(
    alloc: Global,
    explores: &mut E,
    turn: Turn,
    equation: Equation,
) -> Result<Option<Turn>, NoMemory>
    requires ready { E.ready explores.old }
    ensures ready { E.ready explores.new }
    ensures world { E.world explores.new ≡ E.world explores.old }
    ensures exact { IfOk result (λ o. o ≡ spec.met turn equation) }
{
    let goal = placed_later(alloc, turn.shapes.as_slice(), equation)?;
    match known_goal(alloc, goal)? {
        Some(known) => offered_all(alloc, explores, &known, turn),
        None => Ok(None),
    }
}

/// So with each of the equations.
pub(crate) fn met_all<E: Explores>(
    alloc: Global,
    explores: &mut E,
    turn: Turn,
    equations: Items<Equation>,
) -> Result<Option<Turn>, NoMemory>
    requires ready { E.ready explores.old }
    ensures ready { E.ready explores.new }
    ensures world { E.world explores.new ≡ E.world explores.old }
    ensures exact { IfOk result (λ o. o ≡ try_fold spec.met turn equations) }
{
    let mut turn = turn;
    for equation in equations.into_vec() {
        match met(alloc, explores, turn, equation)? {
            Some(next) => turn = next,
            None => return Ok(None),
        }
    }
    Ok(Some(turn))
}
