//! The side of a goal that is to be unfolded next.
ghost use Rattle.std.specs.Prelude.{◌≡◌, is_some, IfOk};
ghost use Rattle.rx_inference.specs.Pieces.{side_of};
ghost use Rattle.rx_settle.specs.Tasks as spec;
ghost use Rattle.rx_term.specs.Meaning.{redex_of};

use crate::tasked::Tasked;
use rx_inference::{Side, side_of};
use rx_plain::{Items, NoMemory};
use rx_term::Equation;
use std::alloc::Global;

/// A side of a goal that is to be unfolded.
#[derive(Drop)]
pub struct Due {
    /// The side.
    pub side: Side,
    /// The sides that are to be unfolded after it.
    pub rest: Items<Side>,
}

/// Whether that side of the goal has a redex.
fn has_redex(goal: &Equation, side: Side) -> bool
    ensures { result ≡ is_some (redex_of (side_of side goal.now)) }
{
    side_of(goal, side).redex().is_some()
}

/// The first side of the task that has a redex, and those after it.
fn side_due(alloc: Global, goal: &Equation, task: &[Side]) -> Result<Option<Due>, NoMemory>
    ensures { IfOk result (λ due. due ≡ spec.side_due goal.now task.now) }
{
    let mut rest = task;
    while let Some((side, more)) = rest.split_first() {
        if has_redex(goal, *side) {
            let rest = Items::from_slice(alloc, more)?;
            return Ok(Some(Due { side: *side, rest }));
        }
        rest = more;
    }
    Ok(None)
}

/// The side that is due at the first goal.
pub(crate) fn due_first(alloc: Global, at: &Tasked) -> Result<Option<Due>, NoMemory>
    ensures { IfOk result (λ due. due ≡ spec.due_first at.now) }
{
    match (at.state.first(), at.tasks.as_slice().first()) {
        (Some(goal), Some(task)) => side_due(alloc, goal, task.as_slice()),
        _ => Ok(None),
    }
}
