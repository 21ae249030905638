//! The expansion of a side.
ghost use Rattle.std.specs.Prelude.{false, Some, [], IfOk};
ghost use Rattle.rx_inference.specs.Kinds.{formed};
ghost use Rattle.rx_inference.specs.declared.step.Step.TheVariants as step;
ghost use Rattle.rx_moves.specs.Answers.{IsFoundAt};
ghost use Rattle.rx_moves.specs.Moves.{Expand};
ghost use Rattle.rx_moves.specs.Parts.{IsFormation};
ghost use Rattle.rx_moves.specs.Trying.{attempt};

use crate::formation::{Formation, form_step};
use crate::found::Found;
use rx_inference::{Side, Step};
use rx_plain::NoMemory;
use rx_term::{Equation, RuleSet};
use std::alloc::Global;

/// What forming an expansion of a side comes to, where the goal isn't kept.
fn form_expansion(
    alloc: Global,
    rules: &RuleSet,
    goal: &Equation,
    side: Side,
) -> Result<Formation, NoMemory>
    ensures { IfOk result (IsFormation (formed rules.now (Some goal.now) [] (step.Expand side
        false))) }
{
    let step = Step::Expand { side, keep: false };
    let formation = form_step(alloc, rules, Some(goal), &[], &step);
    drop(step);
    formation
}

/// Expand on a side, without keeping the goal. It asks nothing.
pub(crate) fn find_expansion(
    alloc: Global,
    rules: &RuleSet,
    goal: &Equation,
    side: Side,
) -> Result<Found, NoMemory>
    ensures { IfOk result (IsFoundAt rules.now goal.now (λ state.
        attempt rules.now state (Expand side false))) }
{
    match form_expansion(alloc, rules, goal, side)? {
        Formation::Formed(made) => Ok(Found::of(Step::Expand { side, keep: false }, made)),
        Formation::Refused => Ok(Found::failed()),
        Formation::TooLarge => Ok(Found::too_large()),
    }
}
