//! Forming a step that is tried.
ghost use Rattle.std.specs.Option.{option_copied};
ghost use Rattle.std.specs.Prelude.{IfOk};
ghost use Rattle.rx_inference.specs.Kinds.{formed};
ghost use Rattle.rx_moves.specs.Parts.{IsFormation};

use rx_inference::{FormEnd, FormedStep, Step, form};
use rx_plain::NoMemory;
use rx_term::{Equation, Rule, RuleSet};
use std::alloc::Global;

/// What forming a step comes to.
#[derive(Drop)]
pub enum Formation {
    /// The step is formed.
    Formed(FormedStep),
    /// The step isn't of the form that is asked.
    Refused,
    /// Something passes the limits.
    TooLarge,
}

/// What forming the step on the first goal, if there is one, comes to. Its certificates aren't
/// looked at. Fails only where there is no memory.
pub fn form_step(
    alloc: Global,
    rules: &RuleSet,
    first: Option<&Equation>,
    hypotheses: &[Rule],
    step: &Step,
) -> Result<Formation, NoMemory>
    ensures { IfOk result (IsFormation (formed rules.now (option_copied first.entry) hypotheses.now
        step.now)) }
{
    match form(alloc, rules, first, hypotheses, step) {
        Ok(formed) => Ok(Formation::Formed(formed)),
        Err(FormEnd::Large) => Ok(Formation::TooLarge),
        Err(FormEnd::NoMemory) => Err(NoMemory),
        Err(FormEnd::NoGoal) => Ok(Formation::Refused),
        Err(FormEnd::WrongShape) => Ok(Formation::Refused),
        Err(FormEnd::NoSuchRule) => Ok(Formation::Refused),
    }
}
