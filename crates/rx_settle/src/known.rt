//! What is known of a goal: what comes of it where it is alone.
ghost use Rattle.std.specs.Prelude.{◌≡◌, Some, IfOk, OnErr, slice_get};
ghost use Rattle.rx_settle.specs.Answers.{IsTrial};
ghost use Rattle.rx_settle.specs.AtFirst.{at_first, before_uses};
ghost use Rattle.rx_settle.specs.Known.{IsKnown};
ghost use Rattle.rx_solve.specs.Answers.{IsSolver};
ghost use Rattle.rx_term.specs.declared.rule.Equation.{Equation};
ghost use Rattle.rx_term.specs.declared.rule_set.RuleParts.{RuleParts};
ghost use Rattle.rx_moves.specs.LoopPoints.{AreLoopPoints};

use crate::before_uses::try_before_uses;
use crate::trial::Trial;
use rx_cert::Cert;
use rx_fm::FmEnd;
use rx_moves::LoopPoints;
use rx_plain::{NoMemory, Shared};
use rx_row::Constraint;
use rx_steps::State;
use rx_term::{Equation, RuleSet};
use std::alloc::Global;

/// What is known of a goal.
#[derive(Drop)]
pub struct Known {
    /// What came of trying the moves before hypotheses, where the goal was alone.
    pub trial: Trial,
    /// The state after that; the goal alone, where no move applied.
    pub after: State,
}

impl Known {
    /// What comes of the goal: the moves are tried where it is alone.
    pub(crate) fn find<S: FnMut(&Constraint) -> Result<Option<Cert>, FmEnd>>(
        alloc: Global,
        rules: &RuleSet,
        points: &LoopPoints,
        goal: &Shared<Equation>,
        solve: &mut S,
    ) -> Result<Known, NoMemory>
        requires points { AreLoopPoints rules.now points.now }
        requires solver { IsSolver S.FnMut solve.old }
        ensures solver { IsSolver S.FnMut solve.new }
        ensures known { IfOk result (IsKnown rules.now goal.now) }
    {
        let mut after = State::alone(alloc, goal.try_clone()?)?;
        let trial = try_before_uses(alloc, rules, points, &mut after, solve)?;
        Ok(Known { trial, after })
    }

    /// Makes the move, if there is one, on a state that begins with the goal.
    pub(crate) fn make(&self, alloc: Global, state: &mut State) -> Result<Trial, NoMemory>
        ensures trial { (parts : RuleParts) (goal : Equation) →
            Some goal ≡ slice_get state.old.goals 0 → IsKnown parts goal self.now →
            IfOk result (IsTrial parts state.old state.new
            (at_first (before_uses parts state.old) state.old.goals)) }
        ensures kept { OnErr result (state.new ≡ state.old) }
    {
        let trial = self.trial.try_clone(alloc)?;
        if trial.taken.is_some() {
            state.go_on(alloc, &self.after)?;
        }
        Ok(trial)
    }
}
