//! Rules at the redexes of both sides of the first goal.
ghost use Rattle.std.specs.Prelude.{◌≡◌, IfOk, OnErr};
ghost use Rattle.rx_settle.specs.Answers.{IsTrial};
ghost use Rattle.rx_settle.specs.AtFirst.{at_first};
ghost use Rattle.rx_solve.specs.Answers.{IsSolver};
ghost use Rattle.rx_solve.specs.Attempts.{Tried};
ghost use Rattle.rx_term.specs.declared.rule_set.RuleParts.{RuleParts};
ghost use Rattle.rx_moves.specs.Answers.{IsFound};
ghost use Rattle.rx_moves.specs.LoopPoints.{AreLoopPoints};
ghost use Rattle.rx_moves.specs.Trying.{Next};
ghost use Rattle.rx_moves.specs.Unfolding.{leaving_sides, unfolding_sides};

use crate::trial::Trial;
use crate::trying::take_shown;
use rx_cert::Cert;
use rx_fm::FmEnd;
use rx_moves::{Found, LoopPoints, find_leaving, find_unfolding};
use rx_plain::NoMemory;
use rx_row::Constraint;
use rx_steps::State;
use rx_term::RuleSet;
use std::alloc::Global;

/// Takes the step that was found at the first goal, if there is one.
fn take_found(alloc: Global, state: &mut State, found: Found) -> Result<Trial, NoMemory>
    ensures trial { IfOk result (λ t. (parts : RuleParts) (tried : Tried Next) →
        IsFound parts state.old tried found → IsTrial parts state.old state.new tried t) }
    ensures kept { OnErr result (state.new ≡ state.old) }
{
    let Found { ready, noted } = found;
    match ready {
        Some(ready) => Ok(take_shown(alloc, state, ready.made, ready.step)?.after(noted)),
        None => Ok(Trial { taken: None, noted }),
    }
}

/// Both sides in turn, where the redex is at no loop point.
pub(crate) fn try_unfolding_sides<S: FnMut(&Constraint) -> Result<Option<Cert>, FmEnd>>(
    alloc: Global,
    rules: &RuleSet,
    points: &LoopPoints,
    state: &mut State,
    solve: &mut S,
) -> Result<Trial, NoMemory>
    requires points { AreLoopPoints rules.now points.now }
    requires solver { IsSolver S.FnMut solve.old }
    ensures solver { IsSolver S.FnMut solve.new }
    ensures trial { IfOk result (IsTrial rules.now state.old state.new
        (at_first (unfolding_sides rules.now state.old) state.old.goals)) }
    ensures kept { OnErr result (state.new ≡ state.old) }
{
    let Some(goal) = state.first() else {
        return Ok(Trial::failed());
    };
    let found = find_unfolding(alloc, rules, points, goal, solve)?;
    take_found(alloc, state, found)
}

/// Both sides in turn, where the redex is at a loop point.
pub(crate) fn try_leaving_sides<S: FnMut(&Constraint) -> Result<Option<Cert>, FmEnd>>(
    alloc: Global,
    rules: &RuleSet,
    points: &LoopPoints,
    state: &mut State,
    solve: &mut S,
) -> Result<Trial, NoMemory>
    requires points { AreLoopPoints rules.now points.now }
    requires solver { IsSolver S.FnMut solve.old }
    ensures solver { IsSolver S.FnMut solve.new }
    ensures trial { IfOk result (IsTrial rules.now state.old state.new
        (at_first (leaving_sides rules.now state.old) state.old.goals)) }
    ensures kept { OnErr result (state.new ≡ state.old) }
{
    let Some(goal) = state.first() else {
        return Ok(Trial::failed());
    };
    let found = find_leaving(alloc, rules, points, goal, solve)?;
    take_found(alloc, state, found)
}
