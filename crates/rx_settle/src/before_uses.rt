//! The items of settling before hypotheses: they look at the first goal of a state alone.
ghost use Rattle.std.specs.Prelude.{◌≡◌, IfOk, OnErr};
ghost use Rattle.rx_settle.specs.Answers.{IsTrial};
ghost use Rattle.rx_settle.specs.AtFirst.{at_first, before_uses, from_leaving, from_unfolding};
ghost use Rattle.rx_solve.specs.Answers.{IsSolver};
ghost use Rattle.rx_moves.specs.LoopPoints.{AreLoopPoints};

use crate::deleting::try_deleting;
use crate::naming::try_naming;
use crate::sides::{try_leaving_sides, try_unfolding_sides};
use crate::trial::Trial;
use rx_cert::Cert;
use rx_fm::FmEnd;
use rx_moves::LoopPoints;
use rx_plain::NoMemory;
use rx_row::Constraint;
use rx_steps::State;
use rx_term::RuleSet;
use std::alloc::Global;

/// Rules that leave the components of loop points, and then naming.
fn try_from_leaving<S: FnMut(&Constraint) -> Result<Option<Cert>, FmEnd>>(
    alloc: Global,
    rules: &RuleSet,
    points: &LoopPoints,
    state: &mut State,
    solve: &mut S,
) -> Result<Trial, NoMemory>
    requires points { AreLoopPoints rules.now points.now }
    requires solver { IsSolver S.FnMut solve.old }
    ensures solver { IsSolver S.FnMut solve.new }
    ensures trial { IfOk result (IsTrial rules.now state.old state.new
        (at_first (from_leaving rules.now state.old) state.old.goals)) }
    ensures kept { OnErr result (state.new ≡ state.old) }
{
    let noted = match try_leaving_sides(alloc, rules, points, state, solve)?.untaken() {
        Ok(noted) => noted,
        Err(taken) => return Ok(taken),
    };
    let later = try_naming(alloc, rules, points, state, solve)?;
    Ok(later.after(noted))
}

/// Rules and expansions where the redex is at no loop point, then loop points, and then naming.
fn try_from_unfolding<S: FnMut(&Constraint) -> Result<Option<Cert>, FmEnd>>(
    alloc: Global,
    rules: &RuleSet,
    points: &LoopPoints,
    state: &mut State,
    solve: &mut S,
) -> Result<Trial, NoMemory>
    requires points { AreLoopPoints rules.now points.now }
    requires solver { IsSolver S.FnMut solve.old }
    ensures solver { IsSolver S.FnMut solve.new }
    ensures trial { IfOk result (IsTrial rules.now state.old state.new
        (at_first (from_unfolding rules.now state.old) state.old.goals)) }
    ensures kept { OnErr result (state.new ≡ state.old) }
{
    let noted = match try_unfolding_sides(alloc, rules, points, state, solve)?.untaken() {
        Ok(noted) => noted,
        Err(taken) => return Ok(taken),
    };
    let later = try_from_leaving(alloc, rules, points, state, solve)?;
    Ok(later.after(noted))
}

/// The first move that applies, of those that are tried before hypotheses.
pub(crate) fn try_before_uses<S: FnMut(&Constraint) -> Result<Option<Cert>, FmEnd>>(
    alloc: Global,
    rules: &RuleSet,
    points: &LoopPoints,
    state: &mut State,
    solve: &mut S,
) -> Result<Trial, NoMemory>
    requires points { AreLoopPoints rules.now points.now }
    requires solver { IsSolver S.FnMut solve.old }
    ensures solver { IsSolver S.FnMut solve.new }
    ensures trial { IfOk result (IsTrial rules.now state.old state.new
        (at_first (before_uses rules.now state.old) state.old.goals)) }
    ensures kept { OnErr result (state.new ≡ state.old) }
{
    let noted = match try_deleting(alloc, rules, state, solve)?.untaken() {
        Ok(noted) => noted,
        Err(taken) => return Ok(taken),
    };
    let later = try_from_unfolding(alloc, rules, points, state, solve)?;
    Ok(later.after(noted))
}
