//! The items of settling in order, at the first goal of a state.
ghost use Rattle.std.specs.Prelude.{◌≡◌, IfOk, OnErr};
ghost use Rattle.rx_settle.specs.Answers.{IsTrial};
ghost use Rattle.rx_settle.specs.AtFirst.{at_first, before_uses, from_uses};
ghost use Rattle.rx_settle.specs.Known.{AreKnown};
ghost use Rattle.rx_settle.specs.Settling.{settling_move};
ghost use Rattle.rx_solve.specs.Answers.{IsSolver};
ghost use Rattle.rx_moves.specs.LoopPoints.{AreLoopPoints};

use crate::results::try_results;
use crate::settle_memo::{SettleMemo, known_move};
use crate::trial::Trial;
use crate::uses::{Matcher, Matching, try_uses};
use rx_cert::Cert;
use rx_fm::FmEnd;
use rx_moves::LoopPoints;
use rx_plain::NoMemory;
use rx_row::Constraint;
use rx_steps::State;
use rx_term::RuleSet;
use std::alloc::Global;

/// Hypotheses, and then results.
fn try_from_uses<S: FnMut(&Constraint) -> Result<Option<Cert>, FmEnd>>(
    alloc: Global,
    rules: &RuleSet,
    state: &mut State,
    solve: &mut S,
) -> Result<Trial, NoMemory>
    requires solver { IsSolver S.FnMut solve.old }
    ensures solver { IsSolver S.FnMut solve.new }
    ensures trial { IfOk result (IsTrial rules.now state.old state.new
        (at_first (from_uses rules.now state.old) state.old.goals)) }
    ensures kept { OnErr result (state.new ≡ state.old) }
{
    let by = Matcher {
        rules,
        how: Matching::PartAlone,
    };
    let noted = match try_uses(alloc, &by, state, solve)?.untaken() {
        Ok(noted) => noted,
        Err(taken) => return Ok(taken),
    };
    let results = try_results(alloc, rules, state, solve)?;
    Ok(results.after(noted))
}

/// The first move that applies, of those that are tried before hypotheses, as it is known of the
/// first goal.
fn try_known<S: FnMut(&Constraint) -> Result<Option<Cert>, FmEnd>>(
    alloc: Global,
    rules: &RuleSet,
    points: &LoopPoints,
    memo: &mut SettleMemo,
    state: &mut State,
    solve: &mut S,
) -> Result<Trial, NoMemory>
    requires points { AreLoopPoints rules.now points.now }
    requires known { AreKnown rules.now memo.old }
    requires solver { IsSolver S.FnMut solve.old }
    ensures known { AreKnown rules.now memo.new }
    ensures solver { IsSolver S.FnMut solve.new }
    ensures trial { IfOk result (IsTrial rules.now state.old state.new
        (at_first (before_uses rules.now state.old) state.old.goals)) }
    ensures kept { OnErr result (state.new ≡ state.old) }
{
    let Some(goal) = state.share_first()? else {
        return Ok(Trial::failed());
    };
    let known = known_move(alloc, rules, points, memo, goal, solve)?;
    known.get().make(alloc, state)
}

/// The first move that applies, of all that settling tries. It adds no hypothesis.
pub(crate) fn settle_once<S: FnMut(&Constraint) -> Result<Option<Cert>, FmEnd>>(
    alloc: Global,
    rules: &RuleSet,
    points: &LoopPoints,
    memo: &mut SettleMemo,
    state: &mut State,
    solve: &mut S,
) -> Result<Trial, NoMemory>
    requires points { AreLoopPoints rules.now points.now }
    requires known { AreKnown rules.now memo.old }
    requires solver { IsSolver S.FnMut solve.old }
    ensures known { AreKnown rules.now memo.new }
    ensures solver { IsSolver S.FnMut solve.new }
    ensures trial { IfOk result (IsTrial rules.now state.old state.new
        (settling_move rules.now state.old)) }
    ensures hypotheses { IfOk result (λ _. state.new.hypotheses ≡ state.old.hypotheses) }
    ensures kept { OnErr result (state.new ≡ state.old) }
{
    let noted = match try_known(alloc, rules, points, memo, state, solve)?.untaken() {
        Ok(noted) => noted,
        Err(taken) => return Ok(taken),
    };
    let later = try_from_uses(alloc, rules, state, solve)?;
    Ok(later.after(noted))
}
