//! Settling a state: again and again the first move that applies.
ghost use Rattle.std.specs.Prelude.{◌≡◌, ◌<◌, true, IfOk};
ghost use Rattle.rx_settle.specs.Advances.{Advances, Records};
ghost use Rattle.rx_settle.specs.Answers.{IsSettled};
ghost use Rattle.rx_settle.specs.Known.{AreKnown};
ghost use Rattle.rx_settle.specs.Settling as settling;
ghost use Rattle.rx_settle.specs.Settling.{most_moves, rows_if};
ghost use Rattle.rx_solve.specs.Answers.{IsSolver};
ghost use Rattle.rx_moves.specs.LoopPoints.{AreLoopPoints};

use crate::items::settle_once;
use crate::settle_memo::SettleMemo;
use crate::settled::Settled;
use crate::trial::Trial;
use rx_cert::Cert;
use rx_fm::FmEnd;
use rx_moves::LoopPoints;
use rx_plain::{Items, NoMemory};
use rx_row::{Constraint, Row};
use rx_steps::State;
use rx_term::RuleSet;
use std::alloc::Global;

/// The rows of the first goal, copied, if there is one.
fn first_rows(alloc: Global, state: &State) -> Result<Option<Items<Row>>, NoMemory>
    ensures { IfOk result (λ rows. rows ≡ rows_if true state.now.goals) }
{
    match state.first() {
        Some(goal) => {
            let rows = goal.rows.try_clone(alloc)?;
            Ok(Some(Items::from_vec(rows.into_rows())))
        }
        None => Ok(None),
    }
}

/// Adds the step that was taken, and notes the rows where something was noted; whether a step was
/// taken.
fn record_trial(
    settled: &mut Settled,
    rows: Option<Items<Row>>,
    trial: Trial,
) -> Result<bool, NoMemory>
    requires { 0 < settled.old.left }
    ensures { IfOk result (Records settled.old rows trial settled.new) }
{
    let Trial { taken, noted } = trial;
    settled.note_where(noted, rows);
    match taken {
        Some(step) => {
            settled.add_step(step)?;
            Ok(true)
        }
        None => Ok(false),
    }
}

/// Makes the first move that applies, and records it; whether one applied.
fn advance<S: FnMut(&Constraint) -> Result<Option<Cert>, FmEnd>>(
    alloc: Global,
    rules: &RuleSet,
    points: &LoopPoints,
    memo: &mut SettleMemo,
    state: &mut State,
    settled: &mut Settled,
    solve: &mut S,
) -> Result<bool, NoMemory>
    requires points { AreLoopPoints rules.now points.now }
    requires known { AreKnown rules.now memo.old }
    requires solver { IsSolver S.FnMut solve.old }
    requires left { 0 < settled.old.left }
    ensures known { AreKnown rules.now memo.new }
    ensures solver { IsSolver S.FnMut solve.new }
    ensures advances { IfOk result
        (Advances rules.now state.old state.new settled.old settled.new) }
    ensures hypotheses { IfOk result (λ _. state.new.hypotheses ≡ state.old.hypotheses) }
{
    let rows = first_rows(alloc, state)?;
    let trial = settle_once(alloc, rules, points, memo, state, solve)?;
    record_trial(settled, rows, trial)
}

/// Settles the first goals of a state, one after the other, by 200 moves at most: again and again
/// by the first that applies. Where none does, the state stays as it is then.
///
/// What is known of goals is taken from the memo, and what is found out is kept there.
///
/// Each step has certificates for what it asks, which are at most 174 deep. The note has the rows
/// of the first goal at which something passed the limits. Fails only where there is no memory; the
/// state is one that came up on the way then.
pub fn settle<S: FnMut(&Constraint) -> Result<Option<Cert>, FmEnd>>(
    alloc: Global,
    rules: &RuleSet,
    points: &LoopPoints,
    memo: &mut SettleMemo,
    state: &mut State,
    solve: &mut S,
) -> Result<Settled, NoMemory>
    requires points { AreLoopPoints rules.now points.now }
    requires known { AreKnown rules.now memo.old }
    requires solver { IsSolver S.FnMut solve.old }
    ensures known { AreKnown rules.now memo.new }
    ensures solver { IsSolver S.FnMut solve.new }
    ensures settled { IfOk result (IsSettled rules.now state.old state.new
        (settling.settle rules.now most_moves state.old)) }
    ensures hypotheses { IfOk result (λ _. state.new.hypotheses ≡ state.old.hypotheses) }
{
    let mut settled = Settled::begin(alloc);
    while settled.left > 0 {
        if !advance(alloc, rules, points, memo, state, &mut settled, solve)? {
            return Ok(settled);
        }
    }
    Ok(settled)
}
