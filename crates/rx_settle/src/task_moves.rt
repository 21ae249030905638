//! One move at the first goal of a state whose goals have tasks.
ghost use Rattle.std.specs.Prelude.{◌≡◌, length, option_map, IfOk, OnOk};
ghost use Rattle.std.specs.Option.{option_or};
ghost use Rattle.rx_moves.specs.LoopPoints.{AreLoopPoints};
ghost use Rattle.rx_moves.specs.Trying.{Next};
ghost use Rattle.rx_settle.specs.Answers.{IsTrial};
ghost use Rattle.rx_settle.specs.Known.{AreKnown};
ghost use Rattle.rx_settle.specs.TaskAnswers.{Makes};
ghost use Rattle.rx_settle.specs.Tasks.{beside_move, due_move, stated_move, tasked_move, with_task};
ghost use Rattle.rx_settle.specs.declared.tasked.Tasked as declared;
ghost use Rattle.rx_solve.specs.Answers.{IsSolver};
ghost use Rattle.rx_solve.specs.Attempts.{Tried};
ghost use Rattle.rx_term.specs.declared.rule_set.RuleParts.{RuleParts};

use crate::due::due_first;
use crate::items::settle_once;
use crate::settle_memo::SettleMemo;
use crate::tasked::Tasked;
use crate::trial::Trial;
use crate::trying::try_step;
use crate::uses::{Matcher, Matching, try_uses};
use rx_cert::Cert;
use rx_fm::FmEnd;
use rx_inference::{Side, Step};
use rx_moves::LoopPoints;
use rx_plain::NoMemory;
use rx_row::Constraint;
use rx_term::RuleSet;
use std::alloc::Global;

/// Gives that task to the goals that came of the first of `before` goals, where a step was taken.
fn give_where_taken(
    alloc: Global,
    at: &mut Tasked,
    task: &[Side],
    before: u32,
    trial: Trial,
) -> Result<Option<Step>, NoMemory>
    ensures made { IfOk result (λ made. (parts : RuleParts) (old : declared.Tasked)
        (tried : Tried Next) → before ≡ length old.state.goals → at.old.tasks ≡ old.tasks →
        IsTrial parts old.state at.old.state tried trial →
        Makes parts old at.new (option_map (with_task task.now old) tried.made) made) }
    ensures state { IfOk result (λ _. at.new.state ≡ at.old.state) }
{
    match trial.taken {
        Some(step) => {
            at.give_task(alloc, task, before)?;
            Ok(Some(step))
        }
        None => Ok(None),
    }
}

/// The first move that settling makes without tasks.
fn make_stated<S: FnMut(&Constraint) -> Result<Option<Cert>, FmEnd>>(
    alloc: Global,
    rules: &RuleSet,
    points: &LoopPoints,
    memo: &mut SettleMemo,
    at: &mut Tasked,
    solve: &mut S,
) -> Result<Option<Step>, NoMemory>
    requires points { AreLoopPoints rules.now points.now }
    requires known { AreKnown rules.now memo.old }
    requires solver { IsSolver S.FnMut solve.old }
    ensures known { AreKnown rules.now memo.new }
    ensures solver { IsSolver S.FnMut solve.new }
    ensures made { IfOk result (Makes rules.now at.old at.new (stated_move rules.now at.old)) }
    ensures hypotheses { IfOk result (λ _.
        at.new.state.hypotheses ≡ at.old.state.hypotheses) }
{
    let before = at.state.goals();
    let task = at.first_task(alloc)?;
    let trial = settle_once(alloc, rules, points, memo, &mut at.state, solve)?;
    give_where_taken(alloc, at, task.as_slice(), before, trial)
}

/// A hypothesis at the first goal, where the other side may set its variables too.
fn make_beside<S: FnMut(&Constraint) -> Result<Option<Cert>, FmEnd>>(
    alloc: Global,
    rules: &RuleSet,
    at: &mut Tasked,
    solve: &mut S,
) -> Result<Option<Step>, NoMemory>
    requires solver { IsSolver S.FnMut solve.old }
    ensures solver { IsSolver S.FnMut solve.new }
    ensures made { IfOk result (Makes rules.now at.old at.new (beside_move rules.now at.old)) }
    ensures hypotheses { IfOk result (λ _.
        at.new.state.hypotheses ≡ at.old.state.hypotheses) }
{
    let before = at.state.goals();
    let task = at.first_task(alloc)?;
    let by = Matcher {
        rules,
        how: Matching::BothSides,
    };
    let trial = try_uses(alloc, &by, &mut at.state, solve)?;
    give_where_taken(alloc, at, task.as_slice(), before, trial)
}

/// Expand of the side that is due, without keeping the goal.
fn make_due<S: FnMut(&Constraint) -> Result<Option<Cert>, FmEnd>>(
    alloc: Global,
    rules: &RuleSet,
    at: &mut Tasked,
    solve: &mut S,
) -> Result<Option<Step>, NoMemory>
    requires solver { IsSolver S.FnMut solve.old }
    ensures solver { IsSolver S.FnMut solve.new }
    ensures made { IfOk result (Makes rules.now at.old at.new (due_move rules.now at.old)) }
    ensures hypotheses { IfOk result (λ _.
        at.new.state.hypotheses ≡ at.old.state.hypotheses) }
{
    let Some(due) = due_first(alloc, at)? else {
        return Ok(None);
    };
    let before = at.state.goals();
    let step = Step::Expand {
        side: due.side,
        keep: false,
    };
    let trial = try_step(alloc, rules, &mut at.state, step, solve)?;
    give_where_taken(alloc, at, due.rest.as_slice(), before, trial)
}

/// A hypothesis that both sides match, or else the side that is due.
fn make_after_stated<S: FnMut(&Constraint) -> Result<Option<Cert>, FmEnd>>(
    alloc: Global,
    rules: &RuleSet,
    at: &mut Tasked,
    solve: &mut S,
) -> Result<Option<Step>, NoMemory>
    requires solver { IsSolver S.FnMut solve.old }
    ensures solver { IsSolver S.FnMut solve.new }
    ensures made { IfOk result (Makes rules.now at.old at.new
        (option_or (beside_move rules.now at.old) (due_move rules.now at.old))) }
    ensures hypotheses { IfOk result (λ _.
        at.new.state.hypotheses ≡ at.old.state.hypotheses) }
{
    match make_beside(alloc, rules, at, solve)? {
        Some(step) => Ok(Some(step)),
        None => make_due(alloc, rules, at, solve),
    }
}

/// The first move that applies, of all that settling with tasks tries. It adds no hypothesis.
pub(crate) fn make_move<S: FnMut(&Constraint) -> Result<Option<Cert>, FmEnd>>(
    alloc: Global,
    rules: &RuleSet,
    points: &LoopPoints,
    memo: &mut SettleMemo,
    at: &mut Tasked,
    solve: &mut S,
) -> Result<Option<Step>, NoMemory>
    requires points { AreLoopPoints rules.now points.now }
    requires known { AreKnown rules.now memo.old }
    requires solver { IsSolver S.FnMut solve.old }
    ensures known { AreKnown rules.now memo.new }
    ensures solver { IsSolver S.FnMut solve.new }
    ensures made { IfOk result (Makes rules.now at.old at.new (tasked_move rules.now at.old)) }
    ensures hypotheses { IfOk result (λ _.
        at.new.state.hypotheses ≡ at.old.state.hypotheses) }
{
    match make_stated(alloc, rules, points, memo, at, solve)? {
        Some(step) => Ok(Some(step)),
        None => make_after_stated(alloc, rules, at, solve),
    }
}
