//! Lemmas on tail calls, before the visits of a search.
ghost use Rattle.std.specs.Prelude.{◌≡◌, ◌++◌, ◌∷◌, [], IfOk, IfSome, Some, None, map, option_map};
ghost use Rattle.std.specs.List.{fold};
ghost use Rattle.rx_inference.specs.States as states;
ghost use Rattle.rx_moves.specs.LoopPoints.{AreLoopPoints};
ghost use Rattle.rx_moves.specs.Moves.{Expand, Postulate, move_of};
ghost use Rattle.rx_pairs.specs.Inside.{listing};
ghost use Rattle.rx_settle.specs.Known.{AreKnown};
ghost use Rattle.rx_solve.specs.Answers.{IsSolver};
ghost use Rattle.rx_term.specs.declared.rule.Equation.{Equation};
ghost use Rattle.rx_wider.specs.Calls.{opening_of};
ghost use Rattle.rx_wider.specs.Reached.{IsBegun, IsPosed, IsSettledLemma, Poses, Expands};
ghost use Rattle.rx_wider.specs.Tails as spec;

use crate::dropping::dropped;
use crate::inside::inside_lemma;
use crate::node::steps_after;
use crate::opening::{Begun, Setting};
use crate::ranks::is_ranked;
use crate::tail_calls::TailCall;
use crate::target::Target;
use crate::trying::try_steps;
use rx_cert::Cert;
use rx_fm::FmEnd;
use rx_has_ranks::RankMemo;
use rx_inference::{Side, Step};
use rx_plain::{Items, NoMemory};
use rx_poly::PolyEnd;
use rx_row::Constraint;
use rx_settle::{SettleMemo, Tasked, append_steps, settle_tasks};
use rx_steps::State;
use rx_term::Equation;
use std::alloc::Global;

/// Steps, and the state that they make.
#[derive(Drop)]
pub(crate) struct Walked {
    /// The steps, each with its certificates.
    pub(crate) steps: Items<Step>,
    /// The state after them.
    pub(crate) state: State,
}

/// The step that poses the equation.
fn posing(alloc: Global, lemma: &Equation) -> Result<Step, NoMemory>
    ensures { IfOk result (λ step. step ≡
        Step.Postulate lemma.now.left lemma.now.right lemma.now.rows []) }
{
    let Equation { left, right, rows } = lemma.try_clone(alloc)?;
    Ok(Step::Postulate {
        left,
        right,
        rows,
        certs: Items::new(alloc),
    })
}

/// The step that poses the lemma before the goal, where it applies.
fn pose<S: FnMut(&Constraint) -> Result<Option<Cert>, FmEnd>>(
    setting: &Setting<'_>,
    begun: &Begun,
    lemma: &Equation,
    solve: &mut S,
) -> Result<Option<Items<Step>>, NoMemory>
    requires solver { IsSolver S.FnMut solve.old }
    ensures solver { IsSolver S.FnMut solve.new }
    ensures posed { IfOk result (Poses setting.now.rules.now begun.now.state lemma.now) }
{
    let mut state = begun.state.try_clone(setting.alloc)?;
    let steps = [posing(setting.alloc, lemma)?];
    try_steps(
        setting.alloc,
        setting.rules,
        &mut state,
        steps.as_slice(),
        solve,
    )
}

/// The lemma alone, under the hypotheses of the opening.
fn lemma_alone(alloc: Global, begun: &Begun, lemma: &Equation) -> Result<State, NoMemory>
    requires { (goal : Equation) × (begun.now.state.goals ≡ goal ∷ []) }
    ensures { IfOk result (λ state. state ≡
        spec.goal_under begun.now.state.hypotheses lemma.now) }
{
    let mut state = begun.state.try_clone(alloc)?;
    state.drop_first();
    state.put_before(alloc, lemma.try_clone(alloc)?)?;
    Ok(state)
}

/// What comes of the lemma alone once it is expanded, and kept as a hypothesis, where that step
/// applies and ranks are found with it.
fn expand_lemma<S: FnMut(&Constraint) -> Result<Option<Cert>, FmEnd>>(
    setting: &Setting<'_>,
    begun: &Begun,
    lemma: &Equation,
    ranks: &mut RankMemo,
    solve: &mut S,
) -> Result<Option<Walked>, NoMemory>
    requires alone { (goal : Equation) × (begun.now.state.goals ≡ goal ∷ []) }
    requires posed { IsPosed setting.now.rules.now begun.now.state.hypotheses lemma.now }
    requires pairs { setting.now.pairs.now ≡
        listing setting.now.rules.now setting.now.rules.now.rules }
    requires solver { IsSolver S.FnMut solve.old }
    ensures solver { IsSolver S.FnMut solve.new }
    ensures expanded { IfOk result
        (Expands setting.now.kind setting.now.rules.now begun.now.state.hypotheses lemma.now) }
{
    let mut state = lemma_alone(setting.alloc, begun, lemma)?;
    let steps = [Step::Expand {
        side: Side::Left,
        keep: true,
    }];
    let Some(taken) = try_steps(
        setting.alloc,
        setting.rules,
        &mut state,
        steps.as_slice(),
        solve,
    )?
    else {
        return Ok(None);
    };
    if is_ranked(setting, &state, ranks, solve)? {
        Ok(Some(Walked {
            steps: taken,
            state,
        }))
    } else {
        Ok(None)
    }
}

/// What comes of the goals of the expanded lemma once they are settled, each with the right side as
/// its task, where none is left.
fn settle_lemma<S: FnMut(&Constraint) -> Result<Option<Cert>, FmEnd>>(
    setting: &Setting<'_>,
    state: State,
    memo: &mut SettleMemo,
    solve: &mut S,
) -> Result<Option<Walked>, NoMemory>
    requires points { AreLoopPoints setting.now.rules.now setting.now.points.now }
    requires known { AreKnown setting.now.rules.now memo.old }
    requires solver { IsSolver S.FnMut solve.old }
    ensures known { AreKnown setting.now.rules.now memo.new }
    ensures solver { IsSolver S.FnMut solve.new }
    ensures settled { IfOk result (IsSettledLemma setting.now.rules.now state) }
{
    let mut at = Tasked {
        state,
        tasks: Items::new(setting.alloc),
    };
    let task = [Side::Right];
    at.give_task(setting.alloc, task.as_slice(), 1)?;
    let found = settle_tasks(
        setting.alloc,
        setting.rules,
        setting.points,
        memo,
        &mut at,
        solve,
    )?;
    if at.state.goals() == 0 {
        Ok(Some(Walked {
            steps: found.steps,
            state: at.state,
        }))
    } else {
        Ok(None)
    }
}

/// The opening with these steps, after which no goal of the lemma is left.
fn join(
    alloc: Global,
    begun: &Begun,
    goal: &Equation,
    posed: Items<Step>,
    expanded: Items<Step>,
    settled: Walked,
) -> Result<Begun, NoMemory>
    ensures { IfOk result (λ b. b ≡ record {
      steps = begun.now.steps ++ posed ++ expanded ++ settled.steps;
      state = record {
        goals = goal.now ∷ settled.state.goals;
        hypotheses = settled.state.hypotheses;
      };
    }) }
{
    let mut steps = steps_after(alloc, begun.steps.as_slice(), posed)?;
    append_steps(alloc, &mut steps, expanded)?;
    append_steps(alloc, &mut steps, settled.steps)?;
    let mut state = settled.state;
    state.put_before(alloc, goal.try_clone(alloc)?)?;
    Ok(Begun { steps, state })
}

/// The opening with the lemma, where that is shown.
fn show_lemma<S: FnMut(&Constraint) -> Result<Option<Cert>, FmEnd>>(
    target: &Target<'_>,
    begun: &Begun,
    lemma: &Equation,
    ranks: &mut RankMemo,
    memo: &mut SettleMemo,
    solve: &mut S,
) -> Result<Option<Begun>, NoMemory>
    requires begun { (from : Equation) ×
        IsBegun target.now.setting.now.kind target.now.setting.now.rules.now from
        target.now.goal.now begun.now }
    requires points { AreLoopPoints target.now.setting.now.rules.now
        target.now.setting.now.points.now }
    requires pairs { target.now.setting.now.pairs.now ≡
        listing target.now.setting.now.rules.now target.now.setting.now.rules.now.rules }
    requires known { AreKnown target.now.setting.now.rules.now memo.old }
    requires solver { IsSolver S.FnMut solve.old }
    ensures known { AreKnown target.now.setting.now.rules.now memo.new }
    ensures solver { IsSolver S.FnMut solve.new }
    ensures shown { IfOk result (λ o. option_map opening_of o ≡
        spec.shown target.now.setting.now.kind target.now.setting.now.rules.now target.now.goal.now
        (opening_of begun.now) lemma.now) }
    ensures begun { (from : Equation) →
        IsBegun target.now.setting.now.kind target.now.setting.now.rules.now from
        target.now.goal.now begun.now →
        IfOk result (λ o. IfSome o (IsBegun target.now.setting.now.kind
        target.now.setting.now.rules.now from target.now.goal.now)) }
{
    let setting = target.setting;
    let Some(posed) = pose(setting, begun, lemma, solve)? else {
        return Ok(None);
    };
    let Some(expanded) = expand_lemma(setting, begun, lemma, ranks, solve)? else {
        return Ok(None);
    };
    let Walked { steps, state } = expanded;
    let Some(settled) = settle_lemma(setting, state, memo, solve)? else {
        return Ok(None);
    };
    let next = join(setting.alloc, begun, target.goal, posed, steps, settled)?;
    Ok(Some(next))
}

/// The opening with the lemma inside the domains, where that is shown; it isn't where one of its rows
/// passes the limits.
fn show_inside<S: FnMut(&Constraint) -> Result<Option<Cert>, FmEnd>>(
    target: &Target<'_>,
    begun: &Begun,
    lemma: &Equation,
    ranks: &mut RankMemo,
    memo: &mut SettleMemo,
    solve: &mut S,
) -> Result<Option<Begun>, NoMemory>
    requires begun { (from : Equation) ×
        IsBegun target.now.setting.now.kind target.now.setting.now.rules.now from
        target.now.goal.now begun.now }
    requires points { AreLoopPoints target.now.setting.now.rules.now
        target.now.setting.now.points.now }
    requires pairs { target.now.setting.now.pairs.now ≡
        listing target.now.setting.now.rules.now target.now.setting.now.rules.now.rules }
    requires known { AreKnown target.now.setting.now.rules.now memo.old }
    requires solver { IsSolver S.FnMut solve.old }
    ensures known { AreKnown target.now.setting.now.rules.now memo.new }
    ensures solver { IsSolver S.FnMut solve.new }
    ensures shown { IfOk result (λ o. option_map opening_of o ≡
        spec.shown_within target.now.setting.now.kind target.now.setting.now.rules.now
        target.now.goal.now (opening_of begun.now)
        (spec.inside_lemma target.now.setting.now.rules.now lemma.now)) }
    ensures begun { (from : Equation) →
        IsBegun target.now.setting.now.kind target.now.setting.now.rules.now from
        target.now.goal.now begun.now →
        IfOk result (λ o. IfSome o (IsBegun target.now.setting.now.kind
        target.now.setting.now.rules.now from target.now.goal.now)) }
{
    match inside_lemma(target.setting.alloc, target.setting.rules, lemma) {
        Ok(inside) => show_lemma(target, begun, &inside, ranks, memo, solve),
        Err(PolyEnd::Large) => Ok(None),
        Err(PolyEnd::NoMemory) => Err(NoMemory),
    }
}

/// The opening with the lemma, or as it was.
fn with_lemma<S: FnMut(&Constraint) -> Result<Option<Cert>, FmEnd>>(
    target: &Target<'_>,
    begun: Begun,
    tail: &TailCall,
    ranks: &mut RankMemo,
    memo: &mut SettleMemo,
    solve: &mut S,
) -> Result<Begun, NoMemory>
    requires begun { (from : Equation) ×
        IsBegun target.now.setting.now.kind target.now.setting.now.rules.now from
        target.now.goal.now begun }
    requires points { AreLoopPoints target.now.setting.now.rules.now
        target.now.setting.now.points.now }
    requires pairs { target.now.setting.now.pairs.now ≡
        listing target.now.setting.now.rules.now target.now.setting.now.rules.now.rules }
    requires known { AreKnown target.now.setting.now.rules.now memo.old }
    requires solver { IsSolver S.FnMut solve.old }
    ensures known { AreKnown target.now.setting.now.rules.now memo.new }
    ensures solver { IsSolver S.FnMut solve.new }
    ensures opening { IfOk result (λ b. opening_of b ≡
        spec.with_lemma target.now.setting.now.kind target.now.setting.now.rules.now
        target.now.goal.now
        (opening_of begun) tail.now) }
    ensures begun { (from : Equation) →
        IsBegun target.now.setting.now.kind target.now.setting.now.rules.now from
        target.now.goal.now begun →
        IfOk result (IsBegun target.now.setting.now.kind target.now.setting.now.rules.now from
        target.now.goal.now) }
{
    match show_inside(target, &begun, &tail.lemma, ranks, memo, solve) {
        Ok(Some(next)) => Ok(dropped(begun, next)),
        Ok(None) => Ok(begun),
        Err(NoMemory) => Err(dropped(begun, NoMemory)),
    }
}

/// The opening with the lemmas on these tail calls, as far as each of them is shown.
pub(crate) fn with_lemmas<S: FnMut(&Constraint) -> Result<Option<Cert>, FmEnd>>(
    target: &Target<'_>,
    begun: Begun,
    tails: &[TailCall],
    ranks: &mut RankMemo,
    memo: &mut SettleMemo,
    solve: &mut S,
) -> Result<Begun, NoMemory>
    requires begun { (from : Equation) ×
        IsBegun target.now.setting.now.kind target.now.setting.now.rules.now from
        target.now.goal.now begun }
    requires points { AreLoopPoints target.now.setting.now.rules.now
        target.now.setting.now.points.now }
    requires pairs { target.now.setting.now.pairs.now ≡
        listing target.now.setting.now.rules.now target.now.setting.now.rules.now.rules }
    requires known { AreKnown target.now.setting.now.rules.now memo.old }
    requires solver { IsSolver S.FnMut solve.old }
    ensures known { AreKnown target.now.setting.now.rules.now memo.new }
    ensures solver { IsSolver S.FnMut solve.new }
    ensures opening { IfOk result (λ b. opening_of b ≡
        fold (spec.with_lemma target.now.setting.now.kind target.now.setting.now.rules.now
        target.now.goal.now)
        (opening_of begun) tails.now) }
    ensures begun { (from : Equation) →
        IsBegun target.now.setting.now.kind target.now.setting.now.rules.now from
        target.now.goal.now begun →
        IfOk result (IsBegun target.now.setting.now.kind target.now.setting.now.rules.now from
        target.now.goal.now) }
{
    let mut begun = begun;
    for tail in tails {
        begun = with_lemma(target, begun, tail, ranks, memo, solve)?;
    }
    Ok(begun)
}
