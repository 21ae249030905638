//! A memo of what settling finds at goals, since a search meets the same goals often.
ghost use Rattle.std.specs.Prelude.{IfOk};
ghost use Rattle.rx_settle.specs.Known.{AreKnown, IsKnown};
ghost use Rattle.rx_solve.specs.Answers.{IsSolver};
ghost use Rattle.rx_term.specs.declared.rule_set.RuleParts.{RuleParts};
ghost use Rattle.rx_moves.specs.LoopPoints.{AreLoopPoints};

use crate::known::Known;
use rx_cert::Cert;
use rx_fm::FmEnd;
use rx_memo::GoalMemo;
use rx_moves::LoopPoints;
use rx_plain::{NoMemory, Shared};
use rx_row::Constraint;
use rx_term::{Equation, RuleSet};
use std::alloc::Global;
use std::marker::Model;

/// What is known of at most 16,384 goals: the move that is taken before hypotheses are used, where
/// the goal is alone, with its certificates and the state after it. Nothing is taken out again. It
/// serves the one rule set that it is first used with, whichever solver is asked. Contracts see the
/// list of what is known of goals.
#[derive(Drop)]
pub struct SettleMemo {
    known: GoalMemo<Known>,
}

impl Model for SettleMemo {
    ghost use Rattle.std.specs.Prelude.{List};
    ghost use Rattle.std.specs.Coded.{codes};
    ghost use Rattle.rx_memo.specs.declared.goal_memo.Kept.{Kept};
    ghost use Rattle.rx_settle.specs.contracts.known.Known as known_row;
    ghost use Rattle.rx_settle.specs.declared.known.Known.{Known};
    ghost use Rattle.rx_term.specs.contracts.rule.Equation as equation_row;

    ghost Value = { List (Kept Known) };

    ghost coded = { Prim.hlevel (
      codes,
      equation_row.the_row.coded,
      known_row.the_row.coded,
    ) };

    ghost view = { λ m. m.known };
}

impl SettleMemo {
    /// Nothing is known yet. Fails only where there is no memory.
    pub fn new(alloc: Global) -> Result<SettleMemo, NoMemory>
        ensures { IfOk result (λ memo. (parts : RuleParts) → AreKnown parts memo) }
    {
        Ok(SettleMemo {
            known: GoalMemo::new(alloc)?,
        })
    }
}

/// What is known of the goal. Where nothing is kept of it, it is found, and kept if there is room.
pub(crate) fn known_move<S: FnMut(&Constraint) -> Result<Option<Cert>, FmEnd>>(
    alloc: Global,
    rules: &RuleSet,
    points: &LoopPoints,
    memo: &mut SettleMemo,
    goal: Shared<Equation>,
    solve: &mut S,
) -> Result<Shared<Known>, NoMemory>
    requires points { AreLoopPoints rules.now points.now }
    requires known { AreKnown rules.now memo.old }
    requires solver { IsSolver S.FnMut solve.old }
    ensures known { AreKnown rules.now memo.new }
    ensures solver { IsSolver S.FnMut solve.new }
    ensures found { IfOk result (IsKnown rules.now goal) }
{
    if let Some(known) = memo.known.find(goal.get()) {
        return Ok(known.try_clone()?);
    }
    let known = Shared::new(alloc, Known::find(alloc, rules, points, &goal, solve)?)?;
    memo.known.keep(goal, known.try_clone()?)?;
    Ok(known)
}
