//! A rule at the redex of a side, as far as the step before it is taken.
ghost use Rattle.std.specs.Prelude.{◌≡◌, Some, IfOk, slice_get};
ghost use Rattle.rx_inference.specs.States as states;
ghost use Rattle.rx_solve.specs.Answers.{IsSolver};
ghost use Rattle.rx_moves.specs.Outcomes.{Follows};
ghost use Rattle.rx_moves.specs.RuleSteps.{FollowsNumber, FollowsRule, rule_made};

use crate::outcome::Outcome;
use rx_cert::Cert;
use rx_fm::FmEnd;
use rx_inference::{RuleInstance, Side, asking_for, have_one_shape, rewritten, rule_at, side_of};
use rx_plain::NoMemory;
use rx_poly::PolyEnd;
use rx_row::Constraint;
use rx_solve::{AllShown, show_all};
use rx_term::{Equation, Rule, Term};
use std::alloc::Global;

/// What comes of the instance of a rule in place of the redex: its rows are shown before the new
/// goal is made.
fn show_instance<S: FnMut(&Constraint) -> Result<Option<Cert>, FmEnd>>(
    alloc: Global,
    goal: &Equation,
    side: Side,
    instance: RuleInstance,
    solve: &mut S,
) -> Result<Outcome, NoMemory>
    requires solver { IsSolver S.FnMut solve.old }
    ensures solver { IsSolver S.FnMut solve.new }
    ensures outcome { IfOk result (λ o. (state : states.State) →
        Some goal.now ≡ slice_get state.goals 0 →
        Follows state (rule_made goal.now side instance) o) }
{
    let RuleInstance { rows, right } = instance;
    match show_all(alloc, &goal.rows, rows.as_slice(), solve)? {
        AllShown::Shown(certs) => {
            let next = rewritten(alloc, goal, side, right)?;
            let made = asking_for(alloc, rows, next)?;
            Ok(Outcome::Shown { made, certs })
        }
        AllShown::NotShown => Ok(Outcome::Fails),
        AllShown::TooLarge => Ok(Outcome::TooLarge),
    }
}

/// What comes of a rule at the redex of a side, which has the shape of its left side.
fn show_rule<S: FnMut(&Constraint) -> Result<Option<Cert>, FmEnd>>(
    alloc: Global,
    goal: &Equation,
    side: Side,
    redex: &Term,
    rule: &Rule,
    solve: &mut S,
) -> Result<Outcome, NoMemory>
    requires solver { IsSolver S.FnMut solve.old }
    ensures solver { IsSolver S.FnMut solve.new }
    ensures outcome { IfOk result (λ o. (state : states.State) →
        Some goal.now ≡ slice_get state.goals 0 →
        FollowsRule state goal.now side redex.now rule.now o) }
{
    match rule_at(alloc, rule, redex) {
        Ok(instance) => show_instance(alloc, goal, side, instance, solve),
        Err(PolyEnd::Large) => Ok(Outcome::TooLarge),
        Err(PolyEnd::NoMemory) => Err(NoMemory),
    }
}

/// What comes of a rule on a side of a goal, by whether that has a redex of its shape.
pub(crate) fn show_on<S: FnMut(&Constraint) -> Result<Option<Cert>, FmEnd>>(
    alloc: Global,
    goal: &Equation,
    side: Side,
    rule: &Rule,
    solve: &mut S,
) -> Result<Outcome, NoMemory>
    requires solver { IsSolver S.FnMut solve.old }
    ensures solver { IsSolver S.FnMut solve.new }
    ensures outcome { IfOk result (λ o. (state : states.State) →
        Some goal.now ≡ slice_get state.goals 0 →
        FollowsNumber state side rule.now o) }
{
    let Some(redex) = side_of(goal, side).redex() else {
        return Ok(Outcome::Fails);
    };
    if !have_one_shape(&rule.left, redex) {
        return Ok(Outcome::Fails);
    }
    show_rule(alloc, goal, side, redex, rule, solve)
}
