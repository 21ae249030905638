//! Rules at the redex of a side, in order.
ghost use Rattle.std.specs.Prelude.{◌≡◌, Some, IfOk, slice_get};
ghost use Rattle.rx_solve.specs.Answers.{IsSolver};
ghost use Rattle.rx_term.specs.declared.rule_set.RuleParts.{RuleParts};
ghost use Rattle.rx_moves.specs.Answers.{IsFoundAt};
ghost use Rattle.rx_moves.specs.LoopPoints.{AreLoopPoints};
ghost use Rattle.rx_moves.specs.Moves.{Simplify};
ghost use Rattle.rx_moves.specs.Trying.{attempt};
ghost use Rattle.rx_moves.specs.Unfolding.{simplifying};

use crate::found::Found;
use crate::loop_points::LoopPoints;
use crate::outcome::Outcome;
use crate::rule_steps::show_on;
use rx_cert::Cert;
use rx_fm::FmEnd;
use rx_inference::{Side, Step};
use rx_plain::NoMemory;
use rx_row::Constraint;
use rx_term::{Equation, Rule, RuleSet, Sym};
use std::alloc::Global;

/// Simplify by the rule, which has that number among those of a rule set.
fn find_rule<S: FnMut(&Constraint) -> Result<Option<Cert>, FmEnd>>(
    alloc: Global,
    goal: &Equation,
    side: Side,
    number: u32,
    rule: &Rule,
    solve: &mut S,
) -> Result<Found, NoMemory>
    requires solver { IsSolver S.FnMut solve.old }
    ensures solver { IsSolver S.FnMut solve.new }
    ensures found { IfOk result (λ f. (parts : RuleParts) →
        slice_get parts.rules number ≡ Some rule.now →
        IsFoundAt parts goal.now (λ state. attempt parts state (Simplify side number)) f) }
{
    match show_on(alloc, goal, side, rule, solve)? {
        Outcome::Shown { made, certs } => {
            let step = Step::Simplify {
                side,
                rule: number,
                certs,
            };
            Ok(Found::of(step, made))
        }
        Outcome::Fails => Ok(Found::failed()),
        Outcome::TooLarge => Ok(Found::too_large()),
    }
}

/// Simplify by the rules in order: by all, or by those that leave the component of a symbol. Rules
/// with numbers that no `u32` has fit no memory.
pub(crate) fn find_rules<S: FnMut(&Constraint) -> Result<Option<Cert>, FmEnd>>(
    alloc: Global,
    rules: &RuleSet,
    points: &LoopPoints,
    goal: &Equation,
    side: Side,
    from: Option<Sym>,
    solve: &mut S,
) -> Result<Found, NoMemory>
    requires points { AreLoopPoints rules.now points.now }
    requires solver { IsSolver S.FnMut solve.old }
    ensures solver { IsSolver S.FnMut solve.new }
    ensures found { IfOk result (IsFoundAt rules.now goal.now (λ state.
        simplifying rules.now state side from)) }
{
    let list = rules.parts().rules.as_slice();
    let mut noted = false;
    for (at, rule) in list.iter().enumerate() {
        if !points.is_tried(from, rule) {
            continue;
        }
        let Ok(number) = u32::try_from(at) else {
            return Err(NoMemory);
        };
        let tried = find_rule(alloc, goal, side, number, rule, solve)?.after(noted);
        noted = match tried.unready() {
            Ok(noted) => noted,
            Err(found) => return Ok(found),
        };
    }
    Ok(Found { ready: None, noted })
}
