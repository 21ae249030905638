//! What a step makes of the first goal, by its kind.
ghost use Rattle.std.specs.Prelude.{◌≡◌, IfOk};
ghost use Rattle.std.specs.Option.{option_copied};
ghost use Rattle.rx_term.specs.declared.rule.Equation.{Equation};
ghost use Rattle.rx_inference.specs.Forming.{Gives};
ghost use Rattle.rx_inference.specs.Kinds.{formed, formed_on, generalised};

use crate::deleting::{delete, tell_apart};
use crate::form_end::FormEnd;
use crate::formed_step::FormedStep;
use crate::generalising::{generalise, postulate, split};
use crate::results::{decompose, replace_by_results};
use crate::rewriting::{expand, simplify, use_hypothesis};
use crate::step::Step;
use rx_poly::Poly;
use rx_row::Constraint;
use rx_term::{Equation, Rule, RuleSet, Term};
use std::alloc::{AllocError, Global};

/// An equation of copies.
fn equation(
    alloc: Global,
    left: &Term,
    right: &Term,
    rows: &Constraint,
) -> Result<Equation, AllocError>
    ensures { IfOk result (λ e. e ≡ record { left = left.now; right = right.now; rows = rows.now }) }
{
    Ok(Equation {
        left: left.try_clone(alloc)?,
        right: right.try_clone(alloc)?,
        rows: rows.try_clone(alloc)?,
    })
}

/// What generalising makes of the goal, which is to be an instance of a new one of these parts.
fn generalise_to(
    alloc: Global,
    rules: &RuleSet,
    goal: &Equation,
    left: &Term,
    right: &Term,
    rows: &Constraint,
    with: &[(u32, Poly)],
) -> Result<FormedStep, FormEnd>
    ensures { Gives result (generalised rules.now goal.now
        (record { left = left.now; right = right.now; rows = rows.now }) with.now) }
{
    let new = equation(alloc, left, right, rows)?;
    generalise(alloc, rules, goal, new, with)
}

/// What a step makes of the goal.
fn form_on(
    alloc: Global,
    rules: &RuleSet,
    goal: &Equation,
    hypotheses: &[Rule],
    step: &Step,
) -> Result<FormedStep, FormEnd>
    ensures { Gives result (formed_on rules.now goal.now hypotheses.now step.now) }
{
    match step {
        Step::Simplify { side, rule, .. } => {
            simplify(alloc, rules.parts().rules.as_slice(), goal, *side, *rule)
        }
        Step::Hyp {
            side,
            place,
            hyp,
            subst,
            ..
        } => use_hypothesis(
            alloc,
            hypotheses,
            goal,
            *side,
            *place,
            *hyp,
            subst.as_slice(),
        ),
        Step::Expand { side, keep } => expand(
            alloc,
            rules.parts().rules.as_slice(),
            goal,
            *side,
            *keep,
        ),
        Step::Delete(by) => delete(alloc, goal, by),
        Step::EqDelete => tell_apart(alloc, goal),
        Step::Generalise {
            left,
            right,
            rows,
            subst,
            ..
        } => generalise_to(alloc, rules, goal, left, right, rows, subst.as_slice()),
        Step::Postulate {
            left,
            right,
            rows,
            ..
        } => {
            let new = equation(alloc, left, right, rows)?;
            postulate(alloc, rules, goal, new)
        }
        Step::Split { row } => split(alloc, goal, row),
        Step::Decompose { .. } => decompose(alloc, goal),
        Step::Results { left, right, .. } => {
            replace_by_results(alloc, rules.parts().fails, goal, *left, *right)
        }
    }
}

/// What a step makes of the first goal: the rows that it asks, the new goals, and the hypothesis
/// that it keeps. Its certificates aren't looked at. NoGoal where there is none; WrongShape and
/// NoSuchRule by what its kind asks for, in that order; and then Large exactly where a polynomial
/// of a row that it asks, of a new goal or on the way to them passes the limits.
pub fn form(
    alloc: Global,
    rules: &RuleSet,
    first: Option<&Equation>,
    hypotheses: &[Rule],
    step: &Step,
) -> Result<FormedStep, FormEnd>
    ensures { Gives result (formed rules.now (option_copied first.entry) hypotheses.now step.now) }
{
    match first {
        Some(goal) => form_on(alloc, rules, goal, hypotheses, step),
        None => Err(FormEnd::NoGoal),
    }
}
