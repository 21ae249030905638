//! A step on a state: it is formed, judged, and taken.
ghost use Rattle.std.specs.Prelude.{◌≡◌, IsTrue, OnErr};
ghost use Rattle.rx_inference.specs.States.{applied};
ghost use Rattle.rx_inference.specs.declared.step.Step.TheVariants.{Postulate};
ghost use Rattle.rx_steps.specs.Alone.{put_before};
ghost use Rattle.rx_steps.specs.Faults.{Applies};
ghost use Rattle.rx_steps.specs.Settled.{IsSettled, ReturnsOne, bare_equal};
ghost use Rattle.rx_steps.specs.Shown.{Shows};

use crate::judging::{judge, judge_inside};
use crate::state::State;
use crate::step_end::StepEnd;
use rx_cert::Cert;
use rx_inference::{Delete, FormedStep, Step, form, is_equation};
use rx_term::{Equation, RuleSet, Term, inside_of};
use std::alloc::Global;

/// What the step makes of the first goal, where its certificates show what it asks.
fn shown(alloc: Global, state: &State, rules: &RuleSet, step: &Step) -> Result<FormedStep, StepEnd>
    ensures { Shows result rules.now state.now step.now }
{
    let formed = form(alloc, rules, state.first(), state.hypotheses(), step)?;
    match state.first() {
        Some(goal) => {
            judge(alloc, &goal.rows, &formed, step.certificates())?;
            Ok(formed)
        }
        None => Err(StepEnd::NoGoal),
    }
}

/// Whether both sides of the goal return one value.
fn returns_one_value(goal: &Equation) -> bool
    ensures { IsTrue result → ReturnsOne goal.now }
{
    match (&goal.left, &goal.right) {
        (Term::Return(left), Term::Return(right)) => {
            let _body = left.body();
            left.is_same(right)
        }
        _ => false,
    }
}

/// Whether there is a first goal, and both its sides return one value.
fn is_settled(state: &State) -> bool
    ensures { IsTrue result → IsSettled state.now }
{
    match state.first() {
        Some(goal) => returns_one_value(goal),
        None => false,
    }
}

/// Whether the step says that both sides are equal, and gives no certificates.
fn is_bare_equal(step: &Step) -> bool
    ensures { IsTrue result → step.now ≡ bare_equal }
{
    match step {
        Step::Delete(how) => match how {
            Delete::Equal(certs) => certs.is_empty(),
            Delete::Absurd(_) => false,
        },
        _ => false,
    }
}

/// A step that is formed, judged and taken.
fn apply_formed(
    alloc: Global,
    state: &mut State,
    rules: &RuleSet,
    step: &Step,
) -> Result<(), StepEnd>
    ensures answer { Applies result state.new (applied rules.now state.old step.now) }
    ensures kept { OnErr result (state.new ≡ state.old) }
{
    let formed = shown(alloc, state, rules, step)?;
    Ok(state.take(alloc, formed)?)
}

/// A step on the first goal of a state. It is formed first, then its certificates are judged in
/// order, and then its goals and its hypothesis are taken. A refused step leaves the state as it
/// was.
pub fn apply(alloc: Global, state: &mut State, rules: &RuleSet, step: &Step) -> Result<(), StepEnd>
    ensures answer { Applies result state.new (applied rules.now state.old step.now) }
    ensures kept { OnErr result (state.new ≡ state.old) }
{
    // Where that is all that is to be seen, nothing is formed.
    if is_bare_equal(step) && is_settled(state) {
        state.drop_first();
        return Ok(());
    }
    apply_formed(alloc, state, rules, step)
}

/// Whether there is a first goal, the new one is an equation, and the certificates show the rows
/// that put it inside the domains.
#[tactic(auto, using(crate::proofs::PostulateLaws::no_goal))]
fn allow_postulate(
    alloc: Global,
    state: &State,
    rules: &RuleSet,
    new: &Equation,
    certs: &[Cert],
) -> Result<(), StepEnd>
    ensures { Applies result (put_before state.now new.now)
        (applied rules.now state.now (Postulate new.now.left new.now.right new.now.rows certs.now)) }
{
    let Some(_) = state.first() else {
        return Err(StepEnd::NoGoal);
    };
    if !is_equation(rules.parts(), new) {
        return Err(StepEnd::WrongShape);
    }
    let inside = inside_of(alloc, rules, new)?;
    judge_inside(alloc, &new.rows, inside, certs)
}

/// The new goal before the first one, where the step is allowed.
fn postulate(
    alloc: Global,
    state: &mut State,
    rules: &RuleSet,
    new: Equation,
    certs: &[Cert],
) -> Result<(), StepEnd>
    ensures answer { Applies result state.new
        (applied rules.now state.old (Postulate new.left new.right new.rows certs.now)) }
    ensures kept { OnErr result (state.new ≡ state.old) }
{
    allow_postulate(alloc, state, rules, &new, certs)?;
    Ok(state.put_before(alloc, new)?)
}

/// As `apply`, with a step that is used up: the goal of a postulate isn't copied.
pub fn apply_owned(
    alloc: Global,
    state: &mut State,
    rules: &RuleSet,
    step: Step,
) -> Result<(), StepEnd>
    ensures answer { Applies result state.new (applied rules.now state.old step) }
    ensures kept { OnErr result (state.new ≡ state.old) }
{
    match step {
        Step::Postulate {
            left,
            right,
            rows,
            certs,
        } => {
            let new = Equation { left, right, rows };
            postulate(alloc, state, rules, new, certs.as_slice())
        }
        other => apply(alloc, state, rules, &other),
    }
}
