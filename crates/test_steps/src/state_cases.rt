//! A proof state with the goal s0(v0) = ret(0), where v0 = 0.
use crate::example::rules;
use rx_cert::Cert;
use rx_inference::{Delete, Side, Step};
use rx_plain::Items;
use rx_steps::{State, StepEnd, apply, apply_owned};
use rx_term::{Equation, RuleSet};
use std::alloc::Global;
use test_lines::equation;

fn goal(alloc: Global) -> Option<Equation> {
    equation(alloc, "s0(1*v0) ret(0) 1 eq:1*v0")
}

fn started(alloc: Global) -> Option<State> {
    State::start(alloc, goal(alloc)?).ok()
}

// The goal is postulated, with a certificate where nothing is asked.
fn certified_postulate(alloc: Global) -> Option<Step> {
    let Equation { left, right, rows } = goal(alloc)?;
    let mut certs = Items::new(alloc);
    certs.push(Cert::Sum(Items::new(alloc))).ok()?;
    Some(Step::Postulate {
        left,
        right,
        rows,
        certs,
    })
}

fn simplify(alloc: Global, rule: u32) -> Step {
    Step::Simplify {
        side: Side::Left,
        rule,
        certs: Items::new(alloc),
    }
}

fn delete_equal(alloc: Global) -> Step {
    Step::Delete(Delete::Equal(Items::new(alloc)))
}

// Whether the step applies.
fn applies(alloc: Global, state: &mut State, set: &RuleSet, step: Step) -> bool {
    apply(alloc, state, set, &step).is_ok()
}

// The first rule, and then both sides are equal.
fn finished(alloc: Global, state: &mut State, set: &RuleSet) -> bool {
    applies(alloc, state, set, simplify(alloc, 0))
        && applies(alloc, state, set, delete_equal(alloc))
        && state.goals() == 0
}

// A rule that isn't there leaves the goal.
fn refused(alloc: Global, state: &mut State, set: &RuleSet) -> bool {
    !applies(alloc, state, set, simplify(alloc, 9)) && state.goals() == 1
}

// A postulate with a certificate has the wrong shape, lent or used up, and leaves the goal.
fn certified(alloc: Global, state: &mut State, set: &RuleSet) -> Option<bool> {
    let lent = certified_postulate(alloc)?;
    let lent = apply(alloc, state, set, &lent);
    let owned = certified_postulate(alloc)?;
    let owned = apply_owned(alloc, state, set, owned);
    let refused = matches!(&lent, Err(StepEnd::WrongShape));
    Some(refused && matches!(&owned, Err(StepEnd::WrongShape)) && state.goals() == 1)
}

fn holds_of(alloc: Global, name: &str, state: &mut State, set: &RuleSet) -> Option<bool> {
    match name {
        "finished" => Some(finished(alloc, state, set)),
        "refused" => Some(refused(alloc, state, set)),
        "certified" => certified(alloc, state, set),
        _ => None,
    }
}

/// Whether the case is as it is to be.
pub fn holds(alloc: Global, name: &str) -> Option<bool> {
    let set = rules(alloc)?;
    let mut state = started(alloc)?;
    holds_of(alloc, name, &mut state, &set)
}
