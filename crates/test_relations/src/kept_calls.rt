//! Equations that sides keep, over transition systems.
use crate::systems::{System, Transition};
use rx_inference::Side;
use rx_pairs::loops_of;
use rx_plain::Items;
use rx_shapes::kept_equation;
use rx_term::{Equation, RuleSet};
use std::alloc::Global;
use test_lines::{Answer, SEMICOLON, equation, equations, nothing, parted, push_goal, written};

/// There are no more symbols than this.
const MOST_SYMBOLS: usize = 1 << 32;

// The sides of the word, `l` or `r` each.
fn plan(alloc: Global, word: &str) -> Option<Items<Side>> {
    match word {
        "l" => Items::from_slice(alloc, &[Side::Left]).ok(),
        "r" => Items::from_slice(alloc, &[Side::Right]).ok(),
        "lr" => Items::from_slice(alloc, &[Side::Left, Side::Right]).ok(),
        "rl" => Items::from_slice(alloc, &[Side::Right, Side::Left]).ok(),
        _ => None,
    }
}

// Transitions from each of the equations to that at the same place of the other list.
fn transitions(
    alloc: Global,
    from: Items<Equation>,
    to: Items<Equation>,
) -> Option<Items<Transition>> {
    let mut made = Items::new(alloc);
    for (from, to) in from.into_vec().into_iter().zip(to.into_vec()) {
        made.push(Transition { from, to }).ok()?;
    }
    Some(made)
}

// The system of two lists of equations.
fn system(alloc: Global, given: &str) -> Option<System> {
    let (from, to) = parted(given, SEMICOLON);
    let transitions = transitions(alloc, equations(alloc, from)?, equations(alloc, to)?)?;
    Some(System { alloc, transitions })
}

// The equation that the sides keep in the goal.
fn kept(
    alloc: Global,
    set: &RuleSet,
    system: &mut System,
    plan: &[Side],
    goal: &Equation,
) -> Option<Answer> {
    let parts = set.parts();
    if parts.symbols.len() > MOST_SYMBOLS {
        return None;
    }
    let loops = loops_of(alloc, parts).ok()?;
    match kept_equation(alloc, set, &loops, system, plan, goal).ok()? {
        Some(found) => written(alloc, |out| push_goal(&found, out)),
        None => nothing(),
    }
}

/// The equation that the sides of a plan keep in a goal, over a rule set and transitions.
pub fn kept_of(alloc: Global, set: &RuleSet, given: &str) -> Option<Answer> {
    let (word, rest) = parted(given, SEMICOLON);
    let (goal, lists) = parted(rest, SEMICOLON);
    let plan = plan(alloc, word)?;
    let goal = equation(alloc, goal)?;
    let mut system = system(alloc, lists)?;
    kept(alloc, set, &mut system, plan.as_slice(), &goal)
}
