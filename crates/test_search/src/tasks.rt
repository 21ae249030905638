//! The calls of a line, each a search over a rule set.
use crate::by_solver::Task;
use crate::counting::counted;
use crate::ends::{count, word};
use crate::searching::{
    cached, calls_of, is_covered, is_fitting, is_without_domains, kept, lemmas_of, searched,
};
use rx_term::RuleSet;
use std::alloc::Global;
use test_lines::equation;

/// A depth is at most this.
const MOST_DEEP: u32 = 12;

// The goal, the depth and the budget.
fn task(alloc: Global, goal: &str, depth: &str, budget: &str) -> Option<Task> {
    Some(Task {
        goal: equation(alloc, goal)?,
        depth: depth.parse().ok()?,
        budget: budget.parse().ok()?,
    })
}

// What a call that searches comes to; none where nothing covers the set, the goal doesn't fit it,
// or the depth is too great.
fn after(alloc: Global, set: &RuleSet, call: &str, task: &Task) -> Option<Vec<u8>> {
    if task.depth > MOST_DEEP || !is_fitting(set, &task.goal) || !is_without_domains(set) {
        return None;
    }
    if !is_covered(alloc, set) {
        return None;
    }
    match call {
        "search" => searched(alloc, set, task),
        "cached" => cached(alloc, set, task),
        "kept" => kept(alloc, set, task),
        "finds" => count(alloc, lemmas_of(alloc, set, task)?),
        _ => None,
    }
}

// How often a search asks the refuter.
fn calls(alloc: Global, set: &RuleSet, task: &Task) -> Option<u64> {
    if task.depth > MOST_DEEP || !is_fitting(set, &task.goal) || !is_without_domains(set) {
        return None;
    }
    if !is_covered(alloc, set) {
        return None;
    }
    calls_of(alloc, set, task)
}

// How often a search for the goal to the depth asks the refuter.
fn calls_to(alloc: Global, set: &RuleSet, goal: &str, depth: &str, budget: &str) -> Option<u64> {
    calls(alloc, set, &task(alloc, goal, depth, budget)?)
}

// Whether a search to the second depth asks the refuter as often as one to the first, more often,
// or less, both within the budget that follows.
fn asked(alloc: Global, set: &RuleSet, goal: &str, effort: &str) -> Option<Vec<u8>> {
    let (first, rest) = effort.split_once(' ')?;
    let (second, budget) = rest.split_once(' ')?;
    let before = calls_to(alloc, set, goal, first, budget)?;
    let after = calls_to(alloc, set, goal, second, budget)?;
    if after < before {
        word(alloc, b"fewer")
    } else if after == before {
        word(alloc, b"same")
    } else {
        word(alloc, b"more")
    }
}

/// What the call answers for the equation and the effort that are given: `search`, `cached`, `kept`
/// and `finds` to a depth and within a budget, `asks` to two depths and within a budget. `counts`
/// is given a tree that counts its own calls, a depth, a budget and how many nodes are kept.
pub fn answer(alloc: Global, set: &RuleSet, call: &str, given: &str) -> Option<Vec<u8>> {
    if call == "counts" {
        return counted(alloc, given);
    }
    let (goal, effort) = given.split_once(" | ")?;
    if call == "asks" {
        return asked(alloc, set, goal, effort);
    }
    let (depth, budget) = effort.split_once(' ')?;
    after(alloc, set, call, &task(alloc, goal, depth, budget)?)
}
