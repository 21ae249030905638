//! Uses of a hypothesis at a place of a goal.
use crate::lemma_answer::ended;
use rx_inference::Side;
use rx_match::{FmEnd, Use, find_use, find_use_beside};
use rx_row::Constraint;
use rx_solve::refutes;
use rx_term::{Equation, Rule, RuleSet};
use rx_words::push_subst;
use std::alloc::Global;
use test_lines::{Answer, equation, nothing, rule, written};

// A side of the goal, `l` or `r`.
fn side_of(word: &str) -> Option<Side> {
    match word {
        "l" => Some(Side::Left),
        "r" => Some(Side::Right),
        _ => None,
    }
}

// What replaces the variables of the hypothesis, or why nothing does.
fn answer_of(alloc: Global, found: Result<Option<Use>, FmEnd>) -> Option<Answer> {
    match found {
        Ok(Some(found)) => written(alloc, |out| push_subst(found.subst.as_slice(), out)),
        Ok(None) => nothing(),
        Err(end) => ended(end),
    }
}

// What is found of uses of the hypothesis at a place of the goal: a side, and how many frames are
// outside of the part that is meant. By the part alone, or, over a rule set, by both sides.
fn use_at(
    alloc: Global,
    set: Option<&RuleSet>,
    goal: &Equation,
    hypothesis: &Rule,
    at: &str,
) -> Option<Answer> {
    let (side, place) = at.split_once(' ')?;
    let side = side_of(side)?;
    let place = place.parse().ok()?;
    let mut solve = |rows: &Constraint| refutes(alloc, rows);
    let found = match set {
        Some(set) => find_use_beside(alloc, set, goal, hypothesis, side, place, &mut solve),
        None => find_use(alloc, goal, hypothesis, side, place, &mut solve),
    };
    answer_of(alloc, found)
}

// What is found of uses in the goal of a hypothesis at a place.
fn use_in(alloc: Global, set: Option<&RuleSet>, goal: &Equation, given: &str) -> Option<Answer> {
    let (hypothesis, at) = given.split_once(" | ")?;
    let hypothesis = rule(alloc, hypothesis)?;
    use_at(alloc, set, goal, &hypothesis, at)
}

/// What is found of uses of a hypothesis at a place of a goal: by the matching with the part alone,
/// or over a rule set by that with both sides. None where the line can't be read, or there is no
/// memory.
pub fn use_of(alloc: Global, set: Option<&RuleSet>, given: &str) -> Option<Answer> {
    let (goal, rest) = given.split_once(" | ")?;
    let goal = equation(alloc, goal)?;
    use_in(alloc, set, &goal, rest)
}
