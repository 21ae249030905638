//! Equations and rules, alone and in lists. A rule is written as an equation.
use crate::lists::{list, whole};
use rx_plain::{Items, NoMemory};
use rx_term::{Equation, Rule};
use rx_term_words::{push_equation, read_equation};
use std::alloc::Global;

// The equation at the place, and the place after it.
fn equation_at(
    alloc: Global,
    text: &[u8],
    at: usize,
) -> Result<Option<(Equation, usize)>, NoMemory> {
    read_equation(alloc, text, at)
}

/// The equation that the text is.
pub fn equation(alloc: Global, text: &str) -> Option<Equation> {
    whole(alloc, text, equation_at)
}

/// The list of equations that the text is.
pub fn equations(alloc: Global, text: &str) -> Option<Items<Equation>> {
    list(alloc, text, equation_at)
}

/// The rule from the left side of an equation to its right side, under its rows.
pub fn rule_of(equation: Equation) -> Rule {
    let Equation { left, right, rows } = equation;
    Rule { left, right, rows }
}

/// The rule that the text is.
pub fn rule(alloc: Global, text: &str) -> Option<Rule> {
    Some(rule_of(equation(alloc, text)?))
}

fn read_rule(alloc: Global, text: &[u8], at: usize) -> Result<Option<(Rule, usize)>, NoMemory> {
    match read_equation(alloc, text, at)? {
        Some((equation, end)) => Ok(Some((rule_of(equation), end))),
        None => Ok(None),
    }
}

/// The list of rules that the text is.
pub fn rules(alloc: Global, text: &str) -> Option<Items<Rule>> {
    list(alloc, text, read_rule)
}

/// Writes an equation.
pub fn push_goal(goal: &Equation, out: &mut Vec<u8>) -> Result<(), NoMemory> {
    push_equation(&goal.left, &goal.right, goal.rows.rows(), out)
}

/// Writes a rule.
pub fn push_rule(rule: &Rule, out: &mut Vec<u8>) -> Result<(), NoMemory> {
    push_equation(&rule.left, &rule.right, rule.rows.rows(), out)
}
