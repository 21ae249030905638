//! Rules and sets of rules. A set's symbols are s0 to s5: points of two, of no and of one argument,
//! which are s0, s1 and s4, and frames of one, of no and of two, which are s2, s3 and s5. Its
//! greatest failure code is 2.
use rx_plain::Items;
use rx_term::{Equation, Rule, RuleParts, RuleSet};
use std::alloc::Global;
use test_lines::{Answer, equation, rule_of, six_symbols, told};

fn parts(alloc: Global, rules: Items<Rule>) -> Option<RuleParts> {
    Some(RuleParts {
        symbols: six_symbols(alloc)?,
        domains: Items::new(alloc),
        rules,
        fails: 2,
    })
}

/// The set without rules.
pub fn without_rules(alloc: Global) -> Option<RuleSet> {
    RuleSet::from_parts(parts(alloc, Items::new(alloc))?)
}

fn parts_copied(alloc: Global, parts: &RuleParts) -> Option<Answer> {
    let copy = parts.try_clone(alloc).ok()?;
    told(copy.is_same(parts))
}

fn is_another(alloc: Global, set: &RuleSet) -> Option<bool> {
    let other = without_rules(alloc)?;
    Some(!set.is_same(&other))
}

// Whether a copy of the set is the same set, and the set without rules is another.
fn set_copied(alloc: Global, set: &RuleSet) -> Option<Answer> {
    let copy = set.try_clone(alloc).ok()?;
    told(set.is_same(&copy) && is_another(alloc, set)?)
}

fn of_set(alloc: Global, name: &str, set: &RuleSet) -> Option<Answer> {
    match name {
        "is_made" => told(true),
        "parts_clone" => parts_copied(alloc, set.parts()),
        "set_clone" => set_copied(alloc, set),
        "fails" => Some(Answer::Number(set.fails() as i128)),
        "symbols" => Some(Answer::Number(set.symbols().len() as i128)),
        "rules" => Some(Answer::Number(set.rules().len() as i128)),
        _ => None,
    }
}

fn alone(alloc: Global, rule: Rule) -> Option<Items<Rule>> {
    let mut rules = Items::new(alloc);
    rules.push(rule).ok()?;
    Some(rules)
}

// What the set of one rule answers.
fn of_one(alloc: Global, name: &str, rule: Rule) -> Option<Answer> {
    match RuleSet::from_parts(parts(alloc, alone(alloc, rule)?)?) {
        Some(set) => of_set(alloc, name, &set),
        None => told(false),
    }
}

fn rule_copied(alloc: Global, rule: &Rule) -> Option<Answer> {
    let copy = rule.try_clone(alloc).ok()?;
    told(copy.is_same(rule))
}

fn equation_copied(alloc: Global, equation: &Equation) -> Option<Answer> {
    let copy = equation.try_clone(alloc).ok()?;
    told(copy.is_same(equation))
}

/// What the call answers.
pub fn answer_to(alloc: Global, name: &str, given: &str) -> Option<Answer> {
    let equation = equation(alloc, given)?;
    match name {
        "equation_clone" => equation_copied(alloc, &equation),
        "clone" => rule_copied(alloc, &rule_of(equation)),
        _ => of_one(alloc, name, rule_of(equation)),
    }
}
