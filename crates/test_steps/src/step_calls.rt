//! What a step makes of a goal, over a rule set or by hypotheses.
use crate::steps::step;
use rx_inference::{Asked, FormEnd, FormedStep, Group, form};
use rx_plain::Items;
use rx_term::{Equation, Rule, RuleParts, RuleSet};
use rx_text::{push_row, push_word};
use rx_words::{NoMemory, push_count};
use std::alloc::Global;
use test_lines::{
    Answer, SEMICOLON, equation, push_each, push_goal, push_rule, rules, six_symbols, written,
};

/// Why the step isn't formed; out of memory is none that a line could want.
pub(crate) fn ended(end: FormEnd) -> Option<Answer> {
    match end {
        FormEnd::NoGoal => Some(Answer::Word("no-goal")),
        FormEnd::WrongShape => Some(Answer::Word("wrong-shape")),
        FormEnd::NoSuchRule => Some(Answer::Word("no-such-rule")),
        FormEnd::Large => Some(Answer::Word("large")),
        FormEnd::NoMemory => None,
    }
}

// How many rows the groups ask.
fn count_rows(groups: &[Group]) -> usize {
    let mut count: usize = 0;
    for group in groups {
        count = count.saturating_add(group.rows.len());
    }
    count
}

// The rows of all groups, how many and then each.
fn push_asked(out: &mut Vec<u8>, groups: &[Group]) -> Result<(), NoMemory> {
    push_count(out, count_rows(groups))?;
    for group in groups {
        push_each(group.rows.as_slice(), out, |row, out| push_row(out, row))?;
    }
    Ok(())
}

// The groups of rows that the step asks, if there are some.
fn asked_groups(formed: &FormedStep) -> &[Group] {
    match &formed.asked {
        Asked::Rows(groups) => groups.as_slice(),
        Asked::Refuted => &[],
    }
}

// The goals, and then the hypotheses.
fn push_made(out: &mut Vec<u8>, goals: &[Equation], kept: &[Rule]) -> Result<(), NoMemory> {
    push_count(out, goals.len().saturating_add(kept.len()))?;
    push_each(goals, out, |goal, out| push_goal(goal, out))?;
    push_each(kept, out, |rule, out| push_rule(rule, out))
}

fn push_formed(out: &mut Vec<u8>, formed: &FormedStep) -> Result<(), NoMemory> {
    push_asked(out, asked_groups(formed))?;
    push_word(out, b" ")?;
    push_made(out, formed.goals.as_slice(), formed.kept.as_slice())
}

// The rows that the step asks, and its goals and hypotheses in order.
fn answered(alloc: Global, formed: &FormedStep) -> Option<Answer> {
    match &formed.asked {
        Asked::Refuted => Some(Answer::Word("refuted")),
        Asked::Rows(_) => written(alloc, |out| push_formed(out, formed)),
    }
}

fn said(alloc: Global, answer: Result<FormedStep, FormEnd>) -> Option<Answer> {
    match answer {
        Ok(formed) => answered(alloc, &formed),
        Err(end) => ended(end),
    }
}

// What is formed of the goal by the step.
fn formed(
    alloc: Global,
    set: &RuleSet,
    hypotheses: &[Rule],
    goal: &Equation,
    words: &str,
) -> Option<Result<FormedStep, FormEnd>> {
    let step = step(alloc, words)?;
    Some(form(alloc, set, Some(goal), hypotheses, &step))
}

fn answer_over(
    alloc: Global,
    set: &RuleSet,
    hypotheses: &[Rule],
    goal: &str,
    words: &str,
) -> Option<Answer> {
    let goal = equation(alloc, goal)?;
    said(alloc, formed(alloc, set, hypotheses, &goal, words)?)
}

// The set of these rules. The symbols are s0 to s5, and the greatest failure code is 2.
fn set_of(alloc: Global, rules: Items<Rule>) -> Option<RuleSet> {
    let symbols = six_symbols(alloc)?;
    RuleSet::from_parts(RuleParts {
        symbols,
        domains: Items::new(alloc),
        rules,
        fails: 2,
    })
}

// A step over the set of these rules.
fn over_set(alloc: Global, given: &str, goal: &str, words: &str) -> Option<Answer> {
    let set = set_of(alloc, rules(alloc, given)?)?;
    answer_over(alloc, &set, &[], goal, words)
}

// A step by these hypotheses, over the set without rules.
fn without_rules(alloc: Global, hypotheses: &[Rule], goal: &str, words: &str) -> Option<Answer> {
    let set = set_of(alloc, Items::new(alloc))?;
    answer_over(alloc, &set, hypotheses, goal, words)
}

// A use of one of these hypotheses.
fn by_hypotheses(alloc: Global, given: &str, goal: &str, words: &str) -> Option<Answer> {
    let hypotheses = rules(alloc, given)?;
    without_rules(alloc, hypotheses.as_slice(), goal, words)
}

// What a step makes of a goal.
fn answer_of(alloc: Global, call: &str, given: &str, goal: &str, words: &str) -> Option<Answer> {
    match call {
        "step.use" => by_hypotheses(alloc, given, goal, words),
        "step.form" => over_set(alloc, given, goal, words),
        _ => None,
    }
}

/// What the step answers, which is given last, after the goal: `step.use` is that of a hypothesis,
/// and then hypotheses are given first, not rules. None where the line can't be read, or there is
/// no memory.
pub fn answer_to(alloc: Global, call: &str, given: &str) -> Option<Answer> {
    let (rules, rest) = given.split_once(SEMICOLON)?;
    let (goal, words) = rest.split_once(SEMICOLON)?;
    answer_of(alloc, call, rules, goal, words)
}
