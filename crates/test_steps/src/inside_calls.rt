//! Steps over symbols with domains and no rules: the groups of rows that a step asks, and what comes
//! of it with certificates.
use crate::step_calls::ended;
use crate::steps::step;
use rx_cert::Cert;
use rx_inference::{Asked, FormedStep, Group, Step, Under, form};
use rx_plain::{Items, NoMemory};
use rx_steps::{State, StepEnd, apply, apply_owned};
use rx_term::{Equation, RuleParts, RuleSet};
use rx_text::push_word;
use rx_words::{push_count, push_rows, read_certs};
use std::alloc::Global;
use test_lines::{
    Answer, SEMICOLON, equation, list, push_each, push_goal, push_list, read_constraint,
    six_symbols, whole, written,
};

// The set without rules. The symbols are s0 to s5, and the greatest failure code is 2.
fn set_with(alloc: Global, domains: &str) -> Option<RuleSet> {
    RuleSet::from_parts(RuleParts {
        symbols: six_symbols(alloc)?,
        domains: list(alloc, domains, read_constraint)?,
        rules: Items::new(alloc),
        fails: 2,
    })
}

// Which rows the group is given, and those that it asks.
fn push_group(group: &Group, out: &mut Vec<u8>) -> Result<(), NoMemory> {
    match group.under {
        Under::Goal => push_word(out, b"goal ")?,
        Under::New => push_word(out, b"new ")?,
    }
    push_rows(group.rows.as_slice(), out)
}

fn push_groups(out: &mut Vec<u8>, asked: &Asked) -> Result<(), NoMemory> {
    match asked {
        Asked::Refuted => push_word(out, b"refuted"),
        Asked::Rows(groups) => push_list(groups.as_slice(), out, |group, out| {
            push_group(group, out)
        }),
    }
}

fn push_formed(out: &mut Vec<u8>, formed: &FormedStep) -> Result<(), NoMemory> {
    push_groups(out, &formed.asked)?;
    push_each(formed.goals.as_slice(), out, |goal, out| {
        push_goal(goal, out)
    })
}

// The groups of the step, and its goals.
fn formed(alloc: Global, set: &RuleSet, goal: &Equation, step: &Step) -> Option<Answer> {
    match form(alloc, set, Some(goal), &[], step) {
        Ok(formed) => written(alloc, |out| push_formed(out, &formed)),
        Err(end) => ended(end),
    }
}

// The step with these certificates.
fn certified(step: Step, with: Items<Cert>) -> Option<Step> {
    match step {
        Step::Generalise {
            left,
            right,
            rows,
            subst,
            certs: _,
        } => Some(Step::Generalise {
            left,
            right,
            rows,
            subst,
            certs: with,
        }),
        Step::Postulate {
            left,
            right,
            rows,
            certs: _,
        } => Some(Step::Postulate {
            left,
            right,
            rows,
            certs: with,
        }),
        _ => None,
    }
}

fn push_not_shown(out: &mut Vec<u8>, condition: u32) -> Result<(), NoMemory> {
    push_word(out, b"not-shown ")?;
    push_count(out, condition as usize)
}

// Why the step doesn't apply; out of memory is none that a line could want.
fn refused(alloc: Global, end: StepEnd) -> Option<Answer> {
    match end {
        StepEnd::NoGoal => Some(Answer::Word("no-goal")),
        StepEnd::WrongShape => Some(Answer::Word("wrong-shape")),
        StepEnd::NoSuchRule => Some(Answer::Word("no-such-rule")),
        StepEnd::NotShown { condition } => written(alloc, |out| push_not_shown(out, condition)),
        StepEnd::Large => Some(Answer::Word("large")),
        StepEnd::NoMemory => None,
    }
}

fn said(alloc: Global, answer: Result<(), StepEnd>) -> Option<Answer> {
    match answer {
        Ok(()) => Some(Answer::Word("applies")),
        Err(end) => refused(alloc, end),
    }
}

// What comes of the step with its certificates on the goal alone: of one that is lent, or used up.
fn applied(
    alloc: Global,
    set: &RuleSet,
    goal: Equation,
    words: &str,
    is_lent: bool,
) -> Option<Answer> {
    let (words, certs) = words.split_once(SEMICOLON)?;
    let certs = whole(alloc, certs, |alloc, text, at| read_certs(alloc, text, at))?;
    let step = certified(step(alloc, words)?, certs)?;
    let mut state = State::start(alloc, goal).ok()?;
    let answer = if is_lent {
        apply(alloc, &mut state, set, &step)
    } else {
        apply_owned(alloc, &mut state, set, step)
    };
    said(alloc, answer)
}

fn answer_over(
    alloc: Global,
    set: &RuleSet,
    call: &str,
    goal: Equation,
    words: &str,
) -> Option<Answer> {
    match call {
        "inside.form" => formed(alloc, set, &goal, &step(alloc, words)?),
        "inside.apply" => applied(alloc, set, goal, words, true),
        "inside.owned" => applied(alloc, set, goal, words, false),
        _ => None,
    }
}

/// What the step answers, which is given after the domains of the symbols and the goal:
/// `inside.form` what it asks and makes, and `inside.apply` and `inside.owned`, which are given its
/// certificates last, whether it applies, lent or used up. None where the line can't be read, or
/// there is no memory.
pub fn answer_to(alloc: Global, call: &str, given: &str) -> Option<Answer> {
    let (domains, rest) = given.split_once(SEMICOLON)?;
    let (goal, words) = rest.split_once(SEMICOLON)?;
    let set = set_with(alloc, domains)?;
    answer_over(alloc, &set, call, equation(alloc, goal)?, words)
}
