//! The pairs of a hypothesis, and those of the example's rules and a hypothesis.
use crate::example::rules;
use rx_pairs::{Pair, all_pairs, have_roots, pairs_of};
use rx_plain::NoMemory;
use rx_poly::Poly;
use rx_term::{Rule, RuleSet};
use rx_text::{push_natural, push_poly, push_word};
use std::alloc::Global;
use test_lines::{Answer, push_each, push_list, written};

fn push_arg(arg: &Poly, out: &mut Vec<u8>) -> Result<(), NoMemory> {
    push_poly(out, arg)
}

// The right side: the symbol, and its arguments.
fn push_pair(pair: &Pair, out: &mut Vec<u8>) -> Result<(), NoMemory> {
    push_word(out, b"s")?;
    push_natural(out, pair.right.0)?;
    push_each(pair.right_args.as_slice(), out, push_arg)
}

// How many pairs there are, and the right side of each.
fn listed(alloc: Global, pairs: &[Pair]) -> Option<Answer> {
    written(alloc, |out| push_list(pairs, out, push_pair))
}

fn made(alloc: Global, rule: &Rule) -> Option<Answer> {
    if rule.left.is_result() {
        return None;
    }
    let pairs = pairs_of(alloc, rule).ok()?;
    listed(alloc, pairs.as_slice())
}

// How many pairs there are.
fn count(alloc: Global, set: &RuleSet, hypotheses: &[Rule]) -> Option<Answer> {
    if !have_roots(set.rules()) || !have_roots(hypotheses) {
        return None;
    }
    let pairs = all_pairs(alloc, set.rules(), hypotheses).ok()?;
    Some(Answer::Number(pairs.len() as i128))
}

fn counted(alloc: Global, hypotheses: &[Rule]) -> Option<Answer> {
    let set = rules(alloc)?;
    count(alloc, &set, hypotheses)
}

/// What the call answers, given hypotheses: `made` is that of the first.
pub fn answer_to(alloc: Global, name: &str, given: &str) -> Option<Answer> {
    let hypotheses = test_lines::rules(alloc, given)?;
    match name {
        "made" => made(alloc, hypotheses.as_slice().first()?),
        "all_made" => counted(alloc, hypotheses.as_slice()),
        _ => None,
    }
}
