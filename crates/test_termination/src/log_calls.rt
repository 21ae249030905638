//! The calls that examine the covers and the pairs of a log on a rule set.
use crate::log_parts::{lists, ranking_of};
use rx_cover::{CoverEnd, covers};
use rx_pairs::{PairEnd, decreases, have_roots};
use rx_plain::NoMemory;
use rx_term::{Rule, RuleSet};
use rx_text::push_word;
use rx_words::push_count;
use std::alloc::Global;
use test_lines::{Answer, rules};

fn push_numbered(word: &[u8], number: usize, out: &mut Vec<u8>) -> Result<(), NoMemory> {
    push_word(out, word)?;
    push_count(out, number)
}

// A word and a number.
fn numbered(alloc: Global, word: &[u8], number: usize) -> Option<Answer> {
    let mut out = Vec::new(alloc);
    push_numbered(word, number, &mut out).ok()?;
    Some(Answer::Text(out))
}

/// What is said of lists of trees: `covered`, or the first symbol that isn't or passes the limits.
pub fn covered(alloc: Global, set: &RuleSet, given: &str) -> Option<Answer> {
    let lists = lists(alloc, given)?;
    match covers(alloc, set, lists.as_slice()) {
        Ok(()) => Some(Answer::Word("covered")),
        Err(CoverEnd::NotCovered(symbol)) => numbered(alloc, b"s", symbol),
        Err(CoverEnd::Large(symbol)) => numbered(alloc, b"large s", symbol),
        Err(CoverEnd::NoMemory) => None,
    }
}

// What is said of ranks and pairs.
fn said(alloc: Global, answer: Result<(), PairEnd>) -> Option<Answer> {
    match answer {
        Ok(()) => Some(Answer::Word("lower")),
        Err(PairEnd::BadRanks(symbol)) => numbered(alloc, b"ranks s", symbol),
        Err(PairEnd::NotLower(pair)) => numbered(alloc, b"pair ", pair),
        Err(PairEnd::Large(pair)) => numbered(alloc, b"large pair ", pair),
        Err(PairEnd::NoMemory) => None,
    }
}

// What is said of the ranks and certificates of a text under hypotheses that have roots.
fn lowered_with(alloc: Global, set: &RuleSet, hypotheses: &[Rule], text: &str) -> Option<Answer> {
    if !have_roots(hypotheses) {
        return None;
    }
    let by = ranking_of(alloc, text)?;
    said(
        alloc,
        decreases(alloc, set, hypotheses, &by.table, by.pairs.as_slice()),
    )
}

/// What is said of ranks and certificates under hypotheses: `lower`, the first symbol whose rank
/// isn't lawful, or the first pair that isn't lower or passes the limits.
pub fn lowered(alloc: Global, set: &RuleSet, given: &str) -> Option<Answer> {
    let (hypotheses, rest) = given.split_once(" | ")?;
    let hypotheses = rules(alloc, hypotheses)?;
    lowered_with(alloc, set, hypotheses.as_slice(), rest)
}
