//! Lemmas of a goal: the goal with its constants named, and those that drop or replace values.
use crate::lemma_answer::ended;
use rx_fm::FmEnd;
use rx_lemma::{Generalised, LemmaKind, lemmas, named};
use rx_pairs::loops_of;
use rx_plain::NoMemory;
use rx_row::Constraint;
use rx_solve::refutes;
use rx_term::{Equation, RuleSet};
use rx_text::{push_natural, push_word};
use rx_words::push_subst;
use std::alloc::Global;
use test_lines::{Answer, equation, nothing, push_goal, push_list, written};

/// There are no more symbols than this.
const MOST_SYMBOLS: usize = 1 << 32;

// The number of the choice by which a search takes the lemma.
fn choice_of(kind: LemmaKind) -> u32 {
    match kind {
        LemmaKind::NameConstants => 0,
        LemmaKind::DropValues => 6,
        LemmaKind::ReplaceRepeated => 7,
    }
}

// The choice, the new goal, and what makes it into the old one.
fn push_lemma(lemma: &Generalised, out: &mut Vec<u8>) -> Result<(), NoMemory> {
    push_natural(out, choice_of(lemma.kind))?;
    push_word(out, b" ")?;
    push_goal(&lemma.goal, out)?;
    push_word(out, b" ")?;
    push_subst(lemma.subst.as_slice(), out)
}

// The goal with its constants named.
fn naming_of(alloc: Global, set: &RuleSet, goal: &Equation) -> Option<Answer> {
    let parts = set.parts();
    if parts.symbols.len() > MOST_SYMBOLS {
        return None;
    }
    let loops = loops_of(alloc, parts).ok()?;
    match named(alloc, goal, set, &loops) {
        Ok(Some(found)) => written(alloc, |out| push_lemma(&found, out)),
        Ok(None) => nothing(),
        Err(end) => ended(FmEnd::from(end)),
    }
}

// Lemmas in order.
fn listed(alloc: Global, lemmas: &[Generalised]) -> Option<Answer> {
    written(alloc, |out| push_list(lemmas, out, push_lemma))
}

// The lemmas of a goal.
fn lemmas_of(alloc: Global, set: &RuleSet, goal: &Equation) -> Option<Answer> {
    let mut solve = |rows: &Constraint| refutes(alloc, rows);
    match lemmas(alloc, goal, set, &mut solve) {
        Ok(found) => listed(alloc, found.as_slice()),
        Err(end) => ended(end),
    }
}

/// What the call on a goal answers; none where the line can't be read, or there is no memory.
pub fn answer_to(alloc: Global, set: &RuleSet, call: &str, goal: &str) -> Option<Answer> {
    let goal = equation(alloc, goal)?;
    match call {
        "named" => naming_of(alloc, set, &goal),
        "lemmas" => lemmas_of(alloc, set, &goal),
        _ => None,
    }
}
