//! Covers of the example: `all` is given lists of trees, `one` and `copied` a symbol and a list.
use crate::example::rules;
use crate::reading::{lists, trees};
use rx_cover::{CoverEnd, CoverTree, cover_one, covers};
use rx_plain::Items;
use rx_term::RuleSet;
use std::alloc::Global;
use test_lines::Answer;

// Whether all is covered, or the number of the symbol that isn't; out of memory is no answer.
fn said(answer: Result<(), CoverEnd>) -> Option<Answer> {
    match answer {
        Ok(()) => Some(Answer::Word("covered")),
        Err(CoverEnd::NotCovered(symbol)) => Some(Answer::Number(symbol as i128)),
        Err(CoverEnd::Large(_)) => Some(Answer::Word("large")),
        Err(CoverEnd::NoMemory) => None,
    }
}

fn all(alloc: Global, set: &RuleSet, text: &str) -> Option<Answer> {
    let lists = lists(alloc, text)?;
    said(covers(alloc, set, lists.as_slice()))
}

fn one(alloc: Global, set: &RuleSet, symbol: &str, text: &str) -> Option<Answer> {
    let symbol = symbol.parse::<usize>().ok()?;
    let trees = trees(alloc, text)?;
    said(cover_one(alloc, set, symbol, trees.as_slice()))
}

fn copies(alloc: Global, trees: &[CoverTree]) -> Option<Items<CoverTree>> {
    let mut copies = Items::new(alloc);
    for tree in trees {
        copies.push(tree.try_clone(alloc).ok()?).ok()?;
    }
    Some(copies)
}

// What the copies of trees are said to cover.
fn of_copies(alloc: Global, set: &RuleSet, symbol: &str, trees: &[CoverTree]) -> Option<Answer> {
    let symbol = symbol.parse::<usize>().ok()?;
    let copies = copies(alloc, trees)?;
    said(cover_one(alloc, set, symbol, copies.as_slice()))
}

fn copied(alloc: Global, set: &RuleSet, symbol: &str, text: &str) -> Option<Answer> {
    let trees = trees(alloc, text)?;
    of_copies(alloc, set, symbol, trees.as_slice())
}

/// What the call answers.
pub fn answer_to(alloc: Global, name: &str, first: &str, second: &str) -> Option<Answer> {
    let set = rules(alloc)?;
    match name {
        "all" => all(alloc, &set, first),
        "one" => one(alloc, &set, first, second),
        "copied" => copied(alloc, &set, first, second),
        _ => None,
    }
}
