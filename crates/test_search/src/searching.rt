//! Searches by the refuter: what each comes to, how often it asks the refuter and for lemmas, and
//! whether it comes to the same bytes whatever a cache holds and however many nodes are kept.
ghost use Rattle.std.specs.Prelude.{◌≡◌, ◌≤◌, [], true};
ghost use Rattle.std.specs.Bool.{IsTrue};
ghost use Rattle.rx_find_cover.specs.Coverable.{is_coverable};
ghost use Rattle.rx_proofs.specs.Goals.{IsFitting};

use crate::by_solver::{MOST_KEPT, Task, lemmas_by, searched_by};
use crate::caching::search_after;
use crate::ends::word;
use rx_find_cover::find_cover;
use rx_row::Constraint;
use rx_solve::refutes;
use rx_term::{Equation, RuleSet};
use std::alloc::Global;

/// Whether trees are found that cover the set.
pub fn is_covered(alloc: Global, set: &RuleSet) -> bool
    ensures { IsTrue result → is_coverable set.now ≡ true }
{
    let mut solve = |rows: &Constraint| refutes(alloc, rows);
    match find_cover(alloc, set, &mut solve) {
        Ok(Some(_)) => true,
        _ => false,
    }
}

/// Whether both sides of the goal fit the set.
pub fn is_fitting(set: &RuleSet, goal: &Equation) -> bool
    ensures { IsTrue result → IsFitting set.now goal.now }
{
    set.fits(&goal.left) && set.fits(&goal.right)
}

/// Whether no symbol of the set has a domain.
pub fn is_without_domains(set: &RuleSet) -> bool
    ensures { IsTrue result → set.now.domains ≡ [] }
{
    set.parts().domains.is_empty()
}

// What the search comes to by the refuter, where it keeps at most `most_kept` nodes.
fn by_refuter(alloc: Global, set: &RuleSet, task: &Task, most_kept: usize) -> Option<Vec<u8>>
    requires no_domains { set.now.domains ≡ [] }
    requires coverable { is_coverable set.now ≡ true }
    requires fits { IsFitting set.now task.now.goal }
    requires depth { task.now.depth ≤ 12 }
{
    let solve = |rows: &Constraint| refutes(alloc, rows);
    searched_by(alloc, set, task, most_kept, solve)
}

/// How often the search asks the refuter; none where memory ran out.
pub fn calls_of(alloc: Global, set: &RuleSet, task: &Task) -> Option<u64>
    requires no_domains { set.now.domains ≡ [] }
    requires coverable { is_coverable set.now ≡ true }
    requires fits { IsFitting set.now task.now.goal }
    requires depth { task.now.depth ≤ 12 }
{
    let mut calls = 0u64;
    let solve = |rows: &Constraint| {
        calls = calls.saturating_add(1);
        refutes(alloc, rows)
    };
    searched_by(alloc, set, task, MOST_KEPT, solve)?;
    Some(calls)
}

/// How often the search asks for the lemmas of a goal, where it keeps one node; none where memory
/// ran out.
pub fn lemmas_of(alloc: Global, set: &RuleSet, task: &Task) -> Option<usize>
    requires no_domains { set.now.domains ≡ [] }
    requires coverable { is_coverable set.now ≡ true }
    requires fits { IsFitting set.now task.now.goal }
    requires depth { task.now.depth ≤ 12 }
{
    let solve = |rows: &Constraint| refutes(alloc, rows);
    lemmas_by(alloc, set, task, solve)
}

/// What the search comes to.
pub fn searched(alloc: Global, set: &RuleSet, task: &Task) -> Option<Vec<u8>>
    requires no_domains { set.now.domains ≡ [] }
    requires coverable { is_coverable set.now ≡ true }
    requires fits { IsFitting set.now task.now.goal }
    requires depth { task.now.depth ≤ 12 }
{
    by_refuter(alloc, set, task, MOST_KEPT)
}

// Whether the search that keeps at most `most_kept` nodes comes to this text.
fn is_kept(alloc: Global, set: &RuleSet, task: &Task, most_kept: usize, text: &[u8]) -> bool
    requires no_domains { set.now.domains ≡ [] }
    requires coverable { is_coverable set.now ≡ true }
    requires fits { IsFitting set.now task.now.goal }
    requires depth { task.now.depth ≤ 12 }
{
    match by_refuter(alloc, set, task, most_kept) {
        Some(found) => found.as_slice() == text,
        None => false,
    }
}

/// What searches come to that keep 1, 4 and 65,536 nodes, where that is the same; otherwise the
/// word `differ`.
pub fn kept(alloc: Global, set: &RuleSet, task: &Task) -> Option<Vec<u8>>
    requires no_domains { set.now.domains ≡ [] }
    requires coverable { is_coverable set.now ≡ true }
    requires fits { IsFitting set.now task.now.goal }
    requires depth { task.now.depth ≤ 12 }
{
    let text = by_refuter(alloc, set, task, 1)?;
    if is_kept(alloc, set, task, 4, &text) && is_kept(alloc, set, task, 65_536, &text) {
        return Some(text);
    }
    word(alloc, b"differ")
}

// Whether the search behind a cache that holds `capacity` answers comes to this text.
fn is_cached(alloc: Global, set: &RuleSet, task: &Task, capacity: u32, text: &[u8]) -> bool
    requires no_domains { set.now.domains ≡ [] }
    requires coverable { is_coverable set.now ≡ true }
    requires fits { IsFitting set.now task.now.goal }
    requires depth { task.now.depth ≤ 12 }
    requires low { 1 ≤ capacity }
    requires high { capacity ≤ 65536 }
{
    match search_after(alloc, set, task, capacity) {
        Some(found) => found.as_slice() == text,
        None => false,
    }
}

/// What searches come to by the refuter behind caches that hold 1, 16 and 4,096 answers, where that
/// is the same; otherwise the word `differ`.
pub fn cached(alloc: Global, set: &RuleSet, task: &Task) -> Option<Vec<u8>>
    requires no_domains { set.now.domains ≡ [] }
    requires coverable { is_coverable set.now ≡ true }
    requires fits { IsFitting set.now task.now.goal }
    requires depth { task.now.depth ≤ 12 }
{
    let text = search_after(alloc, set, task, 1)?;
    if is_cached(alloc, set, task, 16, &text) && is_cached(alloc, set, task, 4096, &text) {
        return Some(text);
    }
    word(alloc, b"differ")
}
