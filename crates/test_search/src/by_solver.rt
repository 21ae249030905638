//! The search for a proof of a goal over a rule set, by any solver and any finder of lemmas.
ghost use Rattle.std.specs.Prelude.{◌≡◌, ◌≤◌, [], true};
ghost use Rattle.rx_find_cover.specs.Coverable.{is_coverable};
ghost use Rattle.rx_find_lemmas.specs.Finders.{FindsLemmas, IsLemmaFinder};
ghost use Rattle.rx_proofs.specs.Goals.{IsFitting};
ghost use Rattle.rx_solve.specs.Answers.{IsSolver};

use crate::ends::text_of;
use rx_cert::Cert;
use rx_find_lemmas::{Lemma, find_lemmas};
use rx_fm::FmEnd;
use rx_plain::Items;
use rx_row::Constraint;
use rx_search::Search;
use rx_term::{Equation, RuleSet};
use std::alloc::Global;

/// As many nodes as a search keeps by itself.
pub const MOST_KEPT: usize = 32_768;

/// A goal, and how far the search for it goes.
#[derive(Drop)]
pub struct Task {
    /// The goal.
    pub goal: Equation,
    /// The most choices on a path.
    pub depth: u32,
    /// The most visits of nodes.
    pub budget: u32,
}

/// The text of what the search comes to by these closures, which keeps at most `most_kept` nodes.
pub fn searched_with<
    S: FnMut(&Constraint) -> Result<Option<Cert>, FmEnd>,
    L: FnMut(&Equation, &RuleSet, &mut S) -> Result<Items<Lemma>, FmEnd>,
>(
    alloc: Global,
    set: &RuleSet,
    task: &Task,
    most_kept: usize,
    solve: S,
    lemma: L,
) -> Option<Vec<u8>>
where
    S: Drop,
    L: Drop,
    requires solver { IsSolver S.FnMut solve }
    requires lemma { IsLemmaFinder S.FnMut L.FnMut lemma }
    requires no_domains { set.now.domains ≡ [] }
    requires coverable { is_coverable set.now ≡ true }
    requires fits { IsFitting set.now task.now.goal }
    requires depth { task.now.depth ≤ 12 }
{
    let mut search = Search::new(solve, lemma).keeping(most_kept);
    let end = search.search(alloc, set, &task.goal, task.depth, task.budget);
    text_of(alloc, end)
}

/// The text of what the search comes to by this solver, which keeps at most `most_kept` nodes.
pub fn searched_by<S: FnMut(&Constraint) -> Result<Option<Cert>, FmEnd>>(
    alloc: Global,
    set: &RuleSet,
    task: &Task,
    most_kept: usize,
    solve: S,
) -> Option<Vec<u8>>
where
    S: Drop,
    requires solver { IsSolver S.FnMut solve }
    requires no_domains { set.now.domains ≡ [] }
    requires coverable { is_coverable set.now ≡ true }
    requires fits { IsFitting set.now task.now.goal }
    requires depth { task.now.depth ≤ 12 }
{
    let lemma = |goal: &Equation, rules: &RuleSet, solve: &mut S| -> Result<Items<Lemma>, FmEnd>
        requires solver { IsSolver S.FnMut solve.old }
        ensures solver { IsSolver S.FnMut solve.new }
        ensures answer { FindsLemmas rules.now goal.now result }
    { find_lemmas(alloc, goal, rules, solve) };
    searched_with(alloc, set, task, most_kept, solve, lemma)
}

/// How often the search by this solver, which keeps one node, asks for the lemmas of a goal; none
/// where memory ran out.
pub fn lemmas_by<S: FnMut(&Constraint) -> Result<Option<Cert>, FmEnd>>(
    alloc: Global,
    set: &RuleSet,
    task: &Task,
    solve: S,
) -> Option<usize>
where
    S: Drop,
    requires solver { IsSolver S.FnMut solve }
    requires no_domains { set.now.domains ≡ [] }
    requires coverable { is_coverable set.now ≡ true }
    requires fits { IsFitting set.now task.now.goal }
    requires depth { task.now.depth ≤ 12 }
{
    let mut calls = 0usize;
    let lemma = |goal: &Equation, rules: &RuleSet, solve: &mut S| -> Result<Items<Lemma>, FmEnd>
        requires solver { IsSolver S.FnMut solve.old }
        ensures solver { IsSolver S.FnMut solve.new }
        ensures answer { FindsLemmas rules.now goal.now result }
    {
        calls = calls.saturating_add(1);
        find_lemmas(alloc, goal, rules, solve)
    };
    searched_with(alloc, set, task, 1, solve, lemma)?;
    Some(calls)
}
