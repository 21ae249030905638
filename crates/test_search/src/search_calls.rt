//! The calls of a search on a rule set: covers and ranks.
ghost use Rattle.std.specs.Prelude.{◌↔◌};
ghost use Rattle.std.specs.Bool.{IsTrue};
ghost use Rattle.std.specs.List.{All};
ghost use Rattle.rx_pairs.specs.Pairs.{SidesFit};

use crate::found_answer::ended;
use crate::found_printing::{push_cover, push_lowering, push_table};
use rx_find_cover::find_cover;
use rx_find_ranks::{Ranking, find_ranks};
use rx_fm::FmEnd;
use rx_pairs::have_roots;
use rx_rank::RankingKind;
use rx_row::Constraint;
use rx_solve::refutes;
use rx_term::{Rule, RuleSet};
use std::alloc::Global;
use test_lines::{Answer, nothing, rules, written};

// What is found of covers.
fn cover(alloc: Global, set: &RuleSet) -> Option<Answer> {
    let mut solve = |rows: &Constraint| refutes(alloc, rows);
    match find_cover(alloc, set, &mut solve) {
        Ok(Some(cover)) => written(alloc, |out| push_cover(&cover, out)),
        Ok(None) => nothing(),
        Err(end) => ended(end),
    }
}

/// Whether both sides of the rule fit the set.
fn has_fitting_sides(set: &RuleSet, rule: &Rule) -> bool
    ensures { IsTrue result ↔ SidesFit set.now rule.now }
{
    set.fits(&rule.left) && set.fits(&rule.right)
}

/// Whether both sides of each rule fit the set.
fn have_fitting_sides(set: &RuleSet, rules: &[Rule]) -> bool
    ensures { IsTrue result ↔ All (SidesFit set.now) rules.now }
{
    for rule in rules {
        if !has_fitting_sides(set, rule) {
            return false;
        }
    }
    true
}

// What the plain ranking finds under these hypotheses; none where they don't fit the set.
fn ranked(
    alloc: Global,
    set: &RuleSet,
    hypotheses: &[Rule],
) -> Option<Result<Option<Ranking>, FmEnd>> {
    if !have_roots(hypotheses) || !have_fitting_sides(set, hypotheses) {
        return None;
    }
    let mut solve = |rows: &Constraint| refutes(alloc, rows);
    let plain = RankingKind::Plain;
    Some(find_ranks(alloc, plain, set, hypotheses, &mut solve))
}

fn ranking(alloc: Global, set: &RuleSet, given: &str) -> Option<Result<Option<Ranking>, FmEnd>> {
    let hypotheses = rules(alloc, given)?;
    ranked(alloc, set, hypotheses.as_slice())
}

// The ranks that are found under these hypotheses.
fn ranks(alloc: Global, set: &RuleSet, hypotheses: &str) -> Option<Answer> {
    match ranking(alloc, set, hypotheses)? {
        Ok(Some(found)) => written(alloc, |out| push_table(&found, out)),
        Ok(None) => nothing(),
        Err(end) => ended(end),
    }
}

// Why the pairs are lower by the ranks that are found.
fn lowers(alloc: Global, set: &RuleSet, hypotheses: &str) -> Option<Answer> {
    match ranking(alloc, set, hypotheses)? {
        Ok(Some(found)) => written(alloc, |out| push_lowering(&found, out)),
        Ok(None) => nothing(),
        Err(end) => ended(end),
    }
}

/// What the call on the rule set answers; none where the line can't be read, or there is no memory.
pub fn answer_to(alloc: Global, set: &RuleSet, call: &str, given: &str) -> Option<Answer> {
    match call {
        "cover" => cover(alloc, set),
        "ranks" => ranks(alloc, set, given),
        "lowers" => lowers(alloc, set, given),
        _ => None,
    }
}
