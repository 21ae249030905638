//! What a replay keeps of the checks between two lines of a log, and what each line makes of it.
ghost use Rattle.std.specs.Prelude.{◌≡◌, ◌+◌, All, IfOk, OnErr, OnOk};
ghost use Rattle.rx_check.specs.LineByLine.{Ends, Judged, Judges};
ghost use Rattle.rx_inference.specs.States.{applied};
ghost use Rattle.rx_log.specs.Acceptance.{after_step};
ghost use Rattle.rx_pairs.specs.Pairs.{HasRoot};
ghost use Rattle.rx_term.specs.declared.rule_set.RuleParts.{RuleParts};

use crate::check_end::{CheckEnd, LimitAt};
use crate::outcomes::{
    bad_rank_at, check_cover, check_pair, count_after, failure_of, missing_cover, step_outcome,
};
use rx_cover::CoverTree;
use rx_log::{Line, LineState};
use rx_pairs::{Listing, PairCert, RankTable, listed_pairs};
use rx_plain::{Items, NoMemory};
use rx_poly::Poly;
use rx_steps::{State, Step, apply_owned};
use rx_term::RuleSet;
use std::alloc::Global;

/// What is kept of the checks, as far as no line has failed.
#[derive(Drop)]
pub struct Progress {
    /// The state after the steps so far.
    pub state: State,
    /// How many steps there were.
    pub steps: usize,
    /// The ranks so far.
    pub table: RankTable,
    /// The pairs that have to be lower, from the line on that begins the ranks.
    pub listing: Listing,
    /// How many of them are.
    pub lower: usize,
}

/// The trees of the next symbol, examined.
fn judge_cover(
    alloc: Global,
    rules: &RuleSet,
    place: LineState,
    trees: &[CoverTree],
) -> Result<Option<CheckEnd>, NoMemory>
    ensures { (progress : Progress) →
        Judges rules.now place (Line.Cover trees.now) progress progress result }
{
    match place {
        LineState::InCovers(next) => failure_of(check_cover(alloc, rules, next as usize, trees)),
        _ => Ok(None),
    }
}

impl Progress {
    /// Takes a step and counts it. Where there is no memory, what is kept stays as it was.
    fn take_counted(
        &mut self,
        alloc: Global,
        rules: &RuleSet,
        step: Step,
    ) -> Result<Option<CheckEnd>, NoMemory>
        requires roots { All HasRoot self.old.state.hypotheses }
        ensures counted { OnOk result (self.new.steps ≡ self.old.steps + 1) }
        ensures table { self.new.table ≡ self.old.table }
        ensures ends { IfOk result (λ failure. Ends failure self.new.state
            (after_step self.old.steps (applied rules.now self.old.state step))) }
        ensures err { OnErr result (self.new ≡ self.old) }
        ensures roots { All HasRoot self.new.state.hypotheses }
    {
        let next = count_after(self.steps)?;
        let outcome = apply_owned(alloc, &mut self.state, rules, step);
        let failure = failure_of(step_outcome(self.steps, outcome))?;
        self.steps = next;
        Ok(failure)
    }

    /// Takes a step. The first asks whether all symbols are covered.
    fn take(
        &mut self,
        alloc: Global,
        rules: &RuleSet,
        place: LineState,
        step: Step,
    ) -> Result<Option<CheckEnd>, NoMemory>
        requires roots { All HasRoot self.old.state.hypotheses }
        ensures judges { Judges rules.now place (Line.Step step) self.old self.new result }
        ensures roots { All HasRoot self.new.state.hypotheses }
    {
        if let Some(end) = missing_cover(rules, place) {
            return Ok(Some(end));
        }
        self.take_counted(alloc, rules, step)
    }

    /// Begins the ranks: asks whether all symbols are covered and whether goals are left, and makes
    /// the pairs that have to be lower.
    fn begin_ranks(
        &mut self,
        alloc: Global,
        rules: &RuleSet,
        place: LineState,
        columns: u32,
    ) -> Result<Option<CheckEnd>, NoMemory>
        requires roots { All HasRoot self.old.state.hypotheses }
        ensures judges { Judges rules.now place (Line.Ranks columns) self.old self.new result }
        ensures state { self.new.state ≡ self.old.state }
    {
        if let Some(end) = missing_cover(rules, place) {
            return Ok(Some(end));
        }
        let goals = self.state.goals();
        if goals > 0 {
            return Ok(Some(CheckEnd::Unfinished { goals }));
        }
        self.listing = listed_pairs(alloc, rules, self.state.hypotheses())?;
        self.lower = 0;
        self.table.columns = columns;
        Ok(None)
    }

    /// Keeps the rank of the next symbol.
    fn push_rank(&mut self, rank: Items<Poly>) -> Result<Option<CheckEnd>, NoMemory>
        ensures judges { (parts : RuleParts) (place : LineState) →
            Judges parts place (Line.Rank rank) self.old self.new result }
        ensures state { self.new.state ≡ self.old.state }
    {
        self.table.ranks.push(rank)?;
        Ok(None)
    }

    /// Asks whether the next pair is lower. The first asks whether the ranks are lawful.
    fn judge_pair(
        &mut self,
        alloc: Global,
        rules: &RuleSet,
        place: LineState,
        cert: &PairCert,
    ) -> Result<Option<CheckEnd>, NoMemory>
        ensures judges { Judges rules.now place (Line.Pair cert.now) self.old self.new result }
        ensures state { self.new.state ≡ self.old.state }
    {
        if let Some(end) = bad_rank_at(rules, place, &self.table) {
            return Ok(Some(end));
        }
        let next = count_after(self.lower)?;
        let outcome = check_pair(alloc, &self.listing, self.lower, &self.table, cert);
        let failure = failure_of(outcome)?;
        self.lower = next;
        Ok(failure)
    }

    /// Asks whether pairs are left, and before the first pair whether the ranks are lawful.
    fn judge_end(&self, rules: &RuleSet, place: LineState) -> Option<CheckEnd>
        ensures { Judged rules.now place Line.End self.now self.now result }
    {
        if let Some(end) = bad_rank_at(rules, place, &self.table) {
            return Some(end);
        }
        if self.lower < self.listing.pairs.len() {
            return Some(CheckEnd::NotLower { pair: self.lower });
        }
        if !self.listing.whole {
            return Some(CheckEnd::Large {
                place: LimitAt::Pair(self.lower),
            });
        }
        None
    }

    /// The failure of the line that comes next at the place, if it fails. Where there is no memory,
    /// what is kept stays as it was.
    pub(crate) fn judge(
        &mut self,
        alloc: Global,
        rules: &RuleSet,
        place: LineState,
        line: Line,
    ) -> Result<Option<CheckEnd>, NoMemory>
        requires roots { All HasRoot self.old.state.hypotheses }
        ensures judges { Judges rules.now place line self.old self.new result }
        ensures roots { All HasRoot self.new.state.hypotheses }
    {
        match line {
            Line::Header | Line::Header2 | Line::Domain(_) | Line::Keep(_) => Ok(None),
            Line::Cover(trees) => judge_cover(alloc, rules, place, trees.as_slice()),
            Line::Step(step) => self.take(alloc, rules, place, step),
            Line::Ranks(columns) => self.begin_ranks(alloc, rules, place, columns),
            Line::Rank(rank) => self.push_rank(rank),
            Line::Pair(cert) => self.judge_pair(alloc, rules, place, &cert),
            Line::End => Ok(self.judge_end(rules, place)),
        }
    }
}
