//! The replay of a log line by line, as it is read: the lines aren't kept.
ghost use Rattle.std.specs.Prelude.{◌≡◌, ◌≢◌, [], ◌∷◌, ◌++◌, ℕ, ℤ, None, Some, Err, All, List};
ghost use Rattle.std.specs.Prelude.{OnOk, OnErr, IfErr, IfOk};
ghost use Rattle.rx_check.specs.Answers.{Answers};
ghost use Rattle.rx_check.specs.Replay.{HasRoots, IsNoDomain, JudgesLine, MayLead, StandsFor};
ghost use Rattle.rx_check.specs.Replay.{log_of, place_after};
ghost use Rattle.rx_check.specs.Whole.{HasWidths, Replays, front_of};
ghost use Rattle.rx_proofs.specs.Goals.{Fitting, IsFitting};
ghost use Rattle.rx_log.specs.Places.{after};
ghost use Rattle.rx_log.specs.Reading.{pushed};
ghost use Rattle.rx_log.specs.declared.log.Log.{Log};
ghost use Rattle.rx_rewriting.specs.Premises.{HaveConvertibleNormalForms};
ghost use Rattle.rx_row.specs.Holds.{AllHold};
ghost use Rattle.rx_term.specs.Meaning.{Instance, ground_at};
ghost use Rattle.rx_term.specs.declared.rule.Equation.{Equation};
ghost use Rattle.rx_term.specs.declared.rule_set.RuleParts.{RuleParts};

use crate::check_end::CheckEnd;
use crate::inside::{DomainProgress, Held, judge_inside, let_go};
use crate::outcomes::failure_of;
use crate::progress::Progress;
use rx_domain::set_domains;
use rx_log::{Line, LineState, Log};
use rx_pairs::{Listing, RankTable, bad_ranks};
use rx_plain::{Items, NoMemory};
use rx_row::Constraint;
use rx_steps::State;
use rx_term::{Equation, RuleSet};
use std::alloc::Global;

/// What is kept of a log that is replayed line by line: the place in the order of lines, the rules
/// with its domains, the proof state, the ranks, the pairs, and the first failure.
#[derive(Drop)]
pub struct Replayer {
    // Which lines may come next.
    place: LineState,
    // What is kept of domains; of no use after a failure.
    domains: DomainProgress,
    // What is kept of the checks; of no use after a failure.
    progress: Progress,
    // The first failure.
    failure: Option<CheckEnd>,
}

impl Replayer {
    /// What is kept before the first line, for the goal and any rules.
    pub fn start(alloc: Global, goal: Equation) -> Result<Replayer, NoMemory>
        ensures stands { IfOk result (λ replayer.
            (parts : RuleParts) → StandsFor replayer parts goal []) }
        ensures place { IfOk result (λ replayer. place_after replayer ≡ LineState.AtHeader) }
        ensures roots { IfOk result HasRoots }
    {
        let state = State::start(alloc, goal)?;
        let table = RankTable {
            columns: 1,
            ranks: Items::new(alloc),
        };
        let progress = Progress {
            state,
            steps: 0,
            table,
            listing: Listing {
                pairs: Items::new(alloc),
                whole: true,
            },
            lower: 0,
        };
        let domains = DomainProgress {
            rows: Items::new(alloc),
            held: Held { set: None },
            kept: 0,
        };
        Ok(Replayer {
            place: LineState::AtHeader,
            domains,
            progress,
            failure: None,
        })
    }

    /// Keeps the domain of the next symbol.
    fn push_domain(&mut self, alloc: Global, rows: &Constraint) -> Result<(), NoMemory>
        ensures ok { OnOk result (self.new ≡ record self.old {
          domains =
              record self.old.domains { rows = self.old.domains.rows ++ rows.now ∷ [] };
        }) }
        ensures err { OnErr result (self.new ≡ self.old) }
    {
        self.domains.rows.push(rows.try_clone(alloc)?)?;
        Ok(())
    }

    /// Judges the first line after the domains: makes the rules with them before.
    fn judge_first(&mut self, alloc: Global, rules: &RuleSet, line: Line) -> Result<(), NoMemory>
        requires roots { HasRoots self.old }
        requires open { self.old.failure ≡ None }
        requires domains { (next : ℕ) × (place_after self.old ≡ LineState.InDomains next) }
        requires line { IsNoDomain line }
        ensures judges { OnOk result (JudgesLine rules.now line self.old self.new) }
        ensures place { self.new.place ≡ self.old.place }
        ensures kept { OnErr result (self.new ≡ self.old) }
        ensures roots { HasRoots self.new }
    {
        match set_domains(alloc, rules, self.domains.rows.as_slice()) {
            Ok(set) => {
                let kept = &mut self.domains.kept;
                self.failure = judge_inside(alloc, &set, kept, &mut self.progress, line)?;
                self.domains.held.put(set);
            }
            Err(end) => {
                let_go(line);
                self.failure = failure_of(Err(CheckEnd::from(end)))?;
            }
        }
        Ok(())
    }

    /// Judges a line that comes among the domains.
    fn judge_domain(&mut self, alloc: Global, rules: &RuleSet, line: Line) -> Result<(), NoMemory>
        requires roots { HasRoots self.old }
        requires open { self.old.failure ≡ None }
        requires domains { (next : ℕ) × (place_after self.old ≡ LineState.InDomains next) }
        ensures judges { OnOk result (JudgesLine rules.now line self.old self.new) }
        ensures place { self.new.place ≡ self.old.place }
        ensures kept { OnErr result (self.new ≡ self.old) }
        ensures roots { HasRoots self.new }
    {
        if let Line::Domain(rows) = &line {
            self.push_domain(alloc, rows)?;
            let_go(line);
            return Ok(());
        }
        self.judge_first(alloc, rules, line)
    }

    /// Judges a line that comes after the domains.
    fn judge_behind(&mut self, alloc: Global, rules: &RuleSet, line: Line) -> Result<(), NoMemory>
        requires roots { HasRoots self.old }
        requires open { self.old.failure ≡ None }
        requires keeps { place_after self.old ≡ LineState.InKeeps }
        ensures judges { OnOk result (JudgesLine rules.now line self.old self.new) }
        ensures place { self.new.place ≡ self.old.place }
        ensures kept { OnErr result (self.new ≡ self.old) }
        ensures roots { HasRoots self.new }
    {
        let used = self.domains.held.rules(rules);
        let kept = &mut self.domains.kept;
        self.failure = judge_inside(alloc, used, kept, &mut self.progress, line)?;
        Ok(())
    }

    /// Judges the next line, unless one before it failed.
    fn judge(&mut self, alloc: Global, rules: &RuleSet, line: Line) -> Result<(), NoMemory>
        requires roots { HasRoots self.old }
        ensures judges { OnOk result (JudgesLine rules.now line self.old self.new) }
        ensures place { self.new.place ≡ self.old.place }
        ensures kept { OnErr result (self.new ≡ self.old) }
        ensures roots { HasRoots self.new }
    {
        if self.failure.is_some() {
            let_go(line);
            return Ok(());
        }
        match self.place {
            LineState::AtHeader => {
                let_go(line);
                Ok(())
            }
            LineState::InDomains(_) => self.judge_domain(alloc, rules, line),
            LineState::InKeeps => self.judge_behind(alloc, rules, line),
            place => {
                let used = self.domains.held.rules(rules);
                self.failure = self.progress.judge(alloc, used, place, line)?;
                Ok(())
            }
        }
    }

    /// Takes the next line, which leads to the place `behind`. Once a line has failed, the failure
    /// is kept, and only the place moves on. Fails only where there is no memory, or at more than
    /// 2^64 - 1 steps or pairs; all then stays as it was.
    ///
    /// The line must be one that may come after those so far, and lead there. No kept hypothesis
    /// may have a result as its left side; that is so at the start and after each line.
    pub fn line(
        &mut self,
        alloc: Global,
        rules: &RuleSet,
        line: Line,
        behind: LineState,
    ) -> Result<(), NoMemory>
        requires comes { MayLead (place_after self.old) line behind }
        requires roots { HasRoots self.old }
        ensures stands { OnOk result ((goal : Equation) (its : List (Line × ℕ)) (symbol : ℕ) →
            StandsFor self.old rules.now goal its →
            after (place_after self.old) (line, symbol) ≡ Some behind →
            StandsFor self.new rules.now goal (its ++ (line, symbol) ∷ [])) }
        ensures place { OnOk result (place_after self.new ≡ behind) }
        ensures kept { OnErr result (self.new ≡ self.old) }
        ensures roots { HasRoots self.new }
    {
        self.judge(alloc, rules, line)?;
        self.place = behind;
        Ok(())
    }

    /// The first failure of a log whose covers and steps have come, with the line that begins its
    /// ranks, or else the first symbol without a lawful rank. Takes no memory.
    pub(crate) fn judge_ranks(&self, rules: &RuleSet, log: &Log) -> Result<(), CheckEnd>
        requires { place_after self.now ≡ LineState.InRanks log.now.table.columns 0 }
        ensures fails { IfErr result (λ end. (goal : Equation) →
            Replays self.now rules.now goal (front_of log.now) →
            Answers (Err end) rules.now goal log.now) }
        ensures widths { OnOk result (HasWidths log.now.table.columns log.now.table.ranks) }
    {
        if let Some(end) = self.failure {
            return Err(end);
        }
        match bad_ranks(rules, &log.table) {
            Some(sym) => Err(CheckEnd::BadRanks { sym }),
            None => Ok(()),
        }
    }

    /// Whether the log is accepted: the answer of `replay` on the log that the lines are. Takes no
    /// memory, and never answers NoMemory.
    ///
    /// The last line of a log must have come, and the rules must have no domains.
    pub fn finish(self, rules: &RuleSet) -> Result<(), CheckEnd>
        requires place { place_after self ≡ LineState.Finished }
        requires plain { rules.now.domains ≡ [] }
        ensures exact { (goal : Equation) (its : List (Line × ℕ)) →
            StandsFor self rules.now goal its → Answers result rules.now goal (log_of its) }
        ensures decided { (goal : Equation) (its : List (Line × ℕ)) →
            StandsFor self rules.now goal its → result ≢ Err CheckEnd.NoMemory }
        ensures sound { OnOk result ((goal : Equation) (its : List (Line × ℕ)) →
            StandsFor self rules.now goal its → IsFitting rules.now goal →
            (a : ℕ → ℤ) → AllHold a goal.rows →
            HaveConvertibleNormalForms (Fitting rules.now) (Instance rules.now.rules)
            (ground_at a goal.left) (ground_at a goal.right)) }
    {
        // That the rules are well made is what makes an accepted log a proof.
        let _parts = rules.parts();
        match self.failure {
            Some(end) => Err(end),
            None => Ok(()),
        }
    }
}
