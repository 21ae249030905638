//! Whether a whole log is accepted: its lines are replayed one after the other.
ghost use Rattle.std.specs.Prelude.{◌≡◌, [], ℕ, ℤ, true, length, OnOk};
ghost use Rattle.rx_check.specs.Answers.{Answers};
ghost use Rattle.rx_check.specs.LineByLine.{IsOpen, IsRanked};
ghost use Rattle.rx_check.specs.Replay.{HasRoots, place_after};
ghost use Rattle.rx_check.specs.Whole.{AwaitsCover, HasWidths, IsInside, Replays, domains_alone};
ghost use Rattle.rx_check.specs.Whole.{front_of, with_covers, with_keeps, with_lists, with_pairs};
ghost use Rattle.rx_check.specs.Whole.{with_ranks, with_steps};
ghost use Rattle.rx_proofs.specs.Goals.{Fitting};
ghost use Rattle.rx_log.specs.Reading.{blank};
ghost use Rattle.rx_log.specs.declared.log.Log.{Log};
ghost use Rattle.rx_rewriting.specs.Premises.{HaveConvertibleNormalForms};
ghost use Rattle.rx_row.specs.Holds.{AllHold};
ghost use Rattle.rx_term.specs.Fitting.{term_fits};
ghost use Rattle.rx_term.specs.Meaning.{Instance, ground_at};
ghost use Rattle.rx_term.specs.declared.rule.Equation.{Equation};

use crate::check_end::CheckEnd;
use crate::lines::{cover_line, domain_line, keep_line, pair_line, rank_line, step_line};
use crate::replayer::Replayer;
use rx_cert::Cert;
use rx_cover::CoverTree;
use rx_domain::Domains;
use rx_log::{Line, LineState, Log};
use rx_pairs::PairCert;
use rx_plain::{Items, NoMemory};
use rx_poly::Poly;
use rx_row::Constraint;
use rx_steps::Step;
use rx_term::{Equation, RuleSet};
use std::alloc::Global;

impl Replayer {
    /// Takes the lines of the domains.
    fn take_domains(
        &mut self,
        alloc: Global,
        rules: &RuleSet,
        lists: &[Constraint],
    ) -> Result<(), NoMemory>
        requires place { place_after self.old ≡ LineState.InDomains 0 }
        requires roots { HasRoots self.old }
        ensures takes { OnOk result ((goal : Equation) (log : Log) →
            Replays self.old rules.now goal log →
            Replays self.new rules.now goal (with_lists log lists.now)) }
        ensures at { OnOk result (IsInside (place_after self.new)) }
        ensures roots { OnOk result (HasRoots self.new) }
    {
        for (symbol, rows) in lists.iter().enumerate() {
            let next = domain_line(alloc, rows)?;
            self.line(alloc, rules, next, LineState::InDomains(symbol as u64 + 1))?;
        }
        Ok(())
    }

    /// Takes the lines of the certificates that the domains are kept.
    fn take_keeps(
        &mut self,
        alloc: Global,
        rules: &RuleSet,
        keeps: &[Items<Cert>],
    ) -> Result<(), NoMemory>
        requires at { IsInside (place_after self.old) }
        requires roots { HasRoots self.old }
        ensures takes { OnOk result ((goal : Equation) (log : Log) →
            Replays self.old rules.now goal log →
            Replays self.new rules.now goal (with_keeps log keeps.now)) }
        ensures at { OnOk result (IsInside (place_after self.new)) }
        ensures roots { OnOk result (HasRoots self.new) }
    {
        for certs in keeps {
            let next = keep_line(alloc, certs.as_slice())?;
            self.line(alloc, rules, next, LineState::InKeeps)?;
        }
        Ok(())
    }

    /// Takes the first line, and those of domains if there are any.
    fn take_begin(
        &mut self,
        alloc: Global,
        rules: &RuleSet,
        domains: &Option<Domains>,
    ) -> Result<(), NoMemory>
        requires place { place_after self.old ≡ LineState.AtHeader }
        requires roots { HasRoots self.old }
        ensures takes { OnOk result ((goal : Equation) → Replays self.old rules.now goal blank →
            Replays self.new rules.now goal (domains_alone domains.now)) }
        ensures at { OnOk result (AwaitsCover 0 (place_after self.new)) }
        ensures roots { OnOk result (HasRoots self.new) }
    {
        let Some(all) = domains else {
            self.line(alloc, rules, Line::Header, LineState::InCovers(0))?;
            return Ok(());
        };
        self.line(alloc, rules, Line::Header2, LineState::InDomains(0))?;
        self.take_domains(alloc, rules, all.rows.as_slice())?;
        self.take_keeps(alloc, rules, all.keeps.as_slice())?;
        Ok(())
    }

    /// Takes the lines of the covers.
    fn take_covers(
        &mut self,
        alloc: Global,
        rules: &RuleSet,
        covers: &[Items<CoverTree>],
    ) -> Result<(), NoMemory>
        requires at { AwaitsCover 0 (place_after self.old) }
        requires roots { HasRoots self.old }
        ensures takes { OnOk result ((goal : Equation) (log : Log) →
            Replays self.old rules.now goal log →
            Replays self.new rules.now goal (with_covers log covers.now)) }
        ensures at { OnOk result (IsOpen (place_after self.new)) }
        ensures roots { OnOk result (HasRoots self.new) }
    {
        for (symbol, trees) in covers.iter().enumerate() {
            let next = cover_line(alloc, trees.as_slice())?;
            self.line(alloc, rules, next, LineState::InCovers(symbol as u64 + 1))?;
        }
        Ok(())
    }

    /// Takes the lines of the steps.
    fn take_steps(&mut self, alloc: Global, rules: &RuleSet, steps: &[Step]) -> Result<(), NoMemory>
        requires at { IsOpen (place_after self.old) }
        requires roots { HasRoots self.old }
        ensures takes { OnOk result ((goal : Equation) (log : Log) →
            Replays self.old rules.now goal log →
            Replays self.new rules.now goal (with_steps log steps.now)) }
        ensures at { OnOk result (IsOpen (place_after self.new)) }
        ensures roots { OnOk result (HasRoots self.new) }
    {
        for step in steps {
            let next = step_line(alloc, step)?;
            self.line(alloc, rules, next, LineState::InSteps)?;
        }
        Ok(())
    }

    /// Takes the lines of the ranks, each of which has that many columns.
    fn take_ranks(
        &mut self,
        alloc: Global,
        rules: &RuleSet,
        columns: u32,
        ranks: &[Items<Poly>],
    ) -> Result<(), NoMemory>
        requires place { place_after self.old ≡ LineState.InRanks columns 0 }
        requires widths { HasWidths columns ranks.now }
        requires roots { HasRoots self.old }
        ensures takes { OnOk result ((goal : Equation) (log : Log) →
            Replays self.old rules.now goal log →
            Replays self.new rules.now goal (with_ranks log ranks.now)) }
        ensures ranked { OnOk result (IsRanked (place_after self.new)) }
        ensures roots { OnOk result (HasRoots self.new) }
    {
        for (symbol, rank) in ranks.iter().enumerate() {
            let next = rank_line(alloc, rank.as_slice())?;
            let behind = LineState::InRanks {
                columns,
                next: symbol as u64 + 1,
            };
            self.line(alloc, rules, next, behind)?;
        }
        Ok(())
    }

    /// Takes the lines of the pairs.
    fn take_pairs(
        &mut self,
        alloc: Global,
        rules: &RuleSet,
        pairs: &[PairCert],
    ) -> Result<(), NoMemory>
        requires ranked { IsRanked (place_after self.old) }
        requires roots { HasRoots self.old }
        ensures takes { OnOk result ((goal : Equation) (log : Log) →
            Replays self.old rules.now goal log →
            Replays self.new rules.now goal (with_pairs log pairs.now)) }
        ensures ranked { OnOk result (IsRanked (place_after self.new)) }
        ensures roots { OnOk result (HasRoots self.new) }
    {
        for pair in pairs {
            let next = pair_line(alloc, pair)?;
            self.line(alloc, rules, next, LineState::InPairs)?;
        }
        Ok(())
    }

    /// Takes the lines up to the one that begins the ranks.
    fn take_front(&mut self, alloc: Global, rules: &RuleSet, log: &Log) -> Result<(), NoMemory>
        requires place { place_after self.old ≡ LineState.AtHeader }
        requires roots { HasRoots self.old }
        ensures takes { OnOk result ((goal : Equation) → Replays self.old rules.now goal blank →
            Replays self.new rules.now goal (front_of log.now)) }
        ensures place { OnOk result (place_after self.new ≡
            LineState.InRanks log.now.table.columns 0) }
        ensures roots { OnOk result (HasRoots self.new) }
    {
        self.take_begin(alloc, rules, &log.domains)?;
        self.take_covers(alloc, rules, log.covers.as_slice())?;
        self.take_steps(alloc, rules, log.steps.as_slice())?;
        let columns = log.table.columns;
        let behind = LineState::InRanks { columns, next: 0 };
        self.line(alloc, rules, Line::Ranks(columns), behind)?;
        Ok(())
    }

    /// Takes the lines after the one that begins the ranks, each of which has the table's width.
    fn take_rest(&mut self, alloc: Global, rules: &RuleSet, log: &Log) -> Result<(), NoMemory>
        requires place { place_after self.old ≡ LineState.InRanks log.now.table.columns 0 }
        requires widths { HasWidths log.now.table.columns log.now.table.ranks }
        requires roots { HasRoots self.old }
        ensures takes { OnOk result ((goal : Equation) →
            Replays self.old rules.now goal (front_of log.now) →
            Replays self.new rules.now goal log.now) }
        ensures place { OnOk result (place_after self.new ≡ LineState.Finished) }
    {
        let ranks = log.table.ranks.as_slice();
        self.take_ranks(alloc, rules, log.table.columns, ranks)?;
        self.take_pairs(alloc, rules, log.pairs.as_slice())?;
        self.line(alloc, rules, Line::End, LineState::Finished)?;
        Ok(())
    }
}

/// Whether the log is accepted for the rules and the goal: its lines are replayed by a `Replayer`,
/// each copied before. Its checks come in this order, and the first that fails is the answer: the
/// domains and whether they are kept, if it has any, the covers, the steps one after the other,
/// whether goals are left, the ranks, the pairs. All after the domains is examined over the rules
/// with these domains. A place at which a polynomial passes the limits before anything fails there
/// is reported as such, and is no refusal. Where the log is accepted, on all integers that meet the
/// goal's rows both sides reach results, and these are convertible by the rules alone.
///
/// Both sides of the goal must fit the symbols, and the rules must have no domains. Trees and
/// certificates are examined by recursion, as deep as they are.
pub fn replay(alloc: Global, rules: &RuleSet, goal: Equation, log: &Log) -> Result<(), CheckEnd>
    requires left { term_fits rules.now goal.left ≡ true }
    requires right { term_fits rules.now goal.right ≡ true }
    requires plain { rules.now.domains ≡ [] }
    ensures exact { Answers result rules.now goal log.now }
    ensures sound { OnOk result ((a : ℕ → ℤ) → AllHold a goal.rows →
        HaveConvertibleNormalForms (Fitting rules.now) (Instance rules.now.rules)
        (ground_at a goal.left) (ground_at a goal.right)) }
{
    let mut replayer = Replayer::start(alloc, goal)?;
    replayer.take_front(alloc, rules, log)?;
    // A log has no lines for ranks of another width than its table's.
    replayer.judge_ranks(rules, log)?;
    replayer.take_rest(alloc, rules, log)?;
    replayer.finish(rules)
}
