//! What a replay keeps of a log's domains, and what each line among their certificates makes of it.
ghost use Rattle.std.specs.Prelude.{◌≡◌, ◌+◌, [], All, IfOk, OnErr, OnOk, Some, drop, slice_get, unwrap_or};
ghost use Rattle.rx_check.specs.Answers.{Finds};
ghost use Rattle.rx_check.specs.LineByLine.{IsOutcome, passed};
ghost use Rattle.rx_check.specs.Replay.{JudgesInside};
ghost use Rattle.rx_domain.specs.Keeping.{Keeps, goes_on, keeping_from, one_kept, parts_kept};
ghost use Rattle.rx_log.specs.Acceptance.{once_kept};
ghost use Rattle.rx_pairs.specs.Pairs.{HasRoot};
ghost use Rattle.rx_term.specs.declared.rule.Equation.{Equation};

use crate::check_end::CheckEnd;
use crate::outcomes::{count_after, failure_of};
use crate::progress::Progress;
use rx_cert::Cert;
use rx_domain::keep_one;
use rx_log::{Line, LineState};
use rx_plain::{Items, NoMemory};
use rx_row::Constraint;
use rx_steps::State;
use rx_term::RuleSet;
use std::alloc::Global;

/// The rules with the domains of a log, once they are made.
#[derive(Drop)]
pub struct Held {
    /// These rules.
    pub set: Option<RuleSet>,
}

/// What is kept of a log's domains.
#[derive(Drop)]
pub struct DomainProgress {
    /// The domains so far.
    pub rows: Items<Constraint>,
    /// The rules with them, from the first line on that isn't a domain.
    pub held: Held,
    /// How many parts are shown to keep them.
    pub kept: usize,
}

impl Held {
    /// These rules, or the given ones where there are none.
    pub(crate) fn rules<'a>(&'a self, given: &'a RuleSet) -> &'a RuleSet
        ensures { result.now ≡ unwrap_or self.now.set given.now }
    {
        match &self.set {
            Some(set) => set,
            None => given,
        }
    }

    /// Keeps these rules in place of those before.
    pub(crate) fn put(&mut self, set: RuleSet)
        ensures { self.new.set ≡ Some set }
    {
        self.set = Some(set);
    }
}

/// Lets go of a line.
pub(crate) fn let_go(_line: Line) {}

/// Whether the part with that number keeps the domains, where there is a goal.
fn check_keep(
    alloc: Global,
    used: &RuleSet,
    state: &State,
    part: usize,
    certs: &[Cert],
) -> Result<(), CheckEnd>
    ensures { (goal : Equation) → slice_get state.now.goals 0 ≡ Some goal →
        Finds (λ done. done) result
        (once_kept (goes_on part (one_kept used.now goal part certs.now) Keeps) passed) }
{
    let Some(goal) = state.first() else {
        return Ok(());
    };
    keep_one(alloc, used, goal, part, certs)?;
    Ok(())
}

/// Asks whether the next part keeps the domains, and counts it.
fn judge_keep(
    alloc: Global,
    used: &RuleSet,
    kept: &mut usize,
    state: &State,
    certs: &[Cert],
) -> Result<Option<CheckEnd>, NoMemory>
    ensures counted { OnOk result (kept.new ≡ kept.old + 1) }
    ensures ends { IfOk result (λ failure. (goal : Equation) →
        slice_get state.now.goals 0 ≡ Some goal → IsOutcome failure
        (once_kept (goes_on kept.old (one_kept used.now goal kept.old certs.now) Keeps) passed)) }
    ensures err { OnErr result (kept.new ≡ kept.old) }
{
    let next = count_after(*kept)?;
    let failure = failure_of(check_keep(alloc, used, state, *kept, certs))?;
    *kept = next;
    Ok(failure)
}

/// The first part without certificates, as a failure, where so many have some.
fn missing_keep(used: &RuleSet, kept: usize) -> Option<CheckEnd>
    ensures { (goal : Equation) → IsOutcome result
        (once_kept (keeping_from kept (drop kept (parts_kept used.now goal)) []) passed) }
{
    if kept <= used.rules().len() {
        Some(CheckEnd::NotKept { part: kept })
    } else {
        None
    }
}

/// The failure of a line that comes after the domains and before the covers, if it fails. The first
/// one that isn't a list of certificates asks whether all parts have theirs. Where there is no
/// memory, what is kept stays as it was.
pub(crate) fn judge_inside(
    alloc: Global,
    used: &RuleSet,
    kept: &mut usize,
    progress: &mut Progress,
    line: Line,
) -> Result<Option<CheckEnd>, NoMemory>
    requires roots { All HasRoot progress.old.state.hypotheses }
    ensures judges { JudgesInside used.now line kept.old kept.new progress.old progress.new result }
    ensures kept { OnErr result (kept.new ≡ kept.old) }
    ensures progress { OnErr result (progress.new ≡ progress.old) }
    ensures roots { All HasRoot progress.new.state.hypotheses }
{
    if let Line::Keep(certs) = &line {
        let failure = judge_keep(alloc, used, kept, &progress.state, certs.as_slice())?;
        let_go(line);
        return Ok(failure);
    }
    if let Some(end) = missing_keep(used, *kept) {
        let_go(line);
        return Ok(Some(end));
    }
    progress.judge(alloc, used, LineState::InCovers(0), line)
}
