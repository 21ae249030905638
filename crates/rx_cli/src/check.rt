//! The replay of the log of a proof, while it is read.
ghost use Rattle.std.specs.Prelude.{◌≡◌, ◌≢◌, ◌≤◌, [], IfOk, MatchOption};
ghost use Rattle.rx_io.specs.Outside.{Rose};
ghost use Rattle.rx_cli.specs.Steps.{ChecksRead, SaysEndOfLog};
ghost use Rattle.rx_report.specs.Texts.{IsReportableVerdict};

use crate::Verdict;
use crate::problems::Problem;
use rx_check::CheckEnd;
use rx_io::Files;
use rx_logfile::{FileEnd, replay_file};
use rx_plain::NoMemory;
use std::alloc::Global;

/// The verdict that names why a log isn't accepted; none where there was no memory.
fn verdict_on(end: CheckEnd) -> Option<Verdict>
    ensures { MatchOption result (end ≡ CheckEnd.NoMemory)
        (λ verdict. (verdict ≡ Verdict.Check end) × (end ≢ CheckEnd.NoMemory)) }
{
    match end {
        CheckEnd::NoMemory => None,
        CheckEnd::BadDomain { sym: _ }
        | CheckEnd::NotKept { part: _ }
        | CheckEnd::Step { step: _, end: _ }
        | CheckEnd::Unfinished { goals: _ }
        | CheckEnd::NotCovered { sym: _ }
        | CheckEnd::BadRanks { sym: _ }
        | CheckEnd::NotLower { pair: _ }
        | CheckEnd::Large { place: _ } => Some(Verdict::Check(end)),
    }
}

/// The verdict that names why the log in a file isn't accepted.
fn verdict_on_file(end: FileEnd) -> Result<Verdict, NoMemory>
    ensures { IfOk result (SaysEndOfLog end) }
{
    match end {
        FileEnd::Failed => Ok(Verdict::ReadFault),
        FileEnd::TooLong => Ok(Verdict::LongLog),
        FileEnd::BadLine { line } => Ok(Verdict::Line(line)),
        FileEnd::Check(end) => match verdict_on(end) {
            Some(verdict) => Ok(verdict),
            None => Err(NoMemory),
        },
        FileEnd::NoMemory => Err(NoMemory),
    }
}

/// The most bytes of a log.
const LONGEST_LOG: u32 = 67_108_864;

/// What is said of the log that is read under a name; it is replayed while it is read.
pub fn on_named<F: Files>(
    alloc: Global,
    problem: Problem,
    files: &mut F,
    name: &str,
) -> Result<Verdict, NoMemory>
    requires no_domains { problem.rules.domains ≡ [] }
    ensures reach { F.reaches files.old files.new }
    ensures later { F.faults files.old ≤ F.faults files.new }
    ensures verdict { IfOk result (ChecksRead (F.held files.old)
        (Rose (F.faults files.old) (F.faults files.new)) name.now problem) }
    ensures line { IfOk result IsReportableVerdict }
{
    let Problem { rules, goal } = problem;
    match replay_file(alloc, &rules, goal, files, name, LONGEST_LOG) {
        Ok(()) => Ok(Verdict::Equivalent),
        Err(end) => verdict_on_file(end),
    }
}
