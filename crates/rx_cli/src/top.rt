//! The run of the program, from the words to the bytes written.
ghost use Rattle.std.specs.Prelude.{◌≡◌, ⊤, MatchOption, Some, map, string_bytes};
ghost use Rattle.rx_io.specs.Outside.{Names, Rose};
ghost use Rattle.rx_cli.specs.Answers.{AreEqual, IsRefutedBy};
ghost use Rattle.rx_cli.specs.Completeness.{CanShow, SaysYes};
ghost use Rattle.rx_cli.specs.Run.{RunEnds};
ghost use Rattle.rx_cli.specs.Told as spec;
ghost use Rattle.rx_cli.specs.Told.{Tells};
ghost use Rattle.rx_report.specs.Texts.{IsReportableVerdict};

use crate::answers::execute;
use crate::{Status, Verdict};
use rx_io::{Files, Sink, put_all};
use rx_report::Answer;
use std::alloc::Global;

/// How a run ended, and what it reported, where that was the line of a verdict.
#[derive(Clone, Copy, Debug, PartialEq, Eq)]
pub struct Ending {
    /// How it ended.
    pub status: Status,
    /// The verdict whose line was put; none where anything else was, or not the whole report.
    pub verdict: Option<Verdict>,
}

/// What an answer says in one line, where it is a line.
fn line_in(answer: &Answer) -> Option<Verdict>
    ensures { result ≡ spec.line_in answer.now }
{
    match answer {
        Answer::Line(verdict) => Some(*verdict),
        Answer::Proof(_) | Answer::RuleText(_) | Answer::Found(_) => None,
    }
}

/// Runs the program as `run` does, and also answers what was reported, for a message beside the
/// report (`told`).
///
/// The verdict is that whose line was put whole. None is answered where a log, a rule text or a
/// comparison over points was put, or nothing, or only a part of the report.
pub fn run_told<F: Files, O: Sink>(
    alloc: Global,
    words: &[String],
    files: &mut F,
    out: &mut O,
) -> Ending
    ensures told { Tells (O.contents out.old) (O.contents out.new) result }
    ensures reportable { MatchOption result.verdict ⊤ IsReportableVerdict }
    ensures ends { RunEnds (F.held files.old) (Rose (F.faults files.old) (F.faults files.new))
        (Rose (O.faults out.old) (O.faults out.new))
        (map string_bytes words.now) (O.contents out.old) (O.contents out.new) result.status }
    ensures sound { result.status ≡ Status.Equivalent →
        AreEqual (F.held files.old) (map string_bytes words.now) }
    ensures different { result.status ≡ Status.Different →
        IsRefutedBy (F.held files.old) (map string_bytes words.now) }
    ensures kept { result.status ≡ Status.NoMemory → out.new ≡ out.old }
    ensures reach_files { F.reaches files.old files.new }
    ensures reach_out { O.reaches out.old out.new }
    ensures complete { (names : Names) → F.held files.old ≡ Some names →
        CanShow names (map string_bytes words.now) →
        SaysYes (Rose (F.faults files.old) (F.faults files.new))
        (Rose (O.faults out.old) (O.faults out.new)) result.status }
{
    let Ok(answer) = execute(alloc, words, files) else {
        return Ending {
            status: Status::NoMemory,
            verdict: None,
        };
    };
    let status = answer.status();
    let verdict = line_in(&answer);
    let Ok(text) = answer.into_text(alloc) else {
        return Ending {
            status: Status::NoMemory,
            verdict: None,
        };
    };
    match put_all(out, &text) {
        Ok(()) => Ending { status, verdict },
        Err(_) => Ending {
            status: Status::WriteFault,
            verdict: None,
        },
    }
}

/// Runs the program: reads the words and the files that they name, and writes the whole report.
///
/// `words` begins with the program's name. Where the status is `NoMemory` nothing was written;
/// where it is `WriteFault` a part of the report that isn't the whole. Where the files hold a log
/// that is accepted for what the words ask, or a search that they ask for closes, the status is
/// `Equivalent`, unless a call finds a fault or there is no memory (`complete`).
pub fn run<F: Files, O: Sink>(alloc: Global, words: &[String], files: &mut F, out: &mut O) -> Status
    ensures ends { RunEnds (F.held files.old) (Rose (F.faults files.old) (F.faults files.new))
        (Rose (O.faults out.old) (O.faults out.new))
        (map string_bytes words.now) (O.contents out.old) (O.contents out.new) result }
    ensures sound { result ≡ Status.Equivalent →
        AreEqual (F.held files.old) (map string_bytes words.now) }
    ensures different { result ≡ Status.Different →
        IsRefutedBy (F.held files.old) (map string_bytes words.now) }
    ensures kept { result ≡ Status.NoMemory → out.new ≡ out.old }
    ensures reach_files { F.reaches files.old files.new }
    ensures reach_out { O.reaches out.old out.new }
    ensures complete { (names : Names) → F.held files.old ≡ Some names →
        CanShow names (map string_bytes words.now) →
        SaysYes (Rose (F.faults files.old) (F.faults files.new))
        (Rose (O.faults out.old) (O.faults out.new)) result }
{
    let ending = run_told(alloc, words, files, out);
    ending.status
}
