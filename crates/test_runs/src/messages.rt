//! What runs say on standard error, beside their reports.
ghost use Rattle.std.specs.Prelude.{⊤, IfSome, MatchOption};
ghost use Rattle.rx_report.specs.Texts.{IsReportableVerdict};

use crate::running::{plain_file, plain_sink};
use rx_cli::{Ending, Status, Verdict, run_told};
use rx_io::MemorySink;
use rx_messages::{Silence, explain};
use std::alloc::Global;
use std::str;
use test_lines::{source_of, words_of};

// What was written, if the call ended well; else why not.
fn told(alloc: Global, outcome: Result<(), Silence>, text: &[u8]) -> Option<String> {
    match outcome {
        Ok(()) => String::from_str(alloc, str::from_utf8(text).ok()?).ok(),
        Err(silence) => format!(in alloc; "{silence}").ok(),
    }
}

// What is said after a run that ended so, over a file with this content.
fn messaged(
    alloc: Global,
    words: &[String],
    status: Status,
    verdict: Option<Verdict>,
    source: Vec<u8>,
) -> Option<String>
    requires { MatchOption verdict ⊤ IsReportableVerdict }
{
    let mut files = plain_file(alloc, source)?;
    let mut err = plain_sink(alloc)?;
    let outcome = explain(alloc, words, status, verdict, None, &mut files, &mut err);
    told(alloc, outcome, err.put_so_far())
}

// How a run over a file with this content ends, into this sink.
fn ending(alloc: Global, words: &[String], source: Vec<u8>, mut sink: MemorySink) -> Option<Ending>
    ensures { IfSome result (λ ending. MatchOption ending.verdict ⊤ IsReportableVerdict) }
{
    let mut files = plain_file(alloc, source)?;
    Some(run_told(alloc, words, &mut files, &mut sink))
}

// What a run over a first text says over another, which may be the same.
fn explained(alloc: Global, words: &[String], first: Vec<u8>, other: Vec<u8>) -> Option<String> {
    let ending = ending(alloc, words, first, plain_sink(alloc)?)?;
    messaged(alloc, words, ending.status, ending.verdict, other)
}

// A sink in memory whose first call fails.
fn failing_sink(alloc: Global) -> Option<MemorySink> {
    let fail = vec![in alloc; 1u64].ok()?;
    MemorySink::new(alloc, 4096, 4096, fail, Vec::new(alloc)).ok()
}

// What a run says whose report can't be written.
fn unwritten(alloc: Global, words: &[String], first: Vec<u8>, other: Vec<u8>) -> Option<String> {
    let ending = ending(alloc, words, first, failing_sink(alloc)?)?;
    messaged(alloc, words, ending.status, ending.verdict, other)
}

/// Runs a command line over a text, and shows what the run says on standard error. `unwritten` has a
/// report that can't be written, `unheard` a run without memory, and `other` a second text, which is
/// there once the first was run.
pub fn answer(alloc: Global, call: &str, given: &str) -> Option<String> {
    let (line, text) = given.split_once(" | ")?;
    let words = words_of(alloc, line)?;
    let (first, other) = text.split_once(" ~ ").unwrap_or((text, text));
    let first = source_of(alloc, call, first)?;
    let other = source_of(alloc, call, other)?;
    match call {
        "unwritten message" => unwritten(alloc, &words, first, other),
        "unheard message" => messaged(alloc, &words, Status::NoMemory, None, other),
        _ => explained(alloc, &words, first, other),
    }
}
