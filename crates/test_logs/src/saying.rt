//! What runs say on standard error.
ghost use Rattle.std.specs.Prelude.{⊤, IfSome, MatchOption};
ghost use Rattle.rx_report.specs.Texts.{IsReportableVerdict};

use rx_cli::{Ending, Problem, problem_of_words, run_told};
use rx_io::{MemoryFiles, MemorySink};
use rx_messages::{Posed, Silence, explain};
use std::alloc::Global;

// A sink in memory of which no call fails.
fn plain_sink(alloc: Global) -> Option<MemorySink> {
    MemorySink::new(alloc, 4096, 65_536, Vec::new(alloc), Vec::new(alloc)).ok()
}

// How a run over these files ends.
fn ended(alloc: Global, words: &[String], files: &mut MemoryFiles) -> Option<Ending>
    ensures { IfSome result (λ ending. MatchOption ending.verdict ⊤ IsReportableVerdict) }
{
    let mut sink = plain_sink(alloc)?;
    Some(run_told(alloc, words, files, &mut sink))
}

// The problem that the words pose.
fn posed(alloc: Global, words: &[String], files: &mut MemoryFiles) -> Option<Posed> {
    let Problem { rules, goal } = problem_of_words(alloc, words, files).ok()??;
    Some(Posed { rules, goal })
}

// The bytes in a list of their own.
fn owned(alloc: Global, bytes: &[u8]) -> Option<Vec<u8>> {
    let mut made = Vec::new(alloc);
    made.extend_from_slice(bytes).ok()?;
    Some(made)
}

// What was written, if the call ended well; else why not.
fn told(alloc: Global, outcome: Result<(), Silence>, text: &[u8]) -> Option<Vec<u8>> {
    match outcome {
        Ok(()) => owned(alloc, text),
        Err(silence) => {
            let cause = format!(in alloc; "{silence}").ok()?;
            owned(alloc, cause.as_bytes())
        }
    }
}

/// What a run over these files says on standard error.
pub fn said(alloc: Global, words: &[String], mut files: MemoryFiles) -> Option<Vec<u8>> {
    let ending = ended(alloc, words, &mut files)?;
    let problem = posed(alloc, words, &mut files);
    let mut err = plain_sink(alloc)?;
    let outcome = explain(
        alloc,
        words,
        ending.status,
        ending.verdict,
        problem.as_ref(),
        &mut files,
        &mut err,
    );
    told(alloc, outcome, err.put_so_far())
}
