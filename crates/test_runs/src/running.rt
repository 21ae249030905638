//! Whole runs over memory.
ghost use Rattle.std.specs.Prelude.{◌≡◌, [], IfSome};
ghost use Rattle.rx_io.specs.MemoryFiles as held;
ghost use Rattle.rx_io.specs.MemorySink as taken;

use crate::run_files::one_file;
use rx_cli::{Status, run, run_in_memory};
use rx_io::{MemoryFiles, MemorySink};
use std::alloc::Global;
use std::str;
use test_lines::{bytes_of, numbers_of, words_of};

// A text of spaces has no more than this.
const MOST_SPACES: usize = 2_097_152;

// The exit status, a mark and a text.
fn told(alloc: Global, status: Status, mark: &str, text: &str) -> Option<String> {
    let code = status.code();
    format!(in alloc; "{code}: {mark}{text}").ok()
}

// The exit status and the last line of a report, with `..` for lines before it.
fn last_line(alloc: Global, status: Status, text: &[u8]) -> Option<String> {
    let lines = str::from_utf8(text).ok()?.strip_suffix('\n')?;
    match lines.rsplit_once('\n') {
        Some((_, last)) => told(alloc, status, ".. ", last),
        None => told(alloc, status, "", lines),
    }
}

// The exit status and a whole report.
fn all_lines(alloc: Global, status: Status, text: &[u8]) -> Option<String> {
    told(alloc, status, "", str::from_utf8(text).ok()?)
}

// A file in memory of which no call fails.
pub(crate) fn plain_file(alloc: Global, source: Vec<u8>) -> Option<MemoryFiles>
    ensures { IfSome result (λ files. held.fail_in files ≡ []) }
{
    one_file(alloc, source, 4096, Vec::new(alloc))
}

// A sink in memory of which no call fails.
pub(crate) fn plain_sink(alloc: Global) -> Option<MemorySink>
    ensures fail { IfSome result (λ sink. taken.fail_in sink ≡ []) }
    ensures zero { IfSome result (λ sink. taken.zero_in sink ≡ []) }
{
    match MemorySink::new(alloc, 4096, 4096, Vec::new(alloc), Vec::new(alloc)) {
        Ok(sink) => Some(sink),
        Err(_) => None,
    }
}

// A run that compares two functions of a text: its status and the last line of its report.
fn compared(alloc: Global, words: &[String], source: Vec<u8>) -> Option<String> {
    let mut files = plain_file(alloc, source)?;
    let mut sink = plain_sink(alloc)?;
    let status = run(alloc, words, &mut files, &mut sink);
    last_line(alloc, status, sink.put_so_far())
}

// The words that ask for a comparison of the two functions with these names.
fn asked(alloc: Global, names: &str) -> Option<Vec<String>> {
    let line = format!(in alloc; "ctrl prove a.c {names}").ok()?;
    words_of(alloc, line.as_str())
}

// A run that compares the two functions with these names.
fn run_names(alloc: Global, names: &str, source: Vec<u8>) -> Option<String> {
    let words = asked(alloc, names)?;
    compared(alloc, &words, source)
}

// A run in memory in which no call fails.
fn in_memory(alloc: Global, words: &[String], source: Vec<u8>) -> Option<String> {
    let mut files = plain_file(alloc, source)?;
    let mut sink = plain_sink(alloc)?;
    let status = run_in_memory(alloc, words, &mut files, &mut sink);
    all_lines(alloc, status, sink.put_so_far())
}

// A run of a command line in memory, in which no call fails.
fn run_words(alloc: Global, line: &str, text: &str) -> Option<String> {
    let source = bytes_of(alloc, text)?;
    let words = words_of(alloc, line)?;
    in_memory(alloc, &words, source)
}

// A file in memory, in pieces and with failing calls.
fn file_in(alloc: Global, text: &str, piece: usize, fail: Vec<u64>) -> Option<MemoryFiles> {
    if piece < 1 {
        return None;
    }
    let content = bytes_of(alloc, text)?;
    one_file(alloc, content, piece, fail)
}

// A file in memory whose largest piece and failing calls are given.
fn files_with(alloc: Global, setup: &str, text: &str) -> Option<MemoryFiles> {
    let (piece, fail) = setup.split_once(';')?;
    let piece = piece.parse().ok()?;
    let fail = numbers_of(alloc, fail)?;
    file_in(alloc, text, piece, fail)
}

// A sink in memory whose largest piece and failing calls are given.
fn sink_with(alloc: Global, setup: &str) -> Option<MemorySink> {
    let (piece, fail) = setup.split_once(';')?;
    let piece = piece.parse().ok()?;
    if piece < 1 {
        return None;
    }
    let fail = numbers_of(alloc, fail)?;
    MemorySink::new(alloc, piece, 4096, fail, Vec::new(alloc)).ok()
}

// A run in pieces and with failing calls: its status and its whole report.
fn ran(alloc: Global, setup: &str, words: &[String], text: &str) -> Option<String> {
    let (reads, puts) = setup.split_once(" / ")?;
    let mut files = files_with(alloc, reads, text)?;
    let mut sink = sink_with(alloc, puts)?;
    let status = run(alloc, words, &mut files, &mut sink);
    all_lines(alloc, status, sink.put_so_far())
}

// A run of the command line that is given before a text.
fn whole(alloc: Global, setup: &str, given: &str) -> Option<String> {
    let (line, text) = given.split_once(" | ")?;
    let words = words_of(alloc, line)?;
    ran(alloc, setup, &words, text)
}

// A text of as many spaces.
fn spaces(alloc: Global, count: &str) -> Option<Vec<u8>> {
    let count = count.parse().ok()?;
    if count > MOST_SPACES {
        return None;
    }
    vec![in alloc; b' '; count].ok()
}

/// `run` compares two functions of a text and shows the last line of the report, `spaces` those of
/// a text of as many spaces; `whole` shows the whole report to a command line, with pieces and
/// failing calls of the file and of the sink; `memory` is a run in which no call fails.
pub fn answer(alloc: Global, call: &str, given: &str) -> Option<String> {
    let (first, rest) = given.split_once(" | ")?;
    match call {
        "whole" => whole(alloc, first, rest),
        "memory" => run_words(alloc, first, rest),
        "spaces" => run_names(alloc, first, spaces(alloc, rest)?),
        _ => run_names(alloc, first, bytes_of(alloc, rest)?),
    }
}
