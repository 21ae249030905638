//! What searches come to, as text: one line on how a search ended, and after it the log, if one was
//! found.
use rx_log::Log;
use rx_logwriting::write_log;
use rx_plain::NoMemory;
use rx_row::Row;
use rx_search::SearchEnd;
use rx_text::push_word;
use rx_words::{push_count, push_rows};
use std::alloc::Global;
use test_lines::{bytes_written, push_list};

/// One word.
pub fn word(alloc: Global, word: &[u8]) -> Option<Vec<u8>> {
    bytes_written(alloc, |out| push_word(out, word))
}

/// A count as text; none where memory ran out.
pub fn count(alloc: Global, number: usize) -> Option<Vec<u8>> {
    bytes_written(alloc, |out| push_count(out, number))
}

// A word and a number.
fn push_numbered(word: &[u8], number: usize, out: &mut Vec<u8>) -> Result<(), NoMemory> {
    push_word(out, word)?;
    push_count(out, number)
}

fn push_choice(choice: &u8, out: &mut Vec<u8>) -> Result<(), NoMemory> {
    push_count(out, *choice as usize)
}

// Two numbers, with a space between them.
fn push_counts(first: usize, second: usize, out: &mut Vec<u8>) -> Result<(), NoMemory> {
    push_count(out, first)?;
    push_word(out, b" ")?;
    push_count(out, second)
}

/// Two counts as text; none where memory ran out.
pub fn counts(alloc: Global, first: usize, second: usize) -> Option<Vec<u8>> {
    bytes_written(alloc, |out| push_counts(first, second, out))
}

// The path to the node where the limits are passed, as a list of choices, and the rows there.
fn push_large(path: &[u8], rows: &[Row], out: &mut Vec<u8>) -> Result<(), NoMemory> {
    push_word(out, b"large ")?;
    push_list(path, out, push_choice)?;
    push_word(out, b" ")?;
    push_rows(rows, out)
}

// The number of the steps of a log, and its text below it.
fn push_closed(steps: usize, log: &[u8], out: &mut Vec<u8>) -> Result<(), NoMemory> {
    push_numbered(b"closed ", steps, out)?;
    push_word(out, b"\n")?;
    push_word(out, log)
}

fn closed(alloc: Global, log: &Log) -> Option<Vec<u8>> {
    let text = write_log(alloc, log).ok()?;
    let mut out = Vec::new(alloc);
    push_closed(log.steps.len(), &text, &mut out).ok()?;
    Some(out)
}

// How a search ended without a log; out of memory is no end that a line could want.
fn push_end(end: &SearchEnd, out: &mut Vec<u8>) -> Result<(), NoMemory> {
    match end {
        SearchEnd::NoRanks => push_word(out, b"ranks"),
        SearchEnd::NoPlan { depth } => push_numbered(b"depth ", *depth as usize, out),
        SearchEnd::Spent { visits } => push_numbered(b"visits ", *visits as usize, out),
        SearchEnd::LargeRanks { rows } => push_large(&[], rows.as_slice(), out),
        SearchEnd::Large { path, rows } => push_large(path.as_slice(), rows.as_slice(), out),
        SearchEnd::NoMemory => Err(NoMemory),
    }
}

/// The text of what a search comes to; none where memory ran out.
pub fn text_of(alloc: Global, end: Result<Log, SearchEnd>) -> Option<Vec<u8>> {
    match end {
        Ok(log) => closed(alloc, &log),
        Err(end) => bytes_written(alloc, |out| push_end(&end, out)),
    }
}
