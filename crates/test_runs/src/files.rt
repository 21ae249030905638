//! Files in memory, and calls on them.
ghost use Rattle.std.specs.Prelude.{◌≤◌};

use rx_io::{Files, MemoryFiles, read_all};
use std::alloc::Global;
use test_lines::{add_file, bytes_of, numbers_of, put, put_bytes, put_debug, put_space};

// Adds a file with a text.
fn hold_text(
    alloc: Global,
    held: &mut Vec<(String, Vec<u8>)>,
    name: &str,
    text: &str,
) -> Option<()> {
    let content = bytes_of(alloc, text)?;
    add_file(alloc, held, name, content)
}

// Two files, and a third with the name of the first.
fn three_files(alloc: Global, piece: usize, fail: Vec<u64>) -> Option<MemoryFiles>
    requires { 1 ≤ piece }
{
    let mut held = Vec::new(alloc);
    for (name, text) in [("a.c", "0123456789"), ("b.c", "x"), ("a.c", "other")] {
        hold_text(alloc, &mut held, name, text)?;
    }
    Some(MemoryFiles::new(held, piece, fail))
}

// Reads a file whole: its name and the limit are given.
fn read(alloc: Global, files: &mut MemoryFiles, given: &str, out: &mut String) -> Option<()> {
    let (name, limit) = given.split_once(' ')?;
    match read_all(alloc, files, name, limit.parse().ok()?) {
        Ok(bytes) => put_bytes(out, &bytes),
        Err(end) => put_debug(out, end),
    }
    Some(())
}

// Takes `count` bytes, over dots.
fn take(alloc: Global, files: &mut MemoryFiles, count: usize, out: &mut String) -> Option<()> {
    if count > 100 {
        return None;
    }
    let mut into = vec![in alloc; b'.'; count].ok()?;
    put_debug(out, files.take(&mut into));
    put(out, " ");
    put_bytes(out, &into);
    Some(())
}

// One call on files.
fn call_files(alloc: Global, files: &mut MemoryFiles, call: &str, out: &mut String) -> Option<()> {
    let (word, given) = call.split_once(' ')?;
    match word {
        "all" => read(alloc, files, given, out),
        "take" => take(alloc, files, given.parse().ok()?, out),
        "open" => {
            put_debug(out, files.open(given));
            Some(())
        }
        _ => None,
    }
}

// The three files, whose largest piece and failing calls are given.
fn files_of(alloc: Global, setup: &str) -> Option<MemoryFiles> {
    let (piece, fail) = setup.split_once(';')?;
    let piece = piece.parse().ok()?;
    if piece < 1 {
        return None;
    }
    three_files(alloc, piece, numbers_of(alloc, fail)?)
}

/// Calls three files in memory: the largest piece and the numbers of the calls that fail are given,
/// and the calls, `all NAME LIMIT`, `open NAME` or `take COUNT`.
pub fn answer(alloc: Global, given: &str) -> Option<String> {
    let (setup, calls) = given.split_once(" | ")?;
    let mut files = files_of(alloc, setup)?;
    let mut out = String::new(alloc);
    for call in calls.split(", ") {
        put_space(&mut out);
        call_files(alloc, &mut files, call, &mut out)?;
    }
    Some(out)
}
