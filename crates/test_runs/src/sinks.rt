//! A sink in memory, and calls on it.
ghost use Rattle.std.specs.Prelude.{◌≤◌};

use rx_io::{MemorySink, Sink, put_all};
use std::alloc::Global;
use test_lines::{bytes_of, numbers_of, put, put_bytes, put_debug, put_space};

// One call on a sink, and what was written so far.
fn call_sink(alloc: Global, sink: &mut MemorySink, call: &str, out: &mut String) -> Option<()> {
    let (word, given) = call.split_once(' ')?;
    let bytes = bytes_of(alloc, given)?;
    match word {
        "all" => put_debug(out, put_all(sink, &bytes)),
        "put" => put_debug(out, sink.put(&bytes)),
        _ => return None,
    }
    put(out, " ");
    put_bytes(out, sink.put_so_far());
    Some(())
}

// A sink whose pieces, room, failing calls and calls that take nothing are given.
fn sink_of(alloc: Global, setup: &str) -> Option<MemorySink> {
    let (sizes, calls) = setup.split_once(';')?;
    let (piece, room) = sizes.split_once(' ')?;
    let piece = piece.parse().ok()?;
    if piece < 1 {
        return None;
    }
    sink_with(alloc, piece, room.parse().ok()?, calls)
}

// A sink whose failing calls and calls that take nothing are given.
fn sink_with(alloc: Global, piece: usize, room: usize, calls: &str) -> Option<MemorySink>
    requires { 1 ≤ piece }
{
    let (fail, zero) = calls.split_once(';')?;
    let fail = numbers_of(alloc, fail)?;
    MemorySink::new(alloc, piece, room, fail, numbers_of(alloc, zero)?).ok()
}

/// Calls a sink in memory: the largest piece, the room, the numbers of the calls that fail and of
/// those that take nothing are given, and the calls, `all TEXT` or `put TEXT`.
pub fn answer(alloc: Global, given: &str) -> Option<String> {
    let (setup, calls) = given.split_once(" | ")?;
    let mut sink = sink_of(alloc, setup)?;
    let mut out = String::new(alloc);
    for call in calls.split(", ") {
        put_space(&mut out);
        call_sink(alloc, &mut sink, call, &mut out)?;
    }
    Some(out)
}
