//! Texts as lines have them. `\n`, `\r` and `\t` are a line end, a carriage return and a tab, `\x`
//! with two hexadecimal digits is any byte, and `\e` is no byte, for a text that is empty. Each
//! function answers None where the text has no such form, or where there is no memory.
use crate::numbers::count;
use std::alloc::Global;

// Adds a byte and what comes after it.
fn push_both(bytes: &mut Vec<u8>, byte: u8, rest: &str) -> Option<()> {
    bytes.push(byte).ok()?;
    bytes.extend_from_slice(rest.as_bytes()).ok()
}

// Adds the byte whose code comes first, and what comes after it.
fn push_code(bytes: &mut Vec<u8>, piece: &str) -> Option<()> {
    let (digits, rest) = piece.split_at_checked(2)?;
    let byte = u8::from_str_radix(digits, 16).ok()?;
    push_both(bytes, byte, rest)
}

// Adds what an escape means, and what comes after it.
fn push_escaped(bytes: &mut Vec<u8>, piece: &str) -> Option<()> {
    let (letter, rest) = piece.split_at_checked(1)?;
    match letter {
        "n" => push_both(bytes, b'\n', rest),
        "r" => push_both(bytes, b'\r', rest),
        "t" => push_both(bytes, b'\t', rest),
        "x" => push_code(bytes, rest),
        "e" => bytes.extend_from_slice(rest.as_bytes()).ok(),
        _ => None,
    }
}

// Adds the bytes that a text means.
fn push_text(bytes: &mut Vec<u8>, text: &str) -> Option<()> {
    let mut pieces = text.split('\\');
    bytes.extend_from_slice(pieces.next()?.as_bytes()).ok()?;
    for piece in pieces {
        push_escaped(bytes, piece)?;
    }
    Some(())
}

/// The bytes that a text means.
pub fn bytes_of(alloc: Global, text: &str) -> Option<Vec<u8>> {
    let mut bytes = Vec::new(alloc);
    push_text(&mut bytes, text)?;
    Some(bytes)
}

/// Whether the bytes are those that a text means.
pub fn is_text_of(alloc: Global, found: &[u8], wanted: &str) -> Option<bool> {
    let wanted = bytes_of(alloc, wanted)?;
    Some(found == wanted.as_slice())
}

// Adds these bytes, again and again, n in all.
fn push_repeated(bytes: &mut Vec<u8>, unit: &[u8], count: usize) -> Option<()> {
    for byte in unit.iter().cycle().take(count) {
        bytes.push(*byte).ok()?;
    }
    Some(())
}

// Adds the bytes of a unit, again and again, n in all.
fn push_units(alloc: Global, bytes: &mut Vec<u8>, unit: &str, count: usize) -> Option<()> {
    let unit = bytes_of(alloc, unit)?;
    push_repeated(bytes, &unit, count)
}

// The bytes of a text, then a unit again and again, n bytes in all, and the bytes of another text.
fn repeated(alloc: Global, before: &str, unit: &str, count: usize, after: &str) -> Option<Vec<u8>> {
    let mut bytes = bytes_of(alloc, before)?;
    push_units(alloc, &mut bytes, unit, count)?;
    push_text(&mut bytes, after)?;
    Some(bytes)
}

// The bytes of a long text, written as `BEFORE~UNIT~COUNT~AFTER`: n bytes of the unit
// between two texts.
fn long_bytes_of(alloc: Global, text: &str) -> Option<Vec<u8>> {
    let (before, rest) = text.split_once('~')?;
    let (unit, rest) = rest.split_once('~')?;
    let (count, after) = rest.split_once('~')?;
    repeated(alloc, before, unit, count.parse().ok()?, after)
}

/// The bytes of the text that is given to a call: where the call's name begins with `long `, of a
/// long text, written as `BEFORE~UNIT~COUNT~AFTER`, with COUNT bytes of the unit, again and again,
/// between two texts.
pub fn source_of(alloc: Global, call: &str, given: &str) -> Option<Vec<u8>> {
    if call.starts_with("long ") {
        long_bytes_of(alloc, given)
    } else {
        bytes_of(alloc, given)
    }
}

// What comes after a brace: how often, the part, and what follows it.
fn add_repeated(alloc: Global, made: &mut String, piece: &str) -> Option<()> {
    let (repeated, rest) = piece.split_once('}')?;
    let (times, part) = repeated.split_once(' ')?;
    let written = part.repeat(alloc, count(times)? as usize).ok()?;
    made.push_str(written.as_str()).ok()?;
    made.push_str(rest).ok()
}

/// The text with each `{N PART}` written out, PART N times.
pub fn written_out(alloc: Global, text: &str) -> Option<String> {
    let mut pieces = text.split('{');
    let mut made = String::from_str(alloc, pieces.next()?).ok()?;
    for piece in pieces {
        add_repeated(alloc, &mut made, piece)?;
    }
    Some(made)
}
