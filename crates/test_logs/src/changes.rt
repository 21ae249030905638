//! A change of one line of a log, and long lines.

use std::alloc::Global;

/// What is in place of a line.
#[derive(Drop)]
pub struct Change {
    /// The number of the line, counted from 1.
    pub line: usize,
    /// The new text without its line end; none where the line is left out.
    pub text: Option<String>,
}

/// The change that replaces a line with a text: the number comes first.
pub fn instead(alloc: Global, given: &str) -> Option<Change> {
    let (number, text) = given.split_once(' ').unwrap_or((given, ""));
    let line = number.parse().ok()?;
    let text = String::from_str(alloc, text).ok()?;
    Some(Change {
        line,
        text: Some(text),
    })
}

// Adds a text n times.
fn push_times(text: &mut String, unit: &str, count: usize) -> Option<()> {
    for _ in 0..count {
        text.push_str(unit).ok()?;
    }
    Some(())
}

// The pieces of a text, parted by `~`: a text, a unit and how many times it occurs there, and so
// on.
fn repeated(alloc: Global, given: &str) -> Option<String> {
    let mut text = String::new(alloc);
    let mut unit = String::new(alloc);
    for (at, piece) in given.split('~').enumerate() {
        match at % 3 {
            0 => text.push_str(piece).ok()?,
            1 => unit = String::from_str(alloc, piece).ok()?,
            _ => push_times(&mut text, unit.as_str(), piece.parse().ok()?)?,
        }
    }
    Some(text)
}

/// The change that replaces a line with a long text: the number comes first, then the pieces.
pub fn long(alloc: Global, given: &str) -> Option<Change> {
    let (number, pieces) = given.split_once(' ').unwrap_or((given, ""));
    Some(Change {
        line: number.parse().ok()?,
        text: Some(repeated(alloc, pieces)?),
    })
}

/// The change that leaves a line out.
pub fn without(given: &str) -> Option<Change> {
    let line = given.parse().ok()?;
    Some(Change { line, text: None })
}

// Adds a line and its end.
fn push_line(bytes: &mut Vec<u8>, line: &str) -> Option<()> {
    bytes.extend_from_slice(line.as_bytes()).ok()?;
    bytes.push(b'\n').ok()
}

// Adds a line, or what is in its place.
fn push_changed(bytes: &mut Vec<u8>, line: &str, change: &Change) -> Option<()> {
    match &change.text {
        Some(text) => push_line(bytes, text.as_str()),
        None => {
            let _left_out = line;
            Some(())
        }
    }
}

// Adds a line, or what is in its place where the change is of this one.
fn push_with(
    bytes: &mut Vec<u8>,
    number: usize,
    line: &str,
    change: &Option<Change>,
) -> Option<()> {
    match change {
        Some(change) if change.line == number => push_changed(bytes, line, change),
        _ => push_line(bytes, line),
    }
}

/// The lines as a file, one of them changed.
pub fn joined(alloc: Global, lines: &[String], change: &Option<Change>) -> Option<Vec<u8>> {
    let mut bytes = Vec::new(alloc);
    for (at, line) in lines.iter().enumerate() {
        push_with(&mut bytes, at.saturating_add(1), line.as_str(), change)?;
    }
    Some(bytes)
}
