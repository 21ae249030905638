//! The line of a place, with a mark under the place.
ghost use Rattle.std.specs.Prelude.{◌≡◌, ◌≤◌, ◌++◌, decimal, length, not, OnOk};
ghost use Rattle.std.specs.List.{prefix_len};
ghost use Rattle.rx_places.specs.Excerpts as spec;
ghost use Rattle.rx_places.specs.Excerpts.{line_view};
ghost use Rattle.rx_places.specs.Spots.{IsWithin};

use crate::Spot;
use crate::pieces::{push_first, push_last, push_number, push_repeated, push_word};
use crate::places::{before_in_line, bytes_before, is_line_feed, line_of};
use itoa::Buffer;
use rx_plain::NoMemory;

// The line of a place.
#[derive(Clone, Copy)]
struct Line<'a> {
    // Its number, counted from 1.
    number: usize,
    // The bytes of the line in front of the place.
    front: &'a [u8],
    // The bytes of the line from the place on, without the line's end.
    back: &'a [u8],
}

// Whether the byte is part of a line's end.
fn ends_line(byte: u8) -> bool
    ensures { result ≡ spec.ends_line byte }
{
    is_line_feed(byte) || byte == b'\r'
}

// The bytes of the place's line in front of it.
fn front_of(text: &[u8], at: usize) -> &[u8]
    requires { at ≤ length text.now }
    ensures { result.now ≡ spec.front_of text.now at }
{
    let before = bytes_before(text, at);
    &before[at - before_in_line(text, at)..]
}

// How many bytes are in front of the first that is part of a line's end.
fn bytes_of_line(text: &[u8]) -> usize
    ensures value { result ≡ prefix_len (λ byte. not (spec.ends_line byte)) text.now }
    ensures within { result ≤ length text.now }
{
    text.iter().take_while(|byte| !ends_line(**byte)).count()
}

// The front of the bytes, up to the first that is part of a line's end.
fn line_at_front(text: &[u8]) -> &[u8]
    ensures { result.now ≡ spec.line_at_front text.now }
{
    let len = bytes_of_line(text);
    &text[..len]
}

// The line of the place.
fn line_at(text: &[u8], at: usize) -> Line<'_>
    requires { at ≤ length text.now }
    ensures { line_view result ≡ spec.line_at text.now at }
{
    Line {
        number: line_of(text, at),
        front: front_of(text, at),
        back: line_at_front(&text[at..]),
    }
}

// How many bytes are shown on each side of the place.
fn side_of(line: &Line<'_>) -> usize
    ensures { result ≡ spec.side_of (line_view line.now) }
{
    if line.front.len() <= 200 && line.back.len() <= 200 - line.front.len() {
        200
    } else {
        100
    }
}

// Adds the line with its number.
fn push_line(out: &mut Vec<u8>, line: &Line<'_>) -> Result<(), NoMemory>
    ensures { OnOk result (out.new.items ≡ out.old.items ++ spec.line_text (line_view line.now)) }
{
    let side = side_of(line);
    push_word(out, b"  ")?;
    push_number(out, line.number)?;
    push_word(out, b" | ")?;
    push_last(out, side, line.front)?;
    push_first(out, side, line.back)?;
    push_word(out, b"\n")
}

// How many bytes of the line are shown in front of the place, with the dots.
fn margin_of(line: &Line<'_>) -> usize
    ensures { result ≡ spec.margin_of (line_view line.now) }
{
    let side = side_of(line);
    if line.front.len() > side {
        side + 3
    } else {
        line.front.len()
    }
}

// How many bytes are marked after the first, of that many: as far as the line is shown.
fn tail_of(line: &Line<'_>, len: usize) -> usize
    ensures { result ≡ spec.tail_of (line_view line.now) len }
{
    let shown = line.back.len().min(side_of(line));
    len.min(shown).saturating_sub(1)
}

// How many digits the number has.
fn width_of(number: usize) -> usize
    ensures { result ≡ length (decimal number) }
{
    let mut buffer = Buffer::new();
    buffer.format(number).len()
}

// Adds the mark under so many bytes from the place on.
fn push_mark(out: &mut Vec<u8>, line: &Line<'_>, len: usize) -> Result<(), NoMemory>
    ensures { OnOk result (out.new.items
        ≡ out.old.items ++ spec.mark_text (line_view line.now) len) }
{
    push_word(out, b"  ")?;
    push_repeated(out, b' ', width_of(line.number))?;
    push_word(out, b" | ")?;
    push_repeated(out, b' ', margin_of(line))?;
    push_word(out, b"^")?;
    push_repeated(out, b'~', tail_of(line, len))?;
    push_word(out, b"\n")
}

/// Adds the line in which the part of the text begins, and a line with a mark under the part.
pub fn push_excerpt(out: &mut Vec<u8>, text: &[u8], spot: Spot) -> Result<(), NoMemory>
    requires { IsWithin text.now spot }
    ensures { OnOk result (out.new.items ≡ out.old.items ++ spec.excerpt text.now spot) }
{
    let line = line_at(text, spot.at);
    push_line(out, &line)?;
    push_mark(out, &line, spot.len)
}

/// Adds a line under its number; of more than 200 bytes the first.
pub fn push_numbered_line(out: &mut Vec<u8>, number: usize, line: &[u8]) -> Result<(), NoMemory>
    ensures { OnOk result (out.new.items ≡ out.old.items ++ spec.numbered number line.now) }
{
    push_word(out, b"  ")?;
    push_number(out, number)?;
    push_word(out, b" | ")?;
    push_first(out, 200, line)?;
    push_word(out, b"\n")
}
