//! The ends of comments and lines.
ghost use Rattle.std.specs.Prelude.{◌≡◌, ◌≤◌, min, length};
ghost use Rattle.c_lex.specs.Bytes as spec;
ghost use Rattle.c_lex.specs.Classes.{stop_test};

use crate::bytes::{byte_at, rest_from};

/// What a scan looks for.
#[derive(Clone, Copy)]
pub(crate) enum Stop {
    /// A line end.
    LineEnd,
    /// A line end, or the begin of a block comment.
    IncludeEnd,
    /// The end of a block comment.
    Close,
    /// A backslash directly before a line end.
    Splice,
}

/// Whether the text begins with these two bytes.
pub(crate) fn begins(x: u8, y: u8, text: &[u8]) -> bool
    ensures { result ≡ spec.begins x y text.now }
{
    byte_at(text, 0) == x && byte_at(text, 1) == y
}

fn at_line_end(text: &[u8]) -> bool
    ensures { result ≡ spec.at_line_end text.now }
{
    byte_at(text, 0) == b'\n'
}

/// Whether a block comment begins here.
pub(crate) fn at_comment(text: &[u8]) -> bool
    ensures { result ≡ spec.at_comment text.now }
{
    begins(b'/', b'*', text)
}

fn at_splice(text: &[u8]) -> bool
    ensures { result ≡ spec.at_splice text.now }
{
    begins(b'\\', b'\n', text) || (begins(b'\\', b'\r', text) && byte_at(text, 2) == b'\n')
}

fn stands(stop: Stop, text: &[u8]) -> bool
    ensures { result ≡ stop_test stop text.now }
{
    match stop {
        Stop::LineEnd => at_line_end(text),
        Stop::IncludeEnd => at_line_end(text) || at_comment(text),
        Stop::Close => begins(b'*', b'/', text),
        Stop::Splice => at_splice(text),
    }
}

/// The first place before `limit` where this holds, or `limit`.
pub(crate) fn place_before(stop: Stop, text: &[u8], limit: usize) -> usize
    requires { limit ≤ length text.now }
    ensures { result ≡ min (spec.until (stop_test stop) text.now) limit }
{
    for at in 0..limit {
        if stands(stop, rest_from(text, at)) {
            return at;
        }
    }
    limit
}

/// The first place where this holds, or the length of the text.
#[tactic(auto, using(crate::proofs::Scans::until_le))]
pub(crate) fn place_of(stop: Stop, text: &[u8]) -> usize
    ensures value { result ≡ spec.until (stop_test stop) text.now }
    ensures within { result ≤ length text.now }
{
    place_before(stop, text, text.len())
}
