//! What begins at a place of the text.
ghost use Rattle.std.specs.Prelude.{◌≡◌, ◌^◌, ◌≤◌, ◌<◌, min, length, slice_index, IsTrue};
ghost use Rattle.c_lex.specs.Marks.{one_mark, two_mark};
ghost use Rattle.c_lex.specs.Bytes as bytes_spec;
ghost use Rattle.c_lex.specs.Spelling.{value_of};
ghost use Rattle.c_lex.specs.Pieces as spec;

use crate::bytes::{Class, byte_at, is_digit, is_letter, is_separator, rest_from, run};
use crate::keywords::keyword_of;
use crate::marks::{one_mark, two_mark};
use crate::scan::{Stop, at_comment, begins, place_before, place_of};
use crate::token::TokenKind;

/// A fault, without its place.
#[derive(Clone, Copy)]
pub(crate) enum Fault {
    BadByte,
    OpenComment,
    LiteralTooLarge,
    LeadingZero,
    Directive,
}

/// What begins at a place.
#[derive(Clone, Copy)]
pub(crate) enum Piece {
    /// That many bytes, which are not kept: a separator, a comment or an include line.
    Blank(usize),
    /// A token of that many bytes.
    Spelled(TokenKind, usize),
    /// A fault, that many bytes after the place.
    Bad(Fault, usize),
}

/// A name or a keyword.
#[tactic(auto, unfolding(crate::specs::Pieces::word))]
fn word(rest: &[u8]) -> Piece
    requires { IsTrue (bytes_spec.is_letter (slice_index rest.now 0)) }
    ensures value { result ≡ spec.word rest.now }
    ensures part { spec.IsPieceOf rest.now result }
{
    let len = run(Class::Word, rest);
    match keyword_of(&rest[..len]) {
        Some(keyword) => Piece::Spelled(TokenKind::Word(keyword), len),
        None => Piece::Spelled(TokenKind::Name, len),
    }
}

const TOO_LARGE: u128 = 1 << 63;

/// The number that these digits write, or 2^63 if it is larger.
fn literal_value(digits: &[u8]) -> u128
    ensures { result ≡ min (value_of digits.now) (2 ^ 63) }
{
    let mut value: u128 = 0;
    for digit in digits {
        value = (value * 10 + u128::from(digit.saturating_sub(b'0'))).min(TOO_LARGE);
    }
    value
}

/// A literal.
#[tactic(auto, unfolding(crate::specs::Pieces::number))]
fn number(rest: &[u8]) -> Piece
    requires { IsTrue (bytes_spec.is_digit (slice_index rest.now 0)) }
    ensures value { result ≡ spec.number rest.now }
    ensures part { spec.IsPieceOf rest.now result }
{
    let len = run(Class::Digit, rest);
    if byte_at(rest, 0) == b'0' && len >= 2 {
        return Piece::Bad(Fault::LeadingZero, 0);
    }
    let value = literal_value(&rest[..len]);
    if value >= TOO_LARGE {
        return Piece::Bad(Fault::LiteralTooLarge, 0);
    }
    if is_letter(byte_at(rest, len)) {
        return Piece::Bad(Fault::BadByte, len);
    }
    Piece::Spelled(TokenKind::Number(value as i64), len)
}

/// That many bytes, which are not kept, unless a backslash among them is directly before a line
/// end.
#[tactic(auto, unfolding(crate::specs::Pieces::blank))]
fn blank(len: usize, rest: &[u8]) -> Piece
    requires some { 1 ≤ len }
    requires within { len ≤ length rest.now }
    requires line { spec.IsSeenAtFront rest.now len }
    ensures value { result ≡ spec.blank len rest.now }
    ensures part { spec.IsPieceOf rest.now result }
{
    let splice = place_before(Stop::Splice, rest, len);
    if splice < len {
        Piece::Bad(Fault::BadByte, splice)
    } else {
        Piece::Blank(len)
    }
}

/// A block comment.
#[tactic(auto, unfolding(crate::specs::Pieces::block_comment))]
fn block_comment(rest: &[u8]) -> Piece
    requires { IsTrue (bytes_spec.at_comment rest.now) }
    ensures value { result ≡ spec.block_comment rest.now }
    ensures part { spec.IsPieceOf rest.now result }
{
    let behind = rest_from(rest, 2);
    let inside = place_of(Stop::Close, behind);
    if inside == behind.len() {
        Piece::Bad(Fault::OpenComment, 0)
    } else {
        blank(inside + 4, rest)
    }
}

/// A comment to the line end.
#[tactic(auto, unfolding(crate::specs::Pieces::line_comment))]
fn line_comment(rest: &[u8]) -> Piece
    requires { slice_index rest.now 0 ≡ bytes_spec.slash }
    ensures value { result ≡ spec.line_comment rest.now }
    ensures part { spec.IsPieceOf rest.now result }
{
    blank(place_of(Stop::LineEnd, rest), rest)
}

/// Whether the word after spaces and tabs is `include`.
#[tactic(auto, unfolding(crate::specs::Pieces::names_include))]
fn names_include(rest: &[u8]) -> bool
    ensures { result ≡ spec.names_include rest.now }
{
    let behind = rest_from(rest, run(Class::Space, rest));
    &behind[..run(Class::Word, behind)] == b"include".as_slice()
}

/// What a `#` begins, where `fresh` says that only spaces and tabs are in front of it on its line.
#[tactic(auto, unfolding(crate::specs::Pieces::directive))]
fn directive(fresh: bool, rest: &[u8]) -> Piece
    requires { slice_index rest.now 0 ≡ bytes_spec.hash }
    ensures value { result ≡ spec.directive fresh rest.now }
    ensures part { spec.IsPieceOf rest.now result }
{
    if fresh && names_include(rest_from(rest, 1)) {
        blank(place_of(Stop::IncludeEnd, rest), rest)
    } else {
        Piece::Bad(Fault::Directive, 0)
    }
}

/// The longest mark.
fn mark(rest: &[u8]) -> Piece
    requires { 1 ≤ length rest.now }
    ensures value { result
        ≡ spec.longest (two_mark (slice_index rest.now 0) (slice_index rest.now 1))
        (one_mark (slice_index rest.now 0)) }
    ensures part { spec.IsPieceOf rest.now result }
{
    let first = byte_at(rest, 0);
    match (two_mark(first, byte_at(rest, 1)), one_mark(first)) {
        (Some(two), _) => Piece::Spelled(TokenKind::Mark(two), 2),
        (None, Some(one)) => Piece::Spelled(TokenKind::Mark(one), 1),
        (None, None) => Piece::Bad(Fault::BadByte, 0),
    }
}

/// What begins at the front of the text, where `fresh` says that only spaces and tabs are in front
/// of it on its line.
#[tactic(auto, unfolding(crate::specs::Pieces::piece))]
pub(crate) fn piece_at_front(fresh: bool, rest: &[u8]) -> Piece
    requires { 1 ≤ length rest.now }
    ensures value { result ≡ spec.piece fresh rest.now }
    ensures part { spec.IsPieceOf rest.now result }
{
    let first = byte_at(rest, 0);
    if is_separator(first) {
        Piece::Blank(1)
    } else if is_letter(first) {
        word(rest)
    } else if is_digit(first) {
        number(rest)
    } else if first == b'#' {
        directive(fresh, rest)
    } else if at_comment(rest) {
        block_comment(rest)
    } else if begins(b'/', b'/', rest) {
        line_comment(rest)
    } else {
        mark(rest)
    }
}
