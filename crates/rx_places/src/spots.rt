//! The parts of a text that faults are about: a token, a few bytes, or the end.
ghost use Rattle.std.specs.Prelude.{◌≡◌, ◌+◌, ◌≤◌, ◌<◌, ◌^◌, All, length, drop, IfOk, IfSome};
ghost use Rattle.std.specs.List.{prefix_len};
ghost use Rattle.c_lex.specs.Tokens.{IsTokenOf};
ghost use Rattle.rx_places.specs.Spots as spec;
ghost use Rattle.rx_places.specs.Spots.{IsWithin};

use c_lex::{LexEnd, Token, tokens};
use rx_plain::NoMemory;
use std::alloc::Global;

/// A part of a text, `text[at..at + len]`; its end where there are no bytes.
#[derive(Clone, Copy, Debug, PartialEq, Eq)]
pub struct Spot {
    /// The offset of its first byte.
    pub at: usize,
    /// How many bytes there are.
    pub len: usize,
}

/// So many bytes from this offset on, as far as there are any; none where the text ends before.
fn bytes_at(text: &[u8], at: u32, len: usize) -> Option<Spot>
    ensures value { result ≡ spec.bytes_at text.now at len }
    ensures within { IfSome result (IsWithin text.now) }
{
    let at = at as usize;
    if at >= text.len() {
        return None;
    }
    Some(Spot {
        at,
        len: len.min(text.len() - at),
    })
}

/// How many decimal digits are at the front.
fn digits_of(text: &[u8]) -> usize
    ensures { result ≡ spec.digits_of text.now }
{
    text.iter().take_while(|byte| byte.is_ascii_digit()).count()
}

/// The literal at this offset.
fn literal_at(text: &[u8], at: u32) -> Option<Spot>
    ensures value { result ≡ spec.literal_at text.now at }
    ensures within { IfSome result (IsWithin text.now) }
{
    let from = (at as usize).min(text.len());
    bytes_at(text, at, digits_of(&text[from..]))
}

/// What a fault in the tokens of a text is about; none where it isn't one of this text.
pub fn spot_of_fault(text: &[u8], fault: LexEnd) -> Option<Spot>
    ensures value { result ≡ spec.spot_of_fault text.now fault }
    ensures within { IfSome result (IsWithin text.now) }
{
    match fault {
        LexEnd::BadByte { at } | LexEnd::Directive { at } => bytes_at(text, at, 1),
        LexEnd::OpenComment { at } => bytes_at(text, at, 2),
        LexEnd::LiteralTooLarge { at } | LexEnd::LeadingZero { at } => literal_at(text, at),
        LexEnd::NoMemory => None,
    }
}

/// The token with this number among those of a text; the text's end after the last.
fn spot_among(text: &[u8], found: &[Token], token: u32) -> Option<Spot>
    requires { All (IsTokenOf text.now) found.now }
    ensures value { result ≡ spec.spot_among text.now found.now token }
    ensures within { IfSome result (IsWithin text.now) }
{
    let place = token as usize;
    if place == found.len() {
        let at = text.len();
        return Some(Spot { at, len: 0 });
    }
    let token = found.get(place)?;
    Some(Spot {
        at: token.at as usize,
        len: token.len as usize,
    })
}

/// The token of a text with this number, counted from 0, or the text's end, which is the one after
/// the last; none where the text has no such token, or is no list of tokens.
pub fn spot_of_token(alloc: Global, text: &[u8], token: u32) -> Result<Option<Spot>, NoMemory>
    requires { length text.now ≤ 1048576 }
    ensures value { IfOk result (λ spot. spot ≡ spec.spot_of_token text.now token) }
    ensures within { IfOk result (λ spot. IfSome spot (IsWithin text.now)) }
{
    match tokens(alloc, text) {
        Ok(found) => Ok(spot_among(text, &found, token)),
        Err(LexEnd::NoMemory) => Err(NoMemory),
        Err(_) => Ok(None),
    }
}
