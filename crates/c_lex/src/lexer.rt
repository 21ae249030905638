//! The tokens of a text, piece by piece.
ghost use Rattle.std.specs.Prelude.{◌≡◌, ◌+◌, ◌<◌, ◌≤◌, ◌^◌, [], ◌∷◌, ◌++◌, length, IfOk, OnOk, All, AllPairs};
ghost use Rattle.c_lex.specs.Tokens as spec;
ghost use Rattle.c_lex.specs.Kept.{EndsBelow, Keeps};
ghost use Rattle.c_lex.specs.Tokens.{Gives, tokens_of, IsTokenOf, IsBefore};

use crate::bytes::{fresh_after, rest_from};
use crate::error::LexEnd;
use crate::piece::{Fault, Piece, piece_at_front};
use crate::token::Token;
use rx_plain::NoMemory;
use std::alloc::Global;

/// The answer for a fault at this offset.
fn end_at(fault: Fault, at: u32) -> LexEnd
    ensures { result ≡ spec.end_at fault at }
{
    match fault {
        Fault::BadByte => LexEnd::BadByte { at },
        Fault::OpenComment => LexEnd::OpenComment { at },
        Fault::LiteralTooLarge => LexEnd::LiteralTooLarge { at },
        Fault::LeadingZero => LexEnd::LeadingZero { at },
        Fault::Directive => LexEnd::Directive { at },
    }
}

/// How many bytes the piece at this offset has, where it is no fault. A token is kept.
fn keep(found: &mut Vec<Token>, piece: Piece, at: usize) -> Result<usize, LexEnd>
    requires { EndsBelow (2 ^ 32) at piece }
    ensures { Keeps piece at found.old.items found.new.items result }
{
    match piece {
        Piece::Blank(len) => Ok(len),
        Piece::Spelled(kind, len) => {
            let token = Token {
                kind,
                at: at as u32,
                len: len as u32,
            };
            found.push(token).map_err(|_| NoMemory)?;
            Ok(len)
        }
        Piece::Bad(fault, behind) => Err(end_at(fault, (at + behind) as u32)),
    }
}

/// The tokens of the text, in order, or its first fault.
///
/// The text has at most 1,048,576 bytes. Spaces, tabs, CR, LF, VT, FF, comments and include lines
/// are between tokens and are none (ISO/IEC 9899:1999, 6.4 and 6.4.9, without trigraphs, and with a
/// backslash directly before a line end refused).
pub fn tokens(alloc: Global, source: &[u8]) -> Result<Vec<Token>, LexEnd>
    requires { length source.now ≤ 1048576 }
    ensures gives { Gives result (tokens_of source.now) }
    ensures within { IfOk result (λ v. All (IsTokenOf source.now) v.items) }
    ensures spans { IfOk result (λ v. AllPairs IsBefore v.items) }
    ensures few { IfOk result (λ v. length v.items ≤ length source.now) }
{
    let mut found = Vec::new(alloc);
    let mut at = 0;
    let mut fresh = true;
    'pieces: while at < source.len() {
        let len = keep(&mut found, piece_at_front(fresh, rest_from(source, at)), at)?;
        fresh = fresh_after(fresh, source[at]);
        at += len;
    }
    Ok(found)
}
