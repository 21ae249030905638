//! Numbers of a text that are no 32-bit integers.
ghost use Rattle.std.specs.Prelude.{◌≡◌, ◌<◌, ◌^◌, length, IfSome};
ghost use Rattle.std.specs.List.{position};
ghost use Rattle.c_front.specs.Literals as spec;

use c_lex::{Token, TokenKind};

/// The greatest 32-bit integer (ISO/IEC 9899:1999, 5.2.4.2.1).
const GREATEST: i64 = 2147483647;

// Whether the token is a number above the greatest.
fn is_wide(token: &Token) -> bool
    ensures { result ≡ spec.is_wide token.now }
{
    match token.kind {
        TokenKind::Number(value) => value > GREATEST,
        _ => false,
    }
}

// Where the first number above 2147483647 is.
fn place_of_wide(tokens: &[Token]) -> Option<usize>
    ensures within { IfSome result (λ place. place < length tokens.now) }
    ensures first { result ≡ position spec.is_wide tokens.now }
{
    tokens.iter().position(|token| is_wide(token))
}

/// The place among the tokens of the first number above 2147483647, none where there is none. Takes
/// no memory.
pub fn wide_literal(tokens: &[Token]) -> Option<u32>
    requires { length tokens.now < 2 ^ 32 }
    ensures { result ≡ position spec.is_wide tokens.now }
{
    match place_of_wide(tokens) {
        Some(place) => Some(place as u32),
        None => None,
    }
}
