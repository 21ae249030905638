//! A text with its tokens.
ghost use Rattle.std.specs.Prelude.{◌≤◌, length, IfSome};
ghost use Rattle.c_names.specs.Spellings.{IsWithin};

use c_lex::{Token, tokens};
use std::alloc::Global;
use test_lines::bytes_of;

/// A text with its tokens.
#[derive(Drop)]
pub struct Lexed {
    /// The bytes of the text.
    pub source: Vec<u8>,
    /// Its tokens.
    pub tokens: Vec<Token>,
    ghost within: { IsWithin source.items tokens.items },
    ghost few: { length tokens.items ≤ 1048576 },
}

// The tokens of these bytes; none where they are too many, or no list of tokens.
fn tokens_of(alloc: Global, source: &[u8]) -> Option<Vec<Token>>
    ensures within { IfSome result (λ tokens. IsWithin source.now tokens.items) }
    ensures few { IfSome result (λ tokens. length tokens.items ≤ 1048576) }
{
    if source.len() > 1_048_576 {
        return None;
    }
    match tokens(alloc, source) {
        Ok(tokens) => Some(tokens),
        Err(_) => None,
    }
}

/// A text with its tokens; none where it has more than 1,048,576 bytes, where it is no list of
/// tokens, or where there is no memory.
pub fn lex(alloc: Global, source: Vec<u8>) -> Option<Lexed> {
    let tokens = tokens_of(alloc, &source)?;
    Some(Lexed { source, tokens })
}

/// As `lex`, of the bytes that a text with escapes means.
pub fn lex_text(alloc: Global, text: &str) -> Option<Lexed> {
    lex(alloc, bytes_of(alloc, text)?)
}
