//! The tokens of texts.
use c_lex::{Token, TokenKind, tokens};
use std::alloc::Global;
use test_lines::{put, put_debug, put_number, put_space, source_of};

// Adds what a token is.
fn put_kind(out: &mut String, kind: TokenKind) {
    match kind {
        TokenKind::Name => put(out, "Name"),
        TokenKind::Number(value) => put_debug(out, value),
        TokenKind::Word(keyword) => put_debug(out, keyword),
        TokenKind::Mark(mark) => put_debug(out, mark),
    }
}

// Adds the tokens, each by its kind, offset and length.
fn put_tokens(out: &mut String, tokens: &[Token]) {
    for token in tokens {
        put_space(out);
        put_kind(out, token.kind);
        put_number(out, "@", token.at);
        put_number(out, "+", token.len);
    }
}

// The tokens of a text, or its fault.
fn listed(alloc: Global, source: &[u8]) -> Option<String> {
    if source.len() > 1_048_576 {
        return None;
    }
    let mut out = String::new(alloc);
    match tokens(alloc, source) {
        Ok(tokens) => put_tokens(&mut out, &tokens),
        Err(end) => put_debug(&mut out, end),
    }
    Some(out)
}

// The number of the tokens of a text, or its fault.
fn counted(alloc: Global, source: &[u8]) -> Option<String> {
    if source.len() > 1_048_576 {
        return None;
    }
    let mut out = String::new(alloc);
    match tokens(alloc, source) {
        Ok(tokens) => put_debug(&mut out, tokens.len()),
        Err(end) => put_debug(&mut out, end),
    }
    Some(out)
}

/// `lex` lists the tokens of a text, `long lex` counts those of a long text.
pub fn answer(alloc: Global, call: &str, given: &str) -> Option<String> {
    let source = source_of(alloc, call, given)?;
    if call == "lex" {
        listed(alloc, &source)
    } else {
        counted(alloc, &source)
    }
}
