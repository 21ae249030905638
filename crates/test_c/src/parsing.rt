//! Programs and preconditions as they are read.
ghost use Rattle.std.specs.Prelude.{◌≤◌, length};

use crate::printing::{put_expr, put_program};
use crate::texts::lex;
use c_lex::Token;
use c_parse::{ParseEnd, parse, parse_pre};
use std::alloc::Global;
use test_lines::{put, put_debug, put_space, source_of};

// The program of a text, or its refusal.
fn program(alloc: Global, tokens: &[Token]) -> String
    requires { length tokens.now ≤ 1048576 }
{
    let mut out = String::new(alloc);
    match parse(alloc, tokens) {
        Ok(program) => put_program(&mut out, &program),
        Err(end) => put_debug(&mut out, end),
    }
    out
}

// Whether a text is a program, or its refusal.
fn is_program(alloc: Global, tokens: &[Token]) -> String
    requires { length tokens.now ≤ 1048576 }
{
    let mut out = String::new(alloc);
    match parse(alloc, tokens) {
        Ok(_) => put(&mut out, "read"),
        Err(end) => put_debug(&mut out, end),
    }
    out
}

// The precondition of a text, or its refusal.
fn precondition(alloc: Global, tokens: &[Token]) -> String
    requires { length tokens.now ≤ 1048576 }
{
    let mut out = String::new(alloc);
    match parse_pre(alloc, tokens) {
        Ok(e) => put_expr(&mut out, &e),
        Err(end) => put_debug(&mut out, end),
    }
    out
}

// Whether the tokens spell no program.
fn is_syntax(alloc: Global, tokens: &[Token]) -> bool
    requires { length tokens.now ≤ 1048576 }
{
    matches!(parse(alloc, tokens), Err(ParseEnd::Syntax { token: _ }))
}

// Of a program cut after each number of tokens, the numbers where no syntax error is found.
fn cut(alloc: Global, tokens: &[Token]) -> String
    requires { length tokens.now ≤ 1048576 }
{
    let mut out = String::new(alloc);
    for count in 0..=tokens.len() {
        if !is_syntax(alloc, &tokens[..count]) {
            put_space(&mut out);
            put_debug(&mut out, count);
        }
    }
    out
}

/// `parse` and `pre` read a text; `accepts`, and `long parse` and `long pre` of a long text, say
/// whether it is read; `cut` says after how many tokens a program may be cut.
pub fn answer(alloc: Global, call: &str, given: &str) -> Option<String> {
    let text = lex(alloc, source_of(alloc, call, given)?)?;
    Some(match call {
        "parse" => program(alloc, &text.tokens),
        "accepts" | "long parse" => is_program(alloc, &text.tokens),
        "cut" => cut(alloc, &text.tokens),
        _ => precondition(alloc, &text.tokens),
    })
}
