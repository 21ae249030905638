//! Programs and preconditions with their names resolved.
use crate::parsed::{Parsed, first_of, parse_text};
use crate::printing::{put_expr, put_functions};
use crate::texts::{Lexed, lex_text};
use c_ast::Expr;
use c_names::{find_function, resolve_pre};
use c_parse::parse_pre;
use c_scope::resolve;
use std::alloc::Global;
use test_lines::put_debug;

// The resolved program, or its refusal.
fn resolved(alloc: Global, read: &Parsed) -> String {
    let text = &read.text;
    let mut out = String::new(alloc);
    match resolve(alloc, &text.source, &text.tokens, &read.program) {
        Ok(resolved) => put_functions(&mut out, resolved.functions.as_slice()),
        Err(end) => put_debug(&mut out, end),
    }
    out
}

// The precondition over the parameters of the first function, or its refusal.
fn resolved_pre(alloc: Global, condition: &Lexed, e: &Expr, read: &Parsed) -> Option<String> {
    let function = first_of(read.program.functions.as_slice())?;
    let mut out = String::new(alloc);
    match resolve_pre(
        alloc,
        &read.text.source,
        &read.text.tokens,
        function,
        &condition.source,
        &condition.tokens,
        e,
    ) {
        Ok(e) => put_expr(&mut out, &e),
        Err(end) => put_debug(&mut out, end),
    }
    Some(out)
}

// The precondition over the parameters of the first function of a text.
fn resolved_over(alloc: Global, condition: &Lexed, e: &Expr, text: &str) -> Option<String> {
    resolved_pre(alloc, condition, e, &parse_text(alloc, text)?)
}

// The precondition that is given before a program.
fn condition(alloc: Global, given: &str) -> Option<String> {
    let (condition, text) = given.split_once(" | ")?;
    let condition = lex_text(alloc, condition)?;
    resolved_over(
        alloc,
        &condition,
        &parse_pre(alloc, &condition.tokens).ok()?,
        text,
    )
}

// The place of the function with the name that is given before a program.
fn find(alloc: Global, given: &str) -> Option<String> {
    let (name, text) = given.split_once(" | ")?;
    let read = parse_text(alloc, text)?;
    let mut out = String::new(alloc);
    put_debug(
        &mut out,
        find_function(&read.text.source, &read.text.tokens, &read.program, name),
    );
    Some(out)
}

/// `resolve` and `resolve pre` resolve the names of a program and of a precondition; `find` finds a
/// function.
pub fn answer(alloc: Global, call: &str, given: &str) -> Option<String> {
    match call {
        "resolve" => Some(resolved(alloc, &parse_text(alloc, given)?)),
        "resolve pre" => condition(alloc, given),
        "find" => find(alloc, given),
        _ => None,
    }
}
