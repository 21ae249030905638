//! Copies of trees, and trees that are equal.
use crate::printing::{put_expr, put_program, put_stmt};
use crate::texts::lex_text;
use c_ast::{Expr, Program, Stmt};
use c_parse::{parse, parse_pre};
use rx_plain::Boxed;
use std::alloc::Global;
use test_lines::put_debug;

// The program of a text.
fn parse_text(alloc: Global, text: &str) -> Option<Program> {
    let text = lex_text(alloc, text)?;
    parse(alloc, &text.tokens).ok()
}

// The copy of a program, where it equals the program.
fn copy(alloc: Global, program: &Program) -> Option<String> {
    let copied = program.try_clone(alloc).ok()?;
    let mut out = String::new(alloc);
    if copied == *program {
        put_program(&mut out, &copied);
    }
    Some(out)
}

// The copy of an expression, where it equals the expression.
fn copy_expr(alloc: Global, e: &Expr) -> Option<String> {
    let copied = e.try_clone(alloc).ok()?;
    let mut out = String::new(alloc);
    if copied == *e {
        put_expr(&mut out, &copied);
    }
    Some(out)
}

// The precondition of a text.
fn precondition(alloc: Global, text: &str) -> Option<Expr> {
    let text = lex_text(alloc, text)?;
    parse_pre(alloc, &text.tokens).ok()
}

// The copy of a precondition, where it equals the precondition.
fn copy_pre(alloc: Global, given: &str) -> Option<String> {
    let e = precondition(alloc, given)?;
    copy_expr(alloc, &e)
}

// The copy of a statement, on the heap.
fn boxed_copy(alloc: Global, statement: &Stmt) -> Option<Boxed<Stmt>> {
    Boxed::new(alloc, statement.try_clone(alloc).ok()?).ok()
}

// The copy of a statement, where it equals the statement.
fn copy_stmt(alloc: Global, statement: &Stmt) -> Option<String> {
    let copied = boxed_copy(alloc, statement)?;
    let mut out = String::new(alloc);
    if *copied.get() == *statement {
        put_stmt(&mut out, copied.get());
    }
    Some(out)
}

// The copy of the first statement of the first function, where it equals the statement.
fn copy_statement(alloc: Global, program: &Program) -> Option<String> {
    let function = program.functions.as_slice().first()?;
    copy_stmt(alloc, function.body.as_slice().first()?)
}

// Whether the program of a text is the same tree as this one.
fn same_as(alloc: Global, left: &Program, right: &str) -> Option<String> {
    let right = parse_text(alloc, right)?;
    let mut out = String::new(alloc);
    put_debug(&mut out, *left == right);
    Some(out)
}

// Whether two programs are the same tree.
fn same(alloc: Global, given: &str) -> Option<String> {
    let (left, right) = given.split_once(" | ")?;
    let left = parse_text(alloc, left)?;
    same_as(alloc, &left, right)
}

fn copied(alloc: Global, call: &str, program: &Program) -> Option<String> {
    match call {
        "copy" => copy(alloc, program),
        _ => copy_statement(alloc, program),
    }
}

fn copied_text(alloc: Global, call: &str, text: &str) -> Option<String> {
    let program = parse_text(alloc, text)?;
    copied(alloc, call, &program)
}

/// `copy` and its like copy a tree, and `same` compares two programs.
pub fn answer(alloc: Global, call: &str, given: &str) -> Option<String> {
    match call {
        "copy pre" => copy_pre(alloc, given),
        "same" => same(alloc, given),
        _ => copied_text(alloc, call, given),
    }
}
