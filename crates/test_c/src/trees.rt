//! Copies of resolved programs, heights and straight functions.
ghost use Rattle.std.specs.Prelude.{◌≡◌, IfSome};
ghost use Rattle.c_ast.specs.Height.{expr_height, stmt_height};

use crate::parsed::{Parsed, first_of, parse_text};
use crate::printing::{put_expr, put_functions};
use c_ast::{BinOp, Expr, Function, Stmt, UnOp, expr_height, stmt_height, straight};
use c_scope::resolve;
use rx_plain::{Boxed, Items};
use std::alloc::Global;
use test_lines::{put, put_number};

// The copy of a resolved program, where it equals the program.
fn copy_resolved(alloc: Global, read: &Parsed) -> Option<String> {
    let text = &read.text;
    let resolved = resolve(alloc, &text.source, &text.tokens, &read.program).ok()?;
    let copied = resolved.try_clone(alloc).ok()?;
    let mut out = String::new(alloc);
    if copied == resolved {
        put_functions(&mut out, copied.functions.as_slice());
    }
    Some(out)
}

// What the first function returns, where it is straight.
fn returned(alloc: Global, functions: &[Function]) -> Option<String> {
    let function = first_of(functions)?;
    let mut out = String::new(alloc);
    match straight(function) {
        Some(e) => put_expr(&mut out, e),
        None => put(&mut out, "none"),
    }
    Some(out)
}

// What the first function of a resolved program returns, where it is straight.
fn returned_by(alloc: Global, read: &Parsed) -> Option<String> {
    let text = &read.text;
    let resolved = resolve(alloc, &text.source, &text.tokens, &read.program).ok()?;
    returned(alloc, resolved.functions.as_slice())
}

// `-(x + 2)`
fn negated_sum(alloc: Global) -> Option<Expr>
    ensures { IfSome result (λ e. expr_height e ≡ 3) }
{
    let left = Boxed::new(alloc, Expr::Var(7)).ok()?;
    let right = Boxed::new(alloc, Expr::Lit(2)).ok()?;
    let sum = Boxed::new(alloc, Expr::Binary(BinOp::Add, left, right)).ok()?;
    Some(Expr::Unary(UnOp::Minus, sum))
}

// `while (f()) return -(x + 2);`
fn turns(alloc: Global) -> Option<Stmt>
    ensures { IfSome result (λ s. stmt_height s ≡ 5) }
{
    let value = negated_sum(alloc)?;
    let body = Boxed::new(alloc, Stmt::Return(value)).ok()?;
    Some(Stmt::While(Expr::Apply(5, Items::new(alloc)), body))
}

// A number as text.
fn number(alloc: Global, number: u32) -> String {
    let mut out = String::new(alloc);
    put_number(&mut out, "", number);
    out
}

// The height of `-(x + 2)`.
fn low(alloc: Global) -> Option<String> {
    let e = negated_sum(alloc)?;
    Some(number(alloc, expr_height(&e)))
}

// The height of `while (f()) return -(x + 2);`.
fn high(alloc: Global) -> Option<String> {
    let s = Boxed::new(alloc, turns(alloc)?).ok()?;
    Some(number(alloc, stmt_height(s.get())))
}

// What is said of a program as it was read.
fn of_program(alloc: Global, call: &str, read: &Parsed) -> Option<String> {
    match call {
        "copy resolved" => copy_resolved(alloc, read),
        "straight" => returned_by(alloc, read),
        _ => returned(alloc, read.program.functions.as_slice()),
    }
}

/// `copy resolved` copies a resolved program; `straight` says what the first function returns, of a
/// resolved program or of one as it was read; `low` and `high` are the heights of two trees that
/// are built here.
pub fn answer(alloc: Global, call: &str, given: &str) -> Option<String> {
    match call {
        "low" => low(alloc),
        "high" => high(alloc),
        _ => of_program(alloc, call, &parse_text(alloc, given)?),
    }
}
