//! Code that is written down, and the code of two expressions.
use c_ast::{BinOp, Expr, Integers};
use rx_code::{Action, Code, Point};
use rx_exprs::{Setting, condition, value};
use rx_plain::Boxed;
use std::alloc::Global;

fn unbounded(alloc: Global) -> Setting {
    Setting {
        alloc,
        integers: Integers::Unbounded,
    }
}

// The parameter v0 and a number, joined by an operator.
fn joined(alloc: Global, op: BinOp, number: i64) -> Option<Expr> {
    let left = Boxed::new(alloc, Expr::Var(0)).ok()?;
    let right = Boxed::new(alloc, Expr::Lit(number)).ok()?;
    Some(Expr::Binary(op, left, right))
}

// The value is the variable v1 at a point that is one wider.
fn is_wider(alloc: Global, code: &mut Code, half: &Expr, point: Point) -> Option<bool> {
    let (after, of) = value(unbounded(alloc), code, half, point).ok()?;
    Some(after.symbol == 1 && after.width == 2 && of.as_variable() == Some(1))
}

// The value of v0 / 2.
fn quotient(alloc: Global, code: &mut Code, point: Point) -> Option<bool> {
    let half = joined(alloc, BinOp::Div, 2)?;
    is_wider(alloc, code, &half, point)
}

// The test is one instruction.
fn is_one_instruction(alloc: Global, code: &mut Code, less: &Expr, point: Point) -> Option<bool> {
    condition(unbounded(alloc), code, less, point, point, point).ok()?;
    Some(code.opened.len() == 1 && code.instructions.len() == 1)
}

// The test v0 < 2.
fn comparison(alloc: Global, code: &mut Code, point: Point) -> Option<bool> {
    let less = joined(alloc, BinOp::Lt, 2)?;
    is_one_instruction(alloc, code, &less, point)
}

fn acted(code: &mut Code, point: Point) -> Option<bool> {
    code.emit(point, Action::Go(point)).ok()?;
    Some(code.instructions.len() == 1)
}

fn marked(code: &mut Code) -> Option<bool> {
    code.mark_head(0).ok()?;
    code.mark_entry(0, 0).ok()?;
    Some(code.heads.len() == 1 && code.entries.len() == 1)
}

fn wider(code: &mut Code) -> Option<bool> {
    let point = code.open_wider(1).ok()?;
    Some(point.width == 2)
}

fn holds_of(alloc: Global, name: &str, code: &mut Code, point: Point) -> Option<bool> {
    match name {
        "opened" => Some(point.symbol == 0 && code.opened.len() == 1),
        "wider" => wider(code),
        "acted" => acted(code, point),
        "marked" => marked(code),
        "value" => quotient(alloc, code, point),
        "condition" => comparison(alloc, code, point),
        _ => None,
    }
}

/// Whether the case is as it is to be, in code with one point of one variable.
pub fn holds(alloc: Global, name: &str) -> Option<bool> {
    let mut code = Code::new(alloc);
    let point = code.open(1, false).ok()?;
    holds_of(alloc, name, &mut code, point)
}
