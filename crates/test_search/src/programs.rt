//! A small program: a division that may fail, beside 0.
ghost use Rattle.std.specs.Prelude.{◌≡◌, IfSome, [], ◌∷◌};
ghost use Rattle.rx_code.specs.Example as sample;

use c_ast::{BinOp, Expr, Function, Resolved, Stmt};
use rx_plain::{Boxed, Items};
use std::alloc::Global;

fn binary(alloc: Global, op: BinOp, left: Expr, right: Expr) -> Option<Expr>
    ensures { IfSome result (λ e. e ≡ Expr.Binary op left right) }
{
    let left = Boxed::new(alloc, left).ok()?;
    let right = Boxed::new(alloc, right).ok()?;
    Some(Expr::Binary(op, left, right))
}

// A function of one parameter.
fn unary(alloc: Global, name: u32, body: Items<Stmt>) -> Option<Function>
    ensures { IfSome result (λ f. f ≡ record { name = name; params = 0 ∷ []; body = body }) }
{
    let mut params = Items::new(alloc);
    params.push(0).ok()?;
    Some(Function { name, params, body })
}

// int dropped(int x) { return 0 * (1 / x); }
fn dropped(alloc: Global) -> Option<Function>
    ensures { IfSome result (λ f. f ≡ sample.dropped) }
{
    let quotient = binary(alloc, BinOp::Div, Expr::Lit(1), Expr::Var(0))?;
    let product = binary(alloc, BinOp::Mul, Expr::Lit(0), quotient)?;
    let mut body = Items::new(alloc);
    body.push(Stmt::Return(product)).ok()?;
    unary(alloc, 1, body)
}

// int zero(int x) { return 0; }
fn zero(alloc: Global) -> Option<Function>
    ensures { IfSome result (λ f. f ≡ sample.zero) }
{
    let mut body = Items::new(alloc);
    body.push(Stmt::Return(Expr::Lit(0))).ok()?;
    unary(alloc, 2, body)
}

/// A division whose value is dropped at place 0, and 0 at place 1.
pub fn division(alloc: Global) -> Option<Resolved>
    ensures { IfSome result (λ p. p ≡ sample.division) }
{
    let mut functions = Items::new(alloc);
    functions.push(dropped(alloc)?).ok()?;
    functions.push(zero(alloc)?).ok()?;
    Some(Resolved { functions })
}
