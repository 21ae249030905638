//! Straight functions: the body is one `return` of an expression made of literals, parameters,
//! signs, `+`, `-` and `*`. Preconditions: comparisons of two such expressions over any names,
//! joined by `&&`.
ghost use Rattle.std.specs.Prelude.{◌≡◌, option_copied};
ghost use Rattle.c_ast.specs.Forms as spec;
ghost use Rattle.c_ast.specs.Forms.{straight_of};
ghost use Rattle.c_ast.specs.RowForms as rows;

use crate::expr::{BinOp, Expr, UnOp};
use crate::program::Function;
use crate::stmt::Stmt;

// Whether an expression is made of literals, parameters, signs, `+`, `-` and `*`, where the
// parameters have the slots below `count`.
fn is_straight(e: &Expr, count: usize) -> bool
    ensures { result ≡ spec.is_straight count e.now }
{
    match e {
        Expr::Lit(_) => true,
        Expr::Var(slot) => (*slot as usize) < count,
        Expr::Unary(op, a) => {
            matches!(*op, UnOp::Plus | UnOp::Minus) && is_straight(a.get(), count)
        }
        Expr::Binary(op, a, b) => {
            matches!(*op, BinOp::Add | BinOp::Sub | BinOp::Mul)
                && is_straight(a.get(), count)
                && is_straight(b.get(), count)
        }
        Expr::Choose(_, _, _) | Expr::Apply(_, _) => false,
    }
}

// The expression that a body returns, where it does nothing else.
fn returned(body: &[Stmt]) -> Option<&Expr>
    ensures { option_copied result ≡ spec.returned body.now }
{
    match body {
        [Stmt::Return(e)] => Some(e),
        _ => None,
    }
}

/// The expression that a function of a resolved program returns; `None` exactly where the body is
/// anything but one
/// `return` of an expression made of literals, parameters, the signs `+` and `-`, and `+`, `-` and `*` between operands.
/// Takes no memory.
pub fn straight(function: &Function) -> Option<&Expr>
    ensures { option_copied result ≡ straight_of function.now }
{
    match returned(function.body.as_slice()) {
        None => None,
        Some(e) => {
            if is_straight(e, function.params.len()) {
                Some(e)
            } else {
                None
            }
        }
    }
}

// Whether an expression is made of literals, names, signs, `+`, `-` and `*`.
fn is_straight_operand(e: &Expr) -> bool
    ensures { result ≡ rows.is_straight e.now }
{
    match e {
        Expr::Lit(_) | Expr::Var(_) => true,
        Expr::Unary(op, a) => {
            matches!(*op, UnOp::Plus | UnOp::Minus) && is_straight_operand(a.get())
        }
        Expr::Binary(op, a, b) => {
            matches!(*op, BinOp::Add | BinOp::Sub | BinOp::Mul)
                && is_straight_operand(a.get())
                && is_straight_operand(b.get())
        }
        Expr::Choose(_, _, _) | Expr::Apply(_, _) => false,
    }
}

/// Whether an expression may be a precondition: a comparison by `<`, `<=`, `>`, `>=`, `==` or `!=`
/// of two expressions made of literals, names, the signs `+` and `-`, and `+`, `-` and `*` between
/// operands, or several such comparisons joined by `&&`. Takes no memory.
pub fn is_row_form(e: &Expr) -> bool
    ensures { result ≡ rows.is_row_form e.now }
{
    match e {
        Expr::Binary(BinOp::AndAlso, a, b) => is_row_form(a.get()) && is_row_form(b.get()),
        Expr::Binary(op, a, b) => {
            matches!(
                *op,
                BinOp::Lt | BinOp::Le | BinOp::Gt | BinOp::Ge | BinOp::Eq | BinOp::Ne
            ) && is_straight_operand(a.get())
                && is_straight_operand(b.get())
        }
        _ => false,
    }
}
