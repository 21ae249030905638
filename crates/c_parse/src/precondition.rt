//! Preconditions.
ghost use Rattle.std.specs.Prelude.{◌≡◌, ◌<◌, ◌^◌, suc, Some, None, Err, length, IfOk};
ghost use Rattle.c_ast.specs.declared.expr.Expr.{Expr};
ghost use Rattle.std.specs.List.{All};
ghost use Rattle.c_ast.specs.Forms.{is_sign, is_sum_or_product};
ghost use Rattle.c_ast.specs.RowForms.{is_comparison, is_row_form, is_straight};
ghost use Rattle.c_ast.specs.Variables.{variables};
ghost use Rattle.c_syntax.specs.Depth.{too_deep};
ghost use Rattle.c_syntax.specs.Grammar.{Expression, levels};
ghost use Rattle.c_syntax.specs.Names.{IsName};
ghost use Rattle.c_parse.specs.Preconditions.{IsExpression, OneExpression, OnePreAnswer, PreAnswers};
ghost use Rattle.c_syntax.specs.Readers.{Reads};

use crate::error::ParseEnd;
use crate::recogniser::expression_fault;
use c_ast::{BinOp, Expr, UnOp};
use c_lex::Token;
use c_syntax::{Read, expression, too_deep};
use std::alloc::Global;

// How high an expression may be.
const MAX_HEIGHT: u32 = 200;

/// The expression that the tokens spell, where it is a comparison of two straight expressions or
/// several joined by `&&`. A straight expression is one of literals, names, unary `+` and `-`, and
/// `+`, `-` and `*`.
///
/// Refused, in this order: `TooDeep` at the first `(` or `{` where 200 brackets are open already;
/// `Syntax` where the tokens spell no expression at most 200 high: at the first token with which they
/// begin no expression of any height, or at the number of tokens where all of them begin one, and
/// at 0 where they spell a higher one; `NotARowForm` where they spell another one.
pub fn parse_pre(alloc: Global, tokens: &[Token]) -> Result<Expr, ParseEnd>
    requires { length tokens.now < 2 ^ 32 }
    ensures answer { PreAnswers tokens.now result }
    ensures named { IfOk result (λ e. All (IsName tokens.now) (variables e)) }
{
    if let Some(token) = too_deep(tokens) {
        return Err(ParseEnd::TooDeep { token });
    }
    match expression(alloc, tokens, 0, MAX_HEIGHT) {
        Err(_) => Err(ParseEnd::NoMemory),
        Ok(None) => Err(pre_syntax_error(alloc, tokens)),
        Ok(Some(read)) => checked_form(alloc, tokens, read),
    }
}

// The expression that was read, where it is all that the tokens spell and has the form.
fn checked_form(alloc: Global, tokens: &[Token], read: Read) -> Result<Expr, ParseEnd>
    requires few { length tokens.now < 2 ^ 32 }
    requires shallow { too_deep 0 0 tokens.now ≡ None }
    requires read { Reads (Expression tokens.now) tokens.now (suc levels) 0 200 (Some read) }
    ensures answer { PreAnswers tokens.now result }
    ensures named { IfOk result (λ e. All (IsName tokens.now) (variables e)) }
{
    if read.end < tokens.len() {
        return Err(pre_syntax_error(alloc, tokens));
    }
    if is_row_form(&read.tree) {
        Ok(read.tree)
    } else {
        Err(ParseEnd::NotARowForm)
    }
}

// Why the tokens are refused that spell no expression at most 200 high.
fn pre_syntax_error(alloc: Global, tokens: &[Token]) -> ParseEnd
    requires few { length tokens.now < 2 ^ 32 }
    requires shallow { too_deep 0 0 tokens.now ≡ None }
    requires unspelled { (e : Expr) → IsExpression tokens.now e → ⊥ }
    ensures { PreAnswers tokens.now (Err result) }
{
    match expression_fault(alloc, tokens) {
        Err(_) => ParseEnd::NoMemory,
        Ok(Some(token)) => ParseEnd::Syntax { token },
        Ok(None) => ParseEnd::Syntax { token: 0 },
    }
}

// Whether the expression is a comparison of two straight expressions, or several joined by `&&`.
fn is_row_form(e: &Expr) -> bool
    ensures { result ≡ is_row_form e.now }
{
    match e {
        Expr::Binary(BinOp::AndAlso, a, b) => is_row_form(a.get()) && is_row_form(b.get()),
        Expr::Binary(op, a, b) => is_comparison(*op)
            && is_straight(a.get())
            && is_straight(b.get()),
        _ => false,
    }
}

// Whether the expression has literals, names, signs, `+`, `-` and `*` alone.
fn is_straight(e: &Expr) -> bool
    ensures { result ≡ is_straight e.now }
{
    match e {
        Expr::Lit(_) | Expr::Var(_) => true,
        Expr::Unary(op, a) => is_sign(*op) && is_straight(a.get()),
        Expr::Binary(op, a, b) => is_sum(*op) && is_straight(a.get()) && is_straight(b.get()),
        _ => false,
    }
}

// Whether it is `+` or `-` before an operand.
fn is_sign(op: UnOp) -> bool
    ensures { result ≡ is_sign op }
{
    match op {
        UnOp::Plus | UnOp::Minus => true,
        UnOp::Not => false,
    }
}

// Whether it is `+`, `-` or `*`.
fn is_sum(op: BinOp) -> bool
    ensures { result ≡ is_sum_or_product op }
{
    match op {
        BinOp::Add | BinOp::Sub | BinOp::Mul => true,
        _ => false,
    }
}

// Whether it compares two operands.
fn is_comparison(op: BinOp) -> bool
    ensures { result ≡ is_comparison op }
{
    match op {
        BinOp::Lt | BinOp::Le | BinOp::Gt | BinOp::Ge | BinOp::Eq | BinOp::Ne => true,
        _ => false,
    }
}

/// A list of tokens spells at most one expression, of whatever height. A law; it does nothing.
pub fn one_expression()
    ensures { OneExpression }
{}

/// A list of tokens has at most one answer of `parse_pre` but out of memory. A law; it does
/// nothing.
pub fn one_pre_answer()
    ensures { OnePreAnswer }
{}
