//! Changes of a name: assignments, `op=`, and `++` and `--`.
ghost use Rattle.std.specs.Prelude.{◌≡◌, ◌≢◌, ◌+◌, ◌≤◌, ◌<◌, ◌^◌, Some, None, length, IfOk};
ghost use Rattle.c_ast.specs.Height.{stmt_height};
ghost use Rattle.c_syntax.specs.Grammar.{kind_at, binary_of};
ghost use Rattle.c_syntax.specs.Statements.{Change, updated, changing_of, step};
ghost use Rattle.c_ast.specs.declared.expr.BinOp.{BinOp};
ghost use Rattle.c_syntax.specs.Readers.{Gives, IsNoHigher};
ghost use Rattle.c_syntax.specs.StmtReaders.{IsStep};

use crate::delimited::expression_until;
use crate::read::Span;
use crate::token::{has_mark, has_name};
use crate::update::{step_at, update_at};
use c_ast::{BinOp, Expr, Stmt};
use c_lex::{Mark, Token, TokenKind};
use rx_plain::{Boxed, NoMemory};
use std::alloc::Global;

// How high a change by `++` or `--` is.
const STEP_HEIGHT: u32 = 3;

// The name becomes the result of the operator on itself and the value.
fn updating(alloc: Global, name: u32, op: BinOp, value: Expr) -> Result<Stmt, NoMemory>
    ensures { IfOk result (λ s. s ≡ updated name op value) }
{
    let second = Boxed::new(alloc, value)?;
    let first = Boxed::new(alloc, Expr::Var(name))?;
    Ok(Stmt::Assign(name, Expr::Binary(op, first, second)))
}

// The change of the name by `++` or `--`, whose operator is given, where the mark after it is at
// `at`.
fn increment(
    alloc: Global,
    tokens: &[Token],
    name: u32,
    op: BinOp,
    at: usize,
    room: u32,
    mark: Mark,
) -> Result<Option<Span<Stmt>>, NoMemory>
    requires { at < 2 ^ 33 }
    ensures { IfOk result (Gives (IsNoHigher stmt_height room (IsStep mark tokens.now name op at))
        at
        (length tokens.now)) }
{
    if room < STEP_HEIGHT {
        return Ok(None);
    }
    if !has_mark(tokens, at, mark) {
        return Ok(None);
    }
    Ok(Some(Span {
        value: updating(alloc, name, op, Expr::Lit(1))?,
        end: at + 1,
    }))
}

// The change of the name at `at` by an expression after a mark, up to and with the mark after it.
fn assignment(
    alloc: Global,
    tokens: &[Token],
    at: usize,
    room: u32,
    mark: Mark,
) -> Result<Option<Span<Stmt>>, NoMemory>
    requires few { length tokens.now < 2 ^ 32 }
    requires named { kind_at tokens.now at ≡ Some TokenKind.Name }
    requires no_step { (op : BinOp) → changing_of (kind_at tokens.now (at + 1)) ≡ Some (step op) →
        ⊥ }
    requires no_operator { binary_of (Some (TokenKind.Mark mark)) ≡ None }
    requires no_choice { mark ≢ Mark.Question }
    requires no_call { mark ≢ Mark.LeftParen }
    ensures { IfOk result (Gives (IsNoHigher stmt_height room (Change mark tokens.now at)) at
        (length tokens.now)) }
{
    if has_mark(tokens, at + 1, Mark::Assign) {
        let Some(value) = expression_until(alloc, tokens, at + 2, room.saturating_sub(1), mark)?
        else {
            return Ok(None);
        };
        return Ok(Some(Span {
            value: Stmt::Assign(at as u32, value.value),
            end: value.end,
        }));
    }
    let Some(op) = update_at(tokens, at + 1) else {
        return Ok(None);
    };
    let Some(value) = expression_until(alloc, tokens, at + 2, room.saturating_sub(2), mark)? else {
        return Ok(None);
    };
    Ok(Some(Span {
        value: updating(alloc, at as u32, op, value.value)?,
        end: value.end,
    }))
}

// The change at `at` that is no higher than `room`, up to and with the mark after it.
pub fn change(
    alloc: Global,
    tokens: &[Token],
    at: usize,
    room: u32,
    mark: Mark,
) -> Result<Option<Span<Stmt>>, NoMemory>
    requires few { length tokens.now < 2 ^ 32 }
    requires inside { at ≤ length tokens.now }
    requires no_operator { binary_of (Some (TokenKind.Mark mark)) ≡ None }
    requires no_choice { mark ≢ Mark.Question }
    requires no_call { mark ≢ Mark.LeftParen }
    ensures { IfOk result (Gives (IsNoHigher stmt_height room (Change mark tokens.now at)) at
        (length tokens.now)) }
{
    if let Some(op) = step_at(tokens, at) {
        if !has_name(tokens, at + 1) {
            return Ok(None);
        }
        return increment(alloc, tokens, (at + 1) as u32, op, at + 2, room, mark);
    }
    if !has_name(tokens, at) {
        return Ok(None);
    }
    if let Some(op) = step_at(tokens, at + 1) {
        return increment(alloc, tokens, at as u32, op, at + 2, room, mark);
    }
    assignment(alloc, tokens, at, room, mark)
}
