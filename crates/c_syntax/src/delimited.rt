//! Expressions up to a mark, and in parentheses.
ghost use Rattle.std.specs.Prelude.{◌≡◌, ◌≢◌, ◌≤◌, ◌<◌, ◌^◌, Some, None, length, IfOk};
ghost use Rattle.c_ast.specs.Height.{expr_height};
ghost use Rattle.c_syntax.specs.Grammar.{binary_of, UpTo, Test};
ghost use Rattle.c_syntax.specs.Readers.{Gives, IsNoHigher};

use crate::expr::expression;
use crate::read::Span;
use crate::token::has_mark;
use c_ast::Expr;
use c_lex::{Mark, Token, TokenKind};
use rx_plain::NoMemory;
use std::alloc::Global;

// The expression at `at` that is no higher than `room`, up to and with the mark after it.
pub fn expression_until(
    alloc: Global,
    tokens: &[Token],
    at: usize,
    room: u32,
    mark: Mark,
) -> Result<Option<Span<Expr>>, NoMemory>
    requires few { length tokens.now < 2 ^ 32 }
    requires inside { at ≤ length tokens.now }
    requires no_operator { binary_of (Some (TokenKind.Mark mark)) ≡ None }
    requires no_choice { mark ≢ Mark.Question }
    requires no_call { mark ≢ Mark.LeftParen }
    ensures { IfOk result (Gives (IsNoHigher expr_height room (UpTo mark tokens.now at)) at
        (length tokens.now)) }
{
    if room == 0 {
        return Ok(None);
    }
    let Some(read) = expression(alloc, tokens, at, room)? else {
        return Ok(None);
    };
    if has_mark(tokens, read.end, mark) {
        Ok(Some(Span {
            value: read.tree,
            end: read.end + 1,
        }))
    } else {
        Ok(None)
    }
}

// The expression in parentheses at `at` that is no higher than `room`.
pub fn parenthesized(
    alloc: Global,
    tokens: &[Token],
    at: usize,
    room: u32,
) -> Result<Option<Span<Expr>>, NoMemory>
    requires few { length tokens.now < 2 ^ 32 }
    requires inside { at ≤ length tokens.now }
    ensures { IfOk result (Gives (IsNoHigher expr_height room (Test tokens.now at)) at
        (length tokens.now)) }
{
    if !has_mark(tokens, at, Mark::LeftParen) {
        return Ok(None);
    }
    expression_until(alloc, tokens, at + 1, room, Mark::RightParen)
}
