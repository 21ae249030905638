//! The head of a `for`.
ghost use Rattle.std.specs.Prelude.{◌≤◌, ◌<◌, ◌^◌, length, IfOk};
ghost use Rattle.c_ast.specs.Height.{expr_height, stmt_height, of_option};
ghost use Rattle.c_syntax.specs.Statements.{ForInit, ForTest, ForStep, ForHead};
ghost use Rattle.c_syntax.specs.Heights.{list_height, head_height};
ghost use Rattle.c_syntax.specs.Readers.{Gives, IsNoHigher};

use crate::changes::change;
use crate::declare::declaration;
use crate::delimited::expression_until;
use crate::read::Span;
use crate::token::{has_keyword, has_mark};
use crate::tree::Head;
use c_ast::{Expr, Stmt};
use c_lex::{Keyword, Mark, Token};
use rx_plain::{Boxed, Items, NoMemory};
use std::alloc::Global;

// The part before the test, with the semicolon.
fn for_init(
    alloc: Global,
    tokens: &[Token],
    at: usize,
    room: u32,
) -> Result<Option<Span<Items<Stmt>>>, NoMemory>
    requires few { length tokens.now < 2 ^ 32 }
    requires inside { at ≤ length tokens.now }
    ensures { IfOk result (Gives (IsNoHigher list_height room (ForInit tokens.now at)) at
        (length tokens.now)) }
{
    if has_mark(tokens, at, Mark::Semicolon) {
        return Ok(Some(Span {
            value: Items::new(alloc),
            end: at + 1,
        }));
    }
    if has_keyword(tokens, at, Keyword::Int) {
        return declaration(alloc, tokens, at, room);
    }
    let Some(read) = change(alloc, tokens, at, room, Mark::Semicolon)? else {
        return Ok(None);
    };
    let mut one = Items::new(alloc);
    one.push(read.value)?;
    Ok(Some(Span {
        value: one,
        end: read.end,
    }))
}

// The test, with the semicolon.
fn for_test(
    alloc: Global,
    tokens: &[Token],
    at: usize,
    room: u32,
) -> Result<Option<Span<Option<Expr>>>, NoMemory>
    requires few { length tokens.now < 2 ^ 32 }
    requires inside { at ≤ length tokens.now }
    ensures { IfOk result (Gives (IsNoHigher (of_option expr_height) room (ForTest tokens.now at))
        at
        (length tokens.now)) }
{
    if has_mark(tokens, at, Mark::Semicolon) {
        return Ok(Some(Span {
            value: None,
            end: at + 1,
        }));
    }
    let Some(read) = expression_until(alloc, tokens, at, room, Mark::Semicolon)? else {
        return Ok(None);
    };
    Ok(Some(Span {
        value: Some(read.value),
        end: read.end,
    }))
}

// The change after the test, with the closing parenthesis.
fn for_step(
    alloc: Global,
    tokens: &[Token],
    at: usize,
    room: u32,
) -> Result<Option<Span<Option<Boxed<Stmt>>>>, NoMemory>
    requires few { length tokens.now < 2 ^ 32 }
    requires inside { at ≤ length tokens.now }
    ensures { IfOk result (Gives (IsNoHigher (of_option stmt_height) room (ForStep tokens.now at))
        at
        (length tokens.now)) }
{
    if has_mark(tokens, at, Mark::RightParen) {
        return Ok(Some(Span {
            value: None,
            end: at + 1,
        }));
    }
    let Some(read) = change(alloc, tokens, at, room, Mark::RightParen)? else {
        return Ok(None);
    };
    Ok(Some(Span {
        value: Some(Boxed::new(alloc, read.value)?),
        end: read.end,
    }))
}

// The head at `at`, no part of it higher than `room`.
pub fn for_head(
    alloc: Global,
    tokens: &[Token],
    at: usize,
    room: u32,
) -> Result<Option<Span<Head>>, NoMemory>
    requires few { length tokens.now < 2 ^ 32 }
    requires inside { at ≤ length tokens.now }
    ensures { IfOk result (Gives (IsNoHigher head_height room (ForHead tokens.now at)) at
        (length tokens.now)) }
{
    if !has_mark(tokens, at, Mark::LeftParen) {
        return Ok(None);
    }
    let Some(first) = for_init(alloc, tokens, at + 1, room)? else {
        return Ok(None);
    };
    let Some(test) = for_test(alloc, tokens, first.end, room)? else {
        return Ok(None);
    };
    let Some(change) = for_step(alloc, tokens, test.end, room)? else {
        return Ok(None);
    };
    Ok(Some(Span {
        value: Head {
            first: first.value,
            test: test.value,
            change: change.value,
        },
        end: change.end,
    }))
}
