//! Declarations.
ghost use Rattle.std.specs.Prelude.{◌≡◌, ◌+◌, ◌≤◌, ◌<◌, ◌^◌, Some, length, IfOk, MatchBool};
ghost use Rattle.c_ast.specs.Height.{stmt_height};
ghost use Rattle.c_syntax.specs.Grammar.{kind_at};
ghost use Rattle.c_syntax.specs.Statements.{InitDeclarator, InitDeclarators, Declaration, IsParted};
ghost use Rattle.c_syntax.specs.Heights.{list_height};
ghost use Rattle.c_syntax.specs.Readers.{Gives, IsNoHigher};

use crate::expr::expression;
use crate::read::Span;
use crate::token::{has_keyword, has_mark, has_name};
use c_ast::Stmt;
use c_lex::{Keyword, Mark, Token, TokenKind};
use rx_plain::{Items, NoMemory};
use std::alloc::Global;

// Whether a comma or a semicolon is at `at`.
fn is_parted(tokens: &[Token], at: usize) -> bool
    ensures { MatchBool result (IsParted tokens.now at) (IsParted tokens.now at → ⊥) }
{
    has_mark(tokens, at, Mark::Comma) || has_mark(tokens, at, Mark::Semicolon)
}

// The declaration of the name at `at`.
fn declarator(
    alloc: Global,
    tokens: &[Token],
    at: usize,
    room: u32,
) -> Result<Option<Span<Stmt>>, NoMemory>
    requires few { length tokens.now < 2 ^ 32 }
    requires inside { at ≤ length tokens.now }
    ensures { IfOk result (Gives (IsNoHigher stmt_height room (InitDeclarator tokens.now at)) at
        (length tokens.now)) }
{
    if !has_name(tokens, at) {
        return Ok(None);
    }
    if room == 0 {
        return Ok(None);
    }
    if is_parted(tokens, at + 1) {
        return Ok(Some(Span {
            value: Stmt::Declare(at as u32, None),
            end: at + 1,
        }));
    }
    if !has_mark(tokens, at + 1, Mark::Assign) {
        return Ok(None);
    }
    initialized(alloc, tokens, at, room)
}

// The declaration of the name at `at` with the value after it.
fn initialized(
    alloc: Global,
    tokens: &[Token],
    at: usize,
    room: u32,
) -> Result<Option<Span<Stmt>>, NoMemory>
    requires few { length tokens.now < 2 ^ 32 }
    requires named { kind_at tokens.now at ≡ Some TokenKind.Name }
    requires assigned { kind_at tokens.now (at + 1) ≡ Some (TokenKind.Mark Mark.Assign) }
    ensures { IfOk result (Gives (IsNoHigher stmt_height room (InitDeclarator tokens.now at)) at
        (length tokens.now)) }
{
    if room < 2 {
        return Ok(None);
    }
    let Some(value) = expression(alloc, tokens, at + 2, room - 1)? else {
        return Ok(None);
    };
    if !is_parted(tokens, value.end) {
        return Ok(None);
    }
    Ok(Some(Span {
        value: Stmt::Declare(at as u32, Some(value.tree)),
        end: value.end,
    }))
}

// The declarations after `int`, none higher than `room`, up to and with the semicolon.
fn declarators(
    alloc: Global,
    tokens: &[Token],
    at: usize,
    room: u32,
) -> Result<Option<Span<Items<Stmt>>>, NoMemory>
    requires few { length tokens.now < 2 ^ 32 }
    requires inside { at ≤ length tokens.now }
    ensures { IfOk result (Gives (IsNoHigher list_height room (InitDeclarators tokens.now at)) at
        (length tokens.now)) }
{
    let mut found = Items::new(alloc);
    let mut end = at;
    'names: loop {
        let Some(read) = declarator(alloc, tokens, end, room)? else {
            return Ok(None);
        };
        found.push(read.value)?;
        end = read.end + 1;
        if has_mark(tokens, read.end, Mark::Semicolon) {
            return Ok(Some(Span { value: found, end }));
        }
    }
}

// The declaration at `at`, by a statement for each name, none higher than `room`.
pub fn declaration(
    alloc: Global,
    tokens: &[Token],
    at: usize,
    room: u32,
) -> Result<Option<Span<Items<Stmt>>>, NoMemory>
    requires few { length tokens.now < 2 ^ 32 }
    requires inside { at ≤ length tokens.now }
    ensures { IfOk result (Gives (IsNoHigher list_height room (Declaration tokens.now at)) at
        (length tokens.now)) }
{
    if !has_keyword(tokens, at, Keyword::Int) {
        return Ok(None);
    }
    declarators(alloc, tokens, at + 1, room)
}
