//! Statements and blocks, by one reader for each form.
//!
//! The readers call each other with less room or after a bracket, as those of expressions do. What
//! is read of a statement's parts is moved into a box at once.
ghost use Rattle.std.specs.Prelude.{◌≡◌, ◌≤◌, ◌<◌, ◌^◌, Some, length, IfOk};
ghost use Rattle.c_ast.specs.Height.{stmt_height};
ghost use Rattle.c_syntax.specs.Grammar.{kind_at};
ghost use Rattle.c_syntax.specs.Statements.{Statement, BlockItem, BlockItems};
ghost use Rattle.c_syntax.specs.Heights.{list_height};
ghost use Rattle.c_syntax.specs.Readers.{Gives, IsNoHigher};
ghost use Rattle.c_syntax.specs.StmtReaders.{IsSimple, Jumps};

use crate::changes::change;
use crate::declare::declaration;
use crate::delimited::{expression_until, parenthesized};
use crate::head::for_head;
use crate::read::Span;
use crate::token::{has_keyword, has_mark};
use c_ast::Stmt;
use c_lex::{Keyword, Mark, Token, TokenKind};
use rx_plain::{Boxed, Items, NoMemory};
use std::alloc::Global;

// The statement at `at` that is no higher than `room`.
#[cycle(statements)]
fn statement(
    alloc: Global,
    tokens: &[Token],
    at: usize,
    room: u32,
) -> Result<Option<Span<Stmt>>, NoMemory>
    requires few { length tokens.now < 2 ^ 32 }
    requires inside { at ≤ length tokens.now }
    ensures { IfOk result (Gives (IsNoHigher stmt_height room (Statement tokens.now at)) at
        (length tokens.now)) }
{
    if room == 0 {
        return Ok(None);
    }
    if has_mark(tokens, at, Mark::LeftBrace) {
        return block(alloc, tokens, at, room);
    }
    if has_keyword(tokens, at, Keyword::If) {
        return branch(alloc, tokens, at, room);
    }
    if has_keyword(tokens, at, Keyword::While) {
        return while_loop(alloc, tokens, at, room);
    }
    if has_keyword(tokens, at, Keyword::Do) {
        return do_loop(alloc, tokens, at, room);
    }
    if has_keyword(tokens, at, Keyword::For) {
        return for_loop(alloc, tokens, at, room);
    }
    simple(alloc, tokens, at, room)
}

// The statement at `at` that is no higher than `room`, in a box.
#[cycle(statements)]
fn boxed_statement(
    alloc: Global,
    tokens: &[Token],
    at: usize,
    room: u32,
) -> Result<Option<Span<Boxed<Stmt>>>, NoMemory>
    requires few { length tokens.now < 2 ^ 32 }
    requires inside { at ≤ length tokens.now }
    ensures { IfOk result (Gives (IsNoHigher stmt_height room (Statement tokens.now at)) at
        (length tokens.now)) }
{
    let Some(read) = statement(alloc, tokens, at, room)? else {
        return Ok(None);
    };
    Ok(Some(Span {
        value: Boxed::new(alloc, read.value)?,
        end: read.end,
    }))
}

// The block at `at`.
#[cycle(statements)]
fn block(
    alloc: Global,
    tokens: &[Token],
    at: usize,
    room: u32,
) -> Result<Option<Span<Stmt>>, NoMemory>
    requires few { length tokens.now < 2 ^ 32 }
    requires some { 0 < room }
    requires here { kind_at tokens.now at ≡ Some (TokenKind.Mark Mark.LeftBrace) }
    ensures { IfOk result (Gives (IsNoHigher stmt_height room (Statement tokens.now at)) at
        (length tokens.now)) }
{
    let Some(inside) = block_items(alloc, tokens, at + 1, room - 1)? else {
        return Ok(None);
    };
    Ok(Some(Span {
        value: Stmt::Block(inside.value),
        end: inside.end,
    }))
}

// The `if` at `at`.
#[cycle(statements)]
fn branch(
    alloc: Global,
    tokens: &[Token],
    at: usize,
    room: u32,
) -> Result<Option<Span<Stmt>>, NoMemory>
    requires few { length tokens.now < 2 ^ 32 }
    requires some { 0 < room }
    requires here { kind_at tokens.now at ≡ Some (TokenKind.Word Keyword.If) }
    ensures { IfOk result (Gives (IsNoHigher stmt_height room (Statement tokens.now at)) at
        (length tokens.now)) }
{
    let Some(test) = parenthesized(alloc, tokens, at + 1, room - 1)? else {
        return Ok(None);
    };
    let Some(then) = boxed_statement(alloc, tokens, test.end, room - 1)? else {
        return Ok(None);
    };
    if !has_keyword(tokens, then.end, Keyword::Else) {
        return Ok(Some(Span {
            value: Stmt::If(test.value, then.value, None),
            end: then.end,
        }));
    }
    let Some(other) = boxed_statement(alloc, tokens, then.end + 1, room - 1)? else {
        return Ok(None);
    };
    Ok(Some(Span {
        value: Stmt::If(test.value, then.value, Some(other.value)),
        end: other.end,
    }))
}

// The `while` loop at `at`.
#[cycle(statements)]
fn while_loop(
    alloc: Global,
    tokens: &[Token],
    at: usize,
    room: u32,
) -> Result<Option<Span<Stmt>>, NoMemory>
    requires few { length tokens.now < 2 ^ 32 }
    requires some { 0 < room }
    requires here { kind_at tokens.now at ≡ Some (TokenKind.Word Keyword.While) }
    ensures { IfOk result (Gives (IsNoHigher stmt_height room (Statement tokens.now at)) at
        (length tokens.now)) }
{
    let Some(test) = parenthesized(alloc, tokens, at + 1, room - 1)? else {
        return Ok(None);
    };
    let Some(body) = boxed_statement(alloc, tokens, test.end, room - 1)? else {
        return Ok(None);
    };
    Ok(Some(Span {
        value: Stmt::While(test.value, body.value),
        end: body.end,
    }))
}

// The `do` loop at `at`.
#[cycle(statements)]
fn do_loop(
    alloc: Global,
    tokens: &[Token],
    at: usize,
    room: u32,
) -> Result<Option<Span<Stmt>>, NoMemory>
    requires few { length tokens.now < 2 ^ 32 }
    requires some { 0 < room }
    requires here { kind_at tokens.now at ≡ Some (TokenKind.Word Keyword.Do) }
    ensures { IfOk result (Gives (IsNoHigher stmt_height room (Statement tokens.now at)) at
        (length tokens.now)) }
{
    let Some(body) = boxed_statement(alloc, tokens, at + 1, room - 1)? else {
        return Ok(None);
    };
    if !has_keyword(tokens, body.end, Keyword::While) {
        return Ok(None);
    }
    let Some(test) = parenthesized(alloc, tokens, body.end + 1, room - 1)? else {
        return Ok(None);
    };
    if !has_mark(tokens, test.end, Mark::Semicolon) {
        return Ok(None);
    }
    Ok(Some(Span {
        value: Stmt::DoWhile(body.value, test.value),
        end: test.end + 1,
    }))
}

// The `for` loop at `at`.
#[cycle(statements)]
fn for_loop(
    alloc: Global,
    tokens: &[Token],
    at: usize,
    room: u32,
) -> Result<Option<Span<Stmt>>, NoMemory>
    requires few { length tokens.now < 2 ^ 32 }
    requires some { 0 < room }
    requires here { kind_at tokens.now at ≡ Some (TokenKind.Word Keyword.For) }
    ensures { IfOk result (Gives (IsNoHigher stmt_height room (Statement tokens.now at)) at
        (length tokens.now)) }
{
    let Some(head) = for_head(alloc, tokens, at + 1, room - 1)? else {
        return Ok(None);
    };
    let Some(body) = boxed_statement(alloc, tokens, head.end, room - 1)? else {
        return Ok(None);
    };
    Ok(Some(Span {
        value: Stmt::For(
            head.value.first,
            head.value.test,
            head.value.change,
            body.value,
        ),
        end: body.end,
    }))
}

// The items of a block, none higher than `room`, from after its opening brace up to and with the
// closing one.
#[cycle(statements)]
pub fn block_items(
    alloc: Global,
    tokens: &[Token],
    at: usize,
    room: u32,
) -> Result<Option<Span<Items<Stmt>>>, NoMemory>
    requires few { length tokens.now < 2 ^ 32 }
    requires inside { at ≤ length tokens.now }
    ensures { IfOk result (Gives (IsNoHigher list_height room (BlockItems tokens.now at)) at
        (length tokens.now)) }
{
    let mut found = Items::new(alloc);
    let mut end = at;
    'items: while !has_mark(tokens, end, Mark::RightBrace) {
        let Some(read) = block_item(alloc, tokens, end, room)? else {
            return Ok(None);
        };
        found.append(read.value)?;
        end = read.end;
    }
    Ok(Some(Span {
        value: found,
        end: end + 1,
    }))
}

// The statement or declaration at `at`.
#[cycle(statements)]
pub fn block_item(
    alloc: Global,
    tokens: &[Token],
    at: usize,
    room: u32,
) -> Result<Option<Span<Items<Stmt>>>, NoMemory>
    requires few { length tokens.now < 2 ^ 32 }
    requires inside { at ≤ length tokens.now }
    ensures { IfOk result (Gives (IsNoHigher list_height room (BlockItem tokens.now at)) at
        (length tokens.now)) }
{
    if has_keyword(tokens, at, Keyword::Int) {
        return declaration(alloc, tokens, at, room);
    }
    let Some(read) = statement(alloc, tokens, at, room)? else {
        return Ok(None);
    };
    let mut one = Items::new(alloc);
    one.push(read.value)?;
    Ok(Some(Span {
        value: one,
        end: read.end,
    }))
}

// The statement that is the keyword at `at` and the semicolon after it.
fn jump_statement(tokens: &[Token], at: usize, value: Stmt) -> Option<Span<Stmt>>
    requires { at < 2 ^ 32 }
    ensures { Jumps tokens.now at value result }
{
    if has_mark(tokens, at + 1, Mark::Semicolon) {
        Some(Span { value, end: at + 2 })
    } else {
        None
    }
}

// The statement at `at` that holds no statements.
fn simple(
    alloc: Global,
    tokens: &[Token],
    at: usize,
    room: u32,
) -> Result<Option<Span<Stmt>>, NoMemory>
    requires few { length tokens.now < 2 ^ 32 }
    requires inside { at ≤ length tokens.now }
    requires some { 0 < room }
    requires simple { IsSimple tokens.now at }
    ensures { IfOk result (Gives (IsNoHigher stmt_height room (Statement tokens.now at)) at
        (length tokens.now)) }
{
    if has_mark(tokens, at, Mark::Semicolon) {
        return Ok(Some(Span {
            value: Stmt::Empty,
            end: at + 1,
        }));
    }
    if has_keyword(tokens, at, Keyword::Break) {
        return Ok(jump_statement(tokens, at, Stmt::Break(at as u32)));
    }
    if has_keyword(tokens, at, Keyword::Continue) {
        return Ok(jump_statement(tokens, at, Stmt::Continue(at as u32)));
    }
    if has_keyword(tokens, at, Keyword::Return) {
        let Some(value) = expression_until(alloc, tokens, at + 1, room - 1, Mark::Semicolon)? else {
            return Ok(None);
        };
        return Ok(Some(Span {
            value: Stmt::Return(value.value),
            end: value.end,
        }));
    }
    change(alloc, tokens, at, room, Mark::Semicolon)
}
