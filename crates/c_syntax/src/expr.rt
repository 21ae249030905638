//! Expressions, by one reader for each line of their grammar.
//!
//! A reader answers nothing where no tree that is low enough is spelled. The readers call each
//! other with less room or after a bracket, so that no text makes them nest deeper than those
//! limits allow.
ghost use Rattle.std.specs.Prelude.{◌≡◌, ◌+◌, ◌-◌, ◌≤◌, ◌<◌, ◌^◌, suc, length, max, IfOk};
ghost use Rattle.c_ast.specs.declared.expr.Expr.TheVariants.{Unary, Binary, Choose};
ghost use Rattle.c_syntax.specs.Grammar.{Expression, BinaryAt, PrimaryExpression, levels};
ghost use Rattle.c_syntax.specs.Readers.{Reads, ReadsList};

use crate::read::{Read, ReadArguments};
use crate::token::{has_mark, kind_at, operator_at, sign_at};
use c_ast::{BinOp, Expr, UnOp};
use c_lex::{Mark, Token, TokenKind};
use rx_plain::{Boxed, Items, NoMemory};
use std::alloc::Global;

// How many levels of operators there are.
const LEVELS: u32 = 6;

// The expression at `at` that is no higher than `room`.
#[cycle(expr)]
pub fn expression(
    alloc: Global,
    tokens: &[Token],
    at: usize,
    room: u32,
) -> Result<Option<Read>, NoMemory>
    requires few { length tokens.now < 2 ^ 32 }
    requires inside { at ≤ length tokens.now }
    requires some { 0 < room }
    ensures { IfOk result (Reads (Expression tokens.now) tokens.now (suc levels) at room) }
{
    let Some(test) = binary_level(alloc, tokens, LEVELS, at, room)? else {
        return Ok(None);
    };
    if !has_mark(tokens, test.end, Mark::Question) {
        return Ok(Some(test));
    }
    if test.height >= room {
        return Ok(None);
    }
    let Some(first) = expression(alloc, tokens, test.end + 1, room - 1)? else {
        return Ok(None);
    };
    if !has_mark(tokens, first.end, Mark::Colon) {
        return Ok(None);
    }
    let Some(other) = expression(alloc, tokens, first.end + 1, room - 1)? else {
        return Ok(None);
    };
    Ok(Some(conditional(alloc, test, first, other)?))
}

// The conditional expression of the test and both values.
fn conditional(alloc: Global, test: Read, first: Read, other: Read) -> Result<Read, NoMemory>
    requires test { test.height < 2 ^ 32 - 1 }
    requires first { first.height < 2 ^ 32 - 1 }
    requires other { other.height < 2 ^ 32 - 1 }
    ensures tree { IfOk result (λ x. x.tree ≡ Choose test.tree first.tree other.tree) }
    ensures end { IfOk result (λ x. x.end ≡ other.end) }
    ensures height { IfOk result (λ x. x.height ≡ 1 +
        max (max test.height first.height) other.height) }
{
    let height = 1 + test.height.max(first.height).max(other.height);
    let condition = Boxed::new(alloc, test.tree)?;
    let value = Boxed::new(alloc, first.tree)?;
    let otherwise = Boxed::new(alloc, other.tree)?;
    Ok(Read {
        tree: Expr::Choose(condition, value, otherwise),
        end: other.end,
        height,
    })
}

// The expression at `at` that is no higher than `room`, with the operators of the lowest `n` levels
// alone outside its parentheses.
#[cycle(expr)]
fn binary_level(
    alloc: Global,
    tokens: &[Token],
    n: u32,
    at: usize,
    room: u32,
) -> Result<Option<Read>, NoMemory>
    requires few { length tokens.now < 2 ^ 32 }
    requires inside { at ≤ length tokens.now }
    requires some { 0 < room }
    ensures { IfOk result (Reads (BinaryAt tokens.now n) tokens.now n at room) }
{
    if n == 0 {
        signed(alloc, tokens, at, room)
    } else {
        chain(alloc, tokens, n - 1, at, room)
    }
}

// Operands joined by operators of level `n`, from left to right.
#[cycle(expr)]
fn chain(
    alloc: Global,
    tokens: &[Token],
    n: u32,
    at: usize,
    room: u32,
) -> Result<Option<Read>, NoMemory>
    requires few { length tokens.now < 2 ^ 32 }
    requires inside { at ≤ length tokens.now }
    requires some { 0 < room }
    ensures { IfOk result (Reads (BinaryAt tokens.now (suc n)) tokens.now (suc n) at room) }
{
    let Some(mut left) = binary_level(alloc, tokens, n, at, room)? else {
        return Ok(None);
    };
    'more: while let Some(op) = operator_at(tokens, left.end, n) {
        if left.height >= room {
            return Ok(None);
        }
        let Some(right) = binary_level(alloc, tokens, n, left.end + 1, room - 1)? else {
            return Ok(None);
        };
        left = joined(alloc, op, left, right)?;
    }
    Ok(Some(left))
}

// Both operands and the operator between them as one tree.
fn joined(alloc: Global, op: BinOp, left: Read, right: Read) -> Result<Read, NoMemory>
    requires left { left.height < 2 ^ 32 - 1 }
    requires right { right.height < 2 ^ 32 - 1 }
    ensures tree { IfOk result (λ x. x.tree ≡ Binary op left.tree right.tree) }
    ensures end { IfOk result (λ x. x.end ≡ right.end) }
    ensures height { IfOk result (λ x. x.height ≡ 1 + max left.height right.height) }
{
    let height = 1 + left.height.max(right.height);
    let first = Boxed::new(alloc, left.tree)?;
    let second = Boxed::new(alloc, right.tree)?;
    Ok(Read {
        tree: Expr::Binary(op, first, second),
        end: right.end,
        height,
    })
}

// An operand with the operators before it.
#[cycle(expr)]
fn signed(alloc: Global, tokens: &[Token], at: usize, room: u32) -> Result<Option<Read>, NoMemory>
    requires few { length tokens.now < 2 ^ 32 }
    requires inside { at ≤ length tokens.now }
    requires some { 0 < room }
    ensures { IfOk result (Reads (BinaryAt tokens.now 0) tokens.now 0 at room) }
{
    let Some(op) = sign_at(tokens, at) else {
        return primary(alloc, tokens, at, room);
    };
    if room == 1 {
        return Ok(None);
    }
    let Some(inner) = signed(alloc, tokens, at + 1, room - 1)? else {
        return Ok(None);
    };
    Ok(Some(prefixed(alloc, op, inner)?))
}

// The operator before the operand as one tree.
fn prefixed(alloc: Global, op: UnOp, inner: Read) -> Result<Read, NoMemory>
    requires { inner.height < 2 ^ 32 - 1 }
    ensures tree { IfOk result (λ x. x.tree ≡ Unary op inner.tree) }
    ensures end { IfOk result (λ x. x.end ≡ inner.end) }
    ensures height { IfOk result (λ x. x.height ≡ 1 + inner.height) }
{
    let operand = Boxed::new(alloc, inner.tree)?;
    Ok(Read {
        tree: Expr::Unary(op, operand),
        end: inner.end,
        height: 1 + inner.height,
    })
}

// A tree without parts that is the one token at `at`.
fn leaf(tree: Expr, at: usize) -> Read
    requires { at < 2 ^ 32 }
    ensures { result ≡ record { tree = tree; end = at + 1; height = 1 } }
{
    Read {
        tree,
        end: at + 1,
        height: 1,
    }
}

// A literal, a name, a call, or an expression in parentheses.
#[cycle(expr)]
fn primary(alloc: Global, tokens: &[Token], at: usize, room: u32) -> Result<Option<Read>, NoMemory>
    requires few { length tokens.now < 2 ^ 32 }
    requires inside { at ≤ length tokens.now }
    requires some { 0 < room }
    ensures { IfOk result (Reads (PrimaryExpression tokens.now) tokens.now 0 at room) }
{
    match kind_at(tokens, at) {
        Some(TokenKind::Number(value)) => Ok(Some(leaf(Expr::Lit(value), at))),
        Some(TokenKind::Name) => {
            if has_mark(tokens, at + 1, Mark::LeftParen) {
                let Some(read) = arguments(alloc, tokens, at + 2, room - 1)? else {
                    return Ok(None);
                };
                return Ok(Some(Read {
                    tree: Expr::Apply(at as u32, read.arguments),
                    end: read.end,
                    height: 1 + read.height,
                }));
            }
            Ok(Some(leaf(Expr::Var(at as u32), at)))
        }
        Some(TokenKind::Mark(Mark::LeftParen)) => {
            let Some(inner) = expression(alloc, tokens, at + 1, room)? else {
                return Ok(None);
            };
            if has_mark(tokens, inner.end, Mark::RightParen) {
                Ok(Some(Read {
                    tree: inner.tree,
                    end: inner.end + 1,
                    height: inner.height,
                }))
            } else {
                Ok(None)
            }
        }
        _ => Ok(None),
    }
}

// The arguments after the opening parenthesis, none higher than `room`, up to and with the closing
// one.
#[cycle(expr)]
fn arguments(
    alloc: Global,
    tokens: &[Token],
    at: usize,
    room: u32,
) -> Result<Option<ReadArguments>, NoMemory>
    requires few { length tokens.now < 2 ^ 32 }
    requires inside { at ≤ length tokens.now }
    ensures { IfOk result (ReadsList tokens.now at room) }
{
    let mut found = Items::new(alloc);
    if has_mark(tokens, at, Mark::RightParen) {
        return Ok(Some(ReadArguments {
            arguments: found,
            end: at + 1,
            height: 0,
        }));
    }
    if room == 0 {
        return Ok(None);
    }
    let Some(first) = expression(alloc, tokens, at, room)? else {
        return Ok(None);
    };
    let mut end = first.end;
    let mut height = first.height;
    found.push(first.tree)?;
    'next: while has_mark(tokens, end, Mark::Comma) {
        let Some(read) = expression(alloc, tokens, end + 1, room)? else {
            return Ok(None);
        };
        end = read.end;
        height = height.max(read.height);
        found.push(read.tree)?;
    }
    if has_mark(tokens, end, Mark::RightParen) {
        Ok(Some(ReadArguments {
            arguments: found,
            end: end + 1,
            height,
        }))
    } else {
        Ok(None)
    }
}
