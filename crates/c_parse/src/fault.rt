//! The place of a syntax error.
ghost use Rattle.std.specs.Prelude.{◌≡◌, ◌≤◌, ◌<◌, ◌^◌, None, Err, length, IfOk};
ghost use Rattle.c_syntax.specs.Depth.{too_deep};
ghost use Rattle.c_parse.specs.Places.{IsProgram as SpellsProgram};
ghost use Rattle.c_parse.specs.Answers.{Answers, IsSyntaxError};
ghost use Rattle.c_parse.specs.HighStatements.{IsFirstHigh, IsHigh};
ghost use Rattle.c_parse.specs.Readers.{GoesHigh, IsStuck};

use crate::error::ParseEnd;
use crate::external::{MAX_HEIGHT, parameters};
use crate::recogniser::program_fault;
use c_lex::Token;
use c_syntax::block_item;
use rx_plain::NoMemory;
use std::alloc::Global;

// Why the tokens are refused, where the function or prototype at `at` can't be read.
pub fn syntax_error(alloc: Global, tokens: &[Token], at: usize) -> ParseEnd
    requires few { length tokens.now < 2 ^ 32 }
    requires shallow { too_deep 0 0 tokens.now ≡ None }
    requires stuck { IsStuck tokens.now at }
    ensures { Answers tokens.now (Err result) }
{
    match place(alloc, tokens, at) {
        Err(_) => ParseEnd::NoMemory,
        Ok(token) => ParseEnd::Syntax { token },
    }
}

// Where the syntax error is.
fn place(alloc: Global, tokens: &[Token], at: usize) -> Result<u32, NoMemory>
    requires few { length tokens.now < 2 ^ 32 }
    requires stuck { IsStuck tokens.now at }
    ensures { IfOk result (IsSyntaxError tokens.now) }
{
    if let Some(token) = program_fault(alloc, tokens)? {
        return Ok(token);
    }
    high_statement(alloc, tokens, at)
}

// The first token of the first statement that is too high, which is in the function at `at`.
fn high_statement(alloc: Global, tokens: &[Token], at: usize) -> Result<u32, NoMemory>
    requires few { length tokens.now < 2 ^ 32 }
    requires stuck { IsStuck tokens.now at }
    requires spelled { SpellsProgram tokens.now }
    ensures { IfOk result (IsHigh tokens.now) }
{
    let Some(params) = parameters(alloc, tokens, at + 3)? else {
        unreachable!()
    };
    high_item(alloc, tokens, params.end + 1)
}

// The first token of the first item that is too high, of those of a block from `at` on.
fn high_item(alloc: Global, tokens: &[Token], at: usize) -> Result<u32, NoMemory>
    requires few { length tokens.now < 2 ^ 32 }
    requires inside { at ≤ length tokens.now }
    requires high { GoesHigh tokens.now at }
    ensures { IfOk result (IsFirstHigh tokens.now at) }
{
    let mut end = at;
    'items: loop {
        let Some(read) = block_item(alloc, tokens, end, MAX_HEIGHT)? else {
            return Ok(end as u32);
        };
        end = read.end;
    }
}
