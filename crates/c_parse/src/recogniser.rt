//! The recogniser: a predictive parser with one token of lookahead that makes no tree. Its stack
//! holds the symbols that are expected, the next on top.
//!
//! Each token is shifted by one symbol, which pushes at most seven others on the stack, and a
//! symbol that is popped leaves it: the time is linear in the number of tokens. It has the
//! valid-prefix property: it rejects at the first token such that nothing that is expected begins
//! with the tokens up to it.
ghost use Rattle.std.specs.Prelude.{◌≡◌, ◌<◌, ◌^◌, ◌∷◌, [], None, length, reverse, IfOk};
ghost use Rattle.c_parse.specs.Actions.{action};
ghost use Rattle.c_parse.specs.Places.{IsExpression, IsProgram, IsPlace};
ghost use Rattle.c_parse.specs.Recogniser.{Acts, IsFed, ended, fed, fault};

use crate::expression::{arguments, called, expression, following, going};
use crate::place_external::{
    body, more_parameters, parameter, parameter_name, parameters, program,
};
use crate::statement::{
    alternative, changed, declarators, declared, for_change, for_start, for_test, items,
    more_declarators, statement,
};
use crate::symbol::{Step, Symbol};
use crate::terminal::{colon, left_paren, name, right_paren, semicolon, while_word};
use c_lex::{Token, TokenKind};
use rx_plain::NoMemory;
use std::alloc::Global;

/// The place where the tokens are lost as a program, or nothing where they spell one, of any
/// height: the least `k` such that no program is spelled by a list of tokens that begins with
/// tokens 0 to `k`; the number of tokens where the whole list begins one.
pub fn program_fault(alloc: Global, tokens: &[Token]) -> Result<Option<u32>, NoMemory>
    requires { length tokens.now < 2 ^ 32 }
    ensures { IfOk result (IsPlace IsProgram tokens.now) }
{
    fault_of(alloc, Symbol::Program, tokens)
}

/// The place where the tokens are lost as an expression, or nothing where they spell one, of any
/// height: the least `k` such that no expression is spelled by a list of tokens that begins with
/// tokens 0 to `k`; the number of tokens where the whole list begins one.
pub fn expression_fault(alloc: Global, tokens: &[Token]) -> Result<Option<u32>, NoMemory>
    requires { length tokens.now < 2 ^ 32 }
    ensures { IfOk result (IsPlace IsExpression tokens.now) }
{
    fault_of(alloc, Symbol::Expression, tokens)
}

// The place where the tokens are lost, where the symbol is expected.
fn fault_of(alloc: Global, start: Symbol, tokens: &[Token]) -> Result<Option<u32>, NoMemory>
    requires { length tokens.now < 2 ^ 32 }
    ensures { IfOk result (λ o. o ≡ fault (start ∷ []) 0 tokens.now) }
{
    let mut stack = Vec::new(alloc);
    stack.push(start)?;
    for (at, token) in tokens.iter().enumerate() {
        if !feed(&mut stack, Some(token.kind))? {
            return Ok(Some(at as u32));
        }
    }
    at_end(&mut stack, tokens.len() as u32)
}

// The answer at the end of the list; `count` is its number of tokens.
fn at_end(stack: &mut Vec<Symbol>, count: u32) -> Result<Option<u32>, NoMemory>
    ensures { IfOk result (λ o. o ≡ ended (fed (reverse stack.old.items) None) count) }
{
    if !feed(stack, None)? {
        return Ok(Some(count));
    }
    if stack.is_empty() {
        Ok(None)
    } else {
        Ok(Some(count))
    }
}

// Whether the token is shifted by a symbol of the stack, after those above it were popped; at the
// end of the text: whether all symbols are popped.
fn feed(stack: &mut Vec<Symbol>, kind: Option<TokenKind>) -> Result<bool, NoMemory>
    ensures { IfOk result (λ b. IsFed b stack.new.items (fed (reverse stack.old.items) kind)) }
{
    while let Some(symbol) = stack.pop() {
        match act(stack, symbol, kind)? {
            Step::Shifted => return Ok(true),
            Step::Popped => {}
            Step::Rejected => return Ok(false),
        }
    }
    match kind {
        None => Ok(true),
        Some(_) => Ok(false),
    }
}

// What a token does to a symbol, which the stack no longer holds.
fn act(stack: &mut Vec<Symbol>, symbol: Symbol, kind: Option<TokenKind>) -> Result<Step, NoMemory>
    ensures { Acts result stack.old.items stack.new.items (action symbol kind) }
{
    match symbol {
        Symbol::Name => Ok(name(kind)),
        Symbol::LeftParen => Ok(left_paren(kind)),
        Symbol::RightParen => Ok(right_paren(kind)),
        Symbol::Colon => Ok(colon(kind)),
        Symbol::Semicolon => Ok(semicolon(kind)),
        Symbol::While => Ok(while_word(kind)),
        Symbol::Expression => expression(stack, kind),
        Symbol::Called => called(stack, kind),
        Symbol::Going => going(stack, kind),
        Symbol::Arguments => arguments(stack, kind),
        Symbol::Following => following(stack, kind),
        Symbol::Items => items(stack, kind),
        Symbol::Statement => statement(stack, kind),
        Symbol::Else => alternative(stack, kind),
        Symbol::Changed => changed(stack, kind),
        Symbol::Declarators => declarators(stack, kind),
        Symbol::Declared => declared(stack, kind),
        Symbol::MoreDeclarators => more_declarators(stack, kind),
        Symbol::ForStart => for_start(stack, kind),
        Symbol::ForTest => for_test(stack, kind),
        Symbol::ForChange => for_change(stack, kind),
        Symbol::Program => program(stack, kind),
        Symbol::Parameters => parameters(stack, kind),
        Symbol::Parameter(naming) => parameter(stack, naming, kind),
        Symbol::ParameterName(naming) => parameter_name(stack, naming, kind),
        Symbol::MoreParameters(naming) => more_parameters(stack, naming, kind),
        Symbol::Body => body(stack, kind),
    }
}
