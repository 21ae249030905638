//! Programs as they are read.
ghost use Rattle.std.specs.Prelude.{◌≤◌, ◌<◌, ◌^◌, length, IfSome};

use crate::texts::{Lexed, lex_text};
use c_ast::{Function, Program};
use c_lex::Token;
use c_parse::parse;
use std::alloc::Global;

/// The program of a text.
#[derive(Drop)]
pub struct Parsed {
    /// The text.
    pub text: Lexed,
    /// Its program.
    pub program: Program,
    ghost few: { length program.functions < 2 ^ 32 },
}

// The program that tokens spell.
fn program_of(alloc: Global, tokens: &[Token]) -> Option<Program>
    requires { length tokens.now ≤ 1048576 }
    ensures { IfSome result (λ program. length program.functions < 2 ^ 32) }
{
    match parse(alloc, tokens) {
        Ok(program) => Some(program),
        Err(_) => None,
    }
}

/// The program of a text.
pub fn parse_text(alloc: Global, text: &str) -> Option<Parsed> {
    let text = lex_text(alloc, text)?;
    let program = program_of(alloc, &text.tokens)?;
    Some(Parsed { text, program })
}

/// The first function of a list, where it has at most 16 parameters.
pub fn first_of(functions: &[Function]) -> Option<&Function>
    ensures { IfSome result (λ function. length function.now.params ≤ 16) }
{
    let function = functions.first()?;
    if function.params.len() > 16 {
        return None;
    }
    Some(function)
}
