//! Programs.
ghost use Rattle.std.specs.Prelude.{◌≡◌, ◌<◌, ◌≤◌, ◌^◌, length, IfOk, OnOk};
ghost use Rattle.std.specs.List.{All};
ghost use Rattle.c_parse.specs.Answers.{Answers, OneAnswer, earlier, is_long, long_function, long_prototype, too_many};
ghost use Rattle.c_parse.specs.Names.{IsNamed};
ghost use Rattle.c_parse.specs.Programs.{OneProgram};
ghost use Rattle.c_parse.specs.Readers.{ReadsAll, added};

use crate::error::ParseEnd;
use crate::external::external;
use crate::fault::syntax_error;
use crate::read::ReadProgram;
use c_ast::{Function, Program, Prototype};
use c_lex::Token;
use c_syntax::{External, too_deep};
use rx_plain::{Items, NoMemory};
use std::alloc::Global;

// How many parameters a function or a prototype may have.
const MAX_PARAMETERS: usize = 16;

/// The program that the tokens spell, each name by the number of its token.
///
/// Refused, in this order: `TooDeep` at the first `(` or `{` where 200 brackets are open already (a
/// closing one lowers the count if it is above 0); `Syntax` where the tokens spell no program whose
/// statements are at most 200 high: at the first token with which they begin no program of any
/// height, or at the number of tokens where all of them begin one; where they spell one, at the
/// first token of the first statement of a function's body that is too high, in a list of
/// declarations at its `int`. Last `TooManyParams` at the name of the first function or prototype
/// with more than 16 parameters. The grammar is a part of that of ISO/IEC 9899:1999, 6.5, 6.8 and
/// 6.9.1.
///
/// The clause `named` speaks of each function's own name, its parameters and the variables of its
/// body. It leaves out the names of the functions that are called, and those of prototypes; the
/// grammar alone says that these are names.
pub fn parse(alloc: Global, tokens: &[Token]) -> Result<Program, ParseEnd>
    requires { length tokens.now < 2 ^ 32 }
    ensures answer { Answers tokens.now result }
    ensures named { IfOk result (λ p. All (IsNamed tokens.now) p.functions) }
    ensures few { IfOk result (λ p. length p.functions ≤ length tokens.now) }
{
    if let Some(token) = too_deep(tokens) {
        return Err(ParseEnd::TooDeep { token });
    }
    match program(alloc, tokens) {
        Err(_) => Err(ParseEnd::NoMemory),
        Ok(ReadProgram::Stopped(at)) => Err(syntax_error(alloc, tokens, at)),
        Ok(ReadProgram::Spelled(program)) => match too_many(&program) {
            Some(token) => Err(ParseEnd::TooManyParams { token }),
            None => Ok(program),
        },
    }
}

// The name of the first function or prototype with more than 16 parameters, if there is one.
fn too_many(program: &Program) -> Option<u32>
    ensures { result ≡ too_many program.now }
{
    earlier(
        long_function(program.functions.as_slice()),
        long_prototype(program.prototypes.as_slice()),
    )
}

// The name of the first function with more than 16 parameters, if there is one.
fn long_function(functions: &[Function]) -> Option<u32>
    ensures { result ≡ long_function functions.now }
{
    for function in functions {
        if function.params.len() > MAX_PARAMETERS {
            return Some(function.name);
        }
    }
    None
}

// The name of the first prototype with more than 16 parameters, if there is one.
fn long_prototype(prototypes: &[Prototype]) -> Option<u32>
    ensures { result ≡ long_prototype prototypes.now }
{
    for prototype in prototypes {
        if is_long(prototype.params) {
            return Some(prototype.name);
        }
    }
    None
}

// Whether there are more than 16 parameters.
fn is_long(params: Option<u32>) -> bool
    ensures { result ≡ is_long params }
{
    match params {
        None => false,
        Some(count) => count as usize > MAX_PARAMETERS,
    }
}

// The one of two tokens that comes first.
fn earlier(first: Option<u32>, second: Option<u32>) -> Option<u32>
    ensures { result ≡ earlier first second }
{
    match (first, second) {
        (Some(first), Some(second)) => Some(first.min(second)),
        (Some(first), None) => Some(first),
        (None, second) => second,
    }
}

// The whole program, or the place of the function or prototype that can't be read.
fn program(alloc: Global, tokens: &[Token]) -> Result<ReadProgram, NoMemory>
    requires { length tokens.now < 2 ^ 32 }
    ensures { IfOk result (ReadsAll tokens.now) }
{
    let mut program = Program {
        functions: Items::new(alloc),
        prototypes: Items::new(alloc),
    };
    let mut at = 0;
    while at < tokens.len() {
        let Some(read) = external(alloc, tokens, at)? else {
            return Ok(ReadProgram::Stopped(at));
        };
        add(&mut program, read.value)?;
        at = read.end;
    }
    Ok(ReadProgram::Spelled(program))
}

// Adds the function or prototype after those that are there.
fn add(program: &mut Program, external: External) -> Result<(), NoMemory>
    ensures { OnOk result (program.new ≡ added program.old external) }
{
    match external {
        External::Defined(function) => program.functions.push(function)?,
        External::Declared(prototype) => program.prototypes.push(prototype)?,
    }
    Ok(())
}

/// A list of tokens spells at most one program: what `parse` answers is the only one. A law; it
/// does nothing.
pub fn one_program()
    ensures { OneProgram }
{}

/// A list of tokens has at most one answer of `parse` but out of memory. A law; it does nothing.
pub fn one_answer()
    ensures { OneAnswer }
{}
