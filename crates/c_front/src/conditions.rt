//! The precondition of two functions: its tokens, its grammar, its names.
ghost use Rattle.std.specs.Prelude.{◌≡◌, ◌<◌, ◌≤◌, ◌^◌, ⊤, length, IfOk, MatchOption};
ghost use Rattle.c_names.specs.Spellings.{IsWithin};
ghost use Rattle.c_front.specs.Conditions as spec;
ghost use Rattle.c_front.specs.Conditions.{IsResolved, condition_stage};
ghost use Rattle.c_front.specs.FrontEnd.{IsProgram, IsSayableNext};
ghost use Rattle.c_front.specs.Stages.{IfGoes};
ghost use Rattle.c_front.specs.Steps.{HaveFewParams, bytes_of};
ghost use Rattle.c_names.specs.Preconditions.{resolved_pre};

use crate::{Compared, NamedText, Next, PreText, ProgramText, Refusal};
use c_ast::{Expr, Function};
use c_lex::{LexEnd, Token, tokens};
use c_names::resolve_pre;
use c_parse::{ParseEnd, parse_pre};
use c_scope::ScopeEnd;
use rx_plain::{Items, NoMemory};
use std::alloc::Global;

// The tokens of a precondition.
fn pre_lex_stage(alloc: Global, bytes: &[u8]) -> Result<Next<Refusal, Items<Token>>, NoMemory>
    requires { length bytes.now ≤ 1048576 }
    ensures stage { IfOk result (spec.pre_lex_stage bytes.now) }
    ensures sayable { IfOk result IsSayableNext }
    ensures within { IfOk result (λ next. IfGoes next (IsWithin bytes.now)) }
    ensures few { IfOk result (λ next. IfGoes next (λ tokens. length tokens < 2 ^ 32)) }
{
    match tokens(alloc, bytes) {
        Ok(tokens) => Ok(Next::Goes(Items::from_vec(tokens))),
        Err(end) => match end {
            LexEnd::NoMemory => Err(NoMemory),
            fault => Ok(Next::Ends(Refusal::PreLex(fault))),
        },
    }
}

// The row form that the tokens spell.
fn pre_parse_stage(alloc: Global, tokens: Items<Token>) -> Result<Next<Refusal, PreText>, NoMemory>
    requires few { length tokens < 2 ^ 32 }
    ensures stage { IfOk result (spec.pre_parse_stage tokens) }
    ensures kept { IfOk result (λ next. IfGoes next (λ read. read.tokens ≡ tokens)) }
    ensures sayable { IfOk result IsSayableNext }
{
    match parse_pre(alloc, tokens.as_slice()) {
        Ok(pre) => Ok(Next::Goes(PreText { tokens, pre })),
        Err(end) => match end {
            ParseEnd::NoMemory => Err(NoMemory),
            refusal => Ok(Next::Ends(Refusal::PreParse(refusal))),
        },
    }
}

// The names of a precondition, resolved as those of the parameters of a function.
fn resolve_in(
    alloc: Global,
    source: &[u8],
    text: &ProgramText,
    function: &Function,
    bytes: &[u8],
    read: &PreText,
) -> Result<Next<Refusal, Expr>, NoMemory>
    requires within { IsWithin source.now text.now.tokens }
    requires few { length function.now.params < 2 ^ 32 }
    requires pre_within { IsWithin bytes.now read.now.tokens }
    ensures stage { IfOk result (IsResolved (resolved_pre source.now text.now.tokens
        function.now.params bytes.now read.now.tokens read.now.pre)) }
    ensures sayable { IfOk result IsSayableNext }
{
    let tokens = text.tokens.as_slice();
    match resolve_pre(
        alloc,
        source,
        tokens,
        function,
        bytes,
        read.tokens.as_slice(),
        &read.pre,
    ) {
        Ok(pre) => Ok(Next::Goes(pre)),
        Err(ScopeEnd::UnknownName { token }) => Ok(Next::Ends(Refusal::PreName(token))),
        Err(_) => Err(NoMemory),
    }
}

// The precondition with its names resolved; a place with no function has no parameters.
fn pre_name_stage(
    alloc: Global,
    source: &[u8],
    text: &ProgramText,
    first: u32,
    bytes: &[u8],
    read: &PreText,
) -> Result<Next<Refusal, Expr>, NoMemory>
    requires within { IsWithin source.now text.now.tokens }
    requires few { HaveFewParams text.now.program.functions }
    requires pre_within { IsWithin bytes.now read.now.tokens }
    ensures stage { IfOk result (spec.pre_name_stage source.now text.now first bytes.now read.now) }
    ensures sayable { IfOk result IsSayableNext }
{
    match text.program.functions.as_slice().get(first as usize) {
        Some(function) => resolve_in(alloc, source, text, function, bytes, read),
        None => {
            let function = Function {
                name: 0,
                params: Items::new(alloc),
                body: Items::new(alloc),
            };
            resolve_in(alloc, source, text, &function, bytes, read)
        }
    }
}

// The precondition that the bytes spell, or why they spell none.
fn read_pre(
    alloc: Global,
    source: &[u8],
    text: &ProgramText,
    first: u32,
    bytes: &[u8],
) -> Result<Next<Refusal, Expr>, NoMemory>
    requires within { IsWithin source.now text.now.tokens }
    requires few { HaveFewParams text.now.program.functions }
    requires bytes { length bytes.now ≤ 1048576 }
    ensures stage { IfOk result (spec.read_pre source.now text.now first bytes.now) }
    ensures sayable { IfOk result IsSayableNext }
{
    let tokens = match pre_lex_stage(alloc, bytes)? {
        Next::Goes(tokens) => tokens,
        Next::Ends(refusal) => return Ok(Next::Ends(refusal)),
    };
    match pre_parse_stage(alloc, tokens)? {
        Next::Goes(read) => pre_name_stage(alloc, source, text, first, bytes, &read),
        Next::Ends(refusal) => Ok(Next::Ends(refusal)),
    }
}

/// The two functions with their precondition, if one is given, or why it is refused.
pub(crate) fn condition(
    alloc: Global,
    source: &[u8],
    named: NamedText,
    precondition: Option<&[u8]>,
) -> Result<Next<Refusal, Compared>, NoMemory>
    requires program { IsProgram source.now named.text.tokens named.text.program }
    requires within { IsWithin source.now named.text.tokens }
    requires few { HaveFewParams named.text.program.functions }
    requires bytes { MatchOption precondition ⊤ (λ bytes. length bytes.now ≤ 1048576) }
    ensures stage { IfOk result (condition_stage source.now (bytes_of precondition.entry) named.two) }
    ensures sayable { IfOk result IsSayableNext }
{
    let NamedText { text, two } = named;
    let Some(bytes) = precondition else {
        return Ok(Next::Goes(Compared {
            two,
            precondition: None,
        }));
    };
    match read_pre(alloc, source, &text, two.first, bytes)? {
        Next::Goes(pre) => Ok(Next::Goes(Compared {
            two,
            precondition: Some(pre),
        })),
        Next::Ends(refusal) => Ok(Next::Ends(refusal)),
    }
}
