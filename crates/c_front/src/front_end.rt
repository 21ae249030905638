//! The front end: a text with all its names resolved, and two functions of it by name, or the first
//! cause of a refusal.
//!
//! What a reader may rely on: each stage answers what its relation in `specs/Front` says, out of
//! memory apart, and the front end what their composition says. The order is that of the passes:
//! tokens, grammar, scope, the numbers by the kind of integers, the two names, their numbers of
//! parameters.
ghost use Rattle.std.specs.Prelude.{◌≡◌, ◌<◌, ◌≤◌, ◌^◌, ⊤, Ok, length, slice_get, IfOk, MatchOption};
ghost use Rattle.c_names.specs.Spellings.{IsWithin};
ghost use Rattle.c_names.specs.Expressions.{count_at};
ghost use Rattle.c_scope.specs.Programs.{scope_of};
ghost use Rattle.c_front.specs.Front as spec;
ghost use Rattle.c_front.specs.Front.{front};
ghost use Rattle.c_front.specs.Conditions.{whole_front};
ghost use Rattle.c_front.specs.FrontEnd.{IsProgram, IsSayableNext};
ghost use Rattle.c_front.specs.Stages.{IfGoes};
ghost use Rattle.c_front.specs.Steps.{CanBeCounted, HaveFewParams, bytes_of, two_of};

use crate::conditions::condition;
use crate::literals::wide_literal;
use crate::{Compared, NamedText, Next, ProgramText, Refusal, ResolvedText, TwoFunctions};
use c_ast::{Function, Integers};
use c_lex::{LexEnd, Token, tokens};
use c_names::find_function;
use c_parse::{ParseEnd, parse};
use c_scope::{ScopeEnd, resolve};
use rx_plain::{Items, NoMemory};
use std::alloc::Global;

// The tokens of a text.
fn lex_stage(alloc: Global, source: &[u8]) -> Result<Next<Refusal, Items<Token>>, NoMemory>
    requires { length source.now ≤ 1048576 }
    ensures stage { IfOk result (spec.lex_stage source.now) }
    ensures sayable { IfOk result IsSayableNext }
    ensures within { IfOk result (λ next. IfGoes next (IsWithin source.now)) }
    ensures few { IfOk result (λ next. IfGoes next (λ tokens. length tokens < 2 ^ 32)) }
{
    match tokens(alloc, source) {
        Ok(tokens) => Ok(Next::Goes(Items::from_vec(tokens))),
        Err(end) => match end {
            LexEnd::NoMemory => Err(NoMemory),
            fault => Ok(Next::Ends(Refusal::Lex(fault))),
        },
    }
}

// The program that the tokens spell.
fn parse_stage(alloc: Global, tokens: Items<Token>) -> Result<Next<Refusal, ProgramText>, NoMemory>
    requires few { length tokens < 2 ^ 32 }
    ensures stage { IfOk result (spec.parse_stage tokens) }
    ensures sayable { IfOk result IsSayableNext }
    ensures few_functions { IfOk result (λ next.
        IfGoes next (λ text. length text.program.functions < 2 ^ 32)) }
    ensures few_params { IfOk result (λ next.
        IfGoes next (λ text. HaveFewParams text.program.functions)) }
{
    match parse(alloc, tokens.as_slice()) {
        Ok(program) => Ok(Next::Goes(ProgramText { tokens, program })),
        Err(end) => match end {
            ParseEnd::NoMemory => Err(NoMemory),
            refusal => Ok(Next::Ends(Refusal::Parse(refusal))),
        },
    }
}

// The program with its names resolved.
fn scope_stage(
    alloc: Global,
    source: &[u8],
    text: ProgramText,
) -> Result<Next<Refusal, ResolvedText>, NoMemory>
    requires within { IsWithin source.now text.tokens }
    requires few_tokens { length text.tokens < 2 ^ 32 }
    requires few_functions { length text.program.functions < 2 ^ 32 }
    ensures stage { IfOk result (spec.scope_stage source.now text) }
    ensures sayable { IfOk result IsSayableNext }
    ensures kept { IfOk result (λ next. IfGoes next (λ known. known.text ≡ text)) }
    ensures resolved { IfOk result (λ next. IfGoes next (λ known.
        scope_of source.now text.tokens text.program ≡ Ok known.resolved)) }
{
    match resolve(alloc, source, text.tokens.as_slice(), &text.program) {
        Ok(resolved) => Ok(Next::Goes(ResolvedText { text, resolved })),
        Err(end) => match end {
            ScopeEnd::NoMemory => Err(NoMemory),
            fault => Ok(Next::Ends(Refusal::Scope(fault))),
        },
    }
}

// The text, where each of its numbers is an integer of the kind.
fn literal_stage(integers: Integers, known: ResolvedText) -> Next<Refusal, ResolvedText>
    requires { length known.text.tokens < 2 ^ 32 }
    ensures stage { spec.literal_stage integers known result }
    ensures sayable { IsSayableNext result }
    ensures kept { IfGoes result (λ narrow. narrow ≡ known) }
{
    let found = match integers {
        Integers::Unbounded => None,
        Integers::Bits32 => wide_literal(known.text.tokens.as_slice()),
    };
    match found {
        None => Next::Goes(known),
        Some(token) => Next::Ends(Refusal::WideLiteral(token)),
    }
}

// The two functions with these names.
fn name_stage(
    source: &[u8],
    known: ResolvedText,
    first: &str,
    second: &str,
) -> Next<Refusal, NamedText>
    requires within { IsWithin source.now known.text.tokens }
    requires few { length known.text.program.functions < 2 ^ 32 }
    requires few_params { HaveFewParams known.text.program.functions }
    requires names { scope_of source.now known.text.tokens known.text.program ≡ Ok known.resolved }
    ensures stage { spec.name_stage source.now first.now second.now known (two_of result) }
    ensures sayable { IsSayableNext result }
    ensures kept { IfGoes result (λ named. named.text ≡ known.text) }
    ensures counted { IfGoes result (λ named. CanBeCounted named.two) }
{
    let text = known.text;
    let tokens = text.tokens.as_slice();
    let Some(first) = find_function(source, tokens, &text.program, first) else {
        return Next::Ends(Refusal::NoFunction(1));
    };
    let Some(second) = find_function(source, tokens, &text.program, second) else {
        return Next::Ends(Refusal::NoFunction(2));
    };
    let two = TwoFunctions {
        program: known.resolved,
        first,
        second,
    };
    Next::Goes(NamedText { text, two })
}

// How many parameters the function at this place has, 0 where there is none.
fn param_count(functions: &[Function], place: u32) -> u32
    requires { count_at (slice_get functions.now place) < 2 ^ 32 }
    ensures { result ≡ count_at (slice_get functions.now place) }
{
    match functions.get(place as usize) {
        Some(function) => function.params.len() as u32,
        None => 0,
    }
}

// Two functions of equally many parameters.
fn count_stage(named: NamedText) -> Next<Refusal, NamedText>
    requires { CanBeCounted named.two }
    ensures stage { spec.count_stage named.two (two_of result) }
    ensures sayable { IsSayableNext result }
    ensures kept { IfGoes result (λ counted. counted.text ≡ named.text) }
{
    let functions = named.two.program.functions.as_slice();
    let left = param_count(functions, named.two.first);
    let right = param_count(functions, named.two.second);
    if left == right {
        Next::Goes(named)
    } else {
        Next::Ends(Refusal::Arity(left, right))
    }
}

// What the front end says of a text and two names, with what the program was read from.
pub(crate) fn named_text(
    alloc: Global,
    integers: Integers,
    source: &[u8],
    first: &str,
    second: &str,
) -> Result<Next<Refusal, NamedText>, NoMemory>
    requires { length source.now ≤ 1048576 }
    ensures front { IfOk result (λ next.
        front integers source.now first.now second.now (two_of next)) }
    ensures sayable { IfOk result IsSayableNext }
    ensures text { IfOk result (λ next.
        IfGoes next (λ named. IsProgram source.now named.text.tokens named.text.program)) }
    ensures within { IfOk result (λ next.
        IfGoes next (λ named. IsWithin source.now named.text.tokens)) }
    ensures few_params { IfOk result (λ next.
        IfGoes next (λ named. HaveFewParams named.text.program.functions)) }
{
    let tokens = match lex_stage(alloc, source)? {
        Next::Goes(tokens) => tokens,
        Next::Ends(refusal) => return Ok(Next::Ends(refusal)),
    };
    let text = match parse_stage(alloc, tokens)? {
        Next::Goes(text) => text,
        Next::Ends(refusal) => return Ok(Next::Ends(refusal)),
    };
    let known = match scope_stage(alloc, source, text)? {
        Next::Goes(known) => known,
        Next::Ends(refusal) => return Ok(Next::Ends(refusal)),
    };
    let known = match literal_stage(integers, known) {
        Next::Goes(known) => known,
        Next::Ends(refusal) => return Ok(Next::Ends(refusal)),
    };
    match name_stage(source, known, first, second) {
        Next::Goes(named) => Ok(count_stage(named)),
        Next::Ends(refusal) => Ok(Next::Ends(refusal)),
    }
}

/// What the front end says of a text, two names and a precondition, if there is one; fails only if
/// out of memory. Of 32-bit integers a number of the text above 2147483647 refuses it, also in a
/// function that isn't asked for; the numbers of the precondition are any.
pub fn compared_functions(
    alloc: Global,
    integers: Integers,
    source: &[u8],
    first: &str,
    second: &str,
    precondition: Option<&[u8]>,
) -> Result<Next<Refusal, Compared>, NoMemory>
    requires source { length source.now ≤ 1048576 }
    requires precondition { MatchOption precondition ⊤ (λ bytes. length bytes.now ≤ 1048576) }
    ensures front { IfOk result (whole_front integers source.now first.now second.now
        (bytes_of precondition.entry)) }
    ensures sayable { IfOk result IsSayableNext }
{
    match named_text(alloc, integers, source, first, second)? {
        Next::Goes(named) => condition(alloc, source, named, precondition),
        Next::Ends(refusal) => Ok(Next::Ends(refusal)),
    }
}
