//! Functions, prototypes and their parameters.
ghost use Rattle.std.specs.Prelude.{◌≡◌, ◌+◌, ◌≤◌, ◌<◌, ◌^◌, Some, length, IfOk, MatchBool};
ghost use Rattle.std.specs.Option.{option_map};
ghost use Rattle.c_ast.specs.Height.{of_option};
ghost use Rattle.c_syntax.specs.Grammar.{kind_at};
ghost use Rattle.c_syntax.specs.Statements.{CompoundStatement};
ghost use Rattle.c_syntax.specs.Programs.{Parameter, Listed, Parameters, IsHeading, IsVoid, all_names, names_of};
ghost use Rattle.c_syntax.specs.Heights.{list_height};
ghost use Rattle.c_syntax.specs.Readers.{Gives, IsNoHigher};
ghost use Rattle.c_parse.specs.Readers.{LowExternal};

use c_ast::{Function, Prototype, Stmt};
use c_lex::{Keyword, Mark, Token, TokenKind};
use c_syntax::{External, Span, block_items, has_keyword, has_mark, has_name};
use rx_plain::{Items, NoMemory};
use std::alloc::Global;

// How high a statement may be.
pub const MAX_HEIGHT: u32 = 200;

// The parameters of a heading, each by its name if it has one; none where the parentheses are
// empty.
type ParameterList = Option<Items<Option<u32>>>;

// The function or prototype at `at`.
pub fn external(
    alloc: Global,
    tokens: &[Token],
    at: usize,
) -> Result<Option<Span<External>>, NoMemory>
    requires few { length tokens.now < 2 ^ 32 }
    requires inside { at ≤ length tokens.now }
    ensures { IfOk result (Gives (LowExternal tokens.now at) at (length tokens.now)) }
{
    if !is_heading(tokens, at) {
        return Ok(None);
    }
    let Some(params) = parameters(alloc, tokens, at + 3)? else {
        return Ok(None);
    };
    if has_mark(tokens, params.end, Mark::Semicolon) {
        return Ok(Some(prototype(tokens, at, &params)));
    }
    function(alloc, tokens, at, &params)
}

// The prototype whose heading is at `at`.
fn prototype(tokens: &[Token], at: usize, params: &Span<ParameterList>) -> Span<External>
    requires few { length tokens.now < 2 ^ 32 }
    requires heading { IsHeading tokens.now at }
    requires params { Gives (Parameters tokens.now (at + 3)) (at + 3) (length tokens.now)
        (Some params.now) }
    requires ended { kind_at tokens.now params.now.end ≡ Some (TokenKind.Mark Mark.Semicolon) }
    ensures { Gives (LowExternal tokens.now at) at (length tokens.now) (Some result) }
{
    Span {
        value: External::Declared(Prototype {
            name: (at + 1) as u32,
            params: count_of(&params.value),
        }),
        end: params.end + 1,
    }
}

// How many parameters there are; none where the parentheses are empty.
fn count_of(params: &ParameterList) -> Option<u32>
    requires { of_option (λ listed. length listed) params.now < 2 ^ 32 }
    ensures { result ≡ option_map (λ listed. length listed) params.now }
{
    match params {
        None => None,
        Some(listed) => Some(listed.len() as u32),
    }
}

// The function whose heading is at `at`.
fn function(
    alloc: Global,
    tokens: &[Token],
    at: usize,
    params: &Span<ParameterList>,
) -> Result<Option<Span<External>>, NoMemory>
    requires few { length tokens.now < 2 ^ 32 }
    requires heading { IsHeading tokens.now at }
    requires params { Gives (Parameters tokens.now (at + 3)) (at + 3) (length tokens.now)
        (Some params.now) }
    requires continued { kind_at tokens.now params.now.end ≡ Some (TokenKind.Mark Mark.Semicolon) →
        ⊥ }
    ensures { IfOk result (Gives (LowExternal tokens.now at) at (length tokens.now)) }
{
    let Some(names) = names_of(alloc, &params.value)? else {
        return Ok(None);
    };
    let Some(body) = block(alloc, tokens, params.end)? else {
        return Ok(None);
    };
    Ok(Some(Span {
        value: External::Defined(Function {
            name: (at + 1) as u32,
            params: names,
            body: body.value,
        }),
        end: body.end,
    }))
}

// The names of the parameters, where each has one.
fn names_of(alloc: Global, params: &ParameterList) -> Result<Option<Items<u32>>, NoMemory>
    ensures { IfOk result (λ names. names ≡ names_of params.now) }
{
    match params {
        None => Ok(Some(Items::new(alloc))),
        Some(listed) => all_names(alloc, listed.as_slice()),
    }
}

// The names of a list of parameters, where each has one.
fn all_names(alloc: Global, listed: &[Option<u32>]) -> Result<Option<Items<u32>>, NoMemory>
    ensures { IfOk result (λ names. names ≡ all_names listed.now) }
{
    let mut names = Items::new(alloc);
    for parameter in listed {
        let Some(name) = *parameter else {
            return Ok(None);
        };
        names.push(name)?;
    }
    Ok(Some(names))
}

// Whether `int`, a name and an opening parenthesis are at `at`.
fn is_heading(tokens: &[Token], at: usize) -> bool
    requires few { length tokens.now < 2 ^ 32 }
    requires inside { at ≤ length tokens.now }
    ensures { MatchBool result (IsHeading tokens.now at) (IsHeading tokens.now at → ⊥) }
{
    has_keyword(tokens, at, Keyword::Int)
        && has_name(tokens, at + 1)
        && has_mark(tokens, at + 2, Mark::LeftParen)
}

// Whether `void` and a closing parenthesis are at `at`.
fn is_void(tokens: &[Token], at: usize) -> bool
    requires { at < 2 ^ 33 }
    ensures { MatchBool result (IsVoid tokens.now at) (IsVoid tokens.now at → ⊥) }
{
    has_keyword(tokens, at, Keyword::Void) && has_mark(tokens, at + 1, Mark::RightParen)
}

// The parameters after the opening parenthesis, up to and with the closing one.
pub fn parameters(
    alloc: Global,
    tokens: &[Token],
    at: usize,
) -> Result<Option<Span<ParameterList>>, NoMemory>
    requires few { length tokens.now < 2 ^ 32 }
    requires inside { at ≤ length tokens.now }
    ensures { IfOk result (Gives (Parameters tokens.now at) at (length tokens.now)) }
{
    if has_mark(tokens, at, Mark::RightParen) {
        return Ok(Some(Span {
            value: None,
            end: at + 1,
        }));
    }
    if is_void(tokens, at) {
        return Ok(Some(Span {
            value: Some(Items::new(alloc)),
            end: at + 2,
        }));
    }
    let Some(read) = parameter_list(alloc, tokens, at)? else {
        return Ok(None);
    };
    Ok(Some(Span {
        value: Some(read.value),
        end: read.end,
    }))
}

// The parameters, at least one, up to and with the closing parenthesis.
fn parameter_list(
    alloc: Global,
    tokens: &[Token],
    at: usize,
) -> Result<Option<Span<Items<Option<u32>>>>, NoMemory>
    requires few { length tokens.now < 2 ^ 32 }
    requires inside { at ≤ length tokens.now }
    ensures { IfOk result (Gives (Listed tokens.now at) at (length tokens.now)) }
{
    let mut found = Items::new(alloc);
    let mut end = at;
    'parameters: loop {
        let Some(read) = parameter(tokens, end) else {
            return Ok(None);
        };
        found.push(read.value)?;
        if has_mark(tokens, read.end, Mark::RightParen) {
            return Ok(Some(Span {
                value: found,
                end: read.end + 1,
            }));
        }
        if !has_mark(tokens, read.end, Mark::Comma) {
            return Ok(None);
        }
        end = read.end + 1;
    }
}

// The parameter at `at`.
fn parameter(tokens: &[Token], at: usize) -> Option<Span<Option<u32>>>
    requires few { length tokens.now < 2 ^ 32 }
    requires inside { at ≤ length tokens.now }
    ensures { Gives (Parameter tokens.now at) at (length tokens.now) result }
{
    if !has_keyword(tokens, at, Keyword::Int) {
        return None;
    }
    if has_name(tokens, at + 1) {
        return Some(Span {
            value: Some((at + 1) as u32),
            end: at + 2,
        });
    }
    Some(Span {
        value: None,
        end: at + 1,
    })
}

// The statements of the block at `at`.
fn block(alloc: Global, tokens: &[Token], at: usize) -> Result<Option<Span<Items<Stmt>>>, NoMemory>
    requires few { length tokens.now < 2 ^ 32 }
    requires inside { at ≤ length tokens.now }
    ensures { IfOk result (Gives (IsNoHigher list_height 200 (CompoundStatement tokens.now at)) at
        (length tokens.now)) }
{
    if !has_mark(tokens, at, Mark::LeftBrace) {
        return Ok(None);
    }
    block_items(alloc, tokens, at + 1, MAX_HEIGHT)
}
