//! Names of a precondition, which are those of parameters.
ghost use Rattle.std.specs.Prelude.{◌<◌, ◌^◌, length, IfErr};
ghost use Rattle.c_names.specs.Spellings.{IsWithin};
ghost use Rattle.c_names.specs.Preconditions.{param_of, resolved_pre, IsUnknownOrMemory};
ghost use Rattle.c_names.specs.Expressions.{ok_or_unknown};
ghost use Rattle.c_names.specs.Steps.{Gives};

use crate::error::ScopeEnd;
use crate::spelling::{find_spelling, spelling_at};
use c_ast::{Expr, Function};
use c_lex::Token;
use rx_plain::{Boxed, both};
use std::alloc::Global;

/// A precondition of a function, with the slots of the parameters for their names, or `UnknownName`
/// with the precondition's token: a name that is no parameter's, or that of a called function. It
/// fails otherwise only when out of memory. The precondition is one of `pre_tokens`, which are
/// those of `pre_source`.
pub fn resolve_pre(
    alloc: Global,
    source: &[u8],
    tokens: &[Token],
    function: &Function,
    pre_source: &[u8],
    pre_tokens: &[Token],
    pre: &Expr,
) -> Result<Expr, ScopeEnd>
    requires within { IsWithin source.now tokens.now }
    requires pre_within { IsWithin pre_source.now pre_tokens.now }
    requires few { length function.now.params < 2 ^ 32 }
    ensures answer { Gives result (resolved_pre source.now tokens.now function.now.params
        pre_source.now pre_tokens.now pre.now) }
    ensures refusals { IfErr result IsUnknownOrMemory }
{
    let names = Params {
        source,
        tokens,
        numbers: function.params.as_slice(),
        pre_source,
        pre_tokens,
    };
    resolve_part(alloc, &names, pre)
}

// The parameters of a function and the text of a precondition.
#[derive(Clone, Copy)]
struct Params<'a> {
    source: &'a [u8],
    tokens: &'a [Token],
    numbers: &'a [u32],
    pre_source: &'a [u8],
    pre_tokens: &'a [Token],
}

// The slot of the parameter that is spelled as this token of the precondition.
fn slot_at(names: &Params, token: u32) -> Result<u32, ScopeEnd>
    requires within { IsWithin names.now.source.now names.now.tokens.now }
    requires pre_within { IsWithin names.now.pre_source.now names.now.pre_tokens.now }
    requires few { length names.now.numbers.now < 2 ^ 32 }
    ensures answer { Gives result (ok_or_unknown token
        (param_of names.now.source.now names.now.tokens.now names.now.numbers.now
        names.now.pre_source.now names.now.pre_tokens.now token)) }
    ensures refusals { IfErr result IsUnknownOrMemory }
{
    let name = spelling_at(names.pre_source, names.pre_tokens, token);
    match find_spelling(names.source, names.tokens, names.numbers, name) {
        Some(slot) => Ok(slot),
        None => Err(ScopeEnd::UnknownName { token }),
    }
}

// A part of the precondition.
#[cycle(parts)]
fn resolve_part(alloc: Global, names: &Params, e: &Expr) -> Result<Expr, ScopeEnd>
    requires within { IsWithin names.now.source.now names.now.tokens.now }
    requires pre_within { IsWithin names.now.pre_source.now names.now.pre_tokens.now }
    requires few { length names.now.numbers.now < 2 ^ 32 }
    ensures answer { Gives result (resolved_pre names.now.source.now names.now.tokens.now
        names.now.numbers.now names.now.pre_source.now names.now.pre_tokens.now e.now) }
    ensures refusals { IfErr result IsUnknownOrMemory }
{
    match e {
        Expr::Lit(n) => Ok(Expr::Lit(*n)),
        Expr::Var(token) => Ok(Expr::Var(slot_at(names, *token)?)),
        Expr::Unary(op, a) => Ok(Expr::Unary(*op, resolve_boxed(alloc, names, a)?)),
        Expr::Binary(op, a, b) => {
            let a = resolve_boxed(alloc, names, a)?;
            let (a, b) = both(a, resolve_boxed(alloc, names, b))?;
            Ok(Expr::Binary(*op, a, b))
        }
        Expr::Choose(c, a, b) => {
            let c = resolve_boxed(alloc, names, c)?;
            let parts = both(c, resolve_boxed(alloc, names, a))?;
            let ((c, a), b) = both(parts, resolve_boxed(alloc, names, b))?;
            Ok(Expr::Choose(c, a, b))
        }
        Expr::Apply(token, _) => Err(ScopeEnd::UnknownName { token: *token }),
    }
}

// A part in a box, in a box of its own.
#[cycle(parts)]
fn resolve_boxed(alloc: Global, names: &Params, e: &Boxed<Expr>) -> Result<Boxed<Expr>, ScopeEnd>
    requires within { IsWithin names.now.source.now names.now.tokens.now }
    requires pre_within { IsWithin names.now.pre_source.now names.now.pre_tokens.now }
    requires few { length names.now.numbers.now < 2 ^ 32 }
    ensures answer { Gives result (resolved_pre names.now.source.now names.now.tokens.now
        names.now.numbers.now names.now.pre_source.now names.now.pre_tokens.now e.now) }
    ensures refusals { IfErr result IsUnknownOrMemory }
{
    let inner = resolve_part(alloc, names, e.get())?;
    Ok(Boxed::new(alloc, inner)?)
}
