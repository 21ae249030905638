//! The names of an expression.
ghost use Rattle.std.specs.Prelude.{◌≡◌, length, map, slice_get};
ghost use Rattle.c_names.specs.Names as name_spec;
ghost use Rattle.c_names.specs.Slots as slot_spec;
ghost use Rattle.c_names.specs.Expressions as spec;
ghost use Rattle.c_names.specs.Expressions.{resolved_expr};
ghost use Rattle.c_names.specs.Steps.{Gives, sequence};

use crate::definitions::{Definitions, find_definition};
use crate::error::ScopeEnd;
use crate::lookup_slots::Scope;
use crate::names::name_at;
use crate::slots::slot_of;
use c_ast::{Expr, Function};
use rx_plain::{Boxed, Items, both};
use std::alloc::Global;

/// The slot of a variable.
pub fn slot_at(names: &[u32], scope: &Scope, token: u32) -> Result<u32, ScopeEnd>
    ensures { Gives result (spec.ok_or_unknown token (slot_spec.slot_of scope.now.names
        (name_spec.name_at names.now token))) }
{
    match slot_of(scope.names.as_slice(), name_at(names, token)) {
        Some(slot) => Ok(slot),
        None => Err(ScopeEnd::UnknownName { token }),
    }
}

/// How many parameters the function at a place has, 0 where there is none.
pub fn count_at(functions: &[Function], place: u32) -> usize
    ensures { result ≡ spec.count_at (slice_get functions.now place) }
{
    match functions.get(place as usize) {
        Some(function) => function.params.len(),
        None => 0,
    }
}

// The place of the function that is called with n arguments.
fn resolve_callee(
    definitions: &Definitions,
    scope: &Scope,
    token: u32,
    arguments: &Items<Expr>,
) -> Result<u32, ScopeEnd>
    ensures { Gives result (spec.callee_of definitions.now.names.now definitions.now.functions.now
        token (length arguments.now) (slot_spec.slot_of scope.now.names
        (name_spec.name_at definitions.now.names.now token))) }
{
    let name = name_at(definitions.names, token);
    if slot_of(scope.names.as_slice(), name).is_some() {
        return Err(ScopeEnd::UnknownName { token });
    }
    match find_definition(definitions, name) {
        None => Err(ScopeEnd::UnknownName { token }),
        Some(place) => {
            if arguments.len() == count_at(definitions.functions, place) {
                Ok(place)
            } else {
                Err(ScopeEnd::WrongCount { token })
            }
        }
    }
}

/// An expression with its names resolved, or its first fault, from left to right.
#[cycle(expressions)]
pub fn resolve_expr(
    alloc: Global,
    definitions: &Definitions,
    scope: &Scope,
    e: &Expr,
) -> Result<Expr, ScopeEnd>
    ensures { Gives result (resolved_expr definitions.now.names.now definitions.now.functions.now
        scope.now.names e.now) }
{
    match e {
        Expr::Lit(n) => Ok(Expr::Lit(*n)),
        Expr::Var(token) => Ok(Expr::Var(slot_at(definitions.names, scope, *token)?)),
        Expr::Unary(op, a) => Ok(Expr::Unary(*op, resolve_boxed(alloc, definitions, scope, a)?)),
        Expr::Binary(op, a, b) => {
            let a = resolve_boxed(alloc, definitions, scope, a)?;
            let (a, b) = both(a, resolve_boxed(alloc, definitions, scope, b))?;
            Ok(Expr::Binary(*op, a, b))
        }
        Expr::Choose(c, a, b) => {
            let c = resolve_boxed(alloc, definitions, scope, c)?;
            let parts = both(c, resolve_boxed(alloc, definitions, scope, a))?;
            let ((c, a), b) = both(parts, resolve_boxed(alloc, definitions, scope, b))?;
            Ok(Expr::Choose(c, a, b))
        }
        Expr::Apply(token, arguments) => {
            let place = resolve_callee(definitions, scope, *token, arguments)?;
            let resolved = resolve_arguments(alloc, definitions, scope, arguments)?;
            Ok(Expr::Apply(place, resolved))
        }
    }
}

// An expression in a box, in a box of its own.
#[cycle(expressions)]
fn resolve_boxed(
    alloc: Global,
    definitions: &Definitions,
    scope: &Scope,
    e: &Boxed<Expr>,
) -> Result<Boxed<Expr>, ScopeEnd>
    ensures { Gives result (resolved_expr definitions.now.names.now definitions.now.functions.now
        scope.now.names e.now) }
{
    let inner = resolve_expr(alloc, definitions, scope, e.get())?;
    Ok(Boxed::new(alloc, inner)?)
}

// The arguments of a call, in order.
#[cycle(expressions)]
fn resolve_arguments(
    alloc: Global,
    definitions: &Definitions,
    scope: &Scope,
    arguments: &Items<Expr>,
) -> Result<Items<Expr>, ScopeEnd>
    ensures { Gives result (sequence (map (resolved_expr definitions.now.names.now
        definitions.now.functions.now scope.now.names) arguments.now)) }
{
    let mut resolved = Items::new(alloc);
    for argument in arguments.as_slice() {
        resolved.push(resolve_expr(alloc, definitions, scope, argument)?)?;
    }
    Ok(resolved)
}
