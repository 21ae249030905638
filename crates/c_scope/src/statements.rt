//! The names of statements, in the order of the text.
ghost use Rattle.std.specs.Prelude.{◌≡◌, Bool, true, if◌then◌else◌, map, option_map};
ghost use Rattle.std.specs.Prelude.{Err, Ok};
ghost use Rattle.c_ast.specs.declared.stmt.Stmt.TheVariants.{If, While, DoWhile, For};
ghost use Rattle.c_scope.specs.Statements as spec;
ghost use Rattle.c_scope.specs.Statements.{GivesScoped, resolved_stmt};
ghost use Rattle.c_names.specs.LookupSlots.{inner_scope};
ghost use Rattle.c_names.specs.Steps.{Gives, and_then};
ghost use Rattle.c_names.specs.Views.{model_of};
ghost use Rattle.c_names.specs.declared.error.ScopeEnd.TheVariants.{StrayBreak};

use c_ast::{Expr, Stmt};
use c_names::{Definitions, Scope, ScopeEnd, resolve_expr, slot_at};
use rx_plain::{Boxed, Items, both};
use std::alloc::Global;

// An expression that may be left out.
fn resolve_optional(
    alloc: Global,
    definitions: &Definitions,
    scope: &Scope,
    e: &Option<Expr>,
) -> Result<Option<Expr>, ScopeEnd>
    ensures { Gives result (spec.resolved_optional definitions.now.names.now
        definitions.now.functions.now (model_of scope.now) e.now) }
{
    match e {
        None => Ok(None),
        Some(e) => Ok(Some(resolve_expr(alloc, definitions, scope, e)?)),
    }
}

// The declaration of one variable, with its initial value.
fn declare(
    alloc: Global,
    definitions: &Definitions,
    scope: &mut Scope,
    token: u32,
    value: &Option<Expr>,
) -> Result<Stmt, ScopeEnd>
    ensures { GivesScoped result (model_of scope.new)
        (spec.declaration_of definitions.now.names.now definitions.now.functions.now token value.now
        (model_of scope.old)) }
{
    let slot = scope.declare(definitions.names, token)?;
    let value = resolve_optional(alloc, definitions, scope, value)?;
    Ok(Stmt::Declare(slot, value))
}

// An assignment.
fn assign(
    alloc: Global,
    definitions: &Definitions,
    scope: &Scope,
    token: u32,
    value: &Expr,
) -> Result<Stmt, ScopeEnd>
    ensures { GivesScoped result (model_of scope.now)
        (spec.assignment_of definitions.now.names.now definitions.now.functions.now token value.now
        (model_of scope.now)) }
{
    let slot = slot_at(definitions.names, scope, token)?;
    let value = resolve_expr(alloc, definitions, scope, value)?;
    Ok(Stmt::Assign(slot, value))
}

// The token of a `break` or a `continue`, which stands in a loop.
fn jump(in_loop: bool, token: u32) -> Result<u32, ScopeEnd>
    ensures { result ≡ if in_loop then Ok token else Err (StrayBreak token) }
{
    if in_loop {
        Ok(token)
    } else {
        Err(ScopeEnd::StrayBreak { token })
    }
}

/// A statement with its names resolved, or its first fault. What it declares is in scope after it.
#[cycle(statements)]
pub fn resolve_stmt(
    alloc: Global,
    definitions: &Definitions,
    scope: &mut Scope,
    in_loop: bool,
    s: &Stmt,
) -> Result<Stmt, ScopeEnd>
    ensures { GivesScoped result (model_of scope.new)
        (resolved_stmt definitions.now.names.now definitions.now.functions.now s.now
        (model_of scope.old) in_loop) }
{
    match s {
        Stmt::Empty => Ok(Stmt::Empty),
        Stmt::Declare(token, value) => declare(alloc, definitions, scope, *token, value),
        Stmt::Assign(token, value) => assign(alloc, definitions, scope, *token, value),
        Stmt::If(test, inner, other) => {
            if_statement(alloc, definitions, scope, in_loop, test, inner, other)
        }
        Stmt::While(test, inner) => while_loop(alloc, definitions, scope, test, inner),
        Stmt::DoWhile(inner, test) => do_loop(alloc, definitions, scope, inner, test),
        Stmt::For(first, test, change, inner) => {
            for_loop(alloc, definitions, scope, first, test, change, inner)
        }
        Stmt::Break(token) => Ok(Stmt::Break(jump(in_loop, *token)?)),
        Stmt::Continue(token) => Ok(Stmt::Continue(jump(in_loop, *token)?)),
        Stmt::Return(value) => Ok(Stmt::Return(resolve_expr(alloc, definitions, scope, value)?)),
        Stmt::Block(inner) => Ok(Stmt::Block(in_block(alloc, definitions, scope, in_loop, inner)?)),
    }
}

// An `if`.
#[cycle(statements)]
fn if_statement(
    alloc: Global,
    definitions: &Definitions,
    scope: &Scope,
    in_loop: bool,
    test: &Expr,
    inner: &Boxed<Stmt>,
    other: &Option<Boxed<Stmt>>,
) -> Result<Stmt, ScopeEnd>
    ensures { GivesScoped result (model_of scope.now)
        (resolved_stmt definitions.now.names.now definitions.now.functions.now
        (If test.now inner.now other.now) (model_of scope.now) in_loop) }
{
    let test = resolve_expr(alloc, definitions, scope, test)?;
    let inner = resolve_substatement(alloc, definitions, scope, in_loop, inner);
    let parts = both(test, inner)?;
    let other = resolve_optional_substatement(alloc, definitions, scope, in_loop, other);
    let ((test, inner), other) = both(parts, other)?;
    Ok(Stmt::If(test, inner, other))
}

// A `while`.
#[cycle(statements)]
fn while_loop(
    alloc: Global,
    definitions: &Definitions,
    scope: &Scope,
    test: &Expr,
    inner: &Boxed<Stmt>,
) -> Result<Stmt, ScopeEnd>
    ensures { (in_loop : Bool) → GivesScoped result (model_of scope.now)
        (resolved_stmt definitions.now.names.now definitions.now.functions.now
        (While test.now inner.now) (model_of scope.now) in_loop) }
{
    let test = resolve_expr(alloc, definitions, scope, test)?;
    let inner = resolve_substatement(alloc, definitions, scope, true, inner);
    let (test, inner) = both(test, inner)?;
    Ok(Stmt::While(test, inner))
}

// A `do`.
#[cycle(statements)]
fn do_loop(
    alloc: Global,
    definitions: &Definitions,
    scope: &Scope,
    inner: &Boxed<Stmt>,
    test: &Expr,
) -> Result<Stmt, ScopeEnd>
    ensures { (in_loop : Bool) → GivesScoped result (model_of scope.now)
        (resolved_stmt definitions.now.names.now definitions.now.functions.now
        (DoWhile inner.now test.now) (model_of scope.now) in_loop) }
{
    let inner = resolve_substatement(alloc, definitions, scope, true, inner)?;
    let (inner, test) = both(inner, resolve_expr(alloc, definitions, scope, test))?;
    Ok(Stmt::DoWhile(inner, test))
}

// A `for`.
#[cycle(statements)]
fn for_loop(
    alloc: Global,
    definitions: &Definitions,
    scope: &Scope,
    first: &Items<Stmt>,
    test: &Option<Expr>,
    change: &Option<Boxed<Stmt>>,
    inner: &Boxed<Stmt>,
) -> Result<Stmt, ScopeEnd>
    ensures { (in_loop : Bool) → GivesScoped result (model_of scope.now)
        (resolved_stmt definitions.now.names.now definitions.now.functions.now
        (For first.now test.now change.now inner.now) (model_of scope.now) in_loop) }
{
    let mut begun = scope.inner_scope(alloc)?;
    let first = in_order(alloc, definitions, &mut begun, false, first)?;
    let parts = both(first, resolve_optional(alloc, definitions, &begun, test))?;
    let change = resolve_optional_substatement(alloc, definitions, &begun, false, change);
    let parts = both(parts, change)?;
    let inner = body_of_for(alloc, definitions, &begun, inner);
    let (((first, test), change), inner) = both(parts, inner)?;
    Ok(Stmt::For(first, test, change, inner))
}

// A part of a statement: what it declares is gone after it.
#[cycle(statements)]
fn resolve_substatement(
    alloc: Global,
    definitions: &Definitions,
    scope: &Scope,
    in_loop: bool,
    part: &Boxed<Stmt>,
) -> Result<Boxed<Stmt>, ScopeEnd>
    ensures { Gives result (spec.nested (resolved_stmt definitions.now.names.now
        definitions.now.functions.now part.now) (model_of scope.now) in_loop) }
{
    let mut within = scope.try_clone(alloc)?;
    let part = resolve_stmt(alloc, definitions, &mut within, in_loop, part.get())?;
    Ok(Boxed::new(alloc, part)?)
}

// Such a part that may be left out.
#[cycle(statements)]
fn resolve_optional_substatement(
    alloc: Global,
    definitions: &Definitions,
    scope: &Scope,
    in_loop: bool,
    part: &Option<Boxed<Stmt>>,
) -> Result<Option<Boxed<Stmt>>, ScopeEnd>
    ensures { Gives result (spec.nested_optional
        (option_map (resolved_stmt definitions.now.names.now definitions.now.functions.now)
        part.now) (model_of scope.now) in_loop) }
{
    match part {
        None => Ok(None),
        Some(part) => {
            let mut within = scope.try_clone(alloc)?;
            let part = resolve_stmt(alloc, definitions, &mut within, in_loop, part.get())?;
            Ok(Some(Boxed::new(alloc, part)?))
        }
    }
}

// The body of a `for`, in a scope inside the one of its declarations.
#[cycle(statements)]
fn body_of_for(
    alloc: Global,
    definitions: &Definitions,
    begun: &Scope,
    body: &Boxed<Stmt>,
) -> Result<Boxed<Stmt>, ScopeEnd>
    ensures { Gives result (spec.nested (resolved_stmt definitions.now.names.now
        definitions.now.functions.now body.now) (inner_scope (model_of begun.now)) true) }
{
    let within = begun.inner_scope(alloc)?;
    resolve_substatement(alloc, definitions, &within, true, body)
}

// The statements of a block, in a scope of their own.
#[cycle(statements)]
fn in_block(
    alloc: Global,
    definitions: &Definitions,
    scope: &Scope,
    in_loop: bool,
    statements: &Items<Stmt>,
) -> Result<Items<Stmt>, ScopeEnd>
    ensures { Gives result (and_then (spec.in_order (map (resolved_stmt definitions.now.names.now
        definitions.now.functions.now) statements.now) (inner_scope (model_of scope.now)) in_loop)
        (λ block. Ok block.tree)) }
{
    let mut within = scope.inner_scope(alloc)?;
    in_order(alloc, definitions, &mut within, in_loop, statements)
}

/// Statements in their order, each in the scope after the one before.
#[cycle(statements)]
pub fn in_order(
    alloc: Global,
    definitions: &Definitions,
    scope: &mut Scope,
    in_loop: bool,
    statements: &Items<Stmt>,
) -> Result<Items<Stmt>, ScopeEnd>
    ensures { GivesScoped result (model_of scope.new)
        (spec.in_order (map (resolved_stmt definitions.now.names.now definitions.now.functions.now)
        statements.now) (model_of scope.old) in_loop) }
{
    let mut resolved = Items::new(alloc);
    for statement in statements.as_slice() {
        resolved.push(resolve_stmt(alloc, definitions, scope, in_loop, statement)?)?;
    }
    Ok(resolved)
}
