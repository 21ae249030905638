//! A program with its names resolved.
ghost use Rattle.std.specs.Prelude.{◌≡◌, ◌<◌, ◌^◌, length, All};
ghost use Rattle.c_names.specs.Names as name_spec;
ghost use Rattle.c_names.specs.Spellings.{IsWithin};
ghost use Rattle.c_scope.specs.Functions.{HasFewParams};
ghost use Rattle.c_scope.specs.Programs as spec;
ghost use Rattle.c_scope.specs.Programs.{scope_of};
ghost use Rattle.c_scope.specs.Definitions as definition_spec;
ghost use Rattle.c_names.specs.Steps.{Gives};

use crate::assigned::assigned_fault;
use crate::functions::resolve_functions;
use crate::prototypes::definition_fault;
use c_ast::{Function, Program, Resolved};
use c_lex::Token;
use c_names::{Definitions, ScopeEnd, names_of, places_of};
use rx_plain::Items;
use std::alloc::Global;

// The program of the resolved functions, or the first fault of assignment of those that were read.
fn after_names(
    alloc: Global,
    names: &[u32],
    functions: &[Function],
    resolved: Items<Function>,
) -> Result<Resolved, ScopeEnd>
    requires { All HasFewParams functions.now }
    ensures { Gives result (spec.after_names (spec.assigned_fault names.now functions.now)
        resolved) }
{
    match assigned_fault(alloc, names, functions)? {
        None => Ok(Resolved {
            functions: resolved,
        }),
        Some(fault) => Err(fault),
    }
}

// A program with its names resolved, or its first fault, where these are the names of its tokens.
fn resolve_named(alloc: Global, names: &[u32], program: &Program) -> Result<Resolved, ScopeEnd>
    requires { length program.now.functions < 2 ^ 32 }
    ensures { Gives result (spec.after_definitions names.now
        (definition_spec.definition_fault names.now program.now.functions program.now.prototypes)
        program.now) }
{
    let functions = program.functions.as_slice();
    let places = places_of(alloc, names, functions)?;
    let definitions = Definitions {
        names,
        functions,
        places: &places,
    };
    if let Some(fault) = definition_fault(&definitions, program.prototypes.as_slice()) {
        return Err(fault);
    }
    let resolved = resolve_functions(alloc, &definitions)?;
    after_names(alloc, names, functions, resolved)
}

/// A program with its names resolved, or its first fault; fails otherwise only when out of memory.
/// The program is one of these tokens, which are those of the source.
pub fn resolve(
    alloc: Global,
    source: &[u8],
    tokens: &[Token],
    program: &Program,
) -> Result<Resolved, ScopeEnd>
    requires within { IsWithin source.now tokens.now }
    requires few_tokens { length tokens.now < 2 ^ 32 }
    requires few_functions { length program.now.functions < 2 ^ 32 }
    ensures { Gives result (scope_of source.now tokens.now program.now) }
{
    let names = names_of(alloc, source, tokens)?;
    resolve_named(alloc, names.as_slice(), program)
}
