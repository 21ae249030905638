//! The names of functions, in the order of the text.
ghost use Rattle.std.specs.Prelude.{◌≡◌, ◌≤◌, length, All, IfOk, OnOk};
ghost use Rattle.c_scope.specs.Functions as spec;
ghost use Rattle.c_scope.specs.Functions.{HasFewParams, slots_from, with_params};
ghost use Rattle.c_names.specs.LookupSlots.{GivesScope};
ghost use Rattle.c_names.specs.Steps.{Gives};
ghost use Rattle.c_names.specs.Views.{model_of};

use crate::statements::in_order;
use c_ast::Function;
use c_names::{Definitions, Scope, ScopeEnd};
use rx_plain::Items;
use std::alloc::Global;

// Declares the parameters in their order, and answers their slots.
fn declare_params(
    alloc: Global,
    names: &[u32],
    scope: &mut Scope,
    params: &[u32],
) -> Result<Items<u32>, ScopeEnd>
    ensures scope { GivesScope result (model_of scope.new)
        (with_params names.now params.now (model_of scope.old)) }
    ensures slots { IfOk result (λ slots. slots ≡ slots_from (length scope.old.names) params.now) }
    ensures few { OnOk result (length params.now ≤ 64) }
{
    let mut slots = Items::new(alloc);
    for param in params {
        let slot = scope.declare(names, *param)?;
        slots.push(slot)?;
    }
    Ok(slots)
}

// A function with its names resolved, or its first fault.
fn resolve_function(
    alloc: Global,
    definitions: &Definitions,
    function: &Function,
) -> Result<Function, ScopeEnd>
    ensures answer { Gives result (spec.resolved_function definitions.now.names.now
        definitions.now.functions.now function.now) }
    ensures few { OnOk result (HasFewParams function.now) }
{
    let mut scope = Scope::new(alloc);
    let params = declare_params(
        alloc,
        definitions.names,
        &mut scope,
        function.params.as_slice(),
    )?;
    let body = in_order(alloc, definitions, &mut scope, false, &function.body)?;
    Ok(Function {
        name: function.name,
        params,
        body,
    })
}

/// All functions with their names resolved, or the first fault.
pub fn resolve_functions(
    alloc: Global,
    definitions: &Definitions,
) -> Result<Items<Function>, ScopeEnd>
    ensures answer { Gives result (spec.resolved_functions definitions.now.names.now
        definitions.now.functions.now) }
    ensures few { OnOk result (All HasFewParams definitions.now.functions.now) }
{
    let mut resolved = Items::new(alloc);
    for function in definitions.functions {
        resolved.push(resolve_function(alloc, definitions, function)?)?;
    }
    Ok(resolved)
}
