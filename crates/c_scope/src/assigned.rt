//! Faults of assignment.
ghost use Rattle.std.specs.Prelude.{◌≡◌, All, IfOk};
ghost use Rattle.c_scope.specs.Functions.{HasFewParams};
ghost use Rattle.c_scope.specs.Programs as spec;

use c_assigned::{Fault, fault_of};
use c_ast::Function;
use c_names::ScopeEnd;
use rx_plain::NoMemory;
use std::alloc::Global;

// What a fault of assignment is called here.
fn of_flaw(flaw: Fault) -> ScopeEnd
    ensures { result ≡ spec.scope_end_of flaw }
{
    match flaw {
        Fault::MayBeUnset(token) => ScopeEnd::MayBeUnset { token },
        Fault::MayNotReturn(token) => ScopeEnd::MayNotReturn { token },
    }
}

/// The fault of the first function that has one; fails only when out of memory.
pub fn assigned_fault(
    alloc: Global,
    names: &[u32],
    functions: &[Function],
) -> Result<Option<ScopeEnd>, NoMemory>
    requires { All HasFewParams functions.now }
    ensures { IfOk result (λ fault. fault ≡ spec.assigned_fault names.now functions.now) }
{
    for function in functions {
        if let Some(flaw) = fault_of(alloc, names, function)? {
            return Ok(Some(of_flaw(flaw)));
        }
    }
    Ok(None)
}
