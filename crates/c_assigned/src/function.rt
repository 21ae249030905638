//! The fault of a function.
ghost use Rattle.std.specs.Prelude.{◌≡◌, ◌<◌, ◌^◌, Some, true, length, map, replicate, IfOk};
ghost use Rattle.c_assigned.specs.Faults as spec;
ghost use Rattle.c_assigned.specs.Sets.{Assigned};
ghost use Rattle.c_names.specs.Names as names_spec;

use crate::fault::Fault;
use crate::statements::in_order;
use c_ast::Function;
use c_names::name_at;
use rx_plain::{Items, NoMemory};
use std::alloc::Global;

// The names of the tokens, in order.
fn names_at(alloc: Global, names: &[u32], tokens: &[u32]) -> Result<Vec<u32>, NoMemory>
    ensures { IfOk result (λ v. v.items ≡ map (names_spec.name_at names.now) tokens.now) }
{
    let mut found = Vec::new(alloc);
    for token in tokens {
        found.push(name_at(names, *token))?;
    }
    Ok(found)
}

// The set of as many slots as there are parameters, all assigned.
fn all_assigned(alloc: Global, params: &[u32]) -> Result<Option<Items<bool>>, NoMemory>
    ensures { IfOk result (λ set. set ≡ Some (replicate (length params.now) true)) }
{
    let mut flags = Vec::new(alloc);
    for _param in params {
        flags.push(true)?;
    }
    Ok(Some(Items::from_vec(flags)))
}

/// The fault of a function, where it has one: the first variable that is read where it may have no
/// value, or else that its end may be reached. `names` are the names of all tokens of the text. It
/// fails only when out of memory.
pub fn fault_of(
    alloc: Global,
    names: &[u32],
    function: &Function,
) -> Result<Option<Fault>, NoMemory>
    requires { length function.now.params < 2 ^ 32 }
    ensures { IfOk result (λ fault. fault ≡ spec.fault_of names.now function.now) }
{
    let mut scope = names_at(alloc, names, function.params.as_slice())?;
    let set = all_assigned(alloc, function.params.as_slice())?;
    let flow = in_order(alloc, names, &mut scope, set, function.body.as_slice())?;
    match flow.unset {
        Some(token) => Ok(Some(Fault::MayBeUnset(token))),
        None => match flow.behind {
            None => Ok(None),
            Some(_) => Ok(Some(Fault::MayNotReturn(function.name))),
        },
    }
}
