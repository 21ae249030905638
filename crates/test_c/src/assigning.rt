//! Definite assignment.
ghost use Rattle.std.specs.Prelude.{◌<◌, ◌^◌, length};

use crate::parsed::{first_of, parse_text};
use c_assigned::fault_of;
use c_ast::Function;
use c_names::names_of;
use std::alloc::Global;
use test_lines::put_debug;

// What is wrong with the variables of a function, whose tokens have these names.
fn shown_fault(alloc: Global, names: &[u32], function: &Function) -> Option<String>
    requires { length function.now.params < 2 ^ 32 }
{
    let fault = fault_of(alloc, names, function).ok()?;
    let mut out = String::new(alloc);
    put_debug(&mut out, fault);
    Some(out)
}

/// `fault` says what is wrong with the variables of the first function.
pub fn fault(alloc: Global, given: &str) -> Option<String> {
    let read = parse_text(alloc, given)?;
    let names = names_of(alloc, &read.text.source, &read.text.tokens).ok()?;
    shown_fault(alloc, &names, first_of(read.program.functions.as_slice())?)
}
