//! The definitions of a program: which function a name denotes.
ghost use Rattle.std.specs.Prelude.{◌≡◌, ◌<◌, ◌^◌, length, IfOk};
ghost use Rattle.c_names.specs.Expressions.{definition_of, IsIndexOf};

use crate::names::name_at;
use c_ast::Function;
use indexmap::IndexMap;
use rx_plain::NoMemory;
use std::alloc::Global;

/// The definitions of a program, by their names.
#[derive(Clone, Copy)]
pub struct Definitions<'a> {
    /// The names of all tokens.
    pub names: &'a [u32],
    /// The functions in the order of the text.
    pub functions: &'a [Function],
    /// For each name of a function the place of its first definition.
    pub places: &'a IndexMap<u32, u32>,
    ghost indexed: { IsIndexOf names.now functions.now places.now.entries },
}

/// A table with the place of the first definition of each name; fails only when out of memory.
pub fn places_of(
    alloc: Global,
    names: &[u32],
    functions: &[Function],
) -> Result<IndexMap<u32, u32>, NoMemory>
    requires { length functions.now < 2 ^ 32 }
    ensures { IfOk result (λ places. IsIndexOf names.now functions.now places.entries) }
{
    let mut places = IndexMap::new(alloc);
    for place in (0..functions.len()).rev() {
        places.insert(name_at(names, functions[place].name), place as u32)?;
    }
    Ok(places)
}

/// The place of the first definition of a name, none where no function has it. Takes no memory.
pub fn find_definition(definitions: &Definitions, name: u32) -> Option<u32>
    ensures { result ≡ definition_of definitions.now.names.now definitions.now.functions.now name }
{
    definitions.places.get(&name).copied()
}
