//! Definitions and prototypes: no function is defined twice, and prototypes have as many
//! parameters.
ghost use Rattle.std.specs.Prelude.{◌≡◌, ◌<◌, ◌^◌, length};
ghost use Rattle.c_names.specs.Names as name_spec;
ghost use Rattle.c_scope.specs.Definitions as spec;
ghost use Rattle.c_names.specs.Expressions.{definition_of};

use c_ast::Prototype;
use c_names::{Definitions, ScopeEnd, count_at, find_definition, name_at};

// Whether another definition of the name of this token is in front of this place.
fn is_second(definitions: &Definitions, token: u32, place: u32) -> bool
    ensures { result ≡ spec.is_second place (definition_of definitions.now.names.now
        definitions.now.functions.now (name_spec.name_at definitions.now.names.now token)) }
{
    match find_definition(definitions, name_at(definitions.names, token)) {
        None => false,
        Some(first) => first < place,
    }
}

// The name of the first function that was defined before.
fn second_definition(definitions: &Definitions) -> Option<u32>
    requires few { length definitions.now.functions.now < 2 ^ 32 }
    ensures { result ≡ spec.second_definition definitions.now.names.now
        definitions.now.functions.now 0 definitions.now.functions.now }
{
    let mut place: u32 = 0;
    for function in definitions.functions {
        if is_second(definitions, function.name, place) {
            return Some(function.name);
        }
        place += 1;
    }
    None
}

// Whether a prototype says another number of parameters than the definition.
fn differs(definitions: &Definitions, prototype: &Prototype) -> bool
    ensures { result ≡ spec.differs definitions.now.names.now definitions.now.functions.now
        prototype.now.params (definition_of definitions.now.names.now definitions.now.functions.now
        (name_spec.name_at definitions.now.names.now prototype.now.name)) }
{
    match prototype.params {
        None => false,
        Some(count) => match find_definition(
            definitions,
            name_at(definitions.names, prototype.name),
        ) {
            None => false,
            Some(place) => count as usize != count_at(definitions.functions, place),
        },
    }
}

// The name of the first prototype whose parameters differ in number from its definition's.
fn wrong_prototype(definitions: &Definitions, prototypes: &[Prototype]) -> Option<u32>
    ensures { result ≡ spec.wrong_prototype definitions.now.names.now definitions.now.functions.now
        prototypes.now }
{
    for prototype in prototypes {
        if differs(definitions, prototype) {
            return Some(prototype.name);
        }
    }
    None
}

// The first of the two in the text.
fn first_of(second: Option<u32>, wrong: Option<u32>) -> Option<ScopeEnd>
    ensures { result ≡ spec.first_of second wrong }
{
    match (second, wrong) {
        (None, None) => None,
        (Some(token), None) => Some(ScopeEnd::TwiceDeclared { token }),
        (None, Some(token)) => Some(ScopeEnd::WrongCount { token }),
        (Some(twice), Some(wrong)) => {
            if twice < wrong {
                Some(ScopeEnd::TwiceDeclared { token: twice })
            } else {
                Some(ScopeEnd::WrongCount { token: wrong })
            }
        }
    }
}

/// The first fault of the definitions and prototypes.
pub fn definition_fault(definitions: &Definitions, prototypes: &[Prototype]) -> Option<ScopeEnd>
    requires few { length definitions.now.functions.now < 2 ^ 32 }
    ensures { result ≡ spec.definition_fault definitions.now.names.now definitions.now.functions.now
        prototypes.now }
{
    first_of(
        second_definition(definitions),
        wrong_prototype(definitions, prototypes),
    )
}
