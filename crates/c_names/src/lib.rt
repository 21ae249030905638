//! Names of a text: which tokens spell one name, and the slots of the variables in scope.
//!
//! What a reader may rely on: `names_of` gives each token a number, and two tokens have one number
//! exactly where the same bytes spell them. So what is done with names after it looks at no byte.
//! `slot_of` finds a variable among those in scope, the innermost first (ISO/IEC 9899:1999, 6.2.1).
//!
//! Names are looked up in scopes and outside: `resolve_expr` answers an expression with each
//! variable as its slot and each call as a place in the list of functions, or its first fault
//! (`specs/Expressions`, over the scopes of `specs/LookupSlots`; ISO/IEC 9899:1999, 6.2.1, 6.7p3).
//! `resolve_pre` does the same for a precondition over the parameters of one function, and refuses
//! nothing but an unknown name (`specs/Preconditions`). `find_function` finds the first definition
//! of a name (`specs/Places`).
#![tactic(auto)]

mod definitions;
mod error;
mod expressions;
mod find;
mod lookup_slots;
mod names;
mod preconditions;
mod slots;
mod spelling;

pub use definitions::{Definitions, find_definition, places_of};
pub use error::ScopeEnd;
pub use expressions::{count_at, resolve_expr, slot_at};
pub use find::find_function;
pub use lookup_slots::Scope;
pub use names::{name_at, names_of, names_tell_spellings};
pub use preconditions::resolve_pre;
pub use rx_plain::NoMemory;
pub use slots::slot_of;
pub use spelling::{find_spelling, spelling_at};
