//! Names, slots and definite assignment: from a program as it was read to one whose variables are
//! slots and whose calls name a place in the list of functions, or to its first fault.
//!
//! What a reader may rely on: `resolve` answers what the definitions of `specs/` give, in the tree
//! and in the fault, except when out of memory. There are three passes, over definitions and
//! prototypes, over names, counts and scopes, and over what is definitely assigned; the first that
//! finds a fault decides, and within it the order of the text (ISO/IEC 9899:1999, 6.2.1, 6.7p3,
//! 6.8, 6.9p3). What names stand for in an expression is in c_names.
//!
//! What a resolved program is like is said by laws of these definitions and those of c_names, for
//! the crates that go on from a program whose names are resolved.
//!
//! What a reader may rely on of these: each such function has an empty body, and its contract is a
//! law. The slots and the calls of a resolved program are in order, by the test `is_scoped` of
//! c_ast; a resolved precondition keeps its form and has no variables but parameters; places that
//! were found are those of functions.
//!
//! The lemmas of `proofs/` are for the crates above. `Statements` joins the two walks over a
//! function, that of names and scopes (c_scope) and that of definite assignment (c_assigned): after
//! each statement both have the same names in scope.
#![tactic(auto)]

mod assigned;
mod functions;
pub mod laws;
mod program;
mod prototypes;
mod statements;

pub use c_names::ScopeEnd;
pub use laws::{
    places_are_those_of_functions, resolved_preconditions_keep_the_row_form,
    resolved_preconditions_use_parameters_alone, resolved_programs_are_scoped,
};
pub use program::resolve;
pub use rx_plain::NoMemory;
