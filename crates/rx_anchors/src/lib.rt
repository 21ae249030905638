//! The symbols of a component of a graph of symbols, its anchors, and choices of one of several
//! polynomials for each anchor.
//!
//! What a reader may rely on: what each call answers is exactly what its definition in `specs/`
//! comes to, of symbols (`Members`), polynomials by symbol (`Values`) and choices (`Choices`).
#![tactic(auto)]

mod choices;
mod members;
mod values;

pub use choices::choice_at;
pub use members::{
    Members, arities_of, arity_of, is_anchor, is_member, is_rule_of, members_of, symbols_in,
};
pub use rx_plain::NoMemory;
pub use values::{choice_values, polynomial_of, put_polynomial, without_polynomials};
