//! What the polynomials at the places of goals have in common: polynomials in these places that are
//! 0 at each of the goals, found by linear algebra over exact integers.
//!
//! What a reader may rely on: each answer is exactly that of its definition in `specs/`, and None
//! exactly where something that is formed on the way passes the limits of a polynomial. A goal
//! comes as its rows and the list of the polynomials at its places; nothing here knows of terms.
#![tactic(auto)]

mod all_relations;
mod applying;
mod cancelling;
mod combination;
mod common;
mod content;
mod divisions;
mod instance;
mod linear;
mod products;
mod reduction;

pub use all_relations::relations;
pub use common::vanishing;
pub use divisions::{Division, divisions_of};
pub use instance::{Instance, values};
pub use rx_plain::NoMemory;
