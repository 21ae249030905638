//! The flat code of a resolved program, which a machine goes through without recursion.
//!
//! What a reader may rely on: each op says at which position the run goes on, lower than its own
//! but for a call and the turns of a loop, which take a round; so what a position comes to is a
//! recursion on positions, given what calls lead to (`specs/Flat`, over what a run keeps,
//! `specs/Stores`). `compile` makes the code of all functions and of one expression: from where
//! each begins, the code comes to what the counted run leads to.
#![tactic(auto)]

mod code;
mod compiling;
mod expressions;
mod scopes;
mod statements;

pub use code::{Code, Destination, Exits, Inner, Leaf, Op, Operand, Work};
pub use compiling::compile;
pub use rx_plain::NoMemory;
