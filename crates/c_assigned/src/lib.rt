//! Definite assignment: which variables surely have a value where they are read, and whether a
//! function surely returns.
//!
//! What a reader may rely on: `fault_of` answers the fault that the definitions of `specs/` give,
//! the first in the order of the text. C leaves both undefined: the value of a variable that was
//! not assigned (ISO/IEC 9899:1999,
//! 6.7.8p10, 6.2.4p5) and the value of a function whose end is reached (6.9.1p12).
#![tactic(auto)]

mod fault;
mod flow;
mod function;
mod reads;
mod sets;
mod statements;

pub use fault::Fault;
pub use function::fault_of;
pub use rx_plain::NoMemory;
