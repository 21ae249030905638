//! Polynomials with numbers, and proof states packed by the numbers of their polynomials.
#![tactic(auto)]

mod bank;
mod laws;
mod packed;
mod packing;
mod parts;
mod states;
mod unpacking;

pub use bank::Bank;
pub use laws::packed_states_stand_where_numbers_are_kept;
pub use packed::Packed;
pub use parts::{PackedBase, PackedCall, PackedEquation, PackedRow, PackedTerm};
pub use rx_plain::NoMemory;
