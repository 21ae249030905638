//! Integer polynomials over variables and truncating quotients and remainders, in one normal form.
#![tactic(auto)]

mod body;
mod digest;
mod division;
mod equality;
mod lists;
mod merge;
mod moved;
mod multiple;
mod normal_test;
mod poly;
mod poly_end;
mod product;
mod reading;
mod sign;
mod size;
mod substitution;
mod variables;

pub use body::{Atom, Body, Mono};
pub use digest::digest_with;
pub use lists::{are_same_polys, copied_polys};
pub use poly::Poly;
pub use poly_end::PolyEnd;
pub use rx_plain::NoMemory;
pub use variables::{uses_below, variable_bound};
