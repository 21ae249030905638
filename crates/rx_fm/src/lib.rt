//! Elimination of monomials (Fourier and Motzkin) from polynomials that are each to be at least 0.
//!
//! What a reader may rely on: the answer is exactly that of the elimination as `specs/` defines it,
//! over exact integers; multipliers that are answered show a contradiction, and where the answer is
//! None there are no such multipliers. Monomials are unknowns here, whatever is in them.
#![tactic(auto)]

mod combination;
mod contents;
mod elimination;
mod fm_end;
mod monomials;
mod numbers;
mod stage;

pub use contents::content;
pub use elimination::farkas;
pub use fm_end::FmEnd;
pub use numbers::{gcd_with, size};
