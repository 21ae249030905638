//! From tokens to trees: the parser of the C subset.
//!
//! `parse` answers a program exactly where the tokens spell that program within the limits, and
//! each refusal exactly where it has its cause. `parse_pre` does the same for a precondition.
//!
//! Where tokens spell none, the place is found where they stop being the beginning of a program, or
//! of an expression: a recogniser goes over the tokens with a stack of what is still expected. It
//! builds no tree, so that no text is too high for it.
#![tactic(auto)]

mod error;
mod expression;
mod external;
mod fault;
mod laws;
mod place_external;
mod precondition;
mod program;
mod read;
mod recogniser;
mod statement;
mod symbol;
mod terminal;

pub use error::ParseEnd;
pub use laws::tokens_have_one_place;
pub use precondition::{one_expression, one_pre_answer, parse_pre};
pub use program::{one_answer, one_program, parse};
pub use recogniser::{expression_fault, program_fault};
pub use rx_plain::NoMemory;
