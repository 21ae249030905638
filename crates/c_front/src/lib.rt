//! The front end of every command: from the bytes of a text, two names and a precondition to two
//! functions of the text's program, with all names resolved, or to the first cause of a refusal.
//!
//! What a reader may rely on: each answer comes exactly where `specs/Front` says, out of memory
//! apart, and a text, two names and a precondition have at most one answer
//! (`a_text_has_one_answer`).
#![tactic(auto)]

mod conditions;
mod front_end;
mod laws;
mod literals;
mod pairs;
mod refusals;
mod stages;
mod texts;

pub use front_end::compared_functions;
pub use laws::a_text_has_one_answer;
pub use literals::wide_literal;
pub use pairs::{Compared, TwoFunctions};
pub use refusals::Refusal;
pub use rx_plain::NoMemory;
pub use stages::Next;
pub use texts::{NamedText, PreText, ProgramText, ResolvedText};
