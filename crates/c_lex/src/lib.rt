//! The tokens of a C source text.
//!
//! `tokens` gives the list of tokens that `specs/Tokens.antt` defines for the bytes of the text, or the first fault with its offset. Each
//! token is a slice of the text that spells the token's kind; the slices rise and don't overlap. No
//! text is copied.
#![tactic(auto)]

mod bytes;
mod error;
mod keywords;
mod lexer;
mod marks;
mod piece;
mod scan;
mod token;

pub use error::LexEnd;
pub use lexer::tokens;
pub use rx_plain::NoMemory;
pub use token::{Keyword, Mark, Token, TokenKind};
