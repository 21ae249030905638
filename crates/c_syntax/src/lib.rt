//! Reading expressions and statements: from the tokens at a place to the tree of the phrase that
//! begins there, and the grammar of expressions, statements, functions, prototypes and programs.
//!
//! Each reader answers the one phrase that the tokens spell from its place on, none of it higher
//! than its room, or nothing. An expression ends where no operator goes on, so that what is read is
//! all that can be read there. A block is read item by item, so that `block_item` can be called for
//! each of them alone.
#![tactic(auto)]

mod changes;
mod declare;
mod delimited;
mod depth;
mod expr;
mod head;
mod read;
mod statement;
mod token;
mod tree;
mod update;

pub use delimited::{expression_until, parenthesized};
pub use depth::too_deep;
pub use expr::expression;
pub use read::{Read, Span};
pub use rx_plain::NoMemory;
pub use statement::{block_item, block_items};
pub use token::{has_keyword, has_mark, has_name, kind_at};
pub use tree::External;
