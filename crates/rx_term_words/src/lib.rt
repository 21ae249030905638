//! Terms, equations and cover trees as words of a line: written, and read back from bytes at a
//! place. Terms are walked in loops, so one may have as many frames as memory holds. Trees are
//! walked by recursion: what is read is at most 200 deep, and who writes one bounds its depth.
#![tactic(auto)]

mod arguments;
mod equations;
mod laws;
mod layers;
mod term_writing;
mod terms;
mod tree_laws;
mod tree_writing;
mod trees;

pub use equations::read_equation;
pub use laws::{equations_have_one_reading, terms_have_one_reading};
pub use rx_plain::NoMemory;
pub use term_writing::{push_equation, push_term};
pub use terms::read_term;
pub use tree_laws::trees_have_one_reading;
pub use tree_writing::push_tree;
pub use trees::read_tree;
