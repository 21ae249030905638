//! What is offered at the occurrences of symbols.

use rx_row::Constraint;
use rx_term::Sym;

/// Rows that are offered to the group of a symbol at each occurrence of it.
#[derive(Drop)]
pub(crate) enum Offering {
    /// That an argument is at least a number, and at most that number, where it is one.
    Numbers,
    /// That an argument is a polynomial of others.
    Equations,
    /// The rows of another symbol, said of the arguments.
    Handed(Sym, Constraint),
}
