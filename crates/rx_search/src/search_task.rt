//! What a search is for.
use rx_term::Equation;

/// A goal that is to be proved, and how far its proof is searched for.
#[derive(Drop)]
pub struct SearchTask<'a> {
    /// The goal.
    pub goal: &'a Equation,
    /// How many choices a path has at most.
    pub depth: u32,
    /// How many nodes are visited at most.
    pub budget: u32,
    /// How many nodes are kept from one list of visits to the next, at most.
    pub most_kept: usize,
}
