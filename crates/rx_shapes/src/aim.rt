//! What is asked for.

use rx_inference::Side;
use rx_pairs::Loops;
use rx_term::{Equation, RuleSet};

/// An equation is asked for that sides of a goal keep.
#[derive(Clone, Copy)]
pub(crate) struct Aim<'a> {
    /// The rules.
    pub(crate) rules: &'a RuleSet,
    /// Their loops.
    pub(crate) loops: &'a Loops,
    /// The sides, in the order in which they are unfolded.
    pub(crate) plan: &'a [Side],
    /// The goal.
    pub(crate) goal: &'a Equation,
}
