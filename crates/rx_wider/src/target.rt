//! What a part of the search is for.
use crate::opening::Setting;
use rx_term::Equation;

/// A goal, and what the search stands on: the goal that a log begins with, or one that a part of the
/// search goes on from.
#[derive(Drop)]
pub(crate) struct Target<'a> {
    /// What the search stands on.
    pub(crate) setting: &'a Setting<'a>,
    /// The goal.
    pub(crate) goal: &'a Equation,
}
