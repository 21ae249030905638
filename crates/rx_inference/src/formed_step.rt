//! What a step makes of the first goal.

use rx_plain::Items;
use rx_row::Row;
use rx_term::{Equation, Rule};

/// Which rows are given where others are asked.
#[derive(Clone, Copy, Debug, PartialEq, Eq)]
pub enum Under {
    /// The rows of the first goal.
    Goal,
    /// The rows of the first of the new goals.
    New,
}

/// Rows that are to follow from the same given rows.
#[derive(Drop)]
pub struct Group {
    /// From which they are to follow.
    pub under: Under,
    /// The rows in order.
    pub rows: Items<Row>,
}

/// What a step asks.
#[derive(Drop)]
pub enum Asked {
    /// That no integers meet the rows of the first goal.
    Refuted,
    /// That the rows of each group follow.
    Rows(Items<Group>),
}

/// A step that is formed.
#[derive(Drop)]
pub struct FormedStep {
    /// What is to be shown.
    pub asked: Asked,
    /// The goals in place of the first one, in order.
    pub goals: Items<Equation>,
    /// The hypotheses that it adds: one, or none.
    pub kept: Items<Rule>,
}
