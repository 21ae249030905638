//! What is known at a step of a log.

use crate::front_lines::Fronts;
use rx_inference::Step;
use rx_pairs::RankTable;
use rx_plain::Items;
use rx_row::Constraint;
use rx_steps::State;

/// What is known at the step with a number, or after the last one where there are no more.
#[derive(Drop)]
pub struct AtStep {
    /// Where the lines before the steps begin.
    pub fronts: Fronts,
    /// The number of the line of that step, or of the line after the last one, counted from 1.
    pub line: usize,
    /// The state after the steps before it.
    pub state: State,
    /// The step itself, if there is one; at most one.
    pub step: Items<Step>,
    /// The ranks of the log.
    pub table: RankTable,
    /// The domains of the log, one for each symbol, where it has any.
    pub domains: Option<Items<Constraint>>,
}
