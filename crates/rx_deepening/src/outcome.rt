//! What visits come to.

use rx_plain::Items;

/// What was noted at a visit.
#[derive(Debug, Drop)]
pub struct Note<R> {
    /// The numbers of the choices on the path to the node.
    pub path: Items<u8>,
    /// What was noted.
    pub noted: R,
}

/// What visits within a budget come to.
#[derive(Debug, Drop)]
pub enum Outcome<N, R> {
    /// The first closed node.
    Closed(N),
    /// No node is closed, and this was noted first.
    Noted(Note<R>),
    /// No node is closed and nothing was noted, and there are more visits than the budget.
    Spent,
    /// No node is closed, nothing was noted, and there are no more visits.
    Through,
}
