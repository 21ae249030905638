//! Where statements begin, and where they lead.
use rx_code::Point;

/// Where a statement begins, and where it leads.
#[derive(Clone, Copy, Debug, PartialEq, Eq)]
pub struct Places {
    /// Where it begins.
    pub at: Point,
    /// What comes after it.
    pub to: Point,
    /// Where a `break` leads.
    pub break_to: Point,
    /// Where a `continue` leads.
    pub continue_to: Point,
}
