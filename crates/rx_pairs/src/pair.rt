//! Pairs of symbols with their arguments.
use rx_plain::Items;
use rx_poly::Poly;
use rx_row::Constraint;
use rx_term::Sym;

/// The root of a rule's left side against one frame, or the call, of its right side.
#[derive(Debug, Drop)]
pub struct Pair {
    /// The rows of the rule, and behind them those of its left root's domain where it is made
    /// inside the domains.
    pub phi: Constraint,
    /// The symbol on the left.
    pub left: Sym,
    /// Its arguments.
    pub left_args: Items<Poly>,
    /// The symbol on the right.
    pub right: Sym,
    /// Its arguments.
    pub right_args: Items<Poly>,
}
