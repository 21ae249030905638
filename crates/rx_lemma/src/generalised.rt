//! An equation of which a goal is an instance.

use crate::LemmaKind;
use rx_plain::Items;
use rx_poly::Poly;
use rx_term::Equation;

/// An equation of which a goal is an instance, and what makes it into the goal. The certificates of
/// its step are not among this.
#[derive(Drop)]
pub struct Generalised {
    /// How it is made of the goal.
    pub kind: LemmaKind,
    /// The equation.
    pub goal: Equation,
    /// What makes it into the goal, rising by the numbers of the variables.
    pub subst: Items<(u32, Poly)>,
}
