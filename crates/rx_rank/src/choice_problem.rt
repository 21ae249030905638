//! What the choices of a component are made of.
use rx_poly::Poly;
use rx_term::SymInfo;

/// A component's symbols, with the candidates of its anchors.
#[derive(Drop)]
pub(crate) struct ChoiceProblem<'a> {
    /// All symbols.
    pub(crate) infos: &'a [SymInfo],
    /// The component's anchors.
    pub(crate) anchors: &'a [u32],
    /// For each anchor its candidates.
    pub(crate) lists: &'a [Vec<Poly>],
    /// The other symbols, in the order in which they get their polynomials.
    pub(crate) order: &'a [u32],
    /// Those that may be raised.
    pub(crate) raisable: &'a [u32],
}
