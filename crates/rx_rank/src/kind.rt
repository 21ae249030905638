//! The two rankings.

/// How ranks are looked for.
#[derive(Clone, Copy, Debug, PartialEq, Eq)]
pub enum RankingKind {
    /// An anchor of a component gets the polynomials of rows of rules.
    Plain,
    /// Behind these an anchor gets those of the inequalities of its own domain; and where no choice
    /// is fit, another symbol of the component is an anchor in place of one of them.
    Wider,
}
