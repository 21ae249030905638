//! A component of the graph of open pairs.
use crate::kind::RankingKind;
use rx_pairs::Pair;
use rx_term::{Rule, RuleParts};

/// A component of the graph of open pairs, with what its candidates come from.
#[derive(Drop)]
pub(crate) struct OpenComponent<'a> {
    /// How ranks are looked for.
    pub(crate) kind: RankingKind,
    /// The rules with the domains.
    pub(crate) parts: &'a RuleParts,
    /// The hypotheses.
    pub(crate) hypotheses: &'a [Rule],
    /// By symbol the name of its component.
    pub(crate) names: &'a [u32],
    /// The name of this one.
    pub(crate) name: u32,
    /// Its pairs.
    pub(crate) pairs: &'a [&'a Pair],
}
