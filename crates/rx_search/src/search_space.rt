//! What a search goes over.
use rx_pairs::Listing;
use rx_rank::RankingKind;
use rx_term::RuleSet;

/// Rules that a search goes over, and how they are ranked.
#[derive(Drop)]
pub struct SearchSpace<'a> {
    /// The rules, with their domains, if these have some.
    pub rules: &'a RuleSet,
    /// The pairs of the rules inside their domains.
    pub listed: &'a Listing,
    /// The kind of all rankings of these rules, with and without hypotheses.
    pub kind: RankingKind,
}
