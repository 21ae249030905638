//! Rules and hypotheses that are to be ranked.
ghost use Rattle.std.specs.Prelude.{◌≡◌, length};

use rx_rank::RankingKind;
use rx_term::{Rule, RuleSet};

/// Rules and hypotheses whose pairs are to be lower by ranks, and the kind of ranking.
#[derive(Drop)]
pub(crate) struct RankingProblem<'a> {
    /// The kind of ranking.
    pub(crate) kind: RankingKind,
    /// The rules, with their domains.
    pub(crate) rules: &'a RuleSet,
    /// The hypotheses.
    pub(crate) hypotheses: &'a [Rule],
}

impl RankingProblem<'_> {
    /// How many symbols the rules have.
    pub(crate) fn symbols(&self) -> usize
        ensures { result ≡ length self.now.rules.now.symbols }
    {
        self.rules.symbols().len()
    }
}
