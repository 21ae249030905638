//! What lower pairs inside the domains mean: a law, a function with an empty body.
ghost use Rattle.std.specs.Prelude.{◌≡◌, ◌++◌, None, true, All, List};
ghost use Rattle.rx_pairs.specs.Inside.{descends_in};
ghost use Rattle.rx_pairs.specs.Lowering.{Descends};
ghost use Rattle.rx_pairs.specs.Pairs.{HasRoot, SidesFit};
ghost use Rattle.rx_pairs.specs.Ranks.{bad_rank, rank_of};
ghost use Rattle.rx_pairs.specs.declared.pair_cert.PairCert.{PairCert};
ghost use Rattle.rx_pairs.specs.declared.table.RankTable.{RankTable};
ghost use Rattle.rx_rewriting.specs.Premises.{Lowers};
ghost use Rattle.rx_rewriting.specs.Ranks.{weight_of};
ghost use Rattle.rx_rewriting.specs.Steps.{Either};
ghost use Rattle.rx_term.specs.Domains.{IsInside, are_domains};
ghost use Rattle.rx_term.specs.Meaning.{Instance};
ghost use Rattle.rx_term.specs.WellMade.{IsWellMade};
ghost use Rattle.rx_term.specs.declared.rule.Rule.{Rule};
ghost use Rattle.rx_term.specs.declared.rule_set.RuleParts.{RuleParts};

/// Where all pairs of a well made set, and of hypotheses that fit, are lower inside the domains by a
/// lawful table, each step by both from a term inside makes its weight smaller.
pub fn steps_inside_lower_weights()
    ensures { (parts : RuleParts) (hypotheses : List Rule) (table : RankTable)
        (certs : List PairCert) →
        IsWellMade parts → are_domains parts.symbols parts.domains ≡ true →
        All HasRoot hypotheses → All (SidesFit parts) hypotheses → bad_rank parts table ≡ None →
        descends_in parts (parts.rules ++ hypotheses) table certs ≡ Descends →
        Lowers (weight_of (rank_of table)) (IsInside parts)
        (Either (Instance parts.rules) (Instance hypotheses)) }
{}
