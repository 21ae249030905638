//! What lower pairs mean: laws, each a function with an empty body.
ghost use Rattle.std.specs.Prelude.{◌≡◌, ◌↔◌, ◌++◌, [], ℕ, ℤ, None, Bool, true, All, List, length, map};
ghost use Rattle.rx_graph.specs.Graph.{IsOver};
ghost use Rattle.rx_pairs.specs.Graph.{IsLoopPoint};
ghost use Rattle.rx_pairs.specs.Inside.{bounded, descends_in, descent_in, listing};
ghost use Rattle.rx_pairs.specs.Listed.{pairs_by, pairs_by_all};
ghost use Rattle.rx_pairs.specs.Loops.{is_loop_point, rule_edges};
ghost use Rattle.rx_pairs.specs.Lowering.{Descends};
ghost use Rattle.rx_pairs.specs.Pairs.{AreAllPairs, ArePairs, HasRoot, SidesFit};
ghost use Rattle.rx_pairs.specs.Ranks.{bad_rank, rank_of};
ghost use Rattle.rx_pairs.specs.declared.pair.Pair.{Pair};
ghost use Rattle.rx_pairs.specs.declared.pair_cert.PairCert.{PairCert};
ghost use Rattle.rx_pairs.specs.declared.table.RankTable.{RankTable};
ghost use Rattle.rx_rewriting.specs.Premises.{Lowers};
ghost use Rattle.rx_rewriting.specs.Ranks.{Smaller, weight_of};
ghost use Rattle.rx_rewriting.specs.Steps.{Either};
ghost use Rattle.rx_rewriting.specs.Terms.{Fits, Ground};
ghost use Rattle.rx_term.specs.Fitting.{term_fits};
ghost use Rattle.rx_term.specs.Meaning.{Instance, signature};
ghost use Rattle.rx_term.specs.WellMade.{IsWellMade};
ghost use Rattle.rx_term.specs.declared.rule.Rule.{Rule};
ghost use Rattle.rx_term.specs.declared.rule_set.RuleParts.{RuleParts};

/// A rule whose left side is no bare result has pairs, and no others; so has a list of such rules.
pub fn rules_have_one_list_of_pairs()
    ensures some { (rule : Rule) → HasRoot rule → (pairs : List Pair) × ArePairs rule pairs }
    ensures one { (rule : Rule) (pairs others : List Pair) →
        ArePairs rule pairs → ArePairs rule others → pairs ≡ others }
    ensures all_have { (rules : List Rule) → All HasRoot rules →
        (pairs : List Pair) × AreAllPairs rules pairs }
    ensures all_one { (rules : List Rule) (pairs others : List Pair) →
        AreAllPairs rules pairs → AreAllPairs rules others → pairs ≡ others }
{}

/// The left sides of rules that are well made are no bare results.
pub fn well_made_rules_have_roots()
    ensures { (parts : RuleParts) → IsWellMade parts → All HasRoot parts.rules }
{}

/// The pairs of a rule and of a list of rules are the ones that are computed, and no others.
pub fn pairs_are_listed()
    ensures rule { (rule : Rule) → HasRoot rule → ArePairs rule (pairs_by rule) }
    ensures rules { (rules : List Rule) → All HasRoot rules →
        AreAllPairs rules (pairs_by_all rules) }
    ensures only { (rule : Rule) (pairs : List Pair) → ArePairs rule pairs → pairs ≡ pairs_by rule }
    ensures all_only { (rules : List Rule) (pairs : List Pair) →
        AreAllPairs rules pairs → pairs ≡ pairs_by_all rules }
{}

/// The pairs of a well made set are of its symbols. So the points at which unfolding may go on for
/// ever are exactly the entries and heads from which a path of pairs leads to themselves.
pub fn loop_points_reach_themselves()
    ensures over { (parts : RuleParts) → IsWellMade parts →
        IsOver (length parts.symbols) (rule_edges parts) }
    ensures points { (parts : RuleParts) → IsWellMade parts → (f : ℕ) →
        (is_loop_point parts f ≡ true) ↔ IsLoopPoint parts.symbols (rule_edges parts) f }
{}

/// Where the pairs of rules inside the domains are all listed, these are the pairs of the rules
/// under the domain of their left root. Without domains they are the pairs of the rules, and all
/// are listed.
pub fn pairs_inside_are_pairs_of_bounded_rules()
    ensures listed { (parts : RuleParts) (rules : List Rule) → All HasRoot rules →
        (listing parts rules).whole ≡ true →
        AreAllPairs (map (bounded parts) rules) (listing parts rules).pairs }
    ensures without { (parts : RuleParts) (rules : List Rule) → parts.domains ≡ [] →
        listing parts rules ≡ record { pairs = pairs_by_all rules; whole = true } }
{}

/// Where the table is lawful for the symbols, and all pairs of rules that fit are lower, each
/// instance of a rule has a smaller weight on its right than on its left. So for a well made set
/// and hypotheses that fit, all of whose pairs inside the domains are lower, each step from a
/// fitting term by a rule or hypothesis whose left root meets its domain makes its weight smaller.
pub fn lower_pairs_lower_weights()
    ensures instances { (parts : RuleParts) (rules : List Rule) (table : RankTable) (whole : Bool)
        (pairs : List Pair) (certs : List PairCert) →
        bad_rank parts table ≡ None → AreAllPairs rules pairs →
        descent_in table whole 0 pairs certs ≡ Descends →
        All (SidesFit parts) rules → (s t : Ground) → Instance rules s t →
        Smaller (weight_of (rank_of table) t) (weight_of (rank_of table) s) }
    ensures steps { (parts : RuleParts) (hypotheses : List Rule) (table : RankTable)
        (certs : List PairCert) →
        IsWellMade parts → All HasRoot hypotheses → All (SidesFit parts) hypotheses →
        bad_rank parts table ≡ None →
        descends_in parts (parts.rules ++ hypotheses) table certs ≡ Descends →
        Lowers (weight_of (rank_of table)) (Fits (signature parts))
        (Either (Instance (map (bounded parts) parts.rules))
        (Instance (map (bounded parts) hypotheses))) }
{}
