//! What a finished run of proof steps means: laws, each a function with an empty body.
ghost use Rattle.std.specs.Prelude.{◌≡◌, ◌∷◌, [], ℕ, ℤ, true, All, Contains, List, None, Ok};
ghost use Rattle.rx_cover.specs.Covering.{Covers, covering};
ghost use Rattle.rx_cover.specs.declared.cover_tree.CoverTree.{CoverTree};
ghost use Rattle.rx_inference.specs.States.{State, applied};
ghost use Rattle.rx_proofs.specs.Example.{alike, bounded, by_hypothesis, equal, example, g};
ghost use Rattle.rx_proofs.specs.Example.{given_back, hypothesis, knowing, no_columns, table};
ghost use Rattle.rx_proofs.specs.Goals.{AreInside, Fitting, IsBacked, IsFitting, IsGoalInside};
ghost use Rattle.rx_proofs.specs.Goals.{IsGood};
ghost use Rattle.rx_proofs.specs.Runs.{Accepted, IsKept, IsProof, Run, finished, start};
ghost use Rattle.rx_pairs.specs.Inside.{descends_in};
ghost use Rattle.rx_pairs.specs.Lowering.{Descends};
ghost use Rattle.rx_pairs.specs.Pairs.{SidesFit};
ghost use Rattle.rx_pairs.specs.Ranks.{bad_rank, rank_of};
ghost use Rattle.rx_pairs.specs.declared.pair_cert.PairCert.{PairCert};
ghost use Rattle.rx_pairs.specs.declared.table.RankTable.{RankTable};
ghost use Rattle.rx_rewriting.specs.Premises.{ClosedUnder, HaveConvertibleNormalForms};
ghost use Rattle.rx_rewriting.specs.Premises.{EndsInside, Lowers};
ghost use Rattle.rx_rewriting.specs.Ranks.{Weight, weight_of};
ghost use Rattle.rx_rewriting.specs.Terms.{Ground};
ghost use Rattle.rx_row.specs.Holds.{AllHold};
ghost use Rattle.rx_term.specs.Covered.{IsCoveredOver};
ghost use Rattle.rx_term.specs.Domains.{IsInside, are_domains, root_domains};
ghost use Rattle.rx_term.specs.Meaning.{Instance, ground_at};
ghost use Rattle.rx_term.specs.WellMade.{IsWellMade};
ghost use Rattle.rx_term.specs.declared.rule.Equation.{Equation};
ghost use Rattle.rx_term.specs.declared.rule.Rule.{Rule};
ghost use Rattle.rx_term.specs.declared.rule_set.RuleParts.{RuleParts};
ghost use Rattle.rx_term.specs.declared.term.Term.TheVariants.{Call};

/// Over a well made set that is covered inside its domains and keeps them, and whose steps from
/// inside make a weight smaller, every term that is inside reaches a result by its rules (`reach`).
/// So it is where cover trees show that the set is covered, certificates that it keeps the domains,
/// and all pairs of its rules inside them are lower by a lawful rank table (`shown`).
pub fn terms_inside_reach_results()
    ensures reach { (parts : RuleParts) (weight : Ground → Weight) → IsWellMade parts →
        are_domains parts.symbols parts.domains ≡ true →
        IsCoveredOver (root_domains parts) parts →
        ClosedUnder (IsInside parts) (Instance parts.rules) →
        Lowers weight (IsInside parts) (Instance parts.rules) →
        (s : Ground) → IsInside parts s → EndsInside (IsInside parts) (Instance parts.rules) s }
    ensures shown { (parts : RuleParts) (goal : Equation) (trees : List (List CoverTree))
        (table : RankTable) (certs : List PairCert) →
        IsWellMade parts → are_domains parts.symbols parts.domains ≡ true →
        IsKept parts goal → covering parts trees ≡ Covers → bad_rank parts table ≡ None →
        descends_in parts parts.rules table certs ≡ Descends →
        (s : Ground) → IsInside parts s → EndsInside (IsInside parts) (Instance parts.rules) s }
{}

/// From a goal whose sides fit the symbols of a well made set, runs come to goals whose sides fit,
/// and keep hypotheses whose sides do.
pub fn runs_keep_fitting()
    ensures goals { (parts : RuleParts) (goal : Equation) (end : State) → IsWellMade parts →
        IsFitting parts goal → Run parts end (start goal) → All (IsFitting parts) end.goals }
    ensures hypotheses { (parts : RuleParts) (goal : Equation) (end : State) → IsWellMade parts →
        IsFitting parts goal → Run parts end (start goal) →
        All (SidesFit parts) end.hypotheses }
{}

/// In an accepted run both sides of the first goal join by rules and hypotheses together, at each
/// assignment that meets its rows; so do those of every goal that is made on the way (`made`). From
/// the left side of each hypothesis that was kept a rule steps to a term that joins with its right
/// side so.
pub fn accepted_runs_join()
    ensures goal { (parts : RuleParts) (goal : Equation) (hypotheses : List Rule)
        (weight : Ground → Weight) →
        Accepted parts goal hypotheses weight → IsGood parts hypotheses goal }
    ensures made { (parts : RuleParts) (goal : Equation) (hypotheses : List Rule)
        (weight : Ground → Weight) →
        Accepted parts goal hypotheses weight → (state : State) → Run parts state (start goal) →
        Run parts (finished hypotheses) state → All (IsGood parts hypotheses) state.goals }
    ensures backed { (parts : RuleParts) (goal : Equation) (hypotheses : List Rule)
        (weight : Ground → Weight) →
        Accepted parts goal hypotheses weight → (h : Rule) → Contains hypotheses h →
        IsBacked parts hypotheses h }
{}

/// From a goal inside the domains of a well made set that keeps them, runs come to goals that are
/// inside, and keep hypotheses both of whose sides are inside where their rows hold.
pub fn runs_stay_inside()
    ensures goals { (parts : RuleParts) (goal : Equation) (end : State) → IsWellMade parts →
        are_domains parts.symbols parts.domains ≡ true →
        ClosedUnder (IsInside parts) (Instance parts.rules) → IsFitting parts goal →
        IsGoalInside parts goal → Run parts end (start goal) →
        All (IsGoalInside parts) end.goals }
    ensures hypotheses { (parts : RuleParts) (goal : Equation) (end : State) → IsWellMade parts →
        are_domains parts.symbols parts.domains ≡ true →
        ClosedUnder (IsInside parts) (Instance parts.rules) → IsFitting parts goal →
        IsGoalInside parts goal → Run parts end (start goal) →
        All (λ h. AreInside parts h.rows h.left h.right) end.hypotheses }
{}

/// At each assignment that meets the rows of the first goal of an accepted run, both its sides
/// reach results inside the domains, and these are convertible by the rules alone.
pub fn accepted_runs_end_alike()
    ensures { (parts : RuleParts) (goal : Equation) (hypotheses : List Rule)
        (weight : Ground → Weight) →
        Accepted parts goal hypotheses weight → (a : ℕ → ℤ) → AllHold a goal.rows →
        HaveConvertibleNormalForms (IsInside parts) (Instance parts.rules)
        (ground_at a goal.left) (ground_at a goal.right) }
{}

/// What trees, certificates, a run and a rank table show is accepted, by the weights of that table.
/// So both sides of the goal reach results that are convertible by the rules alone.
pub fn proofs_are_accepted()
    ensures accepted { (parts : RuleParts) (goal : Equation) (hypotheses : List Rule)
        (table : RankTable) →
        IsProof parts goal hypotheses table →
        Accepted parts goal hypotheses (weight_of (rank_of table)) }
    ensures alike { (parts : RuleParts) (goal : Equation) (hypotheses : List Rule)
        (table : RankTable) →
        IsProof parts goal hypotheses table → (a : ℕ → ℤ) → AllHold a goal.rows →
        HaveConvertibleNormalForms (Fitting parts) (Instance parts.rules)
        (ground_at a goal.left) (ground_at a goal.right) }
{}

/// The premises can be met, by a proof that keeps a hypothesis (`proof`), and by one inside a
/// domain outside of which its rule doesn't apply (`inside`); a step that uses the hypothesis
/// applies to a state where it is known (`used`).
pub fn the_premises_can_be_met()
    ensures proof { IsProof example alike (hypothesis ∷ []) table }
    ensures inside { IsProof bounded given_back [] no_columns }
    ensures used { applied example (knowing alike) by_hypothesis ≡
        Ok (knowing (equal (Call g []) (Call g []))) }
{}
