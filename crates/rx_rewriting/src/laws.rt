//! Systems of rules and hypotheses: inside terms reach results, hypotheses convert no more than
//! the rules, and results are unique.

ghost use Rattle.std.specs.Prelude.{◌≡◌, ℕ, pos, ◌-◌, ◌≤◌};
ghost use Rattle.rx_rewriting.specs.Example.{Hypothesis, IsInside, PremisesHold, Rules, copy, down, negative_call, rank, symbols};
ghost use Rattle.rx_rewriting.specs.Terms.{Fits, Ground, Relation, TermSet, IsResult};
ghost use Rattle.rx_rewriting.specs.Steps.{Reaches, ReachesIn, Convertible, Joinable, Either};
ghost use Rattle.rx_rewriting.specs.Steps.{IsSingleValued};
ghost use Rattle.rx_rewriting.specs.Ranks.{Weight, weight_of};
ghost use Rattle.rx_rewriting.specs.Premises.{Lowers, ClosedUnder, Reducible, IsReplaceable, ResultsAreNormal};
ghost use Rattle.rx_rewriting.specs.Premises.{EndsInside, HaveConvertibleNormalForms};

/// Rules and hypotheses, as relations between terms with no frames over them, a weight of each
/// term, and the terms that are inside.
pub trait System {
    ghost rule: { Relation };

    ghost hypothesis: { Relation };

    ghost weight: { Ground → Weight };

    ghost inside: { TermSet };
}

/// Where rule steps from inside terms give smaller weights and stay inside, and each inside term
/// that is no result has one, every inside term reaches a result.
pub fn inside_terms_reach_results<S: System>()
    requires lowers { Lowers S.weight S.inside S.rule }
    requires stays { ClosedUnder S.inside S.rule }
    requires moves { Reducible S.inside S.rule }
    ensures { (s : Ground) → S.inside s → EndsInside S.inside S.rule s }
{}

/// Let steps by rules or hypotheses from inside terms give smaller weights and stay inside, and
/// let each hypothesis step from an inside term be replaceable by a rule step and a join. Then
/// what is reached from an inside term by rules and hypotheses is convertible with it by the rules
/// alone, and so are two inside terms that join. Where all terms are inside, what is convertible
/// by rules and hypotheses is so by the rules.
pub fn reached_terms_are_convertible<S: System>()
    requires lowers { Lowers S.weight S.inside (Either S.rule S.hypothesis) }
    requires stays { ClosedUnder S.inside (Either S.rule S.hypothesis) }
    requires replaceable { IsReplaceable S.inside S.rule S.hypothesis }
    ensures reached { (s t : Ground) → S.inside s →
        Reaches (Either S.rule S.hypothesis) s t → Convertible S.rule s t }
    ensures joined { (s t : Ground) → S.inside s → S.inside t →
        Joinable (Either S.rule S.hypothesis) s t → Convertible S.rule s t }
    ensures everywhere { ((u : Ground) → S.inside u) → (s t : Ground) →
        Convertible (Either S.rule S.hypothesis) s t → Convertible S.rule s t }
{}

/// Under the same premises, and where each inside term that is no result has a rule step, two
/// inside terms that join reach results that are convertible by the rules.
pub fn joined_terms_reach_convertible_results<S: System>()
    requires lowers { Lowers S.weight S.inside (Either S.rule S.hypothesis) }
    requires stays { ClosedUnder S.inside (Either S.rule S.hypothesis) }
    requires replaceable { IsReplaceable S.inside S.rule S.hypothesis }
    requires moves { Reducible S.inside S.rule }
    ensures { (s t : Ground) → S.inside s → S.inside t →
        Joinable (Either S.rule S.hypothesis) s t → HaveConvertibleNormalForms S.inside S.rule s t }
{}

/// Where the rules are single-valued and no step starts at a result: convertible results are
/// equal; a term that is convertible to a result reaches it; and what is reached in `i` steps from
/// a term that reaches a result in `m` steps reaches that result in the `m - i` steps that are
/// left.
pub fn single_valued_rules_give_one_result<S: System>()
    requires single { IsSingleValued S.rule }
    requires rest { ResultsAreNormal S.rule }
    ensures equal { (s t : Ground) → IsResult s → IsResult t → Convertible S.rule s t → s ≡ t }
    ensures found { (s t : Ground) → IsResult t → Convertible S.rule s t → Reaches S.rule s t }
    ensures left { (s t u : Ground) (m i : ℕ) → IsResult t → ReachesIn S.rule m s t →
        ReachesIn S.rule i s u → (i ≤ m) × ReachesIn S.rule (m - i) u t }
{}

/// Where steps by the rules from inside terms give smaller weights, and steps by the hypotheses do,
/// steps by either do. Where both stay inside, so do steps by either.
pub fn unions_keep_what_both_have<S: System>()
    ensures lowers { Lowers S.weight S.inside S.rule → Lowers S.weight S.inside S.hypothesis →
        Lowers S.weight S.inside (Either S.rule S.hypothesis) }
    ensures stays { ClosedUnder S.inside S.rule → ClosedUnder S.inside S.hypothesis →
        ClosedUnder S.inside (Either S.rule S.hypothesis) }
{}

/// All these premises can be met at once: by the rules and the hypothesis of the example, inside a
/// set of fitting terms that leaves some out (`outside`). There the laws say what no rule says.
pub fn the_premises_can_be_met()
    ensures premises { PremisesHold (weight_of rank) IsInside Rules Hypothesis }
    ensures outside { Fits symbols negative_call × (IsInside negative_call → ⊥) }
    ensures results { (x : ℕ) → (k : Ground) × Reaches Rules (copy (pos x)) k ×
        Reaches Rules (down (pos x)) k × IsResult k }
{}
