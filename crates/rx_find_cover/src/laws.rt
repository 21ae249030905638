//! Laws of coverable rule sets.
ghost use Rattle.std.specs.Prelude.{◌≡◌, ◌∷◌, [], true, false, Some, None};
ghost use Rattle.rx_find_cover.specs.Coverable.{first_open, is_coverable};
ghost use Rattle.rx_find_cover.specs.Example.{bare};
ghost use Rattle.rx_poly.specs.Constants.{variable};
ghost use Rattle.rx_row.specs.declared.row.Row.TheVariants.{Eq};
ghost use Rattle.rx_term.specs.Example.{ends, example, goes_on};
ghost use Rattle.rx_term.specs.Paired.{IsPaired};
ghost use Rattle.rx_term.specs.declared.rule_set.RuleParts.{RuleParts};

/// A set without domains that has, for each shape of a redex, one rule without rows, or two with one
/// row each, the one the negation of the other, is coverable.
pub fn paired_sets_are_coverable()
    ensures { (parts : RuleParts) → IsPaired parts → parts.domains ≡ [] →
        is_coverable parts ≡ true }
{}

/// Worked cases: rx_term's example is coverable, and its point is split by the first rule's row,
/// and there by no other. A point without rules isn't.
pub fn some_sets_are_coverable()
    ensures coverable { is_coverable example ≡ true }
    ensures uncovered { is_coverable bare ≡ false }
    ensures split { first_open [] (ends ∷ goes_on ∷ []) ≡ Some (Eq (variable 0)) }
    ensures no_split { first_open (Eq (variable 0) ∷ []) (ends ∷ goes_on ∷ []) ≡ None }
{}
