//! Laws of matching, each a function with an empty body.
ghost use Rattle.std.specs.Prelude.{◌≡◌, ◌∷◌, [], ℕ, true, false, length, List, Some, slice_get};
ghost use Rattle.rx_inference.specs.Kinds.{used};
ghost use Rattle.rx_inference.specs.declared.step.Side.{Side};
ghost use Rattle.rx_match.specs.Equations.{pass, pass_times};
ghost use Rattle.rx_match.specs.Beside.{matching_beside, use_beside};
ghost use Rattle.rx_match.specs.Matching.{is_place, matching, use_of};
ghost use Rattle.rx_match.specs.Settings.{is_set};
ghost use Rattle.rx_match.specs.Variables.{rule_passes};
ghost use Rattle.rx_plain.specs.Formed.{pure};
ghost use Rattle.rx_poly.specs.declared.body.Body.{Body};
ghost use Rattle.rx_row.specs.declared.row.Row.{Row};
ghost use Rattle.rx_solve.specs.Attempts.{fails};
ghost use Rattle.rx_term.specs.declared.rule.Equation.{Equation};
ghost use Rattle.rx_term.specs.declared.rule.Rule.{Rule};
ghost use Rattle.rx_term.specs.declared.rule_set.RuleParts.{RuleParts};
ghost use Rattle.rx_term.specs.declared.term.Term.{Term};

/// At a place whose part hasn't the shape of the hypothesis's left side there is no use, of either
/// kind, and nothing is noted.
pub fn other_places_have_no_use()
    ensures alone { (goal : Equation) (hypothesis : Rule) (side : Side) (place : ℕ) →
        is_place goal hypothesis side place ≡ false → use_of goal hypothesis side place ≡ fails }
    ensures beside { (goal : Equation) (hypothesis : Rule) (side : Side) (place : ℕ) →
        is_place goal hypothesis side place ≡ false → (parts : RuleParts) →
        use_beside parts goal hypothesis side place ≡ fails }
{}

/// Where nothing is unset after the match with the part alone, that of both sides is the same.
pub fn both_sides_are_matched_only_where_something_is_unset()
    ensures { (rules : List Rule) (goal : Equation) (hypothesis : Rule) (side : Side) (place : ℕ)
        (part : Term) → rule_passes (is_set (matching hypothesis part).form) hypothesis ≡ true →
        matching_beside rules goal hypothesis side place part ≡ matching hypothesis part }
{}

/// A pass that changes nothing is the last: more of them change nothing either.
pub fn unchanging_passes_are_the_last()
    ensures { (n : ℕ) (rows : List Row) (ws : List (ℕ × Body)) →
        pass rows ws ≡ pure ws → pass_times n rows ws ≡ pure ws }
{}

/// As many passes as there are rows are enough: where they keep the limits, one more changes
/// nothing.
pub fn as_many_passes_as_rows_are_enough()
    ensures { (rows : List Row) (ws : List (ℕ × Body)) →
        (pass_times (length rows) rows ws).within ≡ true →
        pass rows (pass_times (length rows) rows ws).form ≡
        pure (pass_times (length rows) rows ws).form }
{}

/// The use of a hypothesis is formed alike from each list that it is in.
pub fn a_use_is_one_from_each_list()
    ensures { (hypotheses : List Rule) (hypothesis : Rule) (goal : Equation) (side : Side)
        (place number : ℕ) (ws : List (ℕ × Body)) →
        slice_get hypotheses number ≡ Some hypothesis →
        used hypotheses goal side place number ws ≡ used (hypothesis ∷ []) goal side place 0 ws }
{}
