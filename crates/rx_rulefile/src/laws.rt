//! That a rule text has one reading, which lines are in order, and what is well made.
ghost use Rattle.std.specs.Prelude.{◌≡◌, ℕ, true, None, List};
ghost use Rattle.rx_lines.specs.Orders.{IsFirstBad, LeadsTo};
ghost use Rattle.rx_lines.specs.Texts.{ended};
ghost use Rattle.rx_term.specs.Fitting.{term_fits};
ghost use Rattle.rx_term.specs.WellMade.{IsWellMade};
ghost use Rattle.rx_term.specs.declared.rule.Equation.{Equation};
ghost use Rattle.rx_term.specs.declared.rule_set.RuleParts.{RuleParts};
ghost use Rattle.rx_rulefile.specs.Places.{rule_order};
ghost use Rattle.rx_rulefile.specs.RuleTexts.{IsRuleText, first_unmade};
ghost use Rattle.rx_rulefile.specs.declared.place.Place.TheVariants as place;

/// A rule set with an equation has one text at most; a text is that of one rule set with one
/// equation at most, or it has one first bad line at most, and never both: what is read of a text is
/// settled by the text alone. It does nothing: its contract is the law.
pub fn a_text_has_one_reading()
    ensures one_text { (s t : List ℕ) (parts : RuleParts) (goal : Equation) →
        IsRuleText s parts goal → IsRuleText t parts goal → s ≡ t }
    ensures one { (text : List ℕ) (p q : RuleParts) (g h : Equation) → IsRuleText text p g →
        IsRuleText text q h → (p ≡ q) × (g ≡ h) }
    ensures never_both { (text : List ℕ) (parts : RuleParts) (goal : Equation) (number : ℕ) →
        IsRuleText text parts goal → ¬ (IsFirstBad rule_order text number) }
    ensures one_bad_line { (text : List ℕ) (m n : ℕ) → IsFirstBad rule_order text m →
        IsFirstBad rule_order text n → m ≡ n }
{}

/// The order of lines is that of rule texts: the lines of each lead to its end, and lines that lead
/// to its end are those of a rule set and an equation. It does nothing: its contract is the law.
pub fn the_lines_of_rule_texts_are_in_order()
    ensures in_order { (text : List ℕ) (parts : RuleParts) (goal : Equation) →
        IsRuleText text parts goal →
        (texts : List (List ℕ)) × ((text ≡ ended texts) × LeadsTo rule_order texts place.Finished) }
    ensures whole { (texts : List (List ℕ)) → LeadsTo rule_order texts place.Finished →
        (parts : RuleParts) × ((goal : Equation) × IsRuleText (ended texts) parts goal) }
{}

/// Where no rule is the first that isn't well made, and the equation isn't either, the rule set is
/// well made and both sides of the equation fit its symbols. It does nothing: its contract is the
/// law.
pub fn what_is_not_unmade_is_well_made()
    ensures { (parts : RuleParts) (goal : Equation) → first_unmade parts goal ≡ None →
        IsWellMade parts ×
        ((term_fits parts goal.left ≡ true) × (term_fits parts goal.right ≡ true)) }
{}
