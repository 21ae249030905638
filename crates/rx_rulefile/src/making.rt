//! Which rule isn't well made.
ghost use Rattle.std.specs.Prelude.{◌≡◌};
ghost use Rattle.rx_rulefile.specs.RuleTexts as spec;

use rx_term::{Equation, RuleParts};

/// The first rule that isn't well made.
fn unmade_rule(parts: &RuleParts) -> Option<usize>
    ensures { result ≡ spec.unmade_rule parts.now }
{
    parts
        .rules
        .as_slice()
        .iter()
        .position(|rule| !parts.is_made(rule))
}

/// The number of rules, where the equation doesn't fit the symbols.
fn unfitting_goal(parts: &RuleParts, goal: &Equation) -> Option<usize>
    ensures { result ≡ spec.unfitting_goal parts.now goal.now }
{
    if parts.fits(&goal.left) && parts.fits(&goal.right) {
        None
    } else {
        Some(parts.rules.len())
    }
}

/// The first rule that isn't well made; the number of rules where all are, and the equation doesn't
/// fit the symbols.
pub(crate) fn first_unmade(parts: &RuleParts, goal: &Equation) -> Option<usize>
    ensures { result ≡ spec.first_unmade parts.now goal.now }
{
    match unmade_rule(parts) {
        Some(rule) => Some(rule),
        None => unfitting_goal(parts, goal),
    }
}
