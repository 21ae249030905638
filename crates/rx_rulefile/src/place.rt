//! Which line of a rule text may come next.
ghost use Rattle.std.specs.Prelude.{◌≡◌};
ghost use Rattle.rx_rulefile.specs.Places as spec;

use crate::rule_line::RuleLine;

/// Where a reader of a rule text is: which lines may come next.
#[derive(Clone, Copy, Debug, PartialEq, Eq)]
pub enum Place {
    /// Before the first line.
    AtHeader,
    /// Before the greatest failure code.
    AtFails,
    /// Among the symbols; that with this number is next, if any.
    InSymbols(u64),
    /// After a rule.
    InRules,
    /// After the equation.
    AtEnd,
    /// After the last line.
    Finished,
}

/// The place after a rule or the equation, which comes after the symbols.
fn after_rules(line: &RuleLine) -> Option<Place>
    ensures { result ≡ spec.after_rules line.now }
{
    match line {
        RuleLine::Rule(_) => Some(Place::InRules),
        RuleLine::Equation(_) => Some(Place::AtEnd),
        _ => None,
    }
}

/// The place after a line that comes where the symbol with the number `next` may come.
fn after_symbols(next: u64, line: &RuleLine) -> Option<Place>
    ensures { result ≡ spec.after_symbols next line.now }
{
    match line {
        RuleLine::Symbol { number, .. } => {
            if *number as u64 == next {
                Some(Place::InSymbols(*number as u64 + 1))
            } else {
                None
            }
        }
        _ => after_rules(line),
    }
}

impl Place {
    /// The place after a line that comes here; None where no such line may come.
    pub fn after(self, line: &RuleLine) -> Option<Place>
        ensures { result ≡ spec.after self line.now }
    {
        match (self, line) {
            (Place::AtHeader, RuleLine::Header) => Some(Place::AtFails),
            (Place::AtFails, RuleLine::Fails(_)) => Some(Place::InSymbols(0)),
            (Place::InSymbols(next), _) => after_symbols(next, line),
            (Place::InRules, _) => after_rules(line),
            (Place::AtEnd, RuleLine::End) => Some(Place::Finished),
            _ => None,
        }
    }
}
