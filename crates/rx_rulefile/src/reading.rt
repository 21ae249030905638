//! Rule texts, read.
ghost use Rattle.std.specs.Prelude.{◌≡◌, ◌↔◌, [], IsTrue};
ghost use Rattle.rx_rulefile.specs.Reading.{ReadsParts, ReadsRules};

use crate::gathered::Gathered;
use crate::line_reading::read_next;
use crate::making::first_unmade;
use crate::place::Place;
use crate::rule_end::RuleEnd;
use rx_lines::split_line;
use rx_term::{Equation, RuleParts, RuleSet};
use std::alloc::Global;

/// Whether lines that lead to the place are a whole text, where these bytes are left after them.
fn is_whole(place: Place, left: &[u8]) -> bool
    ensures { IsTrue result ↔ ((place ≡ Place.Finished) × (left.now ≡ [])) }
{
    match place {
        Place::Finished => left.is_empty(),
        _ => false,
    }
}

/// The parts of the rule set, which may not be well made, and the equation whose text this is;
/// BadLine with the number of the first line with which no rule text begins, counted from 1. Fails
/// else only when out of memory.
pub fn read_parts(alloc: Global, text: &[u8]) -> Result<(RuleParts, Equation), RuleEnd>
    ensures { ReadsParts text.now result }
{
    let mut gathered = Gathered::new(alloc);
    let mut place = Place::AtHeader;
    let mut taken: usize = 0;
    let mut left = text;
    while let Some((bytes, rest)) = split_line(left) {
        let Some((line, next)) = read_next(alloc, place, bytes)? else {
            return Err(RuleEnd::BadLine { line: taken + 1 });
        };
        gathered.push(line)?;
        place = next;
        taken += 1;
        left = rest;
    }
    if !is_whole(place, left) {
        return Err(RuleEnd::BadLine { line: taken + 1 });
    }
    let Gathered { parts, goal } = gathered;
    match goal {
        Some(goal) => Ok((parts, goal)),
        None => unreachable!(),
    }
}

/// The rule set and the equation whose text this is.
///
/// BadLine with the number of the first line with which no rule text begins, counted from 1: so it
/// is where the text ends too early, or where bytes without a line feed are left at its end.
/// NotMade, where all lines are good, with the number of the first rule that isn't well made,
/// counted from 0, or with the number of rules where all are and the equation doesn't fit the
/// symbols. Fails else only when out of memory. Time is linear in the text.
pub fn read_rules(alloc: Global, text: &[u8]) -> Result<(RuleSet, Equation), RuleEnd>
    ensures { ReadsRules text.now result }
{
    let (parts, goal) = read_parts(alloc, text)?;
    if let Some(rule) = first_unmade(&parts, &goal) {
        return Err(RuleEnd::NotMade { rule });
    }
    match RuleSet::from_parts(parts) {
        Some(rules) => Ok((rules, goal)),
        None => unreachable!(),
    }
}
