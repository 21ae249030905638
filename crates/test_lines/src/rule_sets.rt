//! Rule sets from their parts.
use crate::rewriting::rules;
use crate::signatures::symbols;
use rx_plain::Items;
use rx_term::{RuleParts, RuleSet};
use std::alloc::Global;

/// The greatest failure code, the symbols and the rules that the text is, with ` | ` between them.
pub fn parts(alloc: Global, given: &str) -> Option<RuleParts> {
    let (fails, rest) = given.split_once(" | ")?;
    let (listed, rules_text) = rest.split_once(" | ")?;
    let fails = fails.parse::<u8>().ok()?;
    Some(RuleParts {
        symbols: symbols(alloc, listed)?,
        domains: Items::new(alloc),
        rules: rules(alloc, rules_text)?,
        fails,
    })
}

// Whether that there is a set, or none, is what is wanted.
fn is_wanted(there: bool, wanted: &str) -> Option<bool> {
    match wanted {
        "yes" => Some(there),
        "no" => Some(!there),
        _ => None,
    }
}

/// Takes a line that makes a rule set: keeps the set of these parts, if they are those of one, in
/// place of what was kept before. Answers whether that there is one, `yes` or `no`, is what is
/// wanted.
pub fn take_set(
    alloc: Global,
    set: &mut Option<RuleSet>,
    given: &str,
    wanted: &str,
) -> Option<bool> {
    *set = None;
    *set = RuleSet::from_parts(parts(alloc, given)?);
    is_wanted(set.is_some(), wanted)
}
