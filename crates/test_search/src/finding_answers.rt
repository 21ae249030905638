//! Compares the covers and ranks that a search finds of a rule set with values of another program.
use crate::found_answer::is_wanted;
use crate::search_calls;
use rx_term::RuleSet;
use std::alloc::Global;
use test_lines::Case;

/// Whether the call answers what is wanted, over the rule set; none where that isn't known.
pub fn holds(alloc: Global, set: &RuleSet, case: &Case<'_>) -> Option<bool> {
    let found = search_calls::answer_to(alloc, set, case.call, case.given)?;
    is_wanted(alloc, case.call, &found, case.wanted)
}
