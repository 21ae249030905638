//! Compares the lemmas that a search tries at a goal, and the uses of hypotheses that it finds, with
//! values of another program.
use crate::{lemma_calls, use_calls};
use rx_term::RuleSet;
use std::alloc::Global;
use test_lines::{Case, Meant};

/// Whether the call answers what is wanted, over the rule set; none where that isn't known.
pub fn holds(alloc: Global, set: &RuleSet, case: &Case<'_>) -> Option<bool> {
    let found = match case.call {
        "use" => use_calls::use_of(alloc, None, case.given),
        "beside" => use_calls::use_of(alloc, Some(set), case.given),
        _ => lemma_calls::answer_to(alloc, set, case.call, case.given),
    }?;
    found.is_meant(alloc, case.wanted)
}
