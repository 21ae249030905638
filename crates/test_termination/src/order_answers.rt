//! Compares what the calls say that examine the domains, the covers and the pairs of a log with
//! values of another program.
use crate::domain_calls::{all_kept, inside, kept};
use crate::log_calls::{covered, lowered};
use rx_term::RuleSet;
use std::alloc::Global;
use test_lines::Answer;

/// What the call on the rule set answers; none where the line can't be read, or there is no memory.
pub fn answer_to(alloc: Global, set: &RuleSet, call: &str, given: &str) -> Option<Answer> {
    match call {
        "covers" => covered(alloc, set, given),
        "decreases" => lowered(alloc, set, given),
        "inside" => inside(alloc, set, given),
        "keep" => kept(alloc, set, given),
        "keeps" => all_kept(alloc, set, given),
        _ => None,
    }
}
