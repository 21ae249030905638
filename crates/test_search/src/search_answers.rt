//! Compares whole searches, and how often they ask the refuter, with values of another program.
use crate::tasks;
use rx_term::RuleSet;
use std::alloc::Global;
use test_lines::Case;

// Whether the first line of the text is this one.
fn begins_with_line(text: &[u8], line: &str) -> bool {
    match text.strip_prefix(line.as_bytes()) {
        Some(rest) => rest.is_empty() || rest.starts_with(b"\n"),
        None => false,
    }
}

/// Whether the first line of the call's answer is what is wanted, over the rule set; none where the
/// line is no case.
pub fn holds(alloc: Global, set: &RuleSet, case: &Case<'_>) -> Option<bool> {
    let found = tasks::answer(alloc, set, case.call, case.given)?;
    Some(begins_with_line(&found, case.wanted))
}
