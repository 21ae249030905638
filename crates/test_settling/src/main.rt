//! Compares what settling with tasks makes of a goal, and its descendants, with values of another
//! program.
//!
//! Each line of the standard input is a call, what it is given, and what it is to answer, with ` | `
//! between them. Equations and lists have the notation of a log. A line `set` makes the rule set of
//! which the lines after it speak. A line that begins with `#` is a heading.
#![tactic(auto)]

mod settling_calls;

use rx_term::RuleSet;
use std::alloc::Global;
use std::io;
use test_lines::{BAR, Case, Meant, Verdict, case_of, count_lines, take_set};

// Whether the call answers what is wanted, over the set of the lines before it; none where that
// isn't known.
fn is_answered(alloc: Global, set: &RuleSet, case: &Case<'_>) -> Option<bool> {
    let found = settling_calls::answer_to(alloc, set, case.call, case.given)?;
    found.is_meant(alloc, case.wanted)
}

// Whether the line's call answers what is wanted, over the set of the lines before it, in place of
// which the line may put another; none where that isn't known.
fn holds(alloc: Global, set: &mut Option<RuleSet>, line: &str) -> Option<bool> {
    let case = case_of(line, BAR)?;
    match case.call {
        "set" => take_set(alloc, set, case.given, case.wanted),
        _ => is_answered(alloc, set.as_ref()?, &case),
    }
}

fn main(rt: HostRuntime) -> io::Result<()> {
    let mut set = None;
    count_lines(
        &rt,
        "lines",
        |alloc, line| Verdict::of(holds(alloc, &mut set, line)),
    )
}
