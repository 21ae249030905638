//! Compares what the crates on relations and on shapes answer with values from outside.
//!
//! Each line of the standard input is a call, what it is given, and what it is to answer, with a
//! semicolon and a space between them. Polynomials, rows and lists have the notation of a log.
//! `{3 *v0}` stands for `*v0*v0*v0`. A line that begins with `#` is a heading. A line `set` makes a
//! rule set, over which the lines after it are, and a line `domains` gives it these.
#![tactic(auto)]

mod kept_calls;
mod relation_calls;
mod systems;

use rx_term::RuleSet;
use std::alloc::Global;
use std::io;
use test_lines::{
    Answer, Case, Meant, SEMICOLON, Verdict, case_of, count_lines, parted, take_domains, take_set,
    written_out,
};

// What the call answers; none where the line can't be read, or there is no memory.
fn answer_to(alloc: Global, call: &str, given: &str) -> Option<Answer> {
    let given = written_out(alloc, given)?;
    let (first, second) = parted(given.as_str(), SEMICOLON);
    match call {
        "values" => relation_calls::values_of(alloc, first, second),
        "vanishing" => relation_calls::vanishing_of(alloc, first, second),
        "relations" => relation_calls::relations_of(alloc, first, second),
        _ => None,
    }
}

// Whether the call answers what is wanted, over the set of the lines before it; none where that
// isn't known.
fn is_answered(alloc: Global, set: &Option<RuleSet>, case: &Case<'_>) -> Option<bool> {
    let found = match case.call {
        "kept" => kept_calls::kept_of(alloc, set.as_ref()?, case.given)?,
        _ => answer_to(alloc, case.call, case.given)?,
    };
    found.is_meant(alloc, case.wanted)
}

// Whether the line's call answers what is wanted, over the set of the lines before it, in place of
// which the line may put another; none where that isn't known.
fn holds(alloc: Global, set: &mut Option<RuleSet>, line: &str) -> Option<bool> {
    let case = case_of(line, SEMICOLON)?;
    match case.call {
        "set" => take_set(alloc, set, case.given, case.wanted),
        "domains" => take_domains(alloc, set, case.given, case.wanted),
        _ => is_answered(alloc, set, &case),
    }
}

fn main(rt: HostRuntime) -> io::Result<()> {
    let mut set = None;
    count_lines(
        &rt,
        "lines",
        |alloc, line| Verdict::of(holds(alloc, &mut set, line)),
    )
}
