//! Compares what the crates on domains, covers, ranks and pairs answer, and what the calls say that examine the
//! covers and the pairs of a log, with values from outside.
//!
//! Each line of the standard input is a call, what it is given, and what it is to answer, with ` | `
//! or a semicolon and a space between them. A line that begins with `#` is a heading. The program
//! prints each line whose answer is another with the word `differs`, each that it can't read with
//! `unread`, and at the end how many lines hold.
//!
//! Equations, polynomials and cover trees have the notation of a log; a list is its number of
//! elements and then each. A line `set` makes a rule set, and `domains` gives it these; the lines
//! after it that begin with `covers`, `decreases`, `inside`, `keep` and `keeps` speak of that.
#![tactic(auto)]

mod cover_calls;
mod domain_calls;
mod example;
mod log_calls;
mod log_parts;
mod order_answers;
mod pair_answers;
mod pair_calls;
mod rank_calls;
mod reading;

use rx_term::RuleSet;
use std::alloc::Global;
use std::io;
use test_lines::{
    Answer, Meant, Verdict, case_of, count_lines, separator_of, take_domains, take_set,
};

// What the call answers, over the set of the lines before it; none where the line can't be read, or
// there is no memory. No two of the tables have a call in common.
fn answer_to(alloc: Global, set: &Option<RuleSet>, call: &str, given: &str) -> Option<Answer> {
    if let Some(answer) = pair_answers::answer_to(alloc, call, given) {
        return Some(answer);
    }
    order_answers::answer_to(alloc, set.as_ref()?, call, given)
}

// Whether the line's call answers what is wanted, over the set of the lines before it; none where
// that isn't known.
fn holds(alloc: Global, set: &mut Option<RuleSet>, line: &str) -> Option<bool> {
    let case = case_of(line, separator_of(line))?;
    if case.call == "set" {
        return take_set(alloc, set, case.given, case.wanted);
    }
    if case.call == "domains" {
        return take_domains(alloc, set, case.given, case.wanted);
    }
    let found = answer_to(alloc, set, case.call, case.given)?;
    found.is_meant(alloc, case.wanted)
}

fn main(rt: HostRuntime) -> io::Result<()> {
    let mut set = None;
    count_lines(
        &rt,
        "lines",
        |alloc, line| Verdict::of(holds(alloc, &mut set, line)),
    )
}
