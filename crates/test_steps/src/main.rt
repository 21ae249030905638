//! Compares what the crates on terms and rules, on steps, and on proof states answer with values from
//! outside.
//!
//! Each line of the standard input is a call, what it is given, and what it is to answer, with ` | `
//! or a semicolon and a space between them. A line that begins with `#` is a heading. The program
//! prints each line whose answer is another with the word `differs`, each that it can't read with
//! `unread`, and at the end how many lines hold.
//!
//! Terms, equations, rows, polynomials and lists have the notation of a log; a list is its number of
//! elements and then each. `{3 *v0}` stands for `*v0*v0*v0`.
#![tactic(auto)]

mod example;
mod inside_calls;
mod proof_answers;
mod reading;
mod rule_calls;
mod solve_calls;
mod state_cases;
mod states;
mod step_calls;
mod steps;
mod term_answers;
mod term_calls;

use std::alloc::Global;
use std::io;
use test_lines::{Answer, run};

// What the call answers: no two of the tables have a call in common.
fn answer_to(alloc: Global, call: &str, given: &str) -> Option<Answer> {
    if let Some(answer) = term_answers::answer_to(alloc, call, given) {
        return Some(answer);
    }
    if let Some(answer) = step_calls::answer_to(alloc, call, given) {
        return Some(answer);
    }
    if let Some(answer) = proof_answers::answer_to(alloc, call, given) {
        return Some(answer);
    }
    if let Some(answer) = inside_calls::answer_to(alloc, call, given) {
        return Some(answer);
    }
    states::answer(alloc, call, given)
}

fn main(rt: HostRuntime) -> io::Result<()> {
    run(&rt, answer_to)
}
