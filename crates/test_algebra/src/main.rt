//! Compares what the crates on lists, polynomials, rows, elimination and certificates answer, and the
//! refuter, with values from outside.
//!
//! Each line of the standard input is a call, what it is given, and what it is to answer, with ` | `
//! or a semicolon and a space between them. A line that begins with `#` is a heading. The program
//! prints each line whose answer is another with the word `differs`, each that it can't read with
//! `unread`, and at the end how many lines hold.
//!
//! A list is its number of elements, then each element. Polynomials, rows, certificates and lists
//! have the notation of a log; an integer term is written with each operator before its operands, as
//! `+ v0 * 2 v1`. `{3 *v0}` stands for `*v0*v0*v0`.
#![tactic(auto)]

mod asking;
mod caching;
mod cert_answers;
mod cert_calls;
mod fm_calls;
mod integer_terms;
mod plain_answers;
mod plain_calls;
mod poly_answers;
mod poly_calls;
mod refuter_answers;
mod refuting;
mod row_answers;
mod row_calls;

use std::alloc::Global;
use std::io;
use test_lines::{Answer, run};

// What the call answers: no two of the tables have a call in common.
fn answer_to(alloc: Global, call: &str, given: &str) -> Option<Answer> {
    if let Some(answer) = plain_answers::answer_to(alloc, call, given) {
        return Some(answer);
    }
    if let Some(answer) = poly_answers::answer_to(alloc, call, given) {
        return Some(answer);
    }
    if let Some(answer) = row_answers::answer_to(alloc, call, given) {
        return Some(answer);
    }
    if let Some(answer) = cert_answers::answer_to(alloc, call, given) {
        return Some(answer);
    }
    refuter_answers::answer_to(alloc, call, given)
}

fn main(rt: HostRuntime) -> io::Result<()> {
    run(&rt, answer_to)
}
