//! Compares the rule sets of two functions, what their code is compiled to, and the covers, ranks,
//! lemmas and proofs that a search finds, with values of another program.
//!
//! Each line of the standard input is a call, what it is given, and what it is to answer, with ` | `
//! or a semicolon and a space between them. A line that begins with `#` is a heading. The program
//! prints each line whose answer is another with the word `differs`, each that it can't read with
//! `unread`, and at the end how many lines hold.
//!
//! Equations, rows, polynomials and cover trees have the notation of a log. A line `rules` makes the
//! rule set of two functions, `rules32` that by 32-bit integers, and a line `set` any, to which
//! `domains` gives these; the lines after it speak of that.
#![tactic(auto)]

mod by_solver;
mod caching;
mod code_cases;
mod compile_answers;
mod counting;
mod domain_calls;
mod ends;
mod finding_answers;
mod found_answer;
mod found_printing;
mod function_cases;
mod lemma_answer;
mod lemma_answers;
mod lemma_calls;
mod programs;
mod rule_printing;
mod running;
mod search_answers;
mod search_calls;
mod searching;
mod set_calls;
mod tasks;
mod translation_cases;
mod use_calls;
mod wider_calls;

use c_ast::Integers;
use running::ran;
use rx_term::RuleSet;
use set_calls::take_rules;
use std::alloc::Global;
use std::io;
use test_lines::{
    Case, Meant, Verdict, case_of, count_lines, separator_of, take_domains, take_set,
};

// Whether the call answers what is wanted, over the set of the lines before it; none where that
// isn't known.
fn is_answered(alloc: Global, set: &RuleSet, case: &Case<'_>) -> Option<bool> {
    match case.call {
        "cover" | "lowers" | "ranks" => finding_answers::holds(alloc, set, case),
        "beside" | "lemmas" | "named" | "use" => lemma_answers::holds(alloc, set, case),
        "found" => domain_calls::found(alloc, set, case.given)?.is_meant(alloc, case.wanted),
        "listed" => wider_calls::listed(alloc, set, case.given)?.is_meant(alloc, case.wanted),
        "wider" => wider_calls::wider(alloc, set, case.given)?.is_meant(alloc, case.wanted),
        "runs" => ran(alloc, set, case.given)?.is_meant(alloc, case.wanted),
        _ => search_answers::holds(alloc, set, case),
    }
}

// Whether the line's call answers what is wanted, over the set of the lines before it, in place of
// which the line may put another; none where that isn't known.
fn holds(alloc: Global, set: &mut Option<RuleSet>, line: &str) -> Option<bool> {
    let case = case_of(line, separator_of(line))?;
    match case.call {
        "set" => take_set(alloc, set, case.given, case.wanted),
        "domains" => take_domains(alloc, set, case.given, case.wanted),
        "rules" => take_rules(alloc, Integers::Unbounded, set, case.given)?.is_meant(
            alloc,
            case.wanted,
        ),
        "rules32" => take_rules(alloc, Integers::Bits32, set, case.given)?.is_meant(
            alloc,
            case.wanted,
        ),
        _ => match compile_answers::answer_to(alloc, case.call, case.given) {
            Some(found) => found.is_meant(alloc, case.wanted),
            None => is_answered(alloc, set.as_ref()?, &case),
        },
    }
}

fn main(rt: HostRuntime) -> io::Result<()> {
    let mut set = None;
    count_lines(
        &rt,
        "lines",
        |alloc, line| Verdict::of(holds(alloc, &mut set, line)),
    )
}
