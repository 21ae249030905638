//! The wider domains that are found for a goal, and the rows that they are taken from.
use rx_domain::Domains;
use rx_has_ranks::RankMemo;
use rx_plain::NoMemory;
use rx_row::Constraint;
use rx_solve::refutes;
use rx_term::{Equation, RuleSet};
use rx_wider_domains::{find_wider_domains, wider_candidates};
use rx_words::push_rows;
use std::alloc::Global;
use test_lines::{Answer, equation, push_list, written};

fn push_domain(domain: &Constraint, out: &mut Vec<u8>) -> Result<(), NoMemory> {
    push_rows(domain.rows(), out)
}

// The rows of each symbol.
fn answer_of(alloc: Global, lists: &[Constraint]) -> Option<Answer> {
    written(alloc, |out| push_list(lists, out, push_domain))
}

// What is found for the goal, by the refuter.
fn wider_of(alloc: Global, set: &RuleSet, goal: &Equation) -> Result<Option<Domains>, NoMemory> {
    let mut memo = RankMemo::new(alloc);
    let mut solve = |rows: &Constraint| refutes(alloc, rows);
    find_wider_domains(alloc, set, goal, &mut memo, &mut solve)
}

/// The rows that the wider domains for the goal are taken from, a list for each symbol; none where
/// the line can't be read, or there is no memory. The set's own domains aren't looked at.
pub fn listed(alloc: Global, set: &RuleSet, goal: &str) -> Option<Answer> {
    let goal = equation(alloc, goal)?;
    let lists = wider_candidates(alloc, set, &goal).ok()?;
    answer_of(alloc, lists.as_slice())
}

/// The wider domains, in the same form.
pub fn wider(alloc: Global, set: &RuleSet, goal: &str) -> Option<Answer> {
    let goal = equation(alloc, goal)?;
    match wider_of(alloc, set, &goal).ok()? {
        Some(domains) => answer_of(alloc, domains.rows.as_slice()),
        None => Some(Answer::Word("none")),
    }
}
