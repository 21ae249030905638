//! The domains that are found for a goal.
use rx_find_domains::{Domains, find_domains};
use rx_plain::NoMemory;
use rx_row::Constraint;
use rx_solve::refutes;
use rx_term::{Equation, RuleSet};
use rx_words::push_rows;
use std::alloc::Global;
use test_lines::{Answer, equation, push_list, written};

fn push_domain(domain: &Constraint, out: &mut Vec<u8>) -> Result<(), NoMemory> {
    push_rows(domain.rows(), out)
}

// What is found for the goal, by the refuter.
fn domains_of(alloc: Global, set: &RuleSet, goal: &Equation) -> Result<Domains, NoMemory> {
    let mut solve = |rows: &Constraint| refutes(alloc, rows);
    find_domains(alloc, set, goal, &mut solve)
}

/// The domains that are found for the goal, a list of rows for each symbol; none where the line
/// can't be read, or there is no memory. The set's own domains aren't looked at.
pub fn found(alloc: Global, set: &RuleSet, goal: &str) -> Option<Answer> {
    let goal = equation(alloc, goal)?;
    let domains = domains_of(alloc, set, &goal).ok()?;
    written(
        alloc,
        |out| push_list(domains.rows.as_slice(), out, push_domain),
    )
}
