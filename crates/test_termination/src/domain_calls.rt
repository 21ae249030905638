//! Domains of the set of the lines before: `inside` is given a term, and `keep` an equation, the
//! number of a part and certificates.
use crate::reading::certs;
use rx_cert::Cert;
use rx_domain::{DomainEnd, keep_one, keeps};
use rx_plain::{Items, NoMemory};
use rx_term::{PolyEnd, RuleSet, Term};
use rx_term_words::read_term;
use rx_words::read_certs;
use std::alloc::Global;
use test_lines::{Answer, domain_fault, equation, list, whole, written_rows};

fn term_at(alloc: Global, text: &[u8], at: usize) -> Result<Option<(Term, usize)>, NoMemory> {
    read_term(alloc, text, at)
}

/// The rows that put the term inside.
pub fn inside(alloc: Global, set: &RuleSet, given: &str) -> Option<Answer> {
    let term = whole(alloc, given, term_at)?;
    match set.inside_rows(alloc, &term) {
        Ok(rows) => written_rows(alloc, rows.as_slice()),
        Err(PolyEnd::Large) => Some(Answer::Word("large")),
        Err(PolyEnd::NoMemory) => None,
    }
}

fn said(alloc: Global, answer: Result<(), DomainEnd>) -> Option<Answer> {
    match answer {
        Ok(()) => Some(Answer::Word("kept")),
        Err(end) => domain_fault(alloc, end),
    }
}

/// What is said of a part of the rules and the equation, under certificates.
pub fn kept(alloc: Global, set: &RuleSet, given: &str) -> Option<Answer> {
    let (goal, rest) = given.split_once(" | ")?;
    let (part, listed) = rest.split_once(" | ")?;
    let goal = equation(alloc, goal)?;
    let part = part.parse::<usize>().ok()?;
    let listed = certs(alloc, listed)?;
    said(alloc, keep_one(alloc, set, &goal, part, listed.as_slice()))
}

fn certs_at(
    alloc: Global,
    text: &[u8],
    at: usize,
) -> Result<Option<(Items<Cert>, usize)>, NoMemory> {
    read_certs(alloc, text, at)
}

/// What is said of all parts, each under a list of certificates.
pub fn all_kept(alloc: Global, set: &RuleSet, given: &str) -> Option<Answer> {
    let (goal, rest) = given.split_once(" | ")?;
    let goal = equation(alloc, goal)?;
    let lists = list(alloc, rest, certs_at)?;
    said(alloc, keeps(alloc, set, &goal, lists.as_slice()))
}
