//! Domains of a rule set.
use crate::answers::{Answer, Meant};
use crate::constraints::read_constraint;
use crate::lists::list;
use rx_domain::{DomainEnd, set_domains};
use rx_plain::NoMemory;
use rx_term::RuleSet;
use rx_text::push_word;
use rx_words::push_count;
use std::alloc::Global;

fn push_numbered(word: &[u8], number: usize, out: &mut Vec<u8>) -> Result<(), NoMemory> {
    push_word(out, word)?;
    push_count(out, number)
}

// A word and a number.
fn numbered(alloc: Global, word: &[u8], number: usize) -> Option<Answer> {
    let mut out = Vec::new(alloc);
    push_numbered(word, number, &mut out).ok()?;
    Some(Answer::Text(out))
}

/// Which symbol has no lawful domain, or which part isn't kept or passes the limits.
pub fn domain_fault(alloc: Global, end: DomainEnd) -> Option<Answer> {
    match end {
        DomainEnd::BadDomain(symbol) => numbered(alloc, b"s", symbol),
        DomainEnd::NotKept(part) => numbered(alloc, b"part ", part),
        DomainEnd::Large(part) => numbered(alloc, b"large ", part),
        DomainEnd::NoMemory => None,
    }
}

// The set with the domains that the text is, in place of the one without.
fn with_domains(alloc: Global, set: &mut Option<RuleSet>, given: &str) -> Option<Answer> {
    let lists = list(alloc, given, read_constraint)?;
    match set_domains(alloc, set.as_ref()?, lists.as_slice()) {
        Ok(made) => {
            *set = Some(made);
            Some(Answer::Word("set"))
        }
        Err(end) => domain_fault(alloc, end),
    }
}

/// Takes a line that gives the set domains, a list of rows for each symbol: keeps the set with them
/// in place of the one without. Answers whether `set`, or the symbol without a lawful domain, is
/// what is wanted.
pub fn take_domains(
    alloc: Global,
    set: &mut Option<RuleSet>,
    given: &str,
    wanted: &str,
) -> Option<bool> {
    with_domains(alloc, set, given)?.is_meant(alloc, wanted)
}
