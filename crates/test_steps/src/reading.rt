//! Terms, read and written. In a term that is read, `v999999` is the variable 2^32-1, which no log
//! has.
use rx_term::Term;
use rx_term_words::{push_term, read_term};
use std::alloc::Global;
use test_lines::{Answer, has_high, high_variables, nothing, whole, written};

fn high_term(alloc: Global, written: &Term) -> Option<Term> {
    let with = high_variables(alloc)?;
    written.subst(alloc, with.as_slice()).ok()
}

/// One term.
pub fn term(alloc: Global, text: &str) -> Option<Term> {
    let written = whole(alloc, text, |alloc, text, at| read_term(alloc, text, at))?;
    if !has_high(text) {
        return Some(written);
    }
    high_term(alloc, &written)
}

/// The term.
pub fn written_term(alloc: Global, term: &Term) -> Option<Answer> {
    written(alloc, |out| push_term(term, out))
}

/// The term, if there is one.
pub fn perhaps_term(alloc: Global, term: Option<&Term>) -> Option<Answer> {
    match term {
        Some(term) => written_term(alloc, term),
        None => nothing(),
    }
}
