//! The elimination of monomials, and contents.
use rx_fm::{FmEnd, content, farkas};
use std::alloc::Global;
use test_lines::{Answer, count, integers, nothing, perhaps, poly, polys};

// The content of a polynomial.
fn content_of(alloc: Global, given: &str) -> Option<Answer> {
    let poly = poly(alloc, given)?;
    perhaps(content(&poly))
}

fn found(alloc: Global, answer: Result<Option<Vec<i128>>, FmEnd>) -> Option<Answer> {
    match answer {
        Ok(Some(found)) => integers(alloc, found.as_slice()),
        Ok(None) => nothing(),
        Err(FmEnd::Large) => Some(Answer::Word("large")),
        Err(FmEnd::NoMemory) => None,
    }
}

// The multipliers that the elimination finds within a limit.
fn multipliers(alloc: Global, limit: &str, given: &str) -> Option<Answer> {
    let limit = count(limit)?;
    let given = polys(alloc, given)?;
    found(alloc, farkas(alloc, given.as_slice(), limit))
}

/// What the call answers.
pub fn answer_to(alloc: Global, name: &str, first: &str, second: &str) -> Option<Answer> {
    match name {
        "content" => content_of(alloc, first),
        "farkas" => multipliers(alloc, first, second),
        _ => None,
    }
}
