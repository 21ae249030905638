//! What refutes rows, and what shows a row under others.
use rx_cert::Cert;
use rx_fm::FmEnd;
use rx_row::Constraint;
use rx_solve::{entails, refutes};
use rx_words::push_cert;
use std::alloc::Global;
use test_lines::{Answer, BAR, nothing, row, rows, written};

// The words of a certificate.
fn written_cert(alloc: Global, cert: &Cert) -> Option<Answer> {
    written(alloc, |out| push_cert(cert, out))
}

// Why there is no answer; out of memory is none that a line could want.
fn ended(end: FmEnd) -> Option<Answer> {
    match end {
        FmEnd::Large => Some(Answer::Word("large")),
        FmEnd::NoMemory => None,
    }
}

// What refutes, or that nothing does.
fn found(alloc: Global, cert: Option<Cert>) -> Option<Answer> {
    match cert {
        Some(cert) => written_cert(alloc, &cert),
        None => nothing(),
    }
}

fn answered(alloc: Global, answer: Result<Option<Cert>, FmEnd>) -> Option<Answer> {
    match answer {
        Ok(cert) => found(alloc, cert),
        Err(end) => ended(end),
    }
}

/// What refutes the rows.
pub fn refuted(alloc: Global, given: &str) -> Option<Answer> {
    let rows = rows(alloc, given)?;
    answered(alloc, refutes(alloc, &rows))
}

// What shows a row: `plain` where none is needed.
fn shown(alloc: Global, cert: Option<Cert>) -> Option<Answer> {
    match cert {
        Some(cert) => written_cert(alloc, &cert),
        None => Some(Answer::Word("plain")),
    }
}

fn answered_under(alloc: Global, answer: Result<Option<Option<Cert>>, FmEnd>) -> Option<Answer> {
    match answer {
        Ok(Some(cert)) => shown(alloc, cert),
        Ok(None) => nothing(),
        Err(end) => ended(end),
    }
}

fn entailed_under(alloc: Global, under: &Constraint, wanted: &str) -> Option<Answer> {
    let wanted = row(alloc, wanted)?;
    answered_under(alloc, entails(alloc, under, &wanted))
}

/// What shows the row, after the last ` | `, under the rows: `plain` where none is needed.
pub fn entailed(alloc: Global, given: &str) -> Option<Answer> {
    let (under, wanted) = given.rsplit_once(BAR)?;
    let under = rows(alloc, under)?;
    entailed_under(alloc, &under, wanted)
}
