//! Certificates, rows that are plain or shown, and lists of conditions.
use rx_cert::{Cert, ConditionsAnswer, PolyEnd, check_conditions, is_plain, shows, shows_row};
use rx_plain::Items;
use rx_row::{Constraint, Row};
use rx_words::{read_cert, read_certs};
use std::alloc::Global;
use test_lines::{Answer, ended, row, rows, told, whole};

// One certificate.
fn cert(alloc: Global, text: &str) -> Option<Cert> {
    whole(alloc, text, |alloc, text, at| read_cert(alloc, text, at))
}

// A list of certificates.
fn certs(alloc: Global, text: &str) -> Option<Items<Cert>> {
    whole(alloc, text, |alloc, text, at| read_certs(alloc, text, at))
}

// Yes or no, or why that isn't known.
fn found(answer: Result<bool, PolyEnd>) -> Option<Answer> {
    match answer {
        Ok(found) => told(found),
        Err(end) => ended(end),
    }
}

fn is_copied(alloc: Global, cert: &Cert) -> Option<Answer> {
    let copy = cert.try_clone(alloc).ok()?;
    told(copy == *cert)
}

// Whether a copy of the certificate is the same.
fn copied(alloc: Global, given: &str) -> Option<Answer> {
    let cert = cert(alloc, given)?;
    is_copied(alloc, &cert)
}

fn shown(alloc: Global, known: &Constraint, by: &str) -> Option<Answer> {
    let by = cert(alloc, by)?;
    found(shows(alloc, known, &by))
}

fn row_shown(alloc: Global, known: &Constraint, row: &Row, by: &str) -> Option<Answer> {
    let by = cert(alloc, by)?;
    found(shows_row(alloc, known, row, &by))
}

fn plain(alloc: Global, known: &Constraint, shown: &str) -> Option<Answer> {
    let shown = row(alloc, shown)?;
    told(is_plain(known, &shown))
}

fn shown_by(alloc: Global, known: &Constraint, shown: &str, by: &str) -> Option<Answer> {
    let shown = row(alloc, shown)?;
    row_shown(alloc, known, &shown, by)
}

// Of a row that isn't shown the answer is its number.
fn concluded(answer: Result<ConditionsAnswer, PolyEnd>) -> Option<Answer> {
    match answer {
        Ok(ConditionsAnswer::Shown) => Some(Answer::Word("shown")),
        Ok(ConditionsAnswer::WrongCount) => Some(Answer::Word("count")),
        Ok(ConditionsAnswer::NotShown(at)) => Some(Answer::Number(at as i128)),
        Err(end) => ended(end),
    }
}

fn conditions_by(alloc: Global, known: &Constraint, shown: &[Row], by: &str) -> Option<Answer> {
    let by = certs(alloc, by)?;
    concluded(check_conditions(alloc, known, shown, by.as_slice()))
}

fn conditions(alloc: Global, known: &Constraint, shown: &str, by: &str) -> Option<Answer> {
    let shown = rows(alloc, shown)?;
    conditions_by(alloc, known, shown.rows(), by)
}

// What is shown under rows.
fn under(
    alloc: Global,
    name: &str,
    known: &Constraint,
    second: &str,
    third: &str,
) -> Option<Answer> {
    match name {
        "shows" => shown(alloc, known, second),
        "shows_row" => shown_by(alloc, known, second, third),
        "is_plain" => plain(alloc, known, second),
        "conditions" => conditions(alloc, known, second, third),
        _ => None,
    }
}

/// What the call answers.
pub fn answer_to(
    alloc: Global,
    name: &str,
    first: &str,
    second: &str,
    third: &str,
) -> Option<Answer> {
    if name == "clone" {
        return copied(alloc, first);
    }
    let known = rows(alloc, first)?;
    under(alloc, name, &known, second, third)
}
