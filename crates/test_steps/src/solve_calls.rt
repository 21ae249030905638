//! Whether rows are refuted, and whether a row is shown under rows.
use rx_row::{Constraint, Row};
use rx_solve::{entails, refutes};
use std::alloc::Global;
use test_lines::{Answer, row, rows, told};

fn refuted(alloc: Global, rows: &Constraint) -> Option<Answer> {
    told(refutes(alloc, rows).ok()?.is_some())
}

fn is_shown(alloc: Global, rows: &Constraint, row: &Row) -> Option<bool> {
    Some(entails(alloc, rows, row).ok()?.is_some())
}

fn shown(alloc: Global, rows: &Constraint, second: &str) -> Option<Answer> {
    let row = row(alloc, second)?;
    told(is_shown(alloc, rows, &row)?)
}

/// What the call answers.
pub fn answer_to(alloc: Global, name: &str, first: &str, second: &str) -> Option<Answer> {
    let rows = rows(alloc, first)?;
    match name {
        "refutes" => refuted(alloc, &rows),
        "entails" => shown(alloc, &rows, second),
        _ => None,
    }
}
