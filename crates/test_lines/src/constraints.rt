//! Rows, and lists of them.
use crate::answers::Answer;
use crate::high::{has_high, high_variables};
use crate::lists::{whole, written};
use rx_plain::NoMemory;
use rx_row::{Constraint, Row};
use rx_text::{push_row, read_row};
use rx_words::{push_rows, read_rows};
use std::alloc::Global;

fn high_row(alloc: Global, written: &Row) -> Option<Row> {
    let with = high_variables(alloc)?;
    written.subst(alloc, with.as_slice()).ok()
}

/// One row, in which some variables are written as others.
pub fn row(alloc: Global, text: &str) -> Option<Row> {
    let written = whole(alloc, text, |alloc, text, at| read_row(alloc, text, at))?;
    if !has_high(text) {
        return Some(written);
    }
    high_row(alloc, &written)
}

/// The list of rows at the place, and the place after it.
pub fn read_constraint(
    alloc: Global,
    text: &[u8],
    at: usize,
) -> Result<Option<(Constraint, usize)>, NoMemory> {
    match read_rows(alloc, text, at)? {
        Some((rows, end)) => Ok(Some((Constraint::from_rows(rows.into_vec()), end))),
        None => Ok(None),
    }
}

fn high_rows(alloc: Global, written: &Constraint) -> Option<Constraint> {
    let with = high_variables(alloc)?;
    written.subst(alloc, with.as_slice()).ok()
}

/// A list of rows, in which some variables are written as others.
pub fn rows(alloc: Global, text: &str) -> Option<Constraint> {
    let written = whole(alloc, text, read_constraint)?;
    if !has_high(text) {
        return Some(written);
    }
    high_rows(alloc, &written)
}

/// The row.
pub fn written_row(alloc: Global, row: &Row) -> Option<Answer> {
    written(alloc, |out| push_row(out, row))
}

/// The rows in order.
pub fn written_rows(alloc: Global, rows: &[Row]) -> Option<Answer> {
    written(alloc, |out| push_rows(rows, out))
}
