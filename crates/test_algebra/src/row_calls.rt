//! Rows, lists of rows and sums of their multiples.
use rx_plain::Items;
use rx_poly::{Poly, PolyEnd};
use rx_row::{Constraint, Row, combine, combine_rows, rows_at_args, subst_rows};
use rx_words::read_parts;
use std::alloc::Global;
use test_lines::{
    Answer, count, ended, integer, nothing, ordered, polys, row, rows, substitution, told, whole,
    written_poly, written_row, written_rows,
};

fn formed(alloc: Global, answer: Result<Row, PolyEnd>) -> Option<Answer> {
    match answer {
        Ok(row) => written_row(alloc, &row),
        Err(end) => ended(end),
    }
}

// A list of row numbers, each with its multiplier.
fn parts(alloc: Global, text: &str) -> Option<Items<(u32, i128)>> {
    whole(alloc, text, |alloc, text, at| read_parts(alloc, text, at))
}

// The row that says that a variable is a number.
fn named(alloc: Global, var: &str, number: &str) -> Option<Answer> {
    let var = count(var)?;
    formed(alloc, Row::named(alloc, var, integer(number)?))
}

fn copied(alloc: Global, row: &Row) -> Option<Answer> {
    let copy = row.try_clone(alloc).ok()?;
    written_row(alloc, &copy)
}

// What a row alone answers.
fn alone(alloc: Global, name: &str, row: &Row) -> Option<Answer> {
    match name {
        "negate" => formed(alloc, row.negate(alloc)),
        "is_ge" => told(row.is_ge()),
        "bound" => Some(Answer::Number(row.variable_bound() as i128)),
        "poly" => written_poly(alloc, row.poly()),
        "clone" => copied(alloc, row),
        _ => None,
    }
}

// What two rows answer.
fn between(name: &str, left: &Row, right: &Row) -> Option<Answer> {
    match name {
        "compare" => ordered(left.cmp(right)),
        "is_negation_of" => told(left.is_negation_of(right)),
        "same" => told(left.is_same(right)),
        _ => None,
    }
}

fn beside(alloc: Global, name: &str, left: &Row, right: &str) -> Option<Answer> {
    let right = row(alloc, right)?;
    between(name, left, &right)
}

fn substituted(alloc: Global, of: &Row, with: &str) -> Option<Answer> {
    let with = substitution(alloc, with)?;
    formed(alloc, of.subst(alloc, with.as_slice()))
}

fn at_args(alloc: Global, of: &Row, args: &str) -> Option<Answer> {
    let args = polys(alloc, args)?;
    formed(alloc, of.at_args(alloc, args.as_slice()))
}

// What a row answers, and what else is given.
fn with_another(alloc: Global, name: &str, row: &Row, second: &str) -> Option<Answer> {
    match name {
        "at_args" => at_args(alloc, row, second),
        "subst" => substituted(alloc, row, second),
        _ => beside(alloc, name, row, second),
    }
}

fn of_row(alloc: Global, name: &str, first: &str, second: &str) -> Option<Answer> {
    let row = row(alloc, first)?;
    if second.is_empty() {
        return alone(alloc, name, &row);
    }
    with_another(alloc, name, &row, second)
}

/// What a call on a row answers.
pub fn answer_of_row(alloc: Global, name: &str, first: &str, second: &str) -> Option<Answer> {
    match name {
        "named" => named(alloc, first, second),
        _ => of_row(alloc, name, first, second),
    }
}

fn formed_rows(alloc: Global, answer: Result<Constraint, PolyEnd>) -> Option<Answer> {
    match answer {
        Ok(rows) => written_rows(alloc, rows.rows()),
        Err(end) => ended(end),
    }
}

fn listed(alloc: Global, answer: Result<Vec<Row>, PolyEnd>) -> Option<Answer> {
    match answer {
        Ok(rows) => written_rows(alloc, rows.as_slice()),
        Err(end) => ended(end),
    }
}

fn summed(alloc: Global, answer: Result<Option<Poly>, PolyEnd>) -> Option<Answer> {
    match answer {
        Ok(Some(poly)) => written_poly(alloc, &poly),
        Ok(None) => nothing(),
        Err(end) => ended(end),
    }
}

// Adds a row, and takes it away again where the call says so.
fn append(name: &str, rows: &mut Constraint, last: Row) -> Option<()> {
    let before = rows.rows().len();
    rows.append(last).ok()?;
    if name == "append_and_undo" {
        rows.truncate(before);
    }
    Some(())
}

fn add(name: &str, rows: &mut Constraint, last: Row) -> Option<()> {
    match name {
        "push" => rows.push(last).ok(),
        _ => append(name, rows, last),
    }
}

// Adds a row, or lets go of all but the first, as many as that.
fn change(alloc: Global, name: &str, rows: &mut Constraint, second: &str) -> Option<()> {
    if name == "truncate" {
        rows.truncate(count(second)? as usize);
        return Some(());
    }
    add(name, rows, row(alloc, second)?)
}

fn changed(alloc: Global, name: &str, first: &str, second: &str) -> Option<Answer> {
    let mut rows = rows(alloc, first)?;
    change(alloc, name, &mut rows, second)?;
    written_rows(alloc, rows.rows())
}

fn rows_copied(alloc: Global, rows: &Constraint) -> Option<Answer> {
    let copy = rows.try_clone(alloc).ok()?;
    written_rows(alloc, copy.rows())
}

fn contained(alloc: Global, rows: &Constraint, last: &str) -> Option<Answer> {
    let last = row(alloc, last)?;
    told(rows.contains(&last))
}

fn same_rows(alloc: Global, left: &Constraint, right: &str) -> Option<Answer> {
    let right = rows(alloc, right)?;
    told(left.is_same(&right))
}

fn rows_at(alloc: Global, name: &str, of: &Constraint, args: &str) -> Option<Answer> {
    let args = polys(alloc, args)?;
    match name {
        "at_args" => formed_rows(alloc, of.at_args(alloc, args.as_slice())),
        _ => listed(alloc, rows_at_args(alloc, of.rows(), args.as_slice())),
    }
}

fn substituted_rows(alloc: Global, name: &str, of: &Constraint, with: &str) -> Option<Answer> {
    let with = substitution(alloc, with)?;
    match name {
        "subst" => formed_rows(alloc, of.subst(alloc, with.as_slice())),
        _ => listed(alloc, subst_rows(alloc, of.rows(), with.as_slice())),
    }
}

fn combined(alloc: Global, name: &str, of: &Constraint, by: &str) -> Option<Answer> {
    let by = parts(alloc, by)?;
    match name {
        "combine" => summed(alloc, combine(alloc, of, by.as_slice())),
        _ => summed(alloc, combine_rows(alloc, of.rows(), by.as_slice())),
    }
}

// What rows answer, and what else is given.
fn of_rows(alloc: Global, name: &str, rows: &Constraint, second: &str) -> Option<Answer> {
    match name {
        "clone" => rows_copied(alloc, rows),
        "contains" => contained(alloc, rows, second),
        "same" => same_rows(alloc, rows, second),
        "subst" | "subst_borrowed" => substituted_rows(alloc, name, rows, second),
        "at_args" | "at_args_borrowed" => rows_at(alloc, name, rows, second),
        "combine" | "combine_borrowed" => combined(alloc, name, rows, second),
        "bound" => Some(Answer::Number(rows.variable_bound() as i128)),
        _ => None,
    }
}

fn of_read_rows(alloc: Global, name: &str, first: &str, second: &str) -> Option<Answer> {
    let rows = rows(alloc, first)?;
    of_rows(alloc, name, &rows, second)
}

/// What a call on rows answers.
pub fn answer_of_rows(alloc: Global, name: &str, first: &str, second: &str) -> Option<Answer> {
    match name {
        "push" | "append" | "append_and_undo" | "truncate" => changed(alloc, name, first, second),
        _ => of_read_rows(alloc, name, first, second),
    }
}
