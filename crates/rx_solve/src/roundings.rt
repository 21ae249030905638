//! Rows that are divided by their content and rounded down.
ghost use Rattle.std.specs.Prelude.{◌≡◌, ◌∷◌, ◌++◌, ◌+◌, [], length, take, option_map, IfOk, OnOk};
ghost use Rattle.rx_plain.specs.Formed.{Forms, FormsAs};
ghost use Rattle.rx_cert.specs.Rounding.{rounding_formed};
ghost use Rattle.rx_cert.specs.declared.cert.Cert.TheVariants.{Cut};
ghost use Rattle.rx_solve.specs.Answers.{AnswersFor};
ghost use Rattle.rx_solve.specs.Bounds.{most_roundings};
ghost use Rattle.rx_solve.specs.Refuter.{rounding, rounding_by};
ghost use Rattle.rx_solve.specs.Roundings.{roundings_after, roundings_formed, roundings_with};

use crate::sides::with_boxed;
use crate::sums::refute_by_sum;
use rx_cert::{Cert, Parts, rounded_row};
use rx_fm::{FmEnd, content};
use rx_plain::Items;
use rx_poly::PolyEnd;
use rx_row::Row;
use std::alloc::{AllocError, Global};

/// The most roundings that are made.
const MOST_ROUNDINGS: usize = 64;

/// A row that is to be rounded.
#[derive(Clone, Copy)]
pub struct Rounding {
    /// The row's number.
    pub at: u32,
    /// Its multiplier, 1 or -1.
    pub by: i128,
    /// The number that it is divided by.
    pub divisor: i128,
}

/// Adds the roundings of the row by the divisor after the others: one of an inequality, two of an
/// equation.
fn push_with(found: &mut Vec<Rounding>, at: u32, row: &Row, divisor: i128) -> Result<(), AllocError>
    ensures { OnOk result (found.new.items ≡ found.old.items ++ roundings_with divisor at row.now) }
{
    if let Row::Ne(_) = row {
        return Ok(());
    }
    let by = 1;
    found.push(Rounding { at, by, divisor })?;
    if let Row::Eq(_) = row {
        let by = -1;
        found.push(Rounding { at, by, divisor })?;
    }
    Ok(())
}

/// Adds the roundings of the row after the others. Large exactly where a coefficient's size leaves
/// i128.
fn push_roundings(found: &mut Vec<Rounding>, at: usize, row: &Row) -> Result<(), FmEnd>
    ensures { FormsAs (λ _. found.new.items) FmEnd.Large result
        (roundings_after found.old.items at row.now) }
{
    if let Row::Ne(_) = row {
        return Ok(());
    }
    let Some(divisor) = content(row.poly()) else {
        return Err(FmEnd::Large);
    };
    if divisor <= 1 {
        return Ok(());
    }
    let Ok(at) = u32::try_from(at) else {
        return Err(FmEnd::NoMemory);
    };
    push_with(found, at, row, divisor)?;
    Ok(())
}

/// The roundings of the rows, up to the row that makes 64 of them.
fn enough_roundings(alloc: Global, rows: &[Row]) -> Result<Vec<Rounding>, FmEnd>
    ensures { FormsAs (λ v. take most_roundings v.items) FmEnd.Large result
        (roundings_formed rows.now) }
{
    let mut found = Vec::new(alloc);
    for (at, row) in rows.iter().enumerate() {
        if found.len() >= MOST_ROUNDINGS {
            return Ok(found);
        }
        push_roundings(&mut found, at, row)?;
    }
    Ok(found)
}

/// The first 64 roundings of the rows. Large exactly where a coefficient's size leaves i128, of a
/// row that is looked at.
fn roundings(alloc: Global, rows: &[Row]) -> Result<Vec<Rounding>, FmEnd>
    ensures { FormsAs (λ v. v.items) FmEnd.Large result (roundings_formed rows.now) }
{
    let mut found = enough_roundings(alloc, rows)?;
    found.truncate(MOST_ROUNDINGS);
    Ok(found)
}

/// The row's part in the sum that is rounded, alone.
fn own_part(alloc: Global, rounding: &Rounding) -> Result<Parts, AllocError>
    ensures { IfOk result (λ ps. ps ≡ (rounding.now.at, rounding.now.by) ∷ []) }
{
    let mut parts = Items::new(alloc);
    parts.push((rounding.at, rounding.by))?;
    Ok(parts)
}

/// The certificate that a row is rounded, and then what refutes the rows with the rounded one.
fn cut(alloc: Global, rounding: &Rounding, rest: Cert) -> Result<Cert, AllocError>
    ensures { IfOk result (λ c. c ≡ Cut ((rounding.now.at, rounding.now.by) ∷ [])
        rounding.now.divisor rest) }
{
    let (parts, rest) = with_boxed(alloc, own_part(alloc, rounding), rest)?;
    let div = rounding.divisor;
    Ok(Cert::Cut { parts, div, rest })
}

/// The certificate of the rows before the rounding, where something refutes those after it.
fn cut_found(
    alloc: Global,
    rounding: &Rounding,
    found: Option<Cert>,
) -> Result<Option<Cert>, AllocError>
    ensures { IfOk result (λ whole. whole ≡ option_map
        (λ c. Cut ((rounding.now.at, rounding.now.by) ∷ []) rounding.now.divisor c) found) }
{
    match found {
        Some(cert) => Ok(Some(cut(alloc, rounding, cert)?)),
        None => Ok(None),
    }
}

/// The rounded row.
fn round_one(alloc: Global, rows: &[Row], rounding: &Rounding) -> Result<Option<Row>, PolyEnd>
    ensures { Forms PolyEnd.Large result (rounding_formed rounding.now.divisor rows.now
        ((rounding.now.at, rounding.now.by) ∷ [])) }
{
    let part = [(rounding.at, rounding.by)];
    rounded_row(alloc, rows, part.as_slice(), &rounding.divisor)
}

/// What is found of the rows with one more after them. The rows are the same again after it.
#[cycle(rounding)]
fn round_with(
    alloc: Global,
    rows: &mut Vec<Row>,
    row: Row,
    roundings: &[Rounding],
) -> Result<Option<Cert>, FmEnd>
    ensures answer { AnswersFor (rounding_by roundings.now) (length roundings.now + 1)
        (rows.old.items ++ row ∷ []) result }
    ensures kept { OnOk result (rows.new.items ≡ rows.old.items) }
{
    let count = rows.len();
    rows.push(row).map_err(AllocError::from)?;
    let found = round_in_order(alloc, rows, roundings)?;
    rows.truncate(count);
    Ok(found)
}

/// What is found with the rounding, and then the others.
#[cycle(rounding)]
fn round_by(
    alloc: Global,
    rows: &mut Vec<Row>,
    rounding: &Rounding,
    rest: &[Rounding],
) -> Result<Option<Cert>, FmEnd>
    ensures answer { AnswersFor (rounding_by (rounding.now ∷ rest.now)) (length rest.now + 2)
        rows.old.items result }
    ensures kept { OnOk result (rows.new.items ≡ rows.old.items) }
{
    let Some(row) = round_one(alloc, rows.as_slice(), rounding)? else {
        return Ok(None);
    };
    let found = round_with(alloc, rows, row, rest)?;
    Ok(cut_found(alloc, rounding, found)?)
}

/// What a sum finds of the rows, once they are rounded one after the other. The rows are the same
/// again after it.
#[cycle(rounding)]
fn round_in_order(
    alloc: Global,
    rows: &mut Vec<Row>,
    roundings: &[Rounding],
) -> Result<Option<Cert>, FmEnd>
    ensures answer { AnswersFor (rounding_by roundings.now) (length roundings.now + 1)
        rows.old.items result }
    ensures kept { OnOk result (rows.new.items ≡ rows.old.items) }
{
    let Some((rounding, rest)) = roundings.split_first() else {
        return refute_by_sum(alloc, rows.as_slice());
    };
    round_by(alloc, rows, rounding, rest)
}

/// What is found of the rows by their roundings and a sum. The rows are the same again after it.
pub(crate) fn refute_by_rounding(alloc: Global, rows: &mut Vec<Row>) -> Result<Option<Cert>, FmEnd>
    ensures answer { AnswersFor rounding 65 rows.old.items result }
    ensures kept { OnOk result (rows.new.items ≡ rows.old.items) }
{
    let roundings = roundings(alloc, rows.as_slice())?;
    round_in_order(alloc, rows, roundings.as_slice())
}
