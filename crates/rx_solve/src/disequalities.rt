//! What is not 0 is above it or below it.
ghost use Rattle.std.specs.Prelude.{◌≡◌, [], ◌∷◌, ◌++◌, ◌+◌, length, slice_get, take, Some, option_map, IfOk, OnOk};
ghost use Rattle.rx_cert.specs.declared.cert.Cert.TheVariants.{Differ};
ghost use Rattle.rx_cert.specs.Differences.{above, below, disequal};
ghost use Rattle.rx_solve.specs.Answers.{AnswersFor, BranchAnswers, one_formed};
ghost use Rattle.rx_solve.specs.Bounds.{most_disequalities};
ghost use Rattle.rx_solve.specs.Disequalities.{disequalities_from, with_number};
ghost use Rattle.rx_solve.specs.Refuter.{differing, differing_at};

use crate::divisions::refute_by_dividing;
use crate::sides::both_boxed;
use rx_cert::{Cert, row_above, row_below};
use rx_fm::FmEnd;
use rx_plain::Boxed;
use rx_poly::Poly;
use rx_row::Row;
use std::alloc::{AllocError, Global};

/// The most disequalities that are looked at.
const MOST_DISEQUALITIES: usize = 6;

/// Adds the row's number after the others, where it is a disequality.
fn push_number(numbers: &mut Vec<u32>, at: usize, row: &Row) -> Result<(), AllocError>
    ensures { OnOk result (numbers.new.items ≡ numbers.old.items ++ with_number at row.now []) }
{
    let Row::Ne(_) = row else {
        return Ok(());
    };
    let Ok(number) = u32::try_from(at) else {
        return Err(AllocError);
    };
    numbers.push(number)?;
    Ok(())
}

/// The numbers of the disequalities among the rows.
fn disequalities(alloc: Global, rows: &[Row]) -> Result<Vec<u32>, AllocError>
    ensures { IfOk result (λ v. v.items ≡ disequalities_from 0 rows.now) }
{
    let mut numbers = Vec::new(alloc);
    for (at, row) in rows.iter().enumerate() {
        push_number(&mut numbers, at, row)?;
    }
    Ok(numbers)
}

/// The numbers of the first disequalities.
fn first_disequalities(alloc: Global, rows: &[Row]) -> Result<Vec<u32>, AllocError>
    ensures { IfOk result (λ v. v.items ≡ take most_disequalities (disequalities_from 0 rows.now)) }
{
    let mut numbers = disequalities(alloc, rows)?;
    numbers.truncate(MOST_DISEQUALITIES);
    Ok(numbers)
}

/// The polynomial of the row with that number, where this is a disequality.
fn disequal_at(alloc: Global, rows: &[Row], at: u32) -> Result<Option<Poly>, AllocError>
    ensures { IfOk result (λ p. p ≡ disequal (slice_get rows.now at)) }
{
    match rows.get(at as usize) {
        Some(Row::Ne(poly)) => Ok(Some(poly.try_clone(alloc)?)),
        _ => Ok(None),
    }
}

/// The certificate that both signs are looked at, where both refute the rows.
fn difference_cert(at: u32, both: Option<(Boxed<Cert>, Boxed<Cert>)>) -> Option<Cert>
    ensures { result ≡ option_map (λ both. Differ at both.0 both.1) both }
{
    let (pos, neg) = both?;
    Some(Cert::Differ { at, pos, neg })
}

/// What is found of the rows with one more after them. The rows are the same again after it.
#[cycle(differing)]
fn differ_with(
    alloc: Global,
    rows: &mut Vec<Row>,
    row: Row,
    places: &[u32],
) -> Result<Option<Cert>, FmEnd>
    ensures answer { AnswersFor (differing_at places.now) (length places.now + 68)
        (rows.old.items ++ row ∷ []) result }
    ensures kept { OnOk result (rows.new.items ≡ rows.old.items) }
{
    let count = rows.len();
    rows.push(row).map_err(AllocError::from)?;
    let found = differ_in_order(alloc, rows, places)?;
    rows.truncate(count);
    Ok(found)
}

/// What is found where the polynomial is above 0.
#[cycle(differing)]
fn differ_above(
    alloc: Global,
    rows: &mut Vec<Row>,
    poly: &Poly,
    places: &[u32],
) -> Result<Option<Cert>, FmEnd>
    ensures answer { BranchAnswers (differing_at places.now) (length places.now + 68) rows.old.items
        (one_formed (above poly.now)) result }
    ensures kept { OnOk result (rows.new.items ≡ rows.old.items) }
{
    let row = row_above(alloc, poly)?;
    differ_with(alloc, rows, row, places)
}

/// What is found where it is below 0.
#[cycle(differing)]
fn differ_below(
    alloc: Global,
    rows: &mut Vec<Row>,
    poly: &Poly,
    places: &[u32],
) -> Result<Option<Cert>, FmEnd>
    ensures answer { BranchAnswers (differing_at places.now) (length places.now + 68) rows.old.items
        (one_formed (below poly.now)) result }
    ensures kept { OnOk result (rows.new.items ≡ rows.old.items) }
{
    let row = row_below(alloc, poly)?;
    differ_with(alloc, rows, row, places)
}

/// What is found with both signs of the polynomial of that disequality.
#[cycle(differing)]
fn differ_both(
    alloc: Global,
    rows: &mut Vec<Row>,
    at: u32,
    poly: &Poly,
    rest: &[u32],
) -> Result<Option<Cert>, FmEnd>
    requires { disequal (slice_get rows.old.items at) ≡ Some poly.now }
    ensures answer { AnswersFor (differing_at (at ∷ rest.now)) (length rest.now + 69) rows.old.items
        result }
    ensures kept { OnOk result (rows.new.items ≡ rows.old.items) }
{
    let Some(pos) = differ_above(alloc, rows, poly, rest)? else {
        return Ok(None);
    };
    let neg = differ_below(alloc, rows, poly, rest);
    let both = both_boxed(alloc, pos, neg)?;
    Ok(difference_cert(at, both))
}

/// What is found with the disequality, and then the others.
#[cycle(differing)]
fn differ_at(
    alloc: Global,
    rows: &mut Vec<Row>,
    at: u32,
    rest: &[u32],
) -> Result<Option<Cert>, FmEnd>
    ensures answer { AnswersFor (differing_at (at ∷ rest.now)) (length rest.now + 69) rows.old.items
        result }
    ensures kept { OnOk result (rows.new.items ≡ rows.old.items) }
{
    let Some(poly) = disequal_at(alloc, rows.as_slice(), at)? else {
        return Ok(None);
    };
    differ_both(alloc, rows, at, &poly, rest)
}

/// What is found of the rows with both signs of each disequality, one after the other, and then by
/// ratios. The rows are the same again after it.
#[cycle(differing)]
fn differ_in_order(
    alloc: Global,
    rows: &mut Vec<Row>,
    places: &[u32],
) -> Result<Option<Cert>, FmEnd>
    ensures answer { AnswersFor (differing_at places.now) (length places.now + 68) rows.old.items
        result }
    ensures kept { OnOk result (rows.new.items ≡ rows.old.items) }
{
    let Some((at, rest)) = places.split_first() else {
        return refute_by_dividing(alloc, rows);
    };
    differ_at(alloc, rows, *at, rest)
}

/// What is found of the rows by their disequalities, ratios, roundings and a sum. The rows are the
/// same again after it.
pub(crate) fn refute_by_differing(alloc: Global, rows: &mut Vec<Row>) -> Result<Option<Cert>, FmEnd>
    ensures answer { AnswersFor differing 74 rows.old.items result }
    ensures kept { OnOk result (rows.new.items ≡ rows.old.items) }
{
    let places = first_disequalities(alloc, rows.as_slice())?;
    differ_in_order(alloc, rows, places.as_slice())
}
