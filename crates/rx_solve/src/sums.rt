//! The last phase: the elimination of all monomials, and the sum that its multipliers make.
ghost use Rattle.std.specs.Prelude.{◌≡◌, ◌∷◌, ◌++◌, [], All, None, Some, ℤ, pos, ◌-ℤ◌, ◌≤ℤ◌, IfOk, IfSome, MatchOption, OnOk};
ghost use Rattle.rx_plain.specs.Formed.{FormsAs};
ghost use Rattle.rx_cert.specs.Sums.{sum_finding};
ghost use Rattle.rx_solve.specs.Answers.{AnswersFor};
ghost use Rattle.rx_solve.specs.Sums.{next_multiplier, nonnegative_after, nonnegative_formed, parts_from, summing, with_part};

use rx_cert::{Cert, Parts, sum_refutes};
use rx_fm::{FmEnd, farkas};
use rx_plain::Items;
use rx_poly::{Poly, PolyEnd};
use rx_row::Row;
use std::alloc::{AllocError, Global};

/// The most polynomials that the elimination may hold.
const MOST_POLYNOMIALS: u32 = 4096;

/// Adds what the row says to be at least 0 after the others.
fn push_nonnegative(polys: &mut Vec<Poly>, alloc: Global, row: &Row) -> Result<(), PolyEnd>
    ensures { FormsAs (λ _. polys.new.items) PolyEnd.Large result
        (nonnegative_after polys.old.items row.now) }
{
    let (Row::Ge(poly) | Row::Eq(poly) | Row::Ne(poly)) = row;
    if let Row::Ne(_) = row {
        return Ok(());
    }
    polys
        .push(poly.try_clone(alloc)?)
        .map_err(AllocError::from)?;
    if let Row::Eq(_) = row {
        let opposite = poly.scale(alloc, -1)?;
        polys.push(opposite).map_err(AllocError::from)?;
    }
    Ok(())
}

/// What the rows say to be at least 0, in order. Large exactly where the opposite of an equation's
/// polynomial passes the limits.
fn all_nonnegative(alloc: Global, rows: &[Row]) -> Result<Vec<Poly>, PolyEnd>
    ensures { FormsAs (λ v. v.items) PolyEnd.Large result (nonnegative_formed rows.now) }
{
    let mut polys = Vec::new(alloc);
    for row in rows {
        push_nonnegative(&mut polys, alloc, row)?;
    }
    Ok(polys)
}

/// The first multiplier, and the others.
fn first_multiplier(left: &[i128]) -> Option<(i128, &[i128])>
    requires { All (λ m. pos 0 ≤ℤ m) left.now }
    ensures next { MatchOption result (left.now ≡ []) (λ x. left.now ≡ x.0 ∷ x.1.now) }
    ensures first { IfSome result (λ x. pos 0 ≤ℤ x.0) }
    ensures rest { IfSome result (λ x. All (λ m. pos 0 ≤ℤ m) x.1.now) }
{
    let (first, rest) = left.split_first()?;
    Some((*first, rest))
}

/// The difference of two numbers that aren't negative.
fn difference(first: i128, second: i128) -> i128
    requires first { pos 0 ≤ℤ first }
    requires second { pos 0 ≤ℤ second }
    ensures { result ≡ first -ℤ second }
{
    first - second
}

/// The multiplier of the row, by those that are left, and what is left then.
fn next_multiplier<'a>(row: &Row, left: &'a [i128]) -> Option<(i128, &'a [i128])>
    requires { All (λ m. pos 0 ≤ℤ m) left.now }
    ensures next { MatchOption result (next_multiplier row.now left.now ≡ None)
        (λ x. next_multiplier row.now left.now ≡ Some (x.0, x.1.now)) }
    ensures rest { IfSome result (λ x. All (λ m. pos 0 ≤ℤ m) x.1.now) }
{
    match row {
        Row::Ge(_) => first_multiplier(left),
        Row::Eq(_) => {
            let (first, rest) = first_multiplier(left)?;
            let (second, rest) = first_multiplier(rest)?;
            Some((difference(first, second), rest))
        }
        Row::Ne(_) => Some((0, left)),
    }
}

/// Adds the part after the others, unless its multiplier is 0.
fn push_part(parts: &mut Parts, at: usize, by: i128) -> Result<(), AllocError>
    ensures { OnOk result (parts.new ≡ parts.old ++ with_part at by []) }
{
    if by == 0 {
        return Ok(());
    }
    let Ok(number) = u32::try_from(at) else {
        return Err(AllocError);
    };
    parts.push((number, by))
}

/// The parts of the rows, by the multipliers of what they say to be at least 0.
fn parts_of_multipliers(
    alloc: Global,
    rows: &[Row],
    multipliers: &[i128],
) -> Result<Parts, AllocError>
    requires { All (λ m. pos 0 ≤ℤ m) multipliers.now }
    ensures { IfOk result (λ ps. ps ≡ parts_from 0 rows.now multipliers.now) }
{
    let mut parts = Items::new(alloc);
    let mut left = multipliers;
    for (at, row) in rows.iter().enumerate() {
        let Some((by, rest)) = next_multiplier(row, left) else {
            break;
        };
        push_part(&mut parts, at, by)?;
        left = rest;
    }
    Ok(parts)
}

/// The sum of the parts as a certificate, where it is a negative number.
fn certified_sum(alloc: Global, rows: &[Row], parts: Parts) -> Result<Option<Cert>, FmEnd>
    ensures { AnswersFor (λ rs. sum_finding rs parts) 1 rows.now result }
{
    if !sum_refutes(alloc, rows, parts.as_slice())? {
        return Ok(None);
    }
    Ok(Some(Cert::Sum(parts)))
}

/// Whether a sum of the rows is a negative number, by the multipliers of the elimination.
pub(crate) fn refute_by_sum(alloc: Global, rows: &[Row]) -> Result<Option<Cert>, FmEnd>
    ensures { AnswersFor summing 1 rows.now result }
{
    let polys = all_nonnegative(alloc, rows)?;
    let Some(multipliers) = farkas(alloc, polys.as_slice(), MOST_POLYNOMIALS)? else {
        return Ok(None);
    };
    let parts = parts_of_multipliers(alloc, rows, multipliers.as_slice())?;
    certified_sum(alloc, rows, parts)
}
