//! What is known of a dividend, its quotient and its remainder by a number.
ghost use Rattle.std.specs.Prelude.{◌≡◌, ◌∷◌, [], false, IfOk};
ghost use Rattle.rx_plain.specs.Formed.{Forms, FormsAs, kept};
ghost use Rattle.rx_cert.specs.DivisionFacts.{division_formed, facts_at_least_zero, facts_below_zero, greatest_remainder_formed, quotient_by, remainder_by, without_quotient_formed};
ghost use Rattle.rx_poly.specs.Limits.{is_within};
ghost use Rattle.rx_poly.specs.Terms.{is_zero};

use crate::differences::row_below;
use rx_poly::{Poly, PolyEnd};
use rx_row::Row;
use std::alloc::{AllocError, Global};

/// The quotient of the polynomial by a number; Large exactly where it passes the limits.
fn quotient(alloc: Global, num: &Poly, den: &i128) -> Result<Poly, PolyEnd>
    ensures { Forms PolyEnd.Large result (kept is_within (quotient_by num.now den.now)) }
{
    let divisor = Poly::constant(alloc, *den)?;
    num.quotient(alloc, &divisor)
}

/// The remainder of the polynomial by a number; Large exactly where it passes the limits.
fn remainder(alloc: Global, num: &Poly, den: &i128) -> Result<Poly, PolyEnd>
    ensures { Forms PolyEnd.Large result (kept is_within (remainder_by num.now den.now)) }
{
    let divisor = Poly::constant(alloc, *den)?;
    num.remainder(alloc, &divisor)
}

/// The polynomial minus the number times their quotient; Large exactly where a polynomial on the
/// way passes the limits.
fn without_quotient(alloc: Global, num: &Poly, den: &i128) -> Result<Poly, PolyEnd>
    ensures { Forms PolyEnd.Large result (without_quotient_formed num.now den.now) }
{
    let quotient = quotient(alloc, num, den)?;
    let multiple = quotient.scale(alloc, *den)?;
    num.sub(alloc, &multiple)
}

/// The size of the divisor minus 1; Large exactly where that size leaves i128.
fn size_minus_one(alloc: Global, den: &i128) -> Result<Poly, PolyEnd>
    ensures { Forms PolyEnd.Large result (greatest_remainder_formed den.now) }
{
    match den.checked_abs() {
        Some(size) => Ok(Poly::constant(alloc, size - 1)?),
        None => Err(PolyEnd::Large),
    }
}

/// What a division by a number leaves.
#[derive(Debug, Drop)]
pub struct Division {
    /// `num - den*q - r`, which is 0.
    pub equation: Poly,
    /// The remainder `r`.
    pub rest: Poly,
    /// The size of `den` minus 1.
    pub bound: Poly,
}

/// What the division of the polynomial by a number that isn't 0 leaves. Large exactly where a
/// polynomial on the way passes the limits.
pub fn divide(alloc: Global, num: &Poly, den: &i128) -> Result<Division, PolyEnd>
    requires { is_zero den.now ≡ false }
    ensures forms { FormsAs (λ d. (d.equation, d.rest, d.bound)) PolyEnd.Large result
        (division_formed num.now den.now) }
{
    let rest = remainder(alloc, num, den)?;
    let difference = without_quotient(alloc, num, den)?;
    let equation = difference.sub(alloc, &rest)?;
    let bound = size_minus_one(alloc, den)?;
    Ok(Division {
        equation,
        rest,
        bound,
    })
}

/// The four rows in order.
fn four(
    alloc: Global,
    first: Row,
    second: Row,
    third: Row,
    fourth: Row,
) -> Result<Vec<Row>, AllocError>
    ensures { IfOk result (λ v. v.items ≡ first ∷ second ∷ third ∷ fourth ∷ []) }
{
    let rows = vec![in alloc; first, second, third, fourth]?;
    Ok(rows)
}

/// The facts of a dividend of at least 0. Large exactly where a polynomial on the way passes the
/// limits.
pub fn facts_at_least_zero(
    alloc: Global,
    num: &Poly,
    division: &Division,
) -> Result<Vec<Row>, PolyEnd>
    ensures forms { FormsAs (λ v. v.items) PolyEnd.Large result
        (facts_at_least_zero num.now division.now.equation division.now.rest division.now.bound) }
{
    let room = division.bound.sub(alloc, &division.rest)?;
    let num = num.try_clone(alloc)?;
    let equation = division.equation.try_clone(alloc)?;
    let rest = division.rest.try_clone(alloc)?;
    Ok(four(
        alloc,
        Row::Ge(num),
        Row::Eq(equation),
        Row::Ge(rest),
        Row::Ge(room),
    )?)
}

/// The facts of a dividend below 0. Large exactly where a polynomial on the way passes the limits.
pub fn facts_below_zero(alloc: Global, num: &Poly, division: &Division) -> Result<Vec<Row>, PolyEnd>
    ensures forms { FormsAs (λ v. v.items) PolyEnd.Large result
        (facts_below_zero num.now division.now.equation division.now.rest division.now.bound) }
{
    let below = row_below(alloc, num)?;
    let negated = division.rest.scale(alloc, -1)?;
    let room = division.bound.add(alloc, &division.rest)?;
    let equation = division.equation.try_clone(alloc)?;
    Ok(four(
        alloc,
        below,
        Row::Eq(equation),
        Row::Ge(negated),
        Row::Ge(room),
    )?)
}
