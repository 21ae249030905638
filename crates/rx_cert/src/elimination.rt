//! Variables that rows say the value of.
ghost use Rattle.std.specs.Prelude.{◌≡◌, ◌&&◌, ◌+ℤ◌};
ghost use Rattle.std.specs.Option.{option_copied};
ghost use Rattle.std.specs.Ordering.{is_eq};
ghost use Rattle.rx_plain.specs.Formed.{Forms};
ghost use Rattle.rx_cert.specs.Elimination.{are_opposite, zero_polynomial, of_opposites, solution_formed, solution_minus_formed, solution_plus_formed};
ghost use Rattle.rx_poly.specs.Constants.{variable};
ghost use Rattle.rx_poly.specs.Limits.{body_sum, body_difference};
ghost use Rattle.rx_poly.specs.Order.{mono_cmp};
ghost use Rattle.rx_poly.specs.Terms.{is_zero};

use rx_poly::{Mono, Poly, PolyEnd};
use rx_poly_laws::uses;
use rx_row::Row;
use std::alloc::Global;

/// Whether the two terms have one monomial and opposite coefficients.
fn is_opposite(left: &(Mono, i128), right: &(Mono, i128)) -> bool
    ensures { result ≡ (is_eq (mono_cmp left.now.0 right.now.0) &&
        is_zero (left.now.1 +ℤ right.now.1)) }
{
    left.0.cmp(&right.0).is_eq() && are_opposite_numbers(&left.1, &right.1)
}

/// Whether the two numbers have the sum 0.
fn are_opposite_numbers(left: &i128, right: &i128) -> bool
    ensures { result ≡ is_zero (left.now +ℤ right.now) }
{
    match left.checked_add(*right) {
        Some(sum) => sum == 0,
        None => false,
    }
}

/// Whether the two sums have the same monomials with opposite coefficients.
pub fn are_opposites(left: &[(Mono, i128)], right: &[(Mono, i128)]) -> bool
    ensures { result ≡ are_opposite left.now right.now }
{
    let mut others = right;
    for term in left {
        match others.split_first() {
            Some((other, more)) if is_opposite(term, other) => others = more,
            _ => return false,
        }
    }
    others.is_empty()
}

/// The polynomial, where the other row says that its opposite is at least 0.
fn opposed<'a>(poly: &'a Poly, other: Option<&Row>) -> Option<&'a Poly>
    ensures { option_copied result ≡ of_opposites poly.now (option_copied other.entry) }
{
    match other {
        Some(Row::Ge(opposite))
            if are_opposites(
                poly.body().terms.as_slice(),
                opposite.body().terms.as_slice(),
            ) => { Some(poly) }
        _ => None,
    }
}

/// The polynomial that the two rows say to be 0, where they do: an equation, named twice, or `p >=
/// 0` and `-p >= 0`. Nothing is formed.
pub fn polynomial_at_zero(rows: &[Row], first: u32, second: u32) -> Option<&Poly>
    ensures { option_copied result ≡ zero_polynomial rows.now first second }
{
    match rows.get(first as usize) {
        Some(Row::Ge(poly)) => opposed(poly, rows.get(second as usize)),
        Some(Row::Eq(poly)) if first == second => Some(poly),
        _ => None,
    }
}

/// The opposite of what is beside the variable, where its coefficient is 1 and it occurs nowhere
/// else.
fn solved_plus(alloc: Global, poly: &Poly, alone: &Poly, var: u32) -> Result<Option<Poly>, PolyEnd>
    ensures { Forms PolyEnd.Large result
        (solution_plus_formed var (body_difference poly.now alone.now)) }
{
    let rest = poly.sub(alloc, alone)?;
    if uses(&rest, var) {
        return Ok(None);
    }
    Ok(Some(rest.scale(alloc, -1)?))
}

/// What is beside the variable, where its coefficient is -1 and it occurs nowhere else.
fn solved_minus(alloc: Global, poly: &Poly, alone: &Poly, var: u32) -> Result<Option<Poly>, PolyEnd>
    ensures { Forms PolyEnd.Large result (solution_minus_formed var (body_sum poly.now alone.now)) }
{
    let rest = poly.add(alloc, alone)?;
    if uses(&rest, var) {
        return Ok(None);
    }
    Ok(Some(rest))
}

/// The value of the variable where the polynomial is 0; none where the variable doesn't occur in it
/// once, alone, with coefficient 1 or -1. Large exactly where a polynomial on the way passes the
/// limits.
pub fn solve(alloc: Global, poly: &Poly, var: u32) -> Result<Option<Poly>, PolyEnd>
    ensures forms { Forms PolyEnd.Large result (solution_formed var poly.now) }
{
    let alone = Poly::variable(alloc, var)?;
    let coefficient = poly.coeff_of(var);
    if coefficient == 1 {
        return solved_plus(alloc, poly, &alone, var);
    }
    if coefficient == -1 {
        return solved_minus(alloc, poly, &alone, var);
    }
    Ok(None)
}
