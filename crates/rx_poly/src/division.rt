//! Quotients and remainders of polynomials.
ghost use Rattle.std.specs.Prelude.{◌≡◌, true, false, int_div, int_rem, SomeIff};
ghost use Rattle.rx_plain.specs.Formed.{Forms, kept};
ghost use Rattle.rx_poly.specs.Division.{divided, parts, quotient_of, remainder_of};
ghost use Rattle.rx_poly.specs.Limits.{fits_i128, is_within};
ghost use Rattle.rx_poly.specs.Terms.{is_zero};

use crate::body::Atom;
use crate::poly::{Poly, of_atom, of_number, zero};
use crate::poly_end::PolyEnd;
use std::alloc::Global;

/// What two polynomials are to a division.
#[derive(Clone, Copy)]
pub(crate) enum Parts {
    /// The divisor is the number 0.
    ByZero,
    /// Both are numbers, and the divisor isn't 0.
    Numbers(i128, i128),
    /// One of them is no number, and the divisor isn't the number 0.
    Open,
}

/// Which of its two results a division is to give.
#[derive(Clone, Copy)]
pub(crate) enum Operator {
    /// The quotient, truncated toward zero.
    Quotient,
    /// The remainder that belongs to it.
    Remainder,
}

/// What the two are to a division.
fn parts_of(num: &Poly, den: &Poly) -> Parts
    ensures { result ≡ parts num.now den.now }
{
    match den.is_constant() {
        None => Parts::Open,
        Some(0) => Parts::ByZero,
        Some(divisor) => match num.is_constant() {
            None => Parts::Open,
            Some(dividend) => Parts::Numbers(dividend, divisor),
        },
    }
}

/// The quotient of two numbers; None where it leaves i128.
fn number_quotient(num: &i128, den: &i128) -> Option<i128>
    requires { is_zero den.now ≡ false }
    ensures { SomeIff result (fits_i128 (int_div num.now den.now) ≡ true) (int_div num.now den.now) }
{
    num.checked_div(*den)
}

/// The remainder of two numbers, with the sign of the first. No quotient is formed, so it always
/// fits.
fn number_remainder(num: &i128, den: &i128) -> i128
    requires { is_zero den.now ≡ false }
    ensures { result ≡ int_rem num.now den.now }
{
    if *den == -1 {
        return 0;
    }
    *num % *den
}

/// The quotient of two polynomials; Large exactly where it passes the limits.
pub(crate) fn divide(alloc: Global, num: &Poly, den: &Poly) -> Result<Poly, PolyEnd>
    ensures forms { Forms PolyEnd.Large result (kept is_within (quotient_of num.now den.now)) }
{
    match parts_of(num, den) {
        Parts::ByZero => Ok(zero(alloc)?),
        Parts::Numbers(dividend, divisor) => {
            let Some(number) = number_quotient(&dividend, &divisor) else {
                return Err(PolyEnd::Large);
            };
            Ok(of_number(alloc, &number)?)
        }
        Parts::Open => {
            let num = num.body().try_clone(alloc)?;
            let den = den.body().try_clone(alloc)?;
            of_atom(alloc, Atom::Div(num, den))
        }
    }
}

/// The remainder of two polynomials; Large exactly where it passes the limits.
pub(crate) fn remainder(alloc: Global, num: &Poly, den: &Poly) -> Result<Poly, PolyEnd>
    ensures forms { Forms PolyEnd.Large result (kept is_within (remainder_of num.now den.now)) }
{
    match parts_of(num, den) {
        Parts::ByZero => Ok(zero(alloc)?),
        Parts::Numbers(dividend, divisor) => {
            let number = number_remainder(&dividend, &divisor);
            Ok(of_number(alloc, &number)?)
        }
        Parts::Open => {
            let num = num.body().try_clone(alloc)?;
            let den = den.body().try_clone(alloc)?;
            of_atom(alloc, Atom::Mod(num, den))
        }
    }
}

/// That result of a division of polynomials; Large exactly where it passes the limits.
pub(crate) fn divided(
    alloc: Global,
    num: &Poly,
    den: &Poly,
    operator: Operator,
) -> Result<Poly, PolyEnd>
    ensures forms { Forms PolyEnd.Large result (kept is_within (divided operator num.now den.now)) }
{
    match operator {
        Operator::Quotient => divide(alloc, num, den),
        Operator::Remainder => remainder(alloc, num, den),
    }
}
