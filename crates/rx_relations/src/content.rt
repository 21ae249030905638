//! Polynomials divided by the greatest common divisor of their coefficients.
ghost use Rattle.std.specs.Prelude.{◌≡◌, ◌∷◌, ◌++◌, [], ℤ, pos, true, map, unsigned_abs, IfOk};
ghost use Rattle.rx_poly.specs.Value.{quotient};
ghost use Rattle.rx_poly.specs.declared.body.Body.{out-Body};
ghost use Rattle.rx_poly.specs.declared.body.Mono.{Mono};
ghost use Rattle.rx_fm.specs.Elimination.{coefficients, divided};
ghost use Rattle.rx_fm.specs.Numbers.{divides_all, gcd, gcd_with};
ghost use Rattle.rx_relations.specs.Content.{cofactor, primitive};

use rx_plain::Items;
use rx_poly::{Body, Mono, Poly};
use std::alloc::{AllocError, Global};

/// The greatest common divisor.
fn gcd(left: u128, right: u128) -> u128
    ensures { result ≡ gcd left right }
{
    let mut x = left;
    let mut y = right;
    while y != 0 {
        let rest = x % y;
        x = y;
        y = rest;
    }
    x
}

/// The number divided by one that isn't negative, truncated toward zero; 0 where that is 0.
fn divided(number: &i128, by: u128) -> i128
    ensures { result ≡ quotient number.now (pos by) }
{
    if by == 0 {
        return 0;
    }
    if by == 1 {
        return *number;
    }
    let size = (number.unsigned_abs() / by) as i128;
    if *number < 0 { -size } else { size }
}

/// The first number, divided by the greatest common divisor of the sizes of both; 0 where both are.
pub(crate) fn cofactor(number: &i128, other: &i128) -> i128
    ensures { result ≡ cofactor number.now other.now }
{
    let common = gcd(number.unsigned_abs(), other.unsigned_abs());
    divided(number, common)
}

/// The greatest common divisor of a number and of the sizes of the coefficients.
pub(crate) fn gcd_with(first: u128, terms: &[(Mono, i128)]) -> u128
    ensures { result ≡ gcd_with first (map (λ (t : Mono × ℤ). t.1) terms.now) }
{
    let mut common = first;
    for term in terms {
        common = gcd(common, term.1.unsigned_abs());
    }
    common
}

/// The terms with each coefficient divided.
fn divided_terms(
    alloc: Global,
    terms: &[(Mono, i128)],
    by: u128,
) -> Result<Items<(Mono, i128)>, AllocError>
    ensures { IfOk result (λ ts. ts ≡
        map (λ (t : Mono × ℤ). (t.0, quotient t.1 (pos by))) terms.now) }
{
    let mut made = Items::with_capacity(alloc, terms.len())?;
    for term in terms {
        let mono = term.0.try_clone(alloc)?;
        made.push((mono, divided(&term.1, by)))?;
    }
    Ok(made)
}

/// The polynomial with each coefficient divided by a number that divides them all.
pub(crate) fn divided_poly(alloc: Global, poly: &Poly, by: u128) -> Result<Poly, AllocError>
    requires { divides_all by (coefficients poly.now) ≡ true }
    ensures { IfOk result (λ p. p ≡ divided by poly.now) }
{
    let terms = divided_terms(alloc, poly.body().terms.as_slice(), by)?;
    let quotient = Poly::from_body(alloc, Body { terms })?;
    Ok(quotient.unwrap())
}

/// The polynomial divided by the greatest common divisor of its coefficients.
pub(crate) fn primitive(alloc: Global, poly: Poly) -> Result<Poly, AllocError>
    ensures { IfOk result (λ p. p ≡ primitive poly) }
{
    let by = gcd_with(0, poly.body().terms.as_slice());
    if by == 1 {
        return Ok(poly);
    }
    divided_poly(alloc, &poly, by)
}
