//! Sums of multiples of the polynomials given, each with its multipliers, and how two are joined.
ghost use Rattle.std.specs.Prelude.{◌≡◌, ◌<ℤ◌, ◌≤ℤ◌, ◌/◌, ◌++◌, [], ◌∷◌, ℕ, ℤ, pos, true, false, unsigned_abs, All, map, IfOk, IfErr, IfSome, OnOk, SomeIff};
ghost use Rattle.rx_plain.specs.Formed.{Forms};
ghost use Rattle.rx_poly.specs.Limits.{of_terms};
ghost use Rattle.rx_poly.specs.Reading.{coefficient};
ghost use Rattle.rx_poly.specs.Value.{quotient};
ghost use Rattle.rx_poly.specs.declared.body.Body.{out-Body};
ghost use Rattle.rx_poly.specs.declared.body.Mono.{Mono};
ghost use Rattle.rx_fm.specs.Elimination.{at, eliminant_formed, coefficients, common_divisor, common_divisor_within, divided, resolvent, resolvent_within, primitive_part, linear_combination_formed};
ghost use Rattle.rx_fm.specs.Numbers.{divides_all, gcd, gcd_with, size_fits, sizes_fit};

use crate::fm_end::FmEnd;
use crate::numbers::{combined, divided, gcd, gcd_with, quotients, size};
use rx_plain::Items;
use rx_poly::{Body, Mono, Poly};
use std::alloc::{AllocError, Global};

/// A polynomial, and for each polynomial given the multiplier that it has in it.
#[derive(Drop)]
pub(crate) struct Combination {
    pub(crate) poly: Poly,
    pub(crate) multipliers: Items<i128>,
}

impl Combination {
    /// The coefficient that the monomial has.
    pub(crate) fn coeff(&self, mono: &Mono) -> i128
        ensures { result ≡ at mono.now self.now }
    {
        self.poly.coeff(mono)
    }
}

/// One multiple of the first plus one of the second. Large exactly where one of the multiples,
/// their sum, or a product or sum of multipliers passes its limits.
fn linear_combination(
    alloc: Global,
    k: &i128,
    first: &Combination,
    l: &i128,
    second: &Combination,
) -> Result<Combination, FmEnd>
    ensures { Forms FmEnd.Large result
        (linear_combination_formed k.now first.now l.now second.now) }
{
    let left = first.poly.scale(alloc, *k)?;
    let right = second.poly.scale(alloc, *l)?;
    let poly = left.add(alloc, &right)?;
    let multipliers = combined(
        alloc,
        first.multipliers.as_slice(),
        k,
        second.multipliers.as_slice(),
        l,
    )?;
    Ok(Combination { poly, multipliers })
}

/// Both combined so that coefficients of these sizes and of opposite signs cancel.
fn eliminant(
    alloc: Global,
    positive: &i128,
    first: &Combination,
    negative: &i128,
    second: &Combination,
) -> Result<Combination, FmEnd>
    requires positive { pos 0 <ℤ positive.now }
    requires negative { pos 0 <ℤ negative.now }
    ensures { Forms FmEnd.Large result (eliminant_formed (unsigned_abs positive.now)
        (unsigned_abs negative.now) first.now second.now) }
{
    let common = gcd(positive, negative);
    let k = divided(negative, &common);
    let l = divided(positive, &common);
    linear_combination(alloc, &k, first, &l, second)
}

/// The greatest common divisor of one number and the sizes of the coefficients; None where one of
/// these leaves i128.
fn gcd_of_terms(first: &i128, terms: &[(Mono, i128)]) -> Option<i128>
    requires { pos 0 ≤ℤ first.now }
    ensures { SomeIff result (sizes_fit (map (λ (t : Mono × ℤ). t.1) terms.now) ≡ true)
        (pos (gcd_with (unsigned_abs first.now) (map (λ (t : Mono × ℤ). t.1) terms.now))) }
{
    let mut common = *first;
    for term in terms {
        common = gcd(&common, &size(&term.1)?);
    }
    Some(common)
}

/// The greatest common divisor of all coefficients and multipliers; None where the size of one of
/// them leaves i128.
fn common_divisor(combination: &Combination) -> Option<i128>
    ensures { SomeIff result (common_divisor_within combination.now ≡ true)
        (pos (common_divisor combination.now)) }
{
    let terms = combination.poly.body().terms.as_slice();
    let of_terms = gcd_of_terms(&0, terms)?;
    gcd_with(&of_terms, combination.multipliers.as_slice())
}

/// The terms with each coefficient divided.
fn divided_terms(
    alloc: Global,
    terms: &[(Mono, i128)],
    by: &i128,
) -> Result<Items<(Mono, i128)>, AllocError>
    requires { pos 0 ≤ℤ by.now }
    ensures { IfOk result (λ ts. ts ≡ map (λ (t : Mono × ℤ). (t.0, quotient t.1 by.now)) terms.now) }
{
    let mut made = Items::with_capacity(alloc, terms.len())?;
    for term in terms {
        let mono = term.0.try_clone(alloc)?;
        made.push((mono, divided(&term.1, by)))?;
    }
    Ok(made)
}

/// The polynomial with each coefficient divided by a number that divides them all.
fn divided_poly(alloc: Global, poly: &Poly, by: &i128) -> Result<Poly, AllocError>
    requires by { pos 0 ≤ℤ by.now }
    requires divides { divides_all (unsigned_abs by.now) (coefficients poly.now) ≡ true }
    ensures { IfOk result (λ p. p ≡ divided (unsigned_abs by.now) poly.now) }
{
    let terms = divided_terms(alloc, poly.body().terms.as_slice(), by)?;
    let quotient = Poly::from_body(alloc, Body { terms })?;
    Ok(quotient.unwrap())
}

/// All coefficients and multipliers divided by their greatest common divisor. Large exactly where
/// the size of one of them leaves i128.
fn reduced(alloc: Global, combination: Combination) -> Result<Combination, FmEnd>
    ensures same { IfOk result (λ c. c ≡ primitive_part combination) }
    ensures within { OnOk result (common_divisor_within combination ≡ true) }
    ensures large { IfErr result (λ e. e ≡ FmEnd.Large → common_divisor_within combination ≡ false) }
{
    let Some(by) = common_divisor(&combination) else {
        return Err(FmEnd::Large);
    };
    if by == 1 {
        return Ok(combination);
    }
    let poly = divided_poly(alloc, &combination.poly, &by)?;
    let multipliers = quotients(alloc, combination.multipliers.as_slice(), &by)?;
    Ok(Combination { poly, multipliers })
}

/// The two joined so that the monomial cancels. Large exactly where something that is formed on the
/// way passes its limits.
pub(crate) fn joined(
    alloc: Global,
    mono: &Mono,
    first: &Combination,
    second: &Combination,
) -> Result<Combination, FmEnd>
    requires positive { pos 0 <ℤ at mono.now first.now }
    requires negative { at mono.now second.now <ℤ pos 0 }
    ensures same { IfOk result (λ c. c ≡ resolvent mono.now first.now second.now) }
    ensures within { OnOk result (resolvent_within mono.now first.now second.now ≡ true) }
    ensures large { IfErr result (λ e. e ≡ FmEnd.Large →
        resolvent_within mono.now first.now second.now ≡ false) }
{
    let positive = first.coeff(mono);
    let Some(negative) = size(&second.coeff(mono)) else {
        return Err(FmEnd::Large);
    };
    let sum = eliminant(alloc, &positive, first, &negative, second)?;
    reduced(alloc, sum)
}
