//! The elimination of all monomials, and the multipliers that it finds.
ghost use Rattle.std.specs.Prelude.{◌≡◌, ◌<◌, None, Some, length, List, ℤ, MatchOption, IfOk, IfErr, IfSome, IsNone};
ghost use Rattle.rx_fm.specs.Witness.{IsWitness};
ghost use Rattle.rx_fm.specs.Elimination.{Large, eliminate, elimination, first_negative, found, given, given_from, is_negative, nothing, unit};

use crate::combination::Combination;
use crate::fm_end::FmEnd;
use crate::monomials::monomials;
use crate::stage::stage;
use rx_plain::Items;
use rx_poly::{Mono, Poly};
use std::alloc::{AllocError, Global};

/// As many multipliers as there are polynomials, all 0 but the one at that place, which is 1.
fn unit(alloc: Global, count: usize, place: usize) -> Result<Items<i128>, AllocError>
    requires { place < count }
    ensures { IfOk result (λ ms. ms ≡ unit count place) }
{
    let mut multipliers = vec![in alloc; 0i128; count]?;
    multipliers[place] = 1;
    Ok(Items::from_vec(multipliers))
}

/// The polynomials as they are given.
fn given(alloc: Global, polys: &[Poly]) -> Result<Items<Combination>, AllocError>
    ensures { IfOk result (λ cs. cs ≡ given polys.now) }
{
    let mut made = Items::with_capacity(alloc, polys.len())?;
    for (place, standing) in polys.iter().enumerate() {
        let poly = standing.try_clone(alloc)?;
        let multipliers = unit(alloc, polys.len(), place)?;
        made.push(Combination { poly, multipliers })?;
    }
    Ok(made)
}

/// Whether the polynomial is a negative number.
fn is_negative(combination: &Combination) -> bool
    ensures { result ≡ is_negative combination.now }
{
    match combination.poly.is_constant() {
        Some(number) => number < 0,
        None => false,
    }
}

/// The multipliers of the first polynomial that is a negative number.
fn first_negative(combinations: &[Combination]) -> Option<&[i128]>
    ensures { MatchOption result (first_negative combinations.now ≡ None)
        (λ ms. first_negative combinations.now ≡ Some ms.now) }
{
    for combination in combinations {
        if is_negative(combination) {
            return Some(combination.multipliers.as_slice());
        }
    }
    None
}

/// The elimination of these monomials, one after the other.
fn eliminated(
    alloc: Global,
    monos: &[Mono],
    given: Items<Combination>,
    limit: u32,
) -> Result<Option<Vec<i128>>, FmEnd>
    ensures exact { IfOk result (λ a. MatchOption a (eliminate limit monos.now given ≡ nothing)
        (λ ms. eliminate limit monos.now given ≡ found ms.items)) }
    ensures large { IfErr result (λ e. e ≡ FmEnd.Large → eliminate limit monos.now given ≡ Large) }
{
    let mut standing = given;
    for mono in monos {
        if let Some(multipliers) = first_negative(standing.as_slice()) {
            let copy = Vec::from_slice(alloc, multipliers)?;
            return Ok(Some(copy));
        }
        standing = stage(alloc, standing, mono, limit)?;
    }
    match first_negative(standing.as_slice()) {
        Some(multipliers) => {
            let copy = Vec::from_slice(alloc, multipliers)?;
            Ok(Some(copy))
        }
        None => Ok(None),
    }
}

/// Multipliers, one for each polynomial and none negative, whose sum of the polynomials is a
/// negative number: they show that the polynomials are not all at least 0. None where there are
/// none. Large exactly where the elimination passes a limit: of polynomials, of i128, or more than
/// `limit` polynomials at the beginning or after a stage.
pub fn farkas(alloc: Global, polys: &[Poly], limit: u32) -> Result<Option<Vec<i128>>, FmEnd>
    ensures exact { IfOk result (λ a. MatchOption a (elimination limit polys.now ≡ nothing)
        (λ ms. elimination limit polys.now ≡ found ms.items)) }
    ensures witness { IfOk result (λ a. IfSome a (λ ms. IsWitness polys.now ms.items)) }
    ensures none { IfOk result (λ a. IsNone a → (ms : List ℤ) → ¬ (IsWitness polys.now ms)) }
    ensures large { IfErr result (λ e. e ≡ FmEnd.Large → elimination limit polys.now ≡ Large) }
{
    if polys.len() > limit as usize {
        return Err(FmEnd::Large);
    }
    let monos = monomials(alloc, polys)?;
    let given = given(alloc, polys)?;
    eliminated(alloc, monos.as_slice(), given, limit)
}
