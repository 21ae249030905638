//! Combinations from which multiples of others are taken away, so that a monomial of their values
//! cancels.
ghost use Rattle.std.specs.Prelude.{◌≡◌};
ghost use Rattle.rx_plain.specs.Formed.{Forms};
ghost use Rattle.rx_relations.specs.Cancelling.{cancelled, cancelled_by, difference_formed};
ghost use Rattle.rx_relations.specs.Reducing.{reduced};

use crate::combination::{Combination, primitive_parts};
use crate::content::cofactor;
use rx_poly::{Poly, PolyEnd};
use std::alloc::Global;

/// One multiple of the first minus one of the second; Large exactly where one of the three passes
/// the limits.
fn difference(alloc: Global, k: &i128, p: &Poly, l: &i128, q: &Poly) -> Result<Poly, PolyEnd>
    ensures { Forms PolyEnd.Large result (difference_formed k.now p.now l.now q.now) }
{
    let first = p.scale(alloc, *k)?;
    let second = q.scale(alloc, *l)?;
    first.sub(alloc, &second)
}

/// The combination, by the coefficients that a monomial has in the value of the pivot and in its
/// own; Large exactly where a polynomial on the way passes the limits.
fn cancelled_by(
    alloc: Global,
    standing: &i128,
    own: &i128,
    pivot: &Combination,
    combination: &Combination,
) -> Result<Combination, PolyEnd>
    ensures { Forms PolyEnd.Large result
        (cancelled_by standing.now own.now pivot.now combination.now) }
{
    let k = cofactor(standing, own);
    let l = cofactor(own, standing);
    let value = difference(alloc, &k, &combination.value, &l, &pivot.value)?;
    let relation = difference(alloc, &k, &combination.relation, &l, &pivot.relation)?;
    let parts = primitive_parts(alloc, Combination { value, relation })?;
    Ok(parts)
}

/// The combination in which the first monomial of the pivot's value is cancelled; Large exactly
/// where a polynomial on the way passes the limits.
fn cancelled(
    alloc: Global,
    combination: Combination,
    pivot: &Combination,
) -> Result<Combination, PolyEnd>
    ensures { Forms PolyEnd.Large result (cancelled combination pivot.now) }
{
    let Some(term) = pivot.value.body().terms.as_slice().first() else {
        return Ok(combination);
    };
    let own = combination.value.coeff(&term.0);
    if own == 0 {
        return Ok(combination);
    }
    cancelled_by(alloc, &term.1, &own, pivot, &combination)
}

/// The combination in which the first monomials of the pivots' values are cancelled, one after the
/// other; Large exactly where a polynomial on the way passes the limits.
pub(crate) fn reduced(
    alloc: Global,
    combination: &Combination,
    pivots: &[Combination],
) -> Result<Combination, PolyEnd>
    ensures { Forms PolyEnd.Large result (reduced pivots.now combination.now) }
{
    let mut rest = combination.try_clone(alloc)?;
    for pivot in pivots {
        rest = cancelled(alloc, rest, pivot)?;
    }
    Ok(rest)
}
