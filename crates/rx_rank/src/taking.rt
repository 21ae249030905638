//! What the left symbol of a pair takes from its right one.
ghost use Rattle.std.specs.Prelude.{◌≡◌, IfOk, Some};
ghost use Rattle.rx_rank.specs.Answers.{tried};
ghost use Rattle.rx_rank.specs.Choices.{instance_on, raised_by};
ghost use Rattle.rx_rank.specs.Memo.{taken};
ghost use Rattle.rx_rank.specs.Tries.{and_then};

use crate::attempt::{Attempt, noted_before};
use rx_pairs::{Pair, on_right};
use rx_plain::NoMemory;
use rx_poly::{Poly, PolyEnd};
use std::alloc::Global;

/// The instance of the polynomial that the pair leads to.
fn instance_of(alloc: Global, pair: &Pair, right: &Poly) -> Result<Attempt<Poly>, NoMemory>
    ensures { IfOk result (λ t. tried t ≡ instance_on pair.now (Some right.now)) }
{
    match on_right(alloc, pair, right) {
        Ok(poly) => Ok(Attempt {
            made: Some(poly),
            noted: false,
        }),
        Err(PolyEnd::Large) => Ok(Attempt {
            made: None,
            noted: true,
        }),
        Err(PolyEnd::NoMemory) => Err(NoMemory),
    }
}

/// The polynomial, and 1 more where its symbol is raised.
fn raised_by(alloc: Global, raised: bool, poly: Poly) -> Result<Attempt<Poly>, NoMemory>
    ensures { IfOk result (λ t. tried t ≡ raised_by raised poly) }
{
    if !raised {
        return Ok(Attempt {
            made: Some(poly),
            noted: false,
        });
    }
    let one = Poly::constant(alloc, 1)?;
    match poly.add(alloc, &one) {
        Ok(sum) => Ok(Attempt {
            made: Some(sum),
            noted: false,
        }),
        Err(PolyEnd::Large) => Ok(Attempt {
            made: None,
            noted: true,
        }),
        Err(PolyEnd::NoMemory) => Err(NoMemory),
    }
}

/// The same of an instance, where there is one.
fn raised_instance(
    alloc: Global,
    raised: bool,
    instance: Attempt<Poly>,
) -> Result<Attempt<Poly>, NoMemory>
    ensures { IfOk result (λ t. tried t ≡ and_then (tried instance) (raised_by raised)) }
{
    let noted = instance.noted;
    let Some(poly) = instance.made else {
        return Ok(Attempt { made: None, noted });
    };
    let attempt = raised_by(alloc, raised, poly)?;
    Ok(noted_before(noted, attempt))
}

/// What the left symbol takes from the polynomial of the right one: its instance, and 1 more where
/// the left symbol is raised.
pub(crate) fn take_from(
    alloc: Global,
    raised: bool,
    pair: &Pair,
    right: &Poly,
) -> Result<Attempt<Poly>, NoMemory>
    ensures { IfOk result (λ t. tried t ≡ taken raised pair.now right.now) }
{
    let instance = instance_of(alloc, pair, right)?;
    raised_instance(alloc, raised, instance)
}

/// The same once more.
pub(crate) fn copied_attempt(
    alloc: Global,
    attempt: &Attempt<Poly>,
) -> Result<Attempt<Poly>, NoMemory>
    ensures { IfOk result (λ made. made ≡ attempt.now) }
{
    let noted = attempt.noted;
    match &attempt.made {
        Some(poly) => Ok(Attempt {
            made: Some(poly.try_clone(alloc)?),
            noted,
        }),
        None => Ok(Attempt { made: None, noted }),
    }
}
