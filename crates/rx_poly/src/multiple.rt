//! A sum times a number.
ghost use Rattle.std.specs.Prelude.{[], ◌++◌, ◌*ℤ◌};
ghost use Rattle.rx_plain.specs.Formed.{Forms, FormsAs, kept};
ghost use Rattle.rx_poly.specs.Limits.{all_fit, fits_i128};
ghost use Rattle.rx_poly.specs.Terms.{cons_nonzero, times_number};

use crate::body::Mono;
use crate::poly_end::PolyEnd;
use rx_plain::Items;
use std::alloc::Global;

/// Adds the term times the number after the others, unless that is 0.
fn push_multiple(
    terms: &mut Items<(Mono, i128)>,
    alloc: Global,
    term: &(Mono, i128),
    by: &i128,
) -> Result<(), PolyEnd>
    ensures { FormsAs (λ _. terms.new) PolyEnd.Large result
        (record {
          form = terms.old ++ cons_nonzero term.now.0 (term.now.1 *ℤ by.now) [];
          within =
              fits_i128 (term.now.1 *ℤ by.now);
        }) }
{
    let Some(product) = term.1.checked_mul(*by) else {
        return Err(PolyEnd::Large);
    };
    if product == 0 {
        return Ok(());
    }
    let mono = term.0.try_clone(alloc)?;
    terms.push((mono, product))?;
    Ok(())
}

/// Each of the terms times the number, without those that are 0.
pub(crate) fn multiple(
    alloc: Global,
    terms: &[(Mono, i128)],
    by: &i128,
) -> Result<Items<(Mono, i128)>, PolyEnd>
    ensures { Forms PolyEnd.Large result (kept all_fit (times_number by.now terms.now)) }
{
    let mut multiples = Items::with_capacity(alloc, terms.len())?;
    for term in terms {
        push_multiple(&mut multiples, alloc, term, by)?;
    }
    Ok(multiples)
}
