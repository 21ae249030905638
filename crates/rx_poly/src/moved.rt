//! The sum of two sums that takes over their terms and copies none.
ghost use Rattle.std.specs.Prelude.{◌≡◌, [], ◌++◌, true, ◌+ℤ◌, OnOk};
ghost use Rattle.std.specs.Vec.Iter.{into_iter_items};
ghost use Rattle.rx_plain.specs.Formed.{Forms, FormsAs, kept};
ghost use Rattle.rx_poly.specs.Limits.{all_fit, fits_i128, is_sum};
ghost use Rattle.rx_poly.specs.Order.{mono_cmp};
ghost use Rattle.rx_poly.specs.Terms.{add_terms, first_and_rest, cons_nonzero};

use crate::body::Mono;
use crate::poly_end::PolyEnd;
use rx_plain::Items;
use std::alloc::{AllocError, Global};
use std::cmp::Ordering;
use std::vec::IntoIter;

/// Adds the term with that number added after the others, unless that is 0.
fn push_added(
    terms: &mut Items<(Mono, i128)>,
    term: (Mono, i128),
    number: &i128,
) -> Result<(), PolyEnd>
    ensures forms { FormsAs (λ _. terms.new) PolyEnd.Large result
        (record {
          form = terms.old ++ cons_nonzero term.0 (term.1 +ℤ number.now) [];
          within =
              fits_i128 (term.1 +ℤ number.now);
        }) }
{
    let (mono, coefficient) = term;
    let Some(sum) = coefficient.checked_add(*number) else {
        return Err(PolyEnd::Large);
    };
    if sum == 0 {
        return Ok(());
    }
    terms.push((mono, sum))?;
    Ok(())
}

/// Adds the terms that are left after the others.
fn push_rest(
    terms: &mut Items<(Mono, i128)>,
    first: Option<(Mono, i128)>,
    more: IntoIter<(Mono, i128), Global>,
) -> Result<(), AllocError>
    ensures { OnOk result (terms.new ≡ terms.old ++ first_and_rest first (into_iter_items more)) }
{
    let mut next = first;
    let mut rest = more;
    while let Some(term) = next {
        terms.push(term)?;
        next = rest.next();
    }
    Ok(())
}

/// The sum of the two, each with rising monomials and no coefficient 0.
pub(crate) fn moved_sum(
    alloc: Global,
    left: Items<(Mono, i128)>,
    right: Items<(Mono, i128)>,
) -> Result<Items<(Mono, i128)>, PolyEnd>
    requires left { is_sum left ≡ true }
    requires right { is_sum right ≡ true }
    ensures forms { Forms PolyEnd.Large result (kept all_fit (add_terms mono_cmp left right)) }
{
    let mut sum = Items::with_capacity(alloc, left.len().saturating_add(right.len()))?;
    let mut ts = left.into_vec().into_iter();
    let mut us = right.into_vec().into_iter();
    let mut first = ts.next();
    let mut second = us.next();
    while let Some(t) = first {
        let Some(u) = second else {
            sum.push(t)?;
            first = ts.next();
            second = None;
            continue;
        };
        match t.0.cmp(&u.0) {
            Ordering::Less => {
                sum.push(t)?;
                first = ts.next();
                second = Some(u);
            }
            Ordering::Equal => {
                push_added(&mut sum, t, &u.1)?;
                first = ts.next();
                second = us.next();
            }
            Ordering::Greater => {
                sum.push(u)?;
                first = Some(t);
                second = us.next();
            }
        }
    }
    push_rest(&mut sum, second, us)?;
    Ok(sum)
}
