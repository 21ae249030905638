//! The sum or difference of two sums whose monomials rise, merged from the front.
ghost use Rattle.std.specs.Prelude.{◌≡◌, ◌+◌, ◌<◌, [], ◌∷◌, ◌++◌, true, length, ◌+ℤ◌, OnOk};
ghost use Rattle.rx_plain.specs.Formed.{Forms, FormsAs, kept};
ghost use Rattle.rx_poly.specs.Limits.{all_fit, fits_i128, is_sum};
ghost use Rattle.rx_poly.specs.Order.{mono_cmp};
ghost use Rattle.rx_poly.specs.Signs.{signed, with_sign};
ghost use Rattle.rx_poly.specs.Terms.{add_terms, cons_nonzero, times_number};

use crate::body::Mono;
use crate::poly_end::PolyEnd;
use crate::sign::{Sign, sum_of, with_its_sign};
use rx_plain::Items;
use std::alloc::{AllocError, Global};
use std::cmp::Ordering;

/// Copies `term` after the others.
fn push_term(
    terms: &mut Items<(Mono, i128)>,
    alloc: Global,
    term: &(Mono, i128),
) -> Result<(), AllocError>
    ensures { OnOk result (terms.new ≡ terms.old ++ term.now ∷ []) }
{
    let mono = term.0.try_clone(alloc)?;
    terms.push((mono, term.1))
}

/// Copies `term` with that sign after the others.
fn push_signed(
    terms: &mut Items<(Mono, i128)>,
    alloc: Global,
    term: &(Mono, i128),
    sign: Sign,
) -> Result<(), PolyEnd>
    ensures { FormsAs (λ _. terms.new) PolyEnd.Large result
        (record {
          form = terms.old ++ (term.now.0, signed sign term.now.1) ∷ [];
          within =
              fits_i128 (signed sign term.now.1);
        }) }
{
    let Some(number) = with_its_sign(&term.1, sign) else {
        return Err(PolyEnd::Large);
    };
    let mono = term.0.try_clone(alloc)?;
    terms.push((mono, number))?;
    Ok(())
}

/// Adds the one term plus or minus the other of the same monomial after the others, unless that is
/// 0.
fn push_sum(
    terms: &mut Items<(Mono, i128)>,
    alloc: Global,
    left: &(Mono, i128),
    right: &(Mono, i128),
    sign: Sign,
) -> Result<(), PolyEnd>
    ensures { FormsAs (λ _. terms.new) PolyEnd.Large result
        (record {
          form =
              terms.old ++ cons_nonzero left.now.0 (left.now.1 +ℤ signed sign right.now.1) [];
          within = fits_i128 (left.now.1 +ℤ signed sign right.now.1);
        }) }
{
    let Some(sum) = sum_of(&left.1, &right.1, sign) else {
        return Err(PolyEnd::Large);
    };
    if sum == 0 {
        return Ok(());
    }
    let mono = left.0.try_clone(alloc)?;
    terms.push((mono, sum))?;
    Ok(())
}

/// Copies the terms of `more` with that sign after the others.
fn push_all(
    terms: &mut Items<(Mono, i128)>,
    alloc: Global,
    more: &[(Mono, i128)],
    sign: Sign,
) -> Result<(), PolyEnd>
    ensures { FormsAs (λ _. terms.new) PolyEnd.Large result
        (record {
          form = terms.old ++ with_sign sign more.now;
          within = all_fit (with_sign sign more.now);
        }) }
{
    for term in more {
        push_signed(terms, alloc, term, sign)?;
    }
    Ok(())
}

/// The one sum plus or minus the other, each with rising monomials and no coefficient 0.
pub(crate) fn merge(
    alloc: Global,
    left: &[(Mono, i128)],
    right: &[(Mono, i128)],
    sign: Sign,
) -> Result<Items<(Mono, i128)>, PolyEnd>
    requires left { is_sum left.now ≡ true }
    requires right { is_sum right.now ≡ true }
    ensures { Forms PolyEnd.Large result
        (kept all_fit (add_terms mono_cmp left.now (with_sign sign right.now))) }
{
    let mut sum = Items::with_capacity(alloc, left.len().saturating_add(right.len()))?;
    let mut ts = left;
    let mut us = right;
    while let Some((t, ts_after)) = ts.split_first() {
        let Some((u, us_after)) = us.split_first() else {
            push_term(&mut sum, alloc, t)?;
            ts = ts_after;
            continue;
        };
        match t.0.cmp(&u.0) {
            Ordering::Less => {
                push_term(&mut sum, alloc, t)?;
                ts = ts_after;
            }
            Ordering::Equal => {
                push_sum(&mut sum, alloc, t, u, sign)?;
                ts = ts_after;
                us = us_after;
            }
            Ordering::Greater => {
                push_signed(&mut sum, alloc, u, sign)?;
                us = us_after;
            }
        }
    }
    push_all(&mut sum, alloc, us, sign)?;
    Ok(sum)
}
