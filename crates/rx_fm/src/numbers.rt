//! Greatest common divisors, and lists of numbers that are combined and divided.
ghost use Rattle.std.specs.Prelude.{◌≡◌, ◌≤ℤ◌, ◌<ℤ◌, ◌%◌, ◌+ℤ◌, ◌*ℤ◌, pos, true, false, ◌++◌, [], ◌∷◌, ℤ, unsigned_abs, IfOk, IfErr, OnOk, SomeIff};
ghost use Rattle.rx_poly.specs.Value.{quotient};
ghost use Rattle.rx_poly.specs.Limits.{fits_i128};
ghost use Rattle.rx_fm.specs.Numbers.{combined, combined_within, gcd, gcd_with, quotients, size_fits, sizes_fit, sum_within};

use crate::fm_end::FmEnd;
use rx_plain::Items;
use std::alloc::{AllocError, Global};

/// The number without its sign; None where this leaves i128.
pub fn size(number: &i128) -> Option<i128>
    ensures { SomeIff result (size_fits number.now ≡ true) (pos (unsigned_abs number.now)) }
{
    if *number < 0 {
        number.checked_neg()
    } else {
        Some(*number)
    }
}

/// The remainder of the one by the other.
#[tactic(auto, using(crate::proofs::Gcd::rem_sizes))]
fn remainder(number: &i128, by: &i128) -> i128
    requires number { pos 0 ≤ℤ number.now }
    requires by { pos 0 <ℤ by.now }
    ensures { result ≡ pos (unsigned_abs number.now % unsigned_abs by.now) }
{
    *number % *by
}

/// The greatest common divisor. Where the first is 1, nothing is divided.
pub(crate) fn gcd(left: &i128, right: &i128) -> i128
    requires left { pos 0 ≤ℤ left.now }
    requires right { pos 0 ≤ℤ right.now }
    ensures { result ≡ pos (gcd (unsigned_abs left.now) (unsigned_abs right.now)) }
{
    if *left == 1 {
        return 1;
    }
    let mut x = *left;
    let mut y = *right;
    while y != 0 {
        let rest = remainder(&x, &y);
        x = y;
        y = rest;
    }
    x
}

/// The greatest common divisor of the first and the sizes of the others; None where one of these
/// leaves i128.
pub fn gcd_with(first: &i128, others: &[i128]) -> Option<i128>
    requires { pos 0 ≤ℤ first.now }
    ensures { SomeIff result (sizes_fit others.now ≡ true)
        (pos (gcd_with (unsigned_abs first.now) others.now)) }
{
    let mut common = *first;
    for number in others {
        common = gcd(&common, &size(number)?);
    }
    Some(common)
}

/// The number divided by one that isn't negative; 0 where that is 0.
pub(crate) fn divided(number: &i128, by: &i128) -> i128
    requires { pos 0 ≤ℤ by.now }
    ensures { result ≡ quotient number.now by.now }
{
    if *by == 0 { 0 } else { *number / *by }
}

/// Each number divided by one that isn't negative.
pub(crate) fn quotients(
    alloc: Global,
    numbers: &[i128],
    by: &i128,
) -> Result<Items<i128>, AllocError>
    requires { pos 0 ≤ℤ by.now }
    ensures { IfOk result (λ xs. xs ≡ quotients (unsigned_abs by.now) numbers.now) }
{
    let mut made = Items::with_capacity(alloc, numbers.len())?;
    for number in numbers {
        made.push(divided(number, by))?;
    }
    Ok(made)
}

/// The product; None where it leaves i128.
fn product(number: &i128, by: &i128) -> Option<i128>
    ensures { SomeIff result (fits_i128 (number.now *ℤ by.now) ≡ true) (number.now *ℤ by.now) }
{
    number.checked_mul(*by)
}

/// The sum; None where it leaves i128.
fn sum(left: &i128, right: &i128) -> Option<i128>
    ensures { SomeIff result (fits_i128 (left.now +ℤ right.now) ≡ true) (left.now +ℤ right.now) }
{
    left.checked_add(*right)
}

/// The sum of two products; None where one of the three leaves i128.
fn sum_of_products(k: &i128, x: &i128, l: &i128, y: &i128) -> Option<i128>
    ensures { SomeIff result (sum_within k.now x.now l.now y.now ≡ true)
        (x.now *ℤ k.now +ℤ y.now *ℤ l.now) }
{
    let first = product(x, k)?;
    let second = product(y, l)?;
    sum(&first, &second)
}

/// The numbers of the one list times one factor plus those of the other times another. Large
/// exactly where one of the products or sums leaves i128.
pub(crate) fn combined(
    alloc: Global,
    left: &[i128],
    k: &i128,
    right: &[i128],
    l: &i128,
) -> Result<Items<i128>, FmEnd>
    ensures sums { IfOk result (λ zs. zs ≡ combined k.now left.now l.now right.now) }
    ensures within { OnOk result (combined_within k.now left.now l.now right.now ≡ true) }
    ensures large { IfErr result (λ e. e ≡ FmEnd.Large →
        combined_within k.now left.now l.now right.now ≡ false) }
{
    let mut made = Items::with_capacity(alloc, left.len())?;
    let mut xs = left;
    let mut ys = right;
    while let Some((x, xs_after)) = xs.split_first() {
        let Some((y, ys_after)) = ys.split_first() else {
            break;
        };
        let Some(sum) = sum_of_products(k, x, l, y) else {
            return Err(FmEnd::Large);
        };
        made.push(sum)?;
        xs = xs_after;
        ys = ys_after;
    }
    Ok(made)
}
