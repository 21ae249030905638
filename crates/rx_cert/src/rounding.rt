//! Sums of rows that are divided and rounded down.
ghost use Rattle.std.specs.Prelude.{◌≡◌, ◌++◌, [], true, false, ◌&&◌, ◌||◌, pos, ◌<ℤ◌, IfOk, OnOk};
ghost use Rattle.std.specs.Int.{int_div_euclid};
ghost use Rattle.rx_plain.specs.Formed.{Forms};
ghost use Rattle.rx_cert.specs.Rounding.{rounding_formed, divides, divides_terms, can_be_rounded_by, is_one, rounded, rounded_terms};
ghost use Rattle.rx_poly.specs.Terms.{cons_nonzero};

use rx_plain::Items;
use rx_poly::{Body, Mono, Poly, PolyEnd};
use rx_row::{Row, combine_rows};
use std::alloc::{AllocError, Global};

/// Whether the number is a multiple of the divisor.
fn is_multiple(div: &i128, number: &i128) -> bool
    requires { pos 0 <ℤ div.now }
    ensures { result ≡ divides div.now number.now }
{
    number.rem_euclid(*div) == 0
}

/// The number divided by the divisor, and rounded down.
fn rounded_down(div: &i128, number: &i128) -> i128
    requires { pos 0 <ℤ div.now }
    ensures { result ≡ int_div_euclid number.now div.now }
{
    number.div_euclid(*div)
}

/// Whether the term's coefficient is a multiple of the divisor, or the term is the last one and the
/// constant.
fn may_be_rounded(div: &i128, term: &(Mono, i128), is_last: bool) -> bool
    requires { pos 0 <ℤ div.now }
    ensures { result ≡ ((is_last && is_one term.now.0) || divides div.now term.now.1) }
{
    (is_last && term.0.atoms.is_empty()) || is_multiple(div, &term.1)
}

/// Whether each coefficient but the constant is a multiple of the divisor.
fn all_may_be_rounded(div: &i128, terms: &[(Mono, i128)]) -> bool
    requires { pos 0 <ℤ div.now }
    ensures { result ≡ divides_terms div.now terms.now }
{
    let mut rest = terms;
    while let Some((term, more)) = rest.split_first() {
        if !may_be_rounded(div, term, more.is_empty()) {
            return false;
        }
        rest = more;
    }
    true
}

/// Whether the divisor is at least 1 and divides each coefficient but the constant.
fn can_be_rounded(div: &i128, poly: &Poly) -> bool
    ensures { result ≡ can_be_rounded_by div.now poly.now }
{
    *div > 0 && all_may_be_rounded(div, poly.body().terms.as_slice())
}

/// Adds the term with its coefficient rounded after the others, unless that is 0.
fn push_rounded(
    terms: &mut Items<(Mono, i128)>,
    alloc: Global,
    div: &i128,
    term: &(Mono, i128),
) -> Result<(), AllocError>
    requires { pos 0 <ℤ div.now }
    ensures { OnOk result (terms.new ≡ terms.old ++
        cons_nonzero term.now.0 (int_div_euclid term.now.1 div.now) []) }
{
    let quotient = rounded_down(div, &term.1);
    if quotient == 0 {
        return Ok(());
    }
    let mono = term.0.try_clone(alloc)?;
    terms.push((mono, quotient))
}

/// The terms with their coefficients rounded, without those that are 0 then.
fn round_terms(
    alloc: Global,
    div: &i128,
    terms: &[(Mono, i128)],
) -> Result<Items<(Mono, i128)>, AllocError>
    requires { pos 0 <ℤ div.now }
    ensures { IfOk result (λ us. us ≡ rounded_terms div.now terms.now) }
{
    let mut quotients = Items::new(alloc);
    for term in terms {
        push_rounded(&mut quotients, alloc, div, term)?;
    }
    Ok(quotients)
}

/// The polynomial with its coefficients rounded.
fn round(alloc: Global, div: &i128, poly: &Poly) -> Result<Poly, AllocError>
    requires { pos 0 <ℤ div.now }
    ensures { IfOk result (λ p. p ≡ rounded div.now poly.now) }
{
    let terms = round_terms(alloc, div, poly.body().terms.as_slice())?;
    let made = Poly::from_body(alloc, Body { terms })?;
    match made {
        Some(quotient) => Ok(quotient),
        None => unreachable!(),
    }
}

/// The row that the rounded sum of the parts is at least 0; none where a part isn't lawful or the
/// divisor doesn't divide the sum. Large exactly where a polynomial on the way to the sum passes
/// the limits.
pub fn rounded_row(
    alloc: Global,
    rows: &[Row],
    parts: &[(u32, i128)],
    div: &i128,
) -> Result<Option<Row>, PolyEnd>
    ensures forms { Forms PolyEnd.Large result (rounding_formed div.now rows.now parts.now) }
{
    match combine_rows(alloc, rows, parts)? {
        Some(sum) if can_be_rounded(div, &sum) => Ok(Some(Row::Ge(round(alloc, div, &sum)?))),
        _ => Ok(None),
    }
}
