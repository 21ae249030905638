//! Polynomials by symbol.
ghost use Rattle.std.specs.Prelude.{◌≡◌, IfOk};
ghost use Rattle.std.specs.Option.{option_copied};
ghost use Rattle.rx_anchors.specs.Values.{polynomial_of, polys_at, with_choice, with_polynomial};
ghost use Rattle.rx_anchors.specs.Values.{without_polynomials};

use rx_plain::NoMemory;
use rx_poly::Poly;
use std::alloc::Global;

/// No polynomial for any of that many symbols.
pub fn without_polynomials(alloc: Global, symbols: usize) -> Result<Vec<Option<Poly>>, NoMemory>
    ensures { IfOk result (λ values. values.items ≡ without_polynomials symbols) }
{
    let mut values = Vec::with_capacity(alloc, symbols)?;
    for _symbol in 0..symbols {
        values.push(None)?;
    }
    Ok(values)
}

/// The symbol's polynomial, if it has one.
pub fn polynomial_of(values: &[Option<Poly>], symbol: u32) -> Option<&Poly>
    ensures { option_copied result ≡ polynomial_of values.now symbol }
{
    match values.get(symbol as usize) {
        Some(Some(poly)) => Some(poly),
        _ => None,
    }
}

/// Gives the symbol that polynomial, where there is such a symbol.
pub fn put_polynomial(values: &mut Vec<Option<Poly>>, symbol: u32, poly: Poly)
    ensures { values.new.items ≡ with_polynomial values.old.items symbol poly }
{
    let at = symbol as usize;
    if at < values.len() {
        values[at] = Some(poly);
    }
}

/// The polynomials of a choice, one for each of the symbols.
pub fn choice_values(
    alloc: Global,
    symbols: usize,
    anchors: &[u32],
    choice: &[&Poly],
) -> Result<Vec<Option<Poly>>, NoMemory>
    ensures { IfOk result (λ values. values.items ≡
        with_choice (without_polynomials symbols) anchors.now (polys_at choice.now)) }
{
    let mut values = without_polynomials(alloc, symbols)?;
    for (at, anchor) in anchors.iter().enumerate() {
        match choice.get(at) {
            Some(poly) => put_polynomial(&mut values, *anchor, poly.try_clone(alloc)?),
            None => return Ok(values),
        }
    }
    Ok(values)
}
