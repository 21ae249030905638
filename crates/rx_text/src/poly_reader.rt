//! Polynomials read from text. A sum is read first; whether it is a normal form is looked at last.
ghost use Rattle.std.specs.Prelude.{◌≡◌, ◌∷◌, ℕ, ◌≤◌, drop, length, not, IfOk, None};
ghost use Rattle.rx_poly.specs.Limits.{of_atoms};
ghost use Rattle.rx_poly.specs.Terms.{is_zero};
ghost use Rattle.rx_text.specs.Formats.{Reads, StandsAt, is_over};
ghost use Rattle.rx_text.specs.Plain.{atoms, is_plain_inside, pairs, sums_nested, terms};
ghost use Rattle.rx_text.specs.Polynomials.{goes_on_with_poly, polynomials};

use crate::digits::{ends_number, is_digit};
use crate::numbers::{read_integer, read_natural};
use crate::words::skip_word;
use rx_plain::{Graded, Items, NoMemory};
use rx_poly::{Atom, Body, Mono, Poly};
use std::alloc::Global;

/// How deep quotients and remainders may be nested.
const DEEPEST: u32 = 64;

/// The greatest variable that has a text.
const LAST_VARIABLE: u32 = 999_999;

/// Whether neither a digit nor `*` nor `+` is at the place.
fn ends_poly(bytes: &[u8], at: usize) -> bool
    ensures { result ≡ is_over goes_on_with_poly (drop at bytes.now) }
{
    match bytes.get(at) {
        Some(byte) => !(is_digit(*byte) || *byte == b'*' || *byte == b'+'),
        None => true,
    }
}

/// The two parts of a quotient or remainder, up to the closing parenthesis.
#[cycle(reading)]
fn read_parts(
    alloc: Global,
    bytes: &[u8],
    at: usize,
    depth: u32,
) -> Result<Option<((Body, Body), usize)>, NoMemory>
    ensures { IfOk result (λ read. Reads (pairs (sums_nested depth)) bytes.now at read) }
{
    let Some((num, num_end)) = read_sum(alloc, bytes, at, depth)? else {
        return Ok(None);
    };
    let Some(den_at) = skip_word(bytes, num_end, b",") else {
        return Ok(None);
    };
    let Some((den, den_end)) = read_sum(alloc, bytes, den_at, depth)? else {
        return Ok(None);
    };
    let Some(end) = skip_word(bytes, den_end, b")") else {
        return Ok(None);
    };
    if ends_number(bytes, end) {
        Ok(Some(((num, den), end)))
    } else {
        Ok(None)
    }
}

/// An atom.
#[cycle(reading)]
fn read_atom(
    alloc: Global,
    bytes: &[u8],
    at: usize,
    depth: u32,
) -> Result<Option<(Atom, usize)>, NoMemory>
    ensures { IfOk result (λ read. Reads (atoms (is_plain_inside depth)) bytes.now at read) }
{
    if let Some(after) = skip_word(bytes, at, b"v") {
        return match read_natural(bytes, after, LAST_VARIABLE) {
            Some((var, end)) => Ok(Some((Atom::Var(var), end))),
            None => Ok(None),
        };
    }
    if depth == 0 {
        return Ok(None);
    }
    if let Some(after) = skip_word(bytes, at, b"div(") {
        return match read_parts(alloc, bytes, after, depth - 1)? {
            Some((parts, end)) => Ok(Some((Atom::Div(parts.0, parts.1), end))),
            None => Ok(None),
        };
    }
    if let Some(after) = skip_word(bytes, at, b"mod(") {
        return match read_parts(alloc, bytes, after, depth - 1)? {
            Some((parts, end)) => Ok(Some((Atom::Mod(parts.0, parts.1), end))),
            None => Ok(None),
        };
    }
    Ok(None)
}

/// Whether the number is 0.
fn is_zero(number: &i128) -> bool
    ensures { result ≡ is_zero number.now }
{
    *number == 0
}

/// The term of these factors.
fn term_of(factors: Graded<Atom>, coefficient: &i128) -> (Mono, i128)
    ensures { result ≡ (of_atoms factors, coefficient.now) }
{
    (Mono { atoms: factors }, *coefficient)
}

/// A term.
#[cycle(reading)]
fn read_term(
    alloc: Global,
    bytes: &[u8],
    at: usize,
    depth: u32,
) -> Result<Option<((Mono, i128), usize)>, NoMemory>
    ensures { IfOk result (λ read. Reads (terms (is_plain_inside depth)) bytes.now at read) }
{
    let Some((coefficient, number_end)) = read_integer(bytes, at) else {
        return Ok(None);
    };
    if is_zero(&coefficient) {
        return Ok(None);
    }
    let mut factors = Graded::new(alloc);
    let mut place = number_end;
    while let Some(after) = skip_word(bytes, place, b"*") {
        let Some((atom, end)) = read_atom(alloc, bytes, after, depth)? else {
            return Ok(None);
        };
        factors.push(atom)?;
        place = end;
    }
    Ok(Some((term_of(factors, &coefficient), place)))
}

/// The sum without terms.
fn read_zero(alloc: Global, bytes: &[u8], at: usize, depth: u32) -> Option<(Body, usize)>
    requires { Reads (terms (is_plain_inside depth)) bytes.now at None }
    ensures { Reads (sums_nested depth) bytes.now at result }
{
    let Some(end) = skip_word(bytes, at, b"0") else {
        return None;
    };
    if ends_poly(bytes, end) {
        let terms = Items::new(alloc);
        Some((Body { terms }, end))
    } else {
        None
    }
}

/// A sum: the first term, and those after it.
#[cycle(reading)]
fn read_sum(
    alloc: Global,
    bytes: &[u8],
    at: usize,
    depth: u32,
) -> Result<Option<(Body, usize)>, NoMemory>
    ensures { IfOk result (λ read. Reads (sums_nested depth) bytes.now at read) }
{
    let Some((first, first_end)) = read_term(alloc, bytes, at, depth)? else {
        return Ok(read_zero(alloc, bytes, at, depth));
    };
    let mut summands = Items::new(alloc);
    summands.push(first)?;
    let mut place = first_end;
    while let Some(after) = skip_word(bytes, place, b"+") {
        let Some((term, end)) = read_term(alloc, bytes, after, depth)? else {
            return Ok(None);
        };
        summands.push(term)?;
        place = end;
    }
    Ok(Some((Body { terms: summands }, place)))
}

/// The polynomial whose text is at the place, and the place after it. None where no text of a
/// polynomial is there: also of a sum that is no normal form, that passes the limits of a
/// polynomial, or that has a variable from 1,000,000 on.
pub fn read_poly(alloc: Global, bytes: &[u8], at: usize) -> Result<Option<(Poly, usize)>, NoMemory>
    ensures { IfOk result (λ read. Reads polynomials bytes.now at read) }
{
    let Some((sum, end)) = read_sum(alloc, bytes, at, DEEPEST)? else {
        return Ok(None);
    };
    match Poly::from_body(alloc, sum)? {
        Some(poly) => Ok(Some((poly, end))),
        None => Ok(None),
    }
}
