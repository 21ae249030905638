//! Certificates, assembled from their first words and the certificates in them.
ghost use Rattle.std.specs.Prelude.{◌≡◌, IfOk};
ghost use Rattle.std.specs.Option.{option_map};
ghost use Rattle.rx_words.specs.Heads.{assembled, only_one, only_two};

use crate::heads::Head;
use rx_cert::{Cert, Parts};
use rx_plain::{Boxed, Items, NoMemory};
use rx_poly::Poly;
use rx_row::Row;
use std::alloc::Global;

/// The one certificate of the list, where it has one.
fn only_one(alloc: Global, mut inner: Items<Cert>) -> Result<Option<Boxed<Cert>>, NoMemory>
    ensures { IfOk result (λ found. found ≡ only_one inner) }
{
    let Some(last) = inner.pop() else {
        return Ok(None);
    };
    if inner.is_empty() {
        Ok(Some(Boxed::new(alloc, last)?))
    } else {
        Ok(None)
    }
}

/// The two certificates of the list, where it has two.
fn only_two(
    alloc: Global,
    mut inner: Items<Cert>,
) -> Result<Option<(Boxed<Cert>, Boxed<Cert>)>, NoMemory>
    ensures { IfOk result (λ found. found ≡ only_two inner) }
{
    let Some(second) = inner.pop() else {
        return Ok(None);
    };
    let Some(first) = only_one(alloc, inner)? else {
        return Ok(None);
    };
    Ok(Some((first, Boxed::new(alloc, second)?)))
}

/// A sum, where no certificate comes after it.
fn sum(parts: Parts, inner: &Items<Cert>) -> Option<Cert>
    ensures { result ≡ assembled (Head.Sum parts) inner.now }
{
    if inner.is_empty() {
        Some(Cert::Sum(parts))
    } else {
        None
    }
}

/// A rounded sum.
fn cut(parts: Parts, div: i128, inner: Option<Boxed<Cert>>) -> Option<Cert>
    ensures { result ≡ option_map (λ rest. Cert.Cut parts div rest) inner }
{
    match inner {
        Some(rest) => Some(Cert::Cut { parts, div, rest }),
        None => None,
    }
}

/// A row or its negation.
fn split(row: Row, inner: Option<(Boxed<Cert>, Boxed<Cert>)>) -> Option<Cert>
    ensures { result ≡ option_map (λ pair. Cert.Split row pair.0 pair.1) inner }
{
    match inner {
        Some((yes, no)) => Some(Cert::Split { row, yes, no }),
        None => None,
    }
}

/// At least 1, or at most -1.
fn difference(at: u32, inner: Option<(Boxed<Cert>, Boxed<Cert>)>) -> Option<Cert>
    ensures { result ≡ option_map (λ pair. Cert.Differ at pair.0 pair.1) inner }
{
    match inner {
        Some((pos, neg)) => Some(Cert::Differ { at, pos, neg }),
        None => None,
    }
}

/// A variable is replaced.
fn solution(first: u32, second: u32, var: u32, inner: Option<Boxed<Cert>>) -> Option<Cert>
    ensures { result ≡ option_map (λ rest. Cert.Solve first second var rest) inner }
{
    match inner {
        Some(rest) => Some(Cert::Solve {
            first,
            second,
            var,
            rest,
        }),
        None => None,
    }
}

/// A quotient and a remainder.
fn division(num: Poly, den: i128, inner: Option<(Boxed<Cert>, Boxed<Cert>)>) -> Option<Cert>
    ensures { result ≡ option_map (λ pair. Cert.DivFacts num den pair.0 pair.1) inner }
{
    match inner {
        Some((pos, neg)) => Some(Cert::DivFacts { num, den, pos, neg }),
        None => None,
    }
}

/// The certificate that begins so and has those certificates in it; None where another number of
/// them belongs there.
pub(crate) fn assembled(
    alloc: Global,
    head: Head,
    inner: Items<Cert>,
) -> Result<Option<Cert>, NoMemory>
    ensures { IfOk result (λ cert. cert ≡ assembled head inner) }
{
    match head {
        Head::Sum(parts) => Ok(sum(parts, &inner)),
        Head::Cut(parts, div) => Ok(cut(parts, div, only_one(alloc, inner)?)),
        Head::Split(row) => Ok(split(row, only_two(alloc, inner)?)),
        Head::Differ(at) => Ok(difference(at, only_two(alloc, inner)?)),
        Head::Solve(first, second, var) => {
            Ok(solution(first, second, var, only_one(alloc, inner)?))
        }
        Head::DivFacts(num, den) => Ok(division(num, den, only_two(alloc, inner)?)),
    }
}
