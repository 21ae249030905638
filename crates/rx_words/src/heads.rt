//! The first words of a certificate: its kind, and all that comes before the certificates in it.
ghost use Rattle.std.specs.Prelude.{◌≡◌, IfOk};
ghost use Rattle.rx_text.specs.Formats.{Reads};
ghost use Rattle.rx_words.specs.Heads.{ReadsKind, fields, heads, inner_count, solution};

use crate::numbers::{Variable, read_number};
use crate::pairs::read_pair;
use crate::parts::read_parts;
use crate::text::Text;
use rx_cert::Parts;
use rx_plain::NoMemory;
use rx_poly::Poly;
use rx_row::Row;
use rx_text::skip_word;
use std::alloc::Global;

/// The kinds of certificates.
#[derive(Clone, Copy)]
pub(crate) enum Kind {
    /// A sum of rows.
    Sum,
    /// A rounded sum.
    Cut,
    /// A row or its negation.
    Split,
    /// At least 1, or at most -1.
    Differ,
    /// A variable is replaced.
    Solve,
    /// A quotient and a remainder.
    DivFacts,
}

/// What a certificate is but for the certificates in it.
#[derive(Drop)]
pub(crate) enum Head {
    /// The parts of the sum.
    Sum(Parts),
    /// The parts of the sum, and the divisor.
    Cut(Parts, i128),
    /// The row.
    Split(Row),
    /// The number of the disequality.
    Differ(u32),
    /// The numbers of the two rows, and the variable.
    Solve(u32, u32, u32),
    /// The dividend and the divisor.
    DivFacts(Poly, i128),
}

/// The kind whose word is at the place, with the place after the word and its space.
fn read_kind(bytes: &[u8], at: usize) -> Option<(Kind, usize)>
    ensures { ReadsKind bytes.now at result }
{
    if let Some(next) = skip_word(bytes, at, b"sum ") {
        return Some((Kind::Sum, next));
    }
    if let Some(next) = skip_word(bytes, at, b"cut ") {
        return Some((Kind::Cut, next));
    }
    if let Some(next) = skip_word(bytes, at, b"split ") {
        return Some((Kind::Split, next));
    }
    if let Some(next) = skip_word(bytes, at, b"differ ") {
        return Some((Kind::Differ, next));
    }
    if let Some(next) = skip_word(bytes, at, b"solve ") {
        return Some((Kind::Solve, next));
    }
    if let Some(next) = skip_word(bytes, at, b"div ") {
        return Some((Kind::DivFacts, next));
    }
    None
}

/// The parts of a sum.
fn read_sum(alloc: Global, bytes: &[u8], at: usize) -> Result<Option<(Head, usize)>, NoMemory>
    ensures { IfOk result (λ found. Reads (fields Kind.Sum) bytes.now at found) }
{
    match read_parts(alloc, bytes, at)? {
        Some((parts, end)) => Ok(Some((Head::Sum(parts), end))),
        None => Ok(None),
    }
}

/// The parts of a sum, and the divisor.
fn read_cut(alloc: Global, bytes: &[u8], at: usize) -> Result<Option<(Head, usize)>, NoMemory>
    ensures { IfOk result (λ found. Reads (fields Kind.Cut) bytes.now at found) }
{
    match read_pair(alloc, bytes, at)? {
        Some(((parts, div), end)) => Ok(Some((Head::Cut(parts, div), end))),
        None => Ok(None),
    }
}

/// A row.
fn read_split(alloc: Global, bytes: &[u8], at: usize) -> Result<Option<(Head, usize)>, NoMemory>
    ensures { IfOk result (λ found. Reads (fields Kind.Split) bytes.now at found) }
{
    match Row::read(alloc, bytes, at)? {
        Some((row, end)) => Ok(Some((Head::Split(row), end))),
        None => Ok(None),
    }
}

/// The number of a row.
fn read_differ(bytes: &[u8], at: usize) -> Option<(Head, usize)>
    ensures { Reads (fields Kind.Differ) bytes.now at result }
{
    match read_number(bytes, at) {
        Some((at, end)) => Some((Head::Differ(at), end)),
        None => None,
    }
}

/// The numbers of two rows and a variable, as what a certificate begins with.
fn solution(found: Option<((u32, (u32, Variable)), usize)>) -> Option<(Head, usize)>
    ensures { result ≡ solution found }
{
    match found {
        Some(((first, (second, Variable(var))), end)) => {
            Some((Head::Solve(first, second, var), end))
        }
        None => None,
    }
}

/// The numbers of two rows, and a variable.
fn read_solve(alloc: Global, bytes: &[u8], at: usize) -> Result<Option<(Head, usize)>, NoMemory>
    ensures { IfOk result (λ found. Reads (fields Kind.Solve) bytes.now at found) }
{
    let found = read_pair::<u32, (u32, Variable)>(alloc, bytes, at)?;
    Ok(solution(found))
}

/// A dividend and a divisor.
fn read_division(alloc: Global, bytes: &[u8], at: usize) -> Result<Option<(Head, usize)>, NoMemory>
    ensures { IfOk result (λ found. Reads (fields Kind.DivFacts) bytes.now at found) }
{
    match read_pair(alloc, bytes, at)? {
        Some(((num, den), end)) => Ok(Some((Head::DivFacts(num, den), end))),
        None => Ok(None),
    }
}

/// What comes after the word of that kind, up to the certificates in it.
fn read_fields(
    alloc: Global,
    bytes: &[u8],
    at: usize,
    kind: Kind,
) -> Result<Option<(Head, usize)>, NoMemory>
    ensures { IfOk result (λ found. Reads (fields kind) bytes.now at found) }
{
    match kind {
        Kind::Sum => read_sum(alloc, bytes, at),
        Kind::Cut => read_cut(alloc, bytes, at),
        Kind::Split => read_split(alloc, bytes, at),
        Kind::Differ => Ok(read_differ(bytes, at)),
        Kind::Solve => read_solve(alloc, bytes, at),
        Kind::DivFacts => read_division(alloc, bytes, at),
    }
}

/// The first words of a certificate, with the place after them.
pub(crate) fn read_head(
    alloc: Global,
    bytes: &[u8],
    at: usize,
) -> Result<Option<(Head, usize)>, NoMemory>
    ensures { IfOk result (λ found. Reads heads bytes.now at found) }
{
    match read_kind(bytes, at) {
        Some((kind, next)) => read_fields(alloc, bytes, next, kind),
        None => Ok(None),
    }
}

impl Head {
    /// How many certificates come after it.
    pub(crate) fn inner_count(&self) -> u32
        ensures { result ≡ inner_count self.now }
    {
        match self {
            Head::Sum(_) => 0,
            Head::Cut(_, _) => 1,
            Head::Split(_) => 2,
            Head::Differ(_) => 2,
            Head::Solve(_, _, _) => 1,
            Head::DivFacts(_, _) => 2,
        }
    }
}
