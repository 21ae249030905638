//! Polynomials between brackets, with a comma between two.
ghost use Rattle.std.specs.Prelude.{◌≡◌, IfOk, None};
ghost use Rattle.rx_text.specs.Formats.{Reads};
ghost use Rattle.rx_term_words.specs.Layers.{arguments, closers, some_polys};

use rx_plain::{Items, NoMemory};
use rx_poly::Poly;
use rx_text::{read_poly, skip_word};
use std::alloc::Global;

/// What closes the polynomials of a symbol.
#[derive(Clone, Copy)]
pub(crate) enum Closer {
    /// Of a frame `;`: what it waits for follows.
    Semicolon,
    /// Of a call `)`.
    Parenthesis,
}

/// What closes polynomials, with the place after it.
fn read_closer(bytes: &[u8], at: usize) -> Option<(Closer, usize)>
    ensures { Reads closers bytes.now at result }
{
    if let Some(end) = skip_word(bytes, at, b";") {
        return Some((Closer::Semicolon, end));
    }
    match skip_word(bytes, at, b")") {
        Some(end) => Some((Closer::Parenthesis, end)),
        None => None,
    }
}

/// One polynomial or more.
fn read_some(
    alloc: Global,
    bytes: &[u8],
    at: usize,
) -> Result<Option<(Items<Poly>, usize)>, NoMemory>
    ensures { IfOk result (λ found. Reads some_polys bytes.now at found) }
{
    let Some((first, first_end)) = read_poly(alloc, bytes, at)? else {
        return Ok(None);
    };
    let mut polys = Items::new(alloc);
    polys.push(first)?;
    let mut place = first_end;
    while let Some(after) = skip_word(bytes, place, b",") {
        let Some((poly, end)) = read_poly(alloc, bytes, after)? else {
            return Ok(None);
        };
        polys.push(poly)?;
        place = end;
    }
    Ok(Some((polys, place)))
}

/// One polynomial or more, with what closes them.
fn read_closed(
    alloc: Global,
    bytes: &[u8],
    at: usize,
) -> Result<Option<((Items<Poly>, Closer), usize)>, NoMemory>
    requires { Reads closers bytes.now at None }
    ensures { IfOk result (λ found. Reads arguments bytes.now at found) }
{
    let Some((polys, middle)) = read_some(alloc, bytes, at)? else {
        return Ok(None);
    };
    match read_closer(bytes, middle) {
        Some((closer, end)) => Ok(Some(((polys, closer), end))),
        None => Ok(None),
    }
}

/// The polynomials of a symbol, with what closes them.
pub(crate) fn read_arguments(
    alloc: Global,
    bytes: &[u8],
    at: usize,
) -> Result<Option<((Items<Poly>, Closer), usize)>, NoMemory>
    ensures { IfOk result (λ found. Reads arguments bytes.now at found) }
{
    match read_closer(bytes, at) {
        Some((closer, end)) => Ok(Some(((Items::new(alloc), closer), end))),
        None => read_closed(alloc, bytes, at),
    }
}
