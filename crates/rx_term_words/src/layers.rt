//! What comes first in the text of a term: a frame, a call, or a result.
ghost use Rattle.std.specs.Prelude.{◌≡◌, IfOk};
ghost use Rattle.rx_text.specs.Formats.{Reads};
ghost use Rattle.rx_term_words.specs.Layers.{applications, failures, innermost, layers, symbols, values};

use crate::arguments::{Closer, read_arguments};
use rx_plain::{Items, NoMemory};
use rx_poly::Poly;
use rx_term::{Sym, Term};
use rx_text::{read_natural, read_poly, skip_word};
use std::alloc::Global;

/// A term but for what is under its outermost frame.
#[derive(Drop)]
pub(crate) enum Layer {
    /// A returned value.
    Return(Poly),
    /// A failure with its code.
    Fail(u8),
    /// A symbol with its arguments: a frame or a call, by what closes them.
    Applied(Sym, Items<Poly>, Closer),
}

/// A returned value.
fn read_value(alloc: Global, bytes: &[u8], at: usize) -> Result<Option<(Poly, usize)>, NoMemory>
    ensures { IfOk result (λ found. Reads values bytes.now at found) }
{
    let Some(inside) = skip_word(bytes, at, b"ret(") else {
        return Ok(None);
    };
    let Some((value, middle)) = read_poly(alloc, bytes, inside)? else {
        return Ok(None);
    };
    match skip_word(bytes, middle, b")") {
        Some(end) => Ok(Some((value, end))),
        None => Ok(None),
    }
}

/// The code of a failure.
fn read_failure(bytes: &[u8], at: usize) -> Option<(u8, usize)>
    ensures { Reads failures bytes.now at result }
{
    let Some(inside) = skip_word(bytes, at, b"fail(") else {
        return None;
    };
    let Some((code, middle)) = read_natural(bytes, inside, 255) else {
        return None;
    };
    match skip_word(bytes, middle, b")") {
        Some(end) => Some((code as u8, end)),
        None => None,
    }
}

/// The number of a symbol, up to its arguments.
fn read_symbol(bytes: &[u8], at: usize) -> Option<(u32, usize)>
    ensures { Reads symbols bytes.now at result }
{
    let Some(inside) = skip_word(bytes, at, b"s") else {
        return None;
    };
    let Some((number, middle)) = read_natural(bytes, inside, u32::MAX) else {
        return None;
    };
    match skip_word(bytes, middle, b"(") {
        Some(end) => Some((number, end)),
        None => None,
    }
}

/// A symbol with its arguments.
fn read_application(
    alloc: Global,
    bytes: &[u8],
    at: usize,
) -> Result<Option<(Layer, usize)>, NoMemory>
    ensures { IfOk result (λ found. Reads applications bytes.now at found) }
{
    let Some((number, middle)) = read_symbol(bytes, at) else {
        return Ok(None);
    };
    match read_arguments(alloc, bytes, middle)? {
        Some(((args, closer), end)) => Ok(Some((Layer::Applied(Sym(number), args, closer), end))),
        None => Ok(None),
    }
}

/// The layer that is at the place, with the place after it.
pub(crate) fn read_layer(
    alloc: Global,
    bytes: &[u8],
    at: usize,
) -> Result<Option<(Layer, usize)>, NoMemory>
    ensures { IfOk result (λ found. Reads layers bytes.now at found) }
{
    if let Some((value, end)) = read_value(alloc, bytes, at)? {
        return Ok(Some((Layer::Return(value), end)));
    }
    if let Some((code, end)) = read_failure(bytes, at) {
        return Ok(Some((Layer::Fail(code), end)));
    }
    read_application(alloc, bytes, at)
}

impl Layer {
    /// The call or result that it is, where it is no frame.
    pub(crate) fn into_term(self) -> Term
        ensures { result ≡ innermost self }
    {
        match self {
            Layer::Return(value) => Term::Return(value),
            Layer::Fail(code) => Term::Fail(code),
            Layer::Applied(sym, args, _) => Term::Call(sym, args),
        }
    }
}
