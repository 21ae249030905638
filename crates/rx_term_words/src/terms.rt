//! Terms as text, without a space. A term may have as many frames as memory holds.
ghost use Rattle.std.specs.Prelude.{◌≡◌, ◌≤◌, length, IfOk};
ghost use Rattle.rx_text.specs.Formats.{Reads};
ghost use Rattle.rx_term_words.specs.Layers.{Closes, innermost, open_terms};
ghost use Rattle.rx_term_words.specs.Terms.{closed_terms, terms};

use crate::arguments::Closer;
use crate::layers::{Layer, read_layer};
use rx_plain::{Boxed, Items, NoMemory};
use rx_poly::Poly;
use rx_term::{Sym, Term};
use rx_text::skip_word;
use rx_words::ending_word;
use std::alloc::Global;

/// The frames of a term, its outermost first, and what is under them, up to where they are closed.
fn read_open(
    alloc: Global,
    bytes: &[u8],
    at: usize,
) -> Result<Option<((Items<(Sym, Items<Poly>)>, Layer), usize)>, NoMemory>
    ensures { IfOk result (λ found. Reads open_terms bytes.now at found) }
{
    let mut frames = Items::new(alloc);
    let mut place = at;
    loop {
        let Some((layer, next)) = read_layer(alloc, bytes, place)? else {
            return Ok(None);
        };
        match layer {
            Layer::Applied(sym, args, Closer::Semicolon) => {
                frames.push((sym, args))?;
                place = next;
            }
            last => return Ok(Some(((frames, last), next))),
        }
    }
}

/// The term with those frames over `inner`, where what closes them is at the place.
fn close(
    alloc: Global,
    bytes: &[u8],
    at: usize,
    frames: Items<(Sym, Items<Poly>)>,
    inner: Term,
) -> Result<Option<(Term, usize)>, NoMemory>
    requires { at ≤ length bytes.now }
    ensures { IfOk result (λ found. Closes frames inner bytes.now at found) }
{
    let mut outer = frames;
    let mut whole = inner;
    let mut place = at;
    while let Some((sym, args)) = outer.pop() {
        let Some(next) = skip_word(bytes, place, b")") else {
            return Ok(None);
        };
        whole = Term::Frame(sym, args, Boxed::new(alloc, whole)?);
        place = next;
    }
    Ok(Some((whole, place)))
}

/// The term with those frames over the call or result, where what closes them is at the place.
fn close_over(
    alloc: Global,
    bytes: &[u8],
    at: usize,
    frames: Items<(Sym, Items<Poly>)>,
    last: Layer,
) -> Result<Option<(Term, usize)>, NoMemory>
    requires { at ≤ length bytes.now }
    ensures { IfOk result (λ found. Closes frames (innermost last) bytes.now at found) }
{
    let inner = last.into_term();
    close(alloc, bytes, at, frames, inner)
}

/// The term whose text is at the place, whatever follows.
fn read_closed_term(
    alloc: Global,
    bytes: &[u8],
    at: usize,
) -> Result<Option<(Term, usize)>, NoMemory>
    ensures { IfOk result (λ found. Reads closed_terms bytes.now at found) }
{
    match read_open(alloc, bytes, at)? {
        Some((open, middle)) => close_over(alloc, bytes, middle, open.0, open.1),
        None => Ok(None),
    }
}

/// The term whose text is the word at the place, and the place after it: `ret(P)`, `fail(N)`, a
/// call
/// `sN(P,..,P)`, or a frame `sN(P,..,P;T)`. None exactly where no such text is there; its
/// variables are below 1,000,000. It may have as many frames as memory holds.
pub fn read_term(alloc: Global, bytes: &[u8], at: usize) -> Result<Option<(Term, usize)>, NoMemory>
    ensures { IfOk result (λ found. Reads terms bytes.now at found) }
{
    let found = read_closed_term(alloc, bytes, at)?;
    Ok(ending_word(bytes, found))
}
