//! The symbols of a rule set. A symbol is its number of arguments, then `f` for a frame, `e` for
//! the entry of a function, `h` for the head of a loop.
use crate::lists::list;
use rx_plain::{Items, NoMemory};
use rx_term::SymInfo;
use rx_text::read_natural;
use std::alloc::Global;

// Whether the letter is at the place, and the place after it, or else the same place.
fn letter(text: &[u8], at: usize, letter: u8) -> (bool, usize) {
    if at < text.len() && text[at] == letter {
        (true, at + 1)
    } else {
        (false, at)
    }
}

// The symbol at the place, and the place after it.
fn symbol_at(text: &[u8], at: usize) -> Option<(SymInfo, usize)> {
    let (arity, at) = read_natural(text, at, u32::MAX)?;
    let (frame, at) = letter(text, at, b'f');
    let (entry, at) = letter(text, at, b'e');
    let (head, at) = letter(text, at, b'h');
    let info = SymInfo {
        arity,
        frame,
        entry,
        head,
    };
    Some((info, at))
}

fn read_symbol(
    _alloc: Global,
    text: &[u8],
    at: usize,
) -> Result<Option<(SymInfo, usize)>, NoMemory> {
    Ok(symbol_at(text, at))
}

/// The list of symbols that the text is.
pub fn symbols(alloc: Global, text: &str) -> Option<Items<SymInfo>> {
    list(alloc, text, read_symbol)
}

/// The symbols s0 to s5: points of two, of no and of one argument, which are s0, s1 and s4, and
/// frames of one, of no and of two, which are s2, s3 and s5.
pub fn six_symbols(alloc: Global) -> Option<Items<SymInfo>> {
    symbols(alloc, "6 2 0 1f 0f 1 2f")
}
