//! What a symbol is, as a word.
ghost use Rattle.std.specs.Prelude.{◌≡◌, false};
ghost use Rattle.rx_text.specs.Formats.{Reads};
ghost use Rattle.rx_rulefile.specs.SymbolParts as spec;

use rx_lines::skip_whole;

/// What a symbol is beside the number of its arguments.
#[derive(Clone, Copy)]
pub(crate) struct Kind {
    pub(crate) frame: bool,
    pub(crate) entry: bool,
    pub(crate) head: bool,
}

/// A symbol that is called: whether it is the entry of a function, and the head of a loop.
fn called(entry: bool, head: bool) -> Kind
    ensures { result ≡ record { frame = false; entry = entry; head = head } }
{
    Kind {
        frame: false,
        entry,
        head,
    }
}

/// What a symbol is by the word at the place, and the place after it; None exactly where none of
/// the words is there.
pub(crate) fn read_kind(bytes: &[u8], at: usize) -> Option<(Kind, usize)>
    ensures { Reads spec.kinds bytes.now at result }
{
    if let Some(end) = skip_whole(bytes, at, b"point") {
        return Some((called(false, false), end));
    }
    if let Some(end) = skip_whole(bytes, at, b"entry") {
        return Some((called(true, false), end));
    }
    if let Some(end) = skip_whole(bytes, at, b"head") {
        return Some((called(false, true), end));
    }
    if let Some(end) = skip_whole(bytes, at, b"both") {
        return Some((called(true, true), end));
    }
    match skip_whole(bytes, at, b"frame") {
        Some(end) => {
            let frame = Kind {
                frame: true,
                entry: false,
                head: false,
            };
            Some((frame, end))
        }
        None => None,
    }
}
