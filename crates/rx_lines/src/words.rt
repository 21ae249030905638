//! Words at the beginning of a line and at its end.
ghost use Rattle.std.specs.Prelude.{◌≡◌, ◌<◌, ◌↔◌, ◌++◌, true, ℕ, IsTrue, List, drop, length};
ghost use Rattle.rx_text.specs.Formats.{Skips, is_over};
ghost use Rattle.rx_words.specs.Words.{in_word};
ghost use Rattle.rx_lines.specs.Texts.{SkipsWhole};
ghost use Rattle.rx_lines.specs.Texts as spec;

use rx_text::skip_word;

/// Whether both begin with the same byte.
fn have_same_first(line: &[u8], word: &[u8]) -> bool
    requires { 0 < length word.now }
    ensures { (left : List ℕ) → line.now ≡ word.now ++ left → result ≡ true }
{
    match (line.first(), word.first()) {
        (Some(first), Some(other)) => *first == *other,
        _ => false,
    }
}

/// The place after the word, where the line begins with it; None where it doesn't. Most words are
/// known from the first byte of the line.
pub fn skip_beginning(line: &[u8], word: &[u8]) -> Option<usize>
    requires { 0 < length word.now }
    ensures { Skips word.now line.now 0 result }
{
    if have_same_first(line, word) {
        skip_word(line, 0, word)
    } else {
        None
    }
}

/// Whether the line is just that word.
pub fn is_word(line: &[u8], word: &[u8]) -> bool
    requires { 0 < length word.now }
    ensures { IsTrue result ↔ (line.now ≡ word.now) }
{
    match skip_beginning(line, word) {
        Some(end) => end == line.len(),
        None => false,
    }
}

/// Whether a word may end at the place: the bytes end there, or a space or a line feed follows.
fn ends_word(bytes: &[u8], at: usize) -> bool
    ensures { result ≡ is_over in_word (drop at bytes.now) }
{
    match bytes.get(at) {
        Some(byte) => !(*byte != b' ' && *byte != b'\n'),
        None => true,
    }
}

/// The place after the word, where it is at the place as a whole word; None where it isn't.
pub fn skip_whole(bytes: &[u8], at: usize, word: &[u8]) -> Option<usize>
    requires { 0 < length word.now }
    ensures { SkipsWhole word.now bytes.now at result }
{
    match skip_word(bytes, at, word) {
        Some(end) => {
            if ends_word(bytes, end) {
                Some(end)
            } else {
                None
            }
        }
        None => None,
    }
}

/// What was read, where the bytes end after it; else None.
pub fn up_to_end<T: Drop>(bytes: &[u8], found: Option<(T, usize)>) -> Option<T>
    ensures { result ≡ spec.up_to_end bytes.now found }
{
    match found {
        Some((thing, end)) => {
            if end == bytes.len() {
                Some(thing)
            } else {
                None
            }
        }
        None => None,
    }
}
