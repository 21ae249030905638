//! Fixed words in a text.
ghost use Rattle.std.specs.Prelude.{◌≡◌, ◌↔◌, ◌++◌, ◌<◌, ◌≤◌, ℕ, drop, length, take, IsTrue, OnOk};
ghost use Rattle.rx_text.specs.Formats.{Skips};

use rx_plain::NoMemory;

/// The bytes from the place on.
pub(crate) fn rest_from(bytes: &[u8], at: usize) -> &[u8]
    requires { at ≤ length bytes.now }
    ensures { result.now ≡ drop at bytes.now }
{
    &bytes[at..]
}

/// Whether the bytes begin with the word. A loop, since most words have a few letters, and most
/// bytes begin with another letter.
fn begin_with(bytes: &[u8], word: &[u8]) -> bool
    ensures { IsTrue result ↔ (word.now ≡ take (length word.now) bytes.now) }
{
    if word.len() > bytes.len() {
        return false;
    }
    for (at, letter) in word.iter().enumerate() {
        if bytes[at] != *letter {
            return false;
        }
    }
    true
}

/// The place after the word, where the word is at that place; None where it isn't.
pub fn skip_word(bytes: &[u8], at: usize, word: &[u8]) -> Option<usize>
    requires { 0 < length word.now }
    ensures { Skips word.now bytes.now at result }
{
    if at > bytes.len() {
        return None;
    }
    if begin_with(rest_from(bytes, at), word) {
        Some(at + word.len())
    } else {
        None
    }
}

/// Adds the word after the bytes; fails only where there is no memory.
pub fn push_word(out: &mut Vec<u8>, word: &[u8]) -> Result<(), NoMemory>
    ensures { OnOk result (out.new.items ≡ out.old.items ++ word.now) }
{
    out.extend_from_slice(word)?;
    Ok(())
}
