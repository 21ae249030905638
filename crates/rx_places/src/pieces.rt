//! Pieces of a message, added after the bytes of another.
ghost use Rattle.std.specs.Prelude.{◌≡◌, ◌≤◌, ◌++◌, ◌-◌, codes, decimal, map, take, drop, length, replicate, OnOk};
ghost use Rattle.rx_places.specs.Pieces as spec;

use itoa::Buffer;
use rx_plain::NoMemory;

/// Adds the word.
pub fn push_word(out: &mut Vec<u8>, word: &[u8]) -> Result<(), NoMemory>
    ensures { OnOk result (out.new.items ≡ out.old.items ++ word.now) }
{
    out.extend_from_slice(word)?;
    Ok(())
}

/// Adds the number in decimal digits.
pub fn push_number(out: &mut Vec<u8>, number: usize) -> Result<(), NoMemory>
    ensures { OnOk result (out.new.items ≡ out.old.items ++ decimal number) }
{
    let mut buffer = Buffer::new();
    push_word(out, buffer.format(number).as_bytes())
}

/// Adds the byte so many times.
pub(crate) fn push_repeated(out: &mut Vec<u8>, byte: u8, count: usize) -> Result<(), NoMemory>
    ensures { OnOk result (out.new.items ≡ out.old.items ++ replicate count byte) }
{
    for _ in 0..count {
        out.push(byte)?;
    }
    Ok(())
}

/// The byte as it is shown.
fn shown(byte: u8) -> u8
    ensures { result ≡ spec.shown byte }
{
    match byte {
        b'\t' => b' ',
        b' '..=b'~' => byte,
        _ => b'?',
    }
}

/// Adds the bytes as they are shown.
fn push_shown(out: &mut Vec<u8>, bytes: &[u8]) -> Result<(), NoMemory>
    ensures { OnOk result (out.new.items ≡ out.old.items ++ map spec.shown bytes.now) }
{
    for byte in bytes {
        out.push(shown(*byte))?;
    }
    Ok(())
}

/// Three dots where something is left out.
fn dots(is_cut: bool) -> &'static [u8]
    ensures { result.now ≡ spec.dots is_cut }
{
    if is_cut { b"..." } else { b"" }
}

/// Adds the first bytes, and dots for more.
pub(crate) fn push_first(out: &mut Vec<u8>, most: usize, bytes: &[u8]) -> Result<(), NoMemory>
    ensures { OnOk result (out.new.items ≡ out.old.items ++ spec.first_shown most bytes.now) }
{
    let count = most.min(bytes.len());
    push_shown(out, &bytes[..count])?;
    push_word(out, dots(most < bytes.len()))
}

/// Adds the last bytes, and dots for more.
pub(crate) fn push_last(out: &mut Vec<u8>, most: usize, bytes: &[u8]) -> Result<(), NoMemory>
    ensures { OnOk result (out.new.items ≡ out.old.items ++ spec.last_shown most bytes.now) }
{
    push_word(out, dots(most < bytes.len()))?;
    push_shown(out, &bytes[bytes.len().saturating_sub(most)..])
}

/// The most bytes of a name or another word of a text that a message repeats.
const LONGEST_WORD: usize = 60;

/// Adds the bytes between quotes, as they are shown; of more than 60 the first.
pub fn push_quoted(out: &mut Vec<u8>, bytes: &[u8]) -> Result<(), NoMemory>
    ensures { OnOk result (out.new.items ≡ out.old.items ++ spec.quoted bytes.now) }
{
    push_word(out, b"'")?;
    push_first(out, LONGEST_WORD, bytes)?;
    push_word(out, b"'")
}

/// The byte as it is shown in a name.
fn shown_in_name(byte: u8) -> u8
    ensures { result ≡ spec.shown_in_name byte }
{
    if byte < 32 || byte == 127 { b'?' } else { byte }
}

/// Adds the name of a file or of a function, with `?` in place of its control bytes.
pub fn push_name(out: &mut Vec<u8>, name: &str) -> Result<(), NoMemory>
    ensures { OnOk result (out.new.items ≡ out.old.items ++ spec.named name.now) }
{
    for byte in name.as_bytes() {
        out.push(shown_in_name(*byte))?;
    }
    Ok(())
}
