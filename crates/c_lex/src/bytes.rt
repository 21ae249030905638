//! The classes of bytes.
ghost use Rattle.std.specs.Prelude.{◌≡◌, ◌≤◌, length, drop, slice_index};
ghost use Rattle.std.specs.List.{prefix_len};
ghost use Rattle.c_lex.specs.Bytes as spec;
ghost use Rattle.c_lex.specs.Classes.{class_test};

/// The byte at `index`, or 0 past the end.
pub(crate) fn byte_at(text: &[u8], index: usize) -> u8
    ensures { result ≡ slice_index text.now index }
{
    text.get(index).copied().unwrap_or(0)
}

/// The text from `index` on.
pub(crate) fn rest_from(text: &[u8], index: usize) -> &[u8]
    requires { index ≤ length text.now }
    ensures { result.now ≡ drop index text.now }
{
    &text[index..]
}

/// A space or a tab.
pub(crate) fn is_space(byte: u8) -> bool
    ensures { result ≡ spec.is_space byte }
{
    byte == b' ' || byte == b'\t'
}

/// A byte that separates tokens.
pub(crate) fn is_separator(byte: u8) -> bool
    ensures { result ≡ spec.is_separator byte }
{
    is_space(byte) || byte == b'\r' || byte == b'\n' || byte == 0x0B || byte == 0x0C
}

/// A decimal digit.
pub(crate) fn is_digit(byte: u8) -> bool
    ensures { result ≡ spec.is_digit byte }
{
    b'0' <= byte && byte <= b'9'
}

/// A letter or underscore.
pub(crate) fn is_letter(byte: u8) -> bool
    ensures { result ≡ spec.is_letter byte }
{
    (b'a' <= byte && byte <= b'z') || (b'A' <= byte && byte <= b'Z') || byte == b'_'
}

/// A byte of a name.
pub(crate) fn is_word_byte(byte: u8) -> bool
    ensures { result ≡ spec.is_word_byte byte }
{
    is_letter(byte) || is_digit(byte)
}

/// Whether only spaces and tabs have come since the last line end, after one byte more.
pub(crate) fn fresh_after(fresh: bool, byte: u8) -> bool
    ensures { result ≡ spec.fresh_after fresh byte }
{
    byte == b'\n' || (fresh && is_space(byte))
}

/// A set of bytes, to take a run of them.
#[derive(Clone, Copy)]
pub(crate) enum Class {
    Space,
    Digit,
    Word,
}

fn is_in(class: Class, byte: u8) -> bool
    ensures { result ≡ class_test class byte }
{
    match class {
        Class::Space => is_space(byte),
        Class::Digit => is_digit(byte),
        Class::Word => is_word_byte(byte),
    }
}

/// How many bytes at the front are of the class.
pub(crate) fn run(class: Class, text: &[u8]) -> usize
    ensures len { result ≡ prefix_len (class_test class) text.now }
    ensures within { result ≤ length text.now }
{
    text.iter().take_while(|byte| is_in(class, **byte)).count()
}
