//! The line and the column of a byte.
ghost use Rattle.std.specs.Prelude.{◌≡◌, ◌+◌, ◌≤◌, length};
ghost use Rattle.rx_places.specs.Places as spec;

/// Whether the byte ends a line.
pub(crate) fn is_line_feed(byte: u8) -> bool
    ensures { result ≡ spec.is_line_feed byte }
{
    byte == b'\n'
}

/// The bytes in front of the place.
pub(crate) fn bytes_before(text: &[u8], at: usize) -> &[u8]
    requires { at ≤ length text.now }
    ensures { result.now ≡ spec.bytes_before text.now at }
{
    &text[..at]
}

/// How many bytes of its line are in front of the place.
pub(crate) fn before_in_line(text: &[u8], at: usize) -> usize
    requires { at ≤ length text.now }
    ensures value { result ≡ spec.before_in_line text.now at }
    ensures within { result ≤ at }
{
    let before = bytes_before(text, at);
    before
        .iter()
        .rev()
        .take_while(|byte| !is_line_feed(**byte))
        .count()
}

/// The number of the place's line, counted from 1. The place is a byte's, or the end of the text.
pub fn line_of(text: &[u8], at: usize) -> usize
    requires { at ≤ length text.now }
    ensures { result ≡ spec.line_of text.now at }
{
    let before = bytes_before(text, at);
    1 + before.iter().filter(|byte| is_line_feed(**byte)).count()
}

/// The place's column, in bytes, counted from 1.
pub fn column_of(text: &[u8], at: usize) -> usize
    requires { at ≤ length text.now }
    ensures { result ≡ spec.column_of text.now at }
{
    1 + before_in_line(text, at)
}
