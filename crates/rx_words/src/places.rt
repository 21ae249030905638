//! Places between words.
ghost use Rattle.std.specs.Prelude.{◌≡◌, drop, codes};
ghost use Rattle.rx_text.specs.Formats.{Skips, is_over};
ghost use Rattle.rx_words.specs.Lists.{ending_word};
ghost use Rattle.rx_words.specs.Words.{in_word};

/// Whether a word may end at the place: the bytes end there, or a space or a line feed follows.
fn ends_word(bytes: &[u8], at: usize) -> bool
    ensures { result ≡ is_over in_word (drop at bytes.now) }
{
    match bytes.get(at) {
        Some(byte) => *byte == b' ' || *byte == b'\n',
        None => true,
    }
}

/// What was read, where a word ends after it; else None.
pub fn ending_word<T: Drop>(bytes: &[u8], found: Option<(T, usize)>) -> Option<(T, usize)>
    ensures { result ≡ ending_word bytes.now found }
{
    match found {
        Some((thing, end)) => {
            if ends_word(bytes, end) {
                Some((thing, end))
            } else {
                None
            }
        }
        None => None,
    }
}
