//! How many things a list may have, and lists of numbers.
ghost use Rattle.std.specs.Prelude.{◌≡◌};
ghost use Rattle.rx_words.specs.Certificates.{part_lists};
ghost use Rattle.rx_words.specs.Words.{numbers};

/// Whether a list of n things has a text: at most 4,294,967,295.
pub fn is_count(count: usize) -> bool
    ensures { result ≡ numbers.in_range count }
{
    count <= u32::MAX as usize
}

/// Whether the parts of a sum have a text: whether they are few enough. That each number is one of
/// its type is known where it is read.
pub fn parts_have_text(parts: &[(u32, i128)]) -> bool
    ensures { result ≡ part_lists.in_range parts.now }
{
    for part in parts {
        let (_row, _multiplier) = *part;
    }
    is_count(parts.len())
}
