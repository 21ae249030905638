//! Texts, cut at their first line feed.
ghost use Rattle.std.specs.Prelude.{◌≡◌, ◌==◌, ◌<◌, length, IfSome};
ghost use Rattle.std.specs.List.{position};
ghost use Rattle.std.specs.Option.{option_map};
ghost use Rattle.rx_lines.specs.Texts.{SplitsLine};

/// Where the first line feed of the text is, if there is one.
fn feed_at(text: &[u8]) -> Option<usize>
    ensures within { IfSome result (λ at. at < length text.now) }
    ensures first { result ≡ position (λ byte. byte == 10) text.now }
{
    text.iter().position(|byte| *byte == b'\n')
}

/// The first line of the text without its line feed, and the text after that; None exactly where
/// there is no line feed.
pub fn split_line(text: &[u8]) -> Option<(&[u8], &[u8])>
    ensures { SplitsLine text.now (option_map (λ cut. (cut.0.now, cut.1.now)) result) }
{
    match feed_at(text) {
        Some(feed) => Some((&text[..feed], &text[feed + 1..])),
        None => None,
    }
}
