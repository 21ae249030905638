//! Numbers as lines have them. Each function answers None where the text is no such number.
use std::alloc::Global;
use std::str::FromStr;

/// A number.
pub fn integer(text: &str) -> Option<i128> {
    text.parse().ok()
}

/// A small number that isn't negative.
pub fn count(text: &str) -> Option<u32> {
    text.parse().ok()
}

/// The numbers of a text, with spaces between them; of no text none.
pub fn numbers_of<N: FromStr + Drop>(alloc: Global, text: &str) -> Option<Vec<N>>
where
    N::Err: Drop,
{
    let mut numbers = Vec::new(alloc);
    for word in text.split_whitespace() {
        numbers.push(word.parse().ok()?).ok()?;
    }
    Some(numbers)
}
