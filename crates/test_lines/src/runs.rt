//! What a run is given: the words of its command line, and files. Each function answers None where
//! there is no memory.
use std::alloc::Global;

/// The words of a text, with spaces between them; of no text none.
pub fn words_of(alloc: Global, text: &str) -> Option<Vec<String>> {
    let mut words = Vec::new(alloc);
    for word in text.split_whitespace() {
        words.push(String::from_str(alloc, word).ok()?).ok()?;
    }
    Some(words)
}

/// Adds a file: its name and its content.
pub fn add_file(
    alloc: Global,
    files: &mut Vec<(String, Vec<u8>)>,
    name: &str,
    content: Vec<u8>,
) -> Option<()> {
    let name = String::from_str(alloc, name).ok()?;
    files.push((name, content)).ok()
}
