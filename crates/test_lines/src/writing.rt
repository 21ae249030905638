//! Words, numbers and values added to an answer. What finds no memory is left out, so that the
//! answer is another than the one that is wanted.
use std::fmt::Debug;
use std::str;

/// Adds a word.
pub fn put(out: &mut String, word: &str) {
    let _ = out.push_str(word);
}

/// Adds a space where there is a text already.
pub fn put_space(out: &mut String) {
    if !out.is_empty() {
        put(out, " ");
    }
}

/// Adds a number after a word.
pub fn put_number(out: &mut String, word: &str, number: u32) {
    let _ = write!(out, "{word}{number}");
}

/// Adds a value as it is written in code.
pub fn put_debug<D: Debug + Drop>(out: &mut String, value: D) {
    let _ = write!(out, "{value:?}");
}

/// Adds bytes that are text, and `?` in place of others.
pub fn put_bytes(out: &mut String, bytes: &[u8]) {
    match str::from_utf8(bytes) {
        Ok(text) => put(out, text),
        Err(_) => put(out, "?"),
    }
}
