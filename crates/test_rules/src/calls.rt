//! What is read of a text, and whether it is written as the same bytes again.
use rx_plain::Items;
use rx_rulefile::{RuleEnd, read_rules, write_rules};
use std::alloc::Global;
use test_lines::{Answer, bytes_of};

/// The text of which lines speak.
#[derive(Drop)]
pub struct Texts {
    kept: Vec<u8>,
}

// A word with a number.
fn numbered(alloc: Global, word: &str, number: usize) -> Option<Answer> {
    let text = format!(in alloc; "{word} {number}").ok()?;
    Some(Answer::Text(text.into_bytes()))
}

// Whether both are the same bytes.
fn told_same(text: &[u8], again: &Items<u8>) -> Option<Answer> {
    if again.as_slice() == text {
        Some(Answer::Word("same"))
    } else {
        Some(Answer::Word("another"))
    }
}

// What reading the text answers.
fn answer_of(alloc: Global, text: &[u8]) -> Option<Answer> {
    match read_rules(alloc, text) {
        Ok((rules, goal)) => {
            let again = write_rules(alloc, &rules, &goal).ok()?;
            told_same(text, &again)
        }
        Err(RuleEnd::BadLine { line }) => numbered(alloc, "line", line),
        Err(RuleEnd::NotMade { rule }) => numbered(alloc, "rule", rule),
        Err(RuleEnd::NoMemory) => None,
    }
}

// The text of so many symbols without rules.
fn symbols_text(alloc: Global, count: u32) -> Option<Vec<u8>> {
    let mut text = String::from_str(alloc, "ctrl-rules 1\nfails 0\n").ok()?;
    for number in 0..count {
        write!(text, "symbol s{number} 0 point\n").ok()?;
    }
    write!(text, "equation ret(0) ret(0) 0\nEND\n").ok()?;
    Some(text.into_bytes())
}

impl Texts {
    /// No text yet.
    pub fn new(alloc: Global) -> Texts {
        Texts {
            kept: Vec::new(alloc),
        }
    }

    /// Keeps the text of which the next lines speak.
    pub fn keep(&mut self, alloc: Global, text: &str) -> Option<()> {
        self.kept = bytes_of(alloc, text)?;
        Some(())
    }

    // The first bytes of the text.
    fn cut(&self, alloc: Global, given: &str) -> Option<Answer> {
        let count: usize = given.parse().ok()?;
        answer_of(alloc, self.kept.as_slice().get(..count)?)
    }

    // The text with another byte at a place.
    fn changed(&self, alloc: Global, given: &str) -> Option<Answer> {
        let (place, byte) = given.split_once(' ')?;
        let place: usize = place.parse().ok()?;
        let mut text = self.kept.clone().ok()?;
        *text.get_mut(place)? = byte.parse().ok()?;
        answer_of(alloc, text.as_slice())
    }

    /// What the call answers; none where it can't be read, or there is no memory.
    pub fn answer_to(&self, alloc: Global, call: &str, given: &str) -> Option<Answer> {
        match call {
            "read" => answer_of(alloc, bytes_of(alloc, given)?.as_slice()),
            "cut" => self.cut(alloc, given),
            "byte" => self.changed(alloc, given),
            "symbols" => answer_of(alloc, symbols_text(alloc, given.parse().ok()?)?.as_slice()),
            _ => None,
        }
    }
}
