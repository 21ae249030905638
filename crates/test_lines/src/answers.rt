//! What a call answers, and whether that is what a line wants.
use crate::numbers::integer;
use crate::texts::{is_text_of, written_out};
use std::alloc::Global;
use std::cmp::Ordering;
use std::fmt::Display;

/// An answer.
#[derive(Drop)]
pub enum Answer {
    /// One that has a word of its own.
    Word(&'static str),
    /// A number.
    Number(i128),
    /// The text of what there is.
    Text(Vec<u8>),
}

/// Values that the text of a line may say.
pub trait Meant {
    /// Whether the text says this value; none where it can't be read, or there is no memory.
    fn is_meant(&self, alloc: Global, text: &str) -> Option<bool>;
}

// Whether the bytes are the text, in which `{N PART}` stands for PART N times.
fn is_written_out(alloc: Global, found: &[u8], text: &str) -> Option<bool> {
    let whole = written_out(alloc, text)?;
    Some(found == whole.as_bytes())
}

impl Meant for Answer {
    fn is_meant(&self, alloc: Global, text: &str) -> Option<bool> {
        match self {
            Answer::Word(word) => Some(*word == text),
            Answer::Number(number) => Some(integer(text) == Some(*number)),
            Answer::Text(found) => is_written_out(alloc, found.as_slice(), text),
        }
    }
}

/// A text is meant by one with escapes.
impl Meant for String {
    fn is_meant(&self, alloc: Global, text: &str) -> Option<bool> {
        is_text_of(alloc, self.as_bytes(), text)
    }
}

/// Yes or no.
pub fn told(answer: bool) -> Option<Answer> {
    Some(Answer::Word(if answer { "yes" } else { "no" }))
}

/// The order of two values.
pub fn ordered(order: Ordering) -> Option<Answer> {
    Some(Answer::Word(match order {
        Ordering::Less => "less",
        Ordering::Equal => "equal",
        Ordering::Greater => "greater",
    }))
}

/// The order of two values, where both are there.
pub fn compared<T: Ord>(first: Option<&T>, second: Option<&T>) -> Option<Answer> {
    ordered(first?.cmp(second?))
}

/// Whether two values are equal, where both could be read.
pub fn equal<T: PartialEq + Drop>(first: Option<T>, second: Option<T>) -> Option<Answer> {
    let first = first?;
    let second = second?;
    told(first == second)
}

/// That there is no such value.
pub fn nothing() -> Option<Answer> {
    Some(Answer::Word("none"))
}

/// The number, if there is one.
pub fn perhaps(number: Option<i128>) -> Option<Answer> {
    match number {
        Some(number) => Some(Answer::Number(number)),
        None => nothing(),
    }
}

fn push_integers<N: Display>(out: &mut String, numbers: &[N]) -> Option<()> {
    write!(out, "{}", numbers.len()).ok()?;
    for number in numbers {
        write!(out, " {number}").ok()?;
    }
    Some(())
}

/// Numbers in order, after how many they are, with a space before each.
pub fn integers<N: Display>(alloc: Global, numbers: &[N]) -> Option<Answer> {
    let mut out = String::new(alloc);
    push_integers(&mut out, numbers)?;
    Some(Answer::Text(out.into_bytes()))
}
