//! The parts of a line.

/// What parts a line of short values, which has no bars.
pub const SEMICOLON: &str = "; ";

/// What parts a line of texts that may have semicolons.
pub const BAR: &str = " | ";

/// What parts the line: bars where it has one, else semicolons.
pub fn separator_of(line: &str) -> &'static str {
    if line.split_once(BAR).is_some() {
        BAR
    } else {
        SEMICOLON
    }
}

/// A call, what it is given, which may have parts too, and what it is to answer.
#[derive(Drop)]
pub struct Case<'a> {
    /// The word of the call.
    pub call: &'a str,
    /// What it is given; empty where that is nothing.
    pub given: &'a str,
    /// What it is to answer.
    pub wanted: &'a str,
}

/// The text before the first separator, and what comes after it; the whole text and nothing where
/// there is no separator.
pub fn parted<'a>(text: &'a str, separator: &str) -> (&'a str, &'a str) {
    text.split_once(separator).unwrap_or((text, ""))
}

/// The parts of a line: the call comes first, what is wanted last, and all between is given. None
/// where there is no separator.
pub fn case_of<'a>(line: &'a str, separator: &str) -> Option<Case<'a>> {
    let (call, rest) = line.split_once(separator)?;
    let (given, wanted) = rest.rsplit_once(separator).unwrap_or(("", rest));
    Some(Case {
        call,
        given,
        wanted,
    })
}
