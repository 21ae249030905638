//! How lemmas are made of goals, and the number at which their variables end.

/// No new variable of a lemma has this number or one above.
pub const VARIABLES_END: u64 = 1_000_000;

/// How a lemma is made of a goal.
#[derive(Clone, Copy, Debug, PartialEq, Eq)]
pub enum LemmaKind {
    /// Constants in a call of a loop point become variables, each with a row that gives its value.
    NameConstants,
    /// The rows that give a variable its value are dropped.
    DropValues,
    /// Polynomials that occur repeatedly become variables, and the rows that give a variable its
    /// value are dropped.
    ReplaceRepeated,
}
