//! What a run with a number of rounds comes to.

/// The outcome of a call, or of an expression, with a number of rounds.
#[derive(Clone, Copy, Debug)]
pub enum Outcome {
    /// The integer that is returned.
    Value(i128),
    /// A division by 0.
    DivError,
    /// More rounds are needed.
    More,
    /// The exact result of an arithmetic operator is no number of `i128`.
    Over,
}
