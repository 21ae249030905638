//! Why a list of tokens is refused.
use rx_plain::NoMemory;
use thiserror::Error;

/// Why there is no tree. Where there are several causes, the answer is the first of them in the
/// order `TooDeep`, `Syntax`, `TooManyParams`, `NotARowForm`; out of memory may come at any time.
#[derive(Clone, Copy, Debug, PartialEq, Eq, Error)]
pub enum ParseEnd {
    /// The tokens spell nothing that is wanted and at most 200 high.
    #[error("syntax error at token {token}")]
    Syntax {
        /// The number of the first token with which the tokens begin nothing that is wanted, of
        /// whatever height; the number of tokens where all of them begin it. Where they spell it,
        /// but too high: of the first token of the first statement that is higher than 200, and 0
        /// for a precondition.
        token: u32,
    },
    /// A bracket is opened where 200 are open already.
    #[error("too many open brackets at token {token}")]
    TooDeep {
        /// The number of the first such bracket's token.
        token: u32,
    },
    /// A function or prototype has more than 16 parameters.
    #[error("too many parameters at token {token}")]
    TooManyParams {
        /// The number of the token that names the first of them.
        token: u32,
    },
    /// There was no memory for the tree.
    #[error("out of memory")]
    NoMemory,
    /// A precondition is an expression, and of another form than a conjunction of comparisons.
    /// Never an answer of `parse`.
    #[error("not a row form")]
    NotARowForm,
}

impl From<NoMemory> for ParseEnd {
    ghost use Rattle.std.specs.Prelude.{◌≡◌};
    ghost use Rattle.c_parse.specs.declared.error.ParseEnd.TheVariants.{NoMemory};

    ghost from_gives = { λ _ e. e ≡ NoMemory };

    fn from(_refused: NoMemory) -> ParseEnd {
        ParseEnd::NoMemory
    }
}
