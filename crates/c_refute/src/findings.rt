//! What is found at a point, and what two functions compare to over all points.

use c_meaning::Outcome;
use rx_plain::{Items, NoMemory};
use thiserror::Error;

/// What is found at a point, that is a list of arguments.
#[derive(Clone, Copy, Debug)]
pub enum Finding {
    /// The precondition isn't met.
    Excluded,
    /// The precondition or an outcome is `More` or `Over`.
    Undecided,
    /// Both functions have the same outcome.
    Alike,
    /// The functions have these two different outcomes, each an integer or the division error.
    Different(Outcome, Outcome),
}

/// How two functions compare over all points.
#[derive(Debug, Drop)]
pub enum Compared {
    /// The first point at which they have different outcomes, and these.
    Different {
        /// The arguments.
        args: Items<i128>,
        /// The outcome of the first function.
        first: Outcome,
        /// The outcome of the second function.
        second: Outcome,
    },
    /// There is no such point.
    Alike {
        /// The number of points at which both have the same outcome.
        points: u32,
        /// The number of points that are undecided.
        undecided: u32,
    },
}

/// Why two functions aren't compared.
#[derive(Clone, Copy, Debug, Error)]
pub enum RefuteEnd {
    /// There are more than 1,000,000 points.
    #[error("too many points for {params} parameters")]
    TooManyPoints {
        /// How many parameters the functions have.
        params: usize,
    },
    /// There was no memory.
    #[error("out of memory")]
    NoMemory,
}

impl From<NoMemory> for RefuteEnd {
    ghost use Rattle.std.specs.Prelude.{◌≡◌};
    ghost use Rattle.c_refute.specs.declared.findings.RefuteEnd.TheVariants as refute_end;

    ghost from_gives = { λ _ e. e ≡ refute_end.NoMemory };

    fn from(_e: NoMemory) -> RefuteEnd {
        RefuteEnd::NoMemory
    }
}
