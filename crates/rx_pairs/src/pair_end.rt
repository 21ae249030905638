//! Why ranks don't make all pairs lower.
use rx_plain::NoMemory;
use thiserror::Error;

/// Why a table doesn't make all pairs lower, or why that isn't known. Pairs count from 0 over the
/// rules, and then over the hypotheses.
#[derive(Clone, Copy, Debug, PartialEq, Eq, Error)]
pub enum PairEnd {
    /// The symbol with this number has no rank of the table's width over its own arguments; at the
    /// number of symbols: there are more ranks.
    #[error("the rank of symbol {0} is not lawful")]
    BadRanks(usize),
    /// The pair with this number isn't lower by its certificate, or has none; at the number of
    /// pairs: there are more certificates.
    #[error("pair {0} is not lower")]
    NotLower(usize),
    /// A polynomial passes the limits at the pair with this number, before anything fails there.
    #[error("a polynomial is too large at pair {0}")]
    Large(usize),
    /// There was no memory.
    #[error("out of memory")]
    NoMemory,
}

impl From<NoMemory> for PairEnd {
    ghost use Rattle.std.specs.Prelude.{◌≡◌};
    ghost use Rattle.rx_pairs.specs.declared.pair_end.PairEnd.TheVariants as end;

    ghost from_gives = { λ _ e. e ≡ end.NoMemory };

    fn from(_end: NoMemory) -> PairEnd {
        PairEnd::NoMemory
    }
}
