//! Why domains are no domains of a rule set, or aren't kept.
use std::alloc::AllocError;
use thiserror::Error;

/// Why domains are no domains of a rule set or aren't kept, or why that isn't known.
#[derive(Clone, Copy, Debug, PartialEq, Eq, Error)]
pub enum DomainEnd {
    /// The symbol with this number has no list, or one that isn't over its arguments; at the number
    /// of symbols: there are more lists.
    #[error("symbol {0} has no domain over its arguments")]
    BadDomain(usize),
    /// The part with this number has no list of certificates or isn't shown; at the number of
    /// parts: there are more lists. Part 0 is the goal, part k + 1 is rule k.
    #[error("part {0} is not kept")]
    NotKept(usize),
    /// A polynomial passes the limits at the part with this number, before anything fails there.
    #[error("a polynomial is too large at part {0}")]
    Large(usize),
    /// There was no memory.
    #[error("out of memory")]
    NoMemory,
}

impl From<AllocError> for DomainEnd {
    ghost use Rattle.std.specs.Prelude.{◌≡◌};
    ghost use Rattle.rx_domain.specs.declared.domain_end.DomainEnd.TheVariants.{NoMemory};

    ghost from_gives = { λ _ e. e ≡ NoMemory };

    fn from(_e: AllocError) -> DomainEnd {
        DomainEnd::NoMemory
    }
}
