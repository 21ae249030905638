//! Why a log isn't accepted.

use rx_cover::CoverEnd;
use rx_domain::DomainEnd;
use rx_plain::NoMemory;
use rx_steps::StepEnd;
use thiserror::Error;

/// A place of a log at which a polynomial passes the limits.
#[derive(Clone, Copy, Debug, PartialEq, Eq)]
pub enum LimitAt {
    /// The inside rows of the part with this number: part 0 is the goal, part k + 1 is rule k.
    Keep(usize),
    /// The trees of the symbol with this number.
    Cover(usize),
    /// The step with this number, counted from 0.
    Step(usize),
    /// The pair with this number, counted from 0 over the pairs of the rules and then of the
    /// hypotheses.
    Pair(usize),
}

/// Why a log isn't accepted, or why that isn't known.
#[derive(Clone, Copy, Debug, PartialEq, Eq, Error)]
pub enum CheckEnd {
    /// A step doesn't apply.
    #[error("step {step}: {end}")]
    Step {
        /// Its number, counted from 0.
        step: usize,
        /// Why not.
        end: StepEnd,
    },
    /// Goals are left after the last step.
    #[error("{goals} goals are left")]
    Unfinished {
        /// How many.
        goals: u32,
    },
    /// A symbol has no domain over its arguments; at the number of symbols: there are more domains.
    #[error("symbol {sym} has no domain over its arguments")]
    BadDomain {
        /// The symbol's number.
        sym: usize,
    },
    /// A part has no list of certificates or isn't shown to keep the domains; at the number of
    /// parts: there are more lists.
    #[error("part {part} does not keep the domains")]
    NotKept {
        /// The part's number: part 0 is the goal, part k + 1 is rule k.
        part: usize,
    },
    /// The trees of a symbol fail or are missing; at the number of symbols: there are more lists of
    /// trees.
    #[error("symbol {sym} is not covered")]
    NotCovered {
        /// The symbol's number.
        sym: usize,
    },
    /// A symbol has no rank of the table's width over its own arguments; at the number of symbols:
    /// there are more ranks.
    #[error("the rank of symbol {sym} is not lawful")]
    BadRanks {
        /// The symbol's number.
        sym: usize,
    },
    /// A pair isn't shown to be lower; at the number of pairs: there are more certificates.
    #[error("pair {pair} is not lower")]
    NotLower {
        /// The pair's number, counted from 0 over the pairs of the rules and then of the
        /// hypotheses.
        pair: usize,
    },
    /// A polynomial passes the limits at a place, before anything fails there.
    #[error("a polynomial is too large")]
    Large {
        /// The place.
        place: LimitAt,
    },
    /// There was no memory.
    #[error("out of memory")]
    NoMemory,
}

impl From<NoMemory> for CheckEnd {
    ghost use Rattle.std.specs.Prelude.{◌≡◌};
    ghost use Rattle.rx_check.specs.declared.check_end.CheckEnd.TheVariants as end;

    ghost from_gives = { λ _ e. e ≡ end.NoMemory };

    fn from(_e: NoMemory) -> CheckEnd {
        CheckEnd::NoMemory
    }
}

impl From<CoverEnd> for CheckEnd {
    ghost use Rattle.std.specs.Prelude.{◌≡◌};
    ghost use Rattle.rx_check.specs.Answers.{of_cover_end};

    ghost from_gives = { λ c e. e ≡ of_cover_end c };

    fn from(e: CoverEnd) -> CheckEnd {
        match e {
            CoverEnd::NotCovered(sym) => CheckEnd::NotCovered { sym },
            CoverEnd::Large(sym) => CheckEnd::Large {
                place: LimitAt::Cover(sym),
            },
            CoverEnd::NoMemory => CheckEnd::NoMemory,
        }
    }
}

impl From<DomainEnd> for CheckEnd {
    ghost use Rattle.std.specs.Prelude.{◌≡◌};
    ghost use Rattle.rx_check.specs.Answers.{of_domain_end};

    ghost from_gives = { λ d e. e ≡ of_domain_end d };

    fn from(e: DomainEnd) -> CheckEnd {
        match e {
            DomainEnd::BadDomain(sym) => CheckEnd::BadDomain { sym },
            DomainEnd::NotKept(part) => CheckEnd::NotKept { part },
            DomainEnd::Large(part) => CheckEnd::Large {
                place: LimitAt::Keep(part),
            },
            DomainEnd::NoMemory => CheckEnd::NoMemory,
        }
    }
}
