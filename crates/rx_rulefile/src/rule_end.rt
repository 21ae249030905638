//! Why a rule text was not read.
use rx_plain::NoMemory;
use thiserror::Error;

/// Why there is no rule set with an equation.
#[derive(Clone, Copy, Debug, PartialEq, Eq, Error)]
pub enum RuleEnd {
    /// A line with which no rule text begins, or one that is missing at the end.
    #[error("bad line {line}")]
    BadLine {
        /// Its number, counted from 1.
        line: usize,
    },
    /// A rule isn't well made, or the equation doesn't fit the symbols.
    #[error("rule {rule} is not well made")]
    NotMade {
        /// The rule's number, counted from 0; for the equation the number of rules.
        rule: usize,
    },
    /// There was no memory.
    #[error("out of memory")]
    NoMemory,
}

impl From<NoMemory> for RuleEnd {
    ghost use Rattle.std.specs.Prelude.{◌≡◌};
    ghost use Rattle.rx_rulefile.specs.declared.rule_end.RuleEnd.TheVariants.{NoMemory};

    ghost from_gives = { λ _ e. e ≡ NoMemory };

    fn from(_refused: NoMemory) -> RuleEnd {
        RuleEnd::NoMemory
    }
}
