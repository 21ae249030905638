//! Why a log was not read or not written.
use rx_plain::NoMemory;
use thiserror::Error;

/// Why there is no log, or no text of it.
#[derive(Clone, Copy, Debug, PartialEq, Eq, Error)]
pub enum LogEnd {
    /// A line with which no log begins, or one that is missing at the end.
    #[error("bad line {line}")]
    BadLine {
        /// Its number, counted from 1.
        line: usize,
    },
    /// A certificate or tree is deeper than 200, so that the log has no text.
    #[error("a certificate or tree is too deep")]
    TooDeep,
    /// A list is too long, a variable is 1,000,000 or greater, the columns are none or more than
    /// 15, a rank hasn't as many polynomials as the table, or a postulate has a certificate in
    /// version 1, so that the log has no text.
    #[error("a number or a list is out of range")]
    OutOfRange,
    /// There was no memory.
    #[error("out of memory")]
    NoMemory,
}

impl From<NoMemory> for LogEnd {
    ghost use Rattle.std.specs.Prelude.{◌≡◌};
    ghost use Rattle.rx_logtext.specs.declared.log_end.LogEnd.TheVariants.{NoMemory};

    ghost from_gives = { λ _ e. e ≡ NoMemory };

    fn from(_refused: NoMemory) -> LogEnd {
        LogEnd::NoMemory
    }
}
