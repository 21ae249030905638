//! Why the log in a file isn't accepted.

use rx_check::CheckEnd;
use rx_plain::NoMemory;
use thiserror::Error;

/// Why the log in a file isn't accepted, or why that isn't known.
#[derive(Clone, Copy, Debug, PartialEq, Eq, Error)]
pub enum FileEnd {
    /// A call on the files failed, or they don't hold the name.
    #[error("the file can't be read")]
    Failed,
    /// The file has more bytes than the limit.
    #[error("the file is too long")]
    TooLong,
    /// A line with which no log begins, or one that is missing at the end.
    #[error("bad line {line}")]
    BadLine {
        /// Its number, counted from 1.
        line: usize,
    },
    /// The replay doesn't accept the log.
    #[error("{0}")]
    Check(CheckEnd),
    /// There was no memory.
    #[error("out of memory")]
    NoMemory,
}

impl From<NoMemory> for FileEnd {
    ghost use Rattle.std.specs.Prelude.{◌≡◌};
    ghost use Rattle.rx_logfile.specs.declared.file_end.FileEnd.TheVariants.{NoMemory};

    ghost from_gives = { λ _ e. e ≡ NoMemory };

    fn from(_refused: NoMemory) -> FileEnd {
        FileEnd::NoMemory
    }
}
