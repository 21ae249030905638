//! Why nothing is known at a step of a log.

use rx_plain::NoMemory;
use thiserror::Error;

/// Why nothing is known at a step of a log.
#[derive(Clone, Copy, Debug, PartialEq, Eq, Error)]
pub enum LookEnd {
    /// A call on the files failed, or they don't hold the name, or more bytes than the limit.
    #[error("the log can't be read")]
    Unread,
    /// The file holds no log, or one in which a step before that one isn't accepted.
    #[error("no log comes to this step")]
    NoPlace,
    /// There was no memory.
    #[error("out of memory")]
    NoMemory,
}

impl From<NoMemory> for LookEnd {
    ghost use Rattle.std.specs.Prelude.{◌≡◌};
    ghost use Rattle.rx_logstate.specs.declared.look_end.LookEnd.TheVariants.{NoMemory};

    ghost from_gives = { λ _ e. e ≡ NoMemory };

    fn from(_refused: NoMemory) -> LookEnd {
        LookEnd::NoMemory
    }
}
