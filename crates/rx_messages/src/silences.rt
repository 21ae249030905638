//! Why a message isn't written whole.
ghost use Rattle.rx_messages.specs.Steps.{MeansEnd, MeansLook};

use rx_io::ReadEnd;
use rx_logstate::LookEnd;
use rx_plain::NoMemory;
use thiserror::Error;

/// Why a message isn't written whole.
#[derive(Clone, Copy, Debug, PartialEq, Eq, Error)]
pub enum Silence {
    /// There was no memory. Nothing is written.
    #[error("no memory")]
    NoMemory,
    /// The text that the report is about can't be read now. Nothing is written.
    #[error("the file can't be read")]
    Unread,
    /// The text or the log has no such place as the report names, so it changed meanwhile. Nothing is
    /// written.
    #[error("the file has changed")]
    Changed,
    /// A write failed, or took nothing. A part of the message is written.
    #[error("the output failed")]
    Cut,
}

impl From<NoMemory> for Silence {
    ghost use Rattle.std.specs.Prelude.{◌≡◌};
    ghost use Rattle.rx_messages.specs.declared.silences.Silence.TheVariants.{NoMemory};

    ghost from_gives = { λ _ e. e ≡ NoMemory };

    fn from(_refused: NoMemory) -> Silence {
        Silence::NoMemory
    }
}

/// What a fault of a reading means for the message.
pub(crate) fn silence_of(end: ReadEnd) -> Silence
    ensures { MeansEnd end result }
{
    match end {
        ReadEnd::NoMemory => Silence::NoMemory,
        ReadEnd::Failed | ReadEnd::TooLong => Silence::Unread,
    }
}

/// What a fault of a look at a log means for the message.
pub(crate) fn silence_of_look(end: LookEnd) -> Silence
    ensures { MeansLook end result }
{
    match end {
        LookEnd::NoMemory => Silence::NoMemory,
        LookEnd::Unread => Silence::Unread,
        LookEnd::NoPlace => Silence::Changed,
    }
}
