use rx_plain::NoMemory;
use thiserror::Error;

/// Why a text has no tokens: the first fault in it, with the offset of a byte, or out of memory.
#[derive(Clone, Copy, Debug, PartialEq, Eq, Error)]
pub enum LexEnd {
    /// A byte that begins no token, a letter or underscore directly after a literal, or a backslash
    /// directly before a line end.
    #[error("unexpected byte at {at}")]
    BadByte {
        /// The offset of that byte.
        at: u32,
    },
    /// A comment that isn't closed.
    #[error("unclosed comment at {at}")]
    OpenComment {
        /// The offset of its `/*`.
        at: u32,
    },
    /// A literal above 9223372036854775807.
    #[error("literal too large at {at}")]
    LiteralTooLarge {
        /// The offset of its first digit.
        at: u32,
    },
    /// A literal of two or more digits that begins with 0.
    #[error("leading zero at {at}")]
    LeadingZero {
        /// The offset of its first digit.
        at: u32,
    },
    /// A `#` outside comments that doesn't begin an include line.
    #[error("directive at {at}")]
    Directive {
        /// The offset of the `#`.
        at: u32,
    },
    /// There was no memory for the list.
    #[error("out of memory")]
    NoMemory,
}

impl From<NoMemory> for LexEnd {
    ghost use Rattle.std.specs.Prelude.{◌≡◌};
    ghost use Rattle.c_lex.specs.declared.error.LexEnd.TheVariants.{NoMemory};

    ghost from_gives = { λ _ e. e ≡ NoMemory };

    fn from(_refused: NoMemory) -> LexEnd {
        LexEnd::NoMemory
    }
}
