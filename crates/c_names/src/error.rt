//! Why a program isn't well formed.
use rx_plain::NoMemory;
use std::alloc::AllocError;
use thiserror::Error;

/// Why a program isn't well formed, by the number of a token of its text.
#[derive(Clone, Copy, Debug, PartialEq, Eq, Error)]
pub enum ScopeEnd {
    /// No variable of this name is in scope, or no function of this name is defined, or a variable
    /// is called.
    #[error("the name of token {token} is not known")]
    UnknownName {
        /// The name's token.
        token: u32,
    },
    /// A function of this name was defined already, or this scope has a variable of this name.
    #[error("the name of token {token} is declared twice")]
    TwiceDeclared {
        /// The name's token.
        token: u32,
    },
    /// A prototype or a call has another number of parameters than the definition.
    #[error("token {token} has a wrong number of parameters")]
    WrongCount {
        /// The name's token in the prototype or the call.
        token: u32,
    },
    /// This variable is read where it may have no value.
    #[error("the variable of token {token} may be unset")]
    MayBeUnset {
        /// The variable's token.
        token: u32,
    },
    /// The end of this function may be reached without a `return`.
    #[error("the function of token {token} may not return")]
    MayNotReturn {
        /// The token of the function's name.
        token: u32,
    },
    /// A `break` or `continue` is outside loops.
    #[error("token {token} stands outside loops")]
    StrayBreak {
        /// Its token.
        token: u32,
    },
    /// More than 64 variables would be in scope.
    #[error("the variable of token {token} is the 65th in scope")]
    TooManySlots {
        /// The token of the 65th variable.
        token: u32,
    },
    /// There is no memory.
    #[error("no memory is left")]
    NoMemory,
}

impl From<NoMemory> for ScopeEnd {
    ghost use Rattle.std.specs.Prelude.{◌≡◌};
    ghost use Rattle.c_names.specs.declared.error.ScopeEnd.TheVariants.{NoMemory};

    ghost from_gives = { λ _ e. e ≡ NoMemory };

    fn from(_refused: NoMemory) -> ScopeEnd {
        ScopeEnd::NoMemory
    }
}

impl From<AllocError> for ScopeEnd {
    ghost use Rattle.std.specs.Prelude.{◌≡◌};
    ghost use Rattle.c_names.specs.declared.error.ScopeEnd.TheVariants.{NoMemory};

    ghost from_gives = { λ _ e. e ≡ NoMemory };

    fn from(_refused: AllocError) -> ScopeEnd {
        ScopeEnd::NoMemory
    }
}
