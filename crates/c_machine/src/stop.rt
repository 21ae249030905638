//! What ends a run before it has a value.

use rx_plain::NoMemory;
use std::alloc::AllocFailed;

/// Why a run ended without a value. Callers of this crate see an `Outcome` or want of memory.
#[derive(Clone, Copy)]
pub(crate) enum Stop {
    /// A division by 0.
    DivisionError,
    /// More rounds are needed.
    More,
    /// A value is no number of `i128`.
    Over,
    /// There was no memory.
    NoMemory,
}

impl From<NoMemory> for Stop {
    ghost use Rattle.std.specs.Prelude.{◌≡◌};
    ghost use Rattle.c_machine.specs.declared.stop.Stop.TheVariants as stop;

    ghost from_gives = { λ _ e. e ≡ stop.NoMemory };

    fn from(_e: NoMemory) -> Stop {
        Stop::NoMemory
    }
}

impl<T: Drop> From<AllocFailed<T>> for Stop {
    ghost use Rattle.std.specs.Prelude.{◌≡◌};
    ghost use Rattle.c_machine.specs.declared.stop.Stop.TheVariants as stop;

    ghost from_gives = { λ _ e. e ≡ stop.NoMemory };

    fn from(_e: AllocFailed<T>) -> Stop {
        Stop::NoMemory
    }
}
