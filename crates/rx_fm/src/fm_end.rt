//! Why there is no answer.
ghost use Rattle.std.specs.Prelude.{◌≡◌};

use rx_poly::PolyEnd;
use std::alloc::{AllocError, AllocFailed};
use thiserror::Error;

/// Why an elimination gave no answer.
#[derive(Clone, Copy, Debug, PartialEq, Eq, Error)]
pub enum FmEnd {
    /// A polynomial or a multiplier on the way passes its limits, or too many polynomials are
    /// there.
    #[error("an elimination is too large")]
    Large,
    /// There was no memory.
    #[error("out of memory")]
    NoMemory,
}

impl From<AllocError> for FmEnd {
    ghost use Rattle.std.specs.Prelude.{◌≡◌};
    ghost use Rattle.rx_fm.specs.declared.fm_end.FmEnd.TheVariants.{NoMemory};

    ghost from_gives = { λ _ e. e ≡ NoMemory };

    fn from(_e: AllocError) -> FmEnd {
        FmEnd::NoMemory
    }
}

impl From<PolyEnd> for FmEnd {
    ghost use Rattle.std.specs.Prelude.{◌≡◌, ◌↔◌};
    ghost use Rattle.rx_fm.specs.declared.fm_end.FmEnd.TheVariants.{Large};
    ghost use Rattle.rx_poly.specs.declared.poly_end.PolyEnd.TheVariants.{Large as TooLarge};

    ghost from_gives = { λ p e. (e ≡ Large) ↔ (p ≡ TooLarge) };

    fn from(e: PolyEnd) -> FmEnd {
        match e {
            PolyEnd::Large => FmEnd::Large,
            PolyEnd::NoMemory => FmEnd::NoMemory,
        }
    }
}
