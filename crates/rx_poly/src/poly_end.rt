//! Why no polynomial was formed.
ghost use Rattle.std.specs.Prelude.{◌≡◌};

use std::alloc::AllocError;
use thiserror::Error;

/// Why a polynomial was not formed.
#[derive(Clone, Copy, Debug, PartialEq, Eq, Error)]
pub enum PolyEnd {
    /// A coefficient leaves i128, or a polynomial on the way has a size above 4,096 or quotients
    /// and remainders nested more than 64 deep.
    #[error("a polynomial is too large")]
    Large,
    /// There was no memory.
    #[error("out of memory")]
    NoMemory,
}

impl From<AllocError> for PolyEnd {
    ghost use Rattle.std.specs.Prelude.{◌≡◌};
    ghost use Rattle.rx_poly.specs.declared.poly_end.PolyEnd.TheVariants.{NoMemory};

    ghost from_gives = { λ _ e. e ≡ NoMemory };

    fn from(_e: AllocError) -> PolyEnd {
        PolyEnd::NoMemory
    }
}
