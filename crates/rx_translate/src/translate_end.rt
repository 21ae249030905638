//! Why there is no translation.

use rx_plain::NoMemory;
use rx_poly::PolyEnd;
use thiserror::Error;

/// Why two functions have no rule set.
#[derive(Clone, Copy, Debug, PartialEq, Eq, Error)]
pub enum TranslateEnd {
    /// The two functions haven't as many parameters.
    #[error("a function of {first} parameters and one of {second}")]
    ArityDiffers {
        /// How many the first has.
        first: usize,
        /// How many the second has.
        second: usize,
    },
    /// A polynomial passes the limits, a symbol would have more than 128 variables, or there would
    /// be more than 4,096 symbols.
    #[error("the functions are too large")]
    Large,
    /// There was no memory.
    #[error("out of memory")]
    NoMemory,
}

impl From<NoMemory> for TranslateEnd {
    ghost use Rattle.std.specs.Prelude.{◌≡◌};
    ghost use Rattle.rx_translate.specs.declared.translate_end.TranslateEnd.TheVariants as end;

    ghost from_gives = { λ _ e. e ≡ end.NoMemory };

    fn from(_e: NoMemory) -> TranslateEnd {
        TranslateEnd::NoMemory
    }
}

impl From<PolyEnd> for TranslateEnd {
    ghost use Rattle.std.specs.Prelude.{◌≡◌};
    ghost use Rattle.rx_translate.specs.Ends.{of_poly_end};

    ghost from_gives = { λ p e. e ≡ of_poly_end p };

    fn from(e: PolyEnd) -> TranslateEnd {
        match e {
            PolyEnd::Large => TranslateEnd::Large,
            PolyEnd::NoMemory => TranslateEnd::NoMemory,
        }
    }
}
