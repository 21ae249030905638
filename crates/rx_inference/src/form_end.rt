//! Why a step isn't formed.

use rx_plain::NoMemory;
use rx_poly::PolyEnd;
use std::alloc::AllocError;
use thiserror::Error;

/// Why a step isn't formed.
#[derive(Clone, Copy, Debug, PartialEq, Eq, Error)]
pub enum FormEnd {
    /// There is no goal.
    #[error("no goal is left")]
    NoGoal,
    /// The goal, a rule, a hypothesis, or what the step itself gives isn't of the form that is
    /// asked.
    #[error("a step of the wrong shape")]
    WrongShape,
    /// There is no rule, or no hypothesis, of that number.
    #[error("no such rule")]
    NoSuchRule,
    /// A polynomial of a row that is asked, of a new goal or on the way to them passes the limits.
    #[error("a polynomial is too large")]
    Large,
    /// There was no memory.
    #[error("out of memory")]
    NoMemory,
}

impl From<AllocError> for FormEnd {
    ghost use Rattle.std.specs.Prelude.{◌≡◌};
    ghost use Rattle.rx_inference.specs.declared.form_end.FormEnd.TheVariants.{NoMemory};

    ghost from_gives = { λ _ e. e ≡ NoMemory };

    fn from(_e: AllocError) -> FormEnd {
        FormEnd::NoMemory
    }
}

impl From<NoMemory> for FormEnd {
    ghost use Rattle.std.specs.Prelude.{◌≡◌};
    ghost use Rattle.rx_inference.specs.declared.form_end.FormEnd.TheVariants as end;

    ghost from_gives = { λ _ e. e ≡ end.NoMemory };

    fn from(_e: NoMemory) -> FormEnd {
        FormEnd::NoMemory
    }
}

impl From<PolyEnd> for FormEnd {
    ghost use Rattle.std.specs.Prelude.{◌≡◌};
    ghost use Rattle.rx_inference.specs.Forming.{form_end};

    ghost from_gives = { λ p e. e ≡ form_end p };

    fn from(e: PolyEnd) -> FormEnd {
        match e {
            PolyEnd::Large => FormEnd::Large,
            PolyEnd::NoMemory => FormEnd::NoMemory,
        }
    }
}
