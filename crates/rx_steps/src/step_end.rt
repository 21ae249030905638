//! Why a step doesn't apply.

use rx_inference::FormEnd;
use rx_plain::NoMemory;
use rx_poly::PolyEnd;
use thiserror::Error;

/// Why a step doesn't apply.
#[derive(Clone, Copy, Debug, PartialEq, Eq, Error)]
pub enum StepEnd {
    /// There is no goal.
    #[error("no goal is left")]
    NoGoal,
    /// The goal, a rule, a hypothesis, or what the step itself gives isn't of the form that is
    /// asked; or there aren't as many certificates as rows that are asked and aren't plain.
    #[error("a step of the wrong shape")]
    WrongShape,
    /// There is no rule, or no hypothesis, of that number.
    #[error("no such rule")]
    NoSuchRule,
    /// A row that is asked isn't shown by its certificate.
    #[error("condition {condition} is not shown")]
    NotShown {
        /// Its number, counted from 0 over all rows that are asked.
        condition: u32,
    },
    /// A polynomial on the way passes the limits.
    #[error("a polynomial is too large")]
    Large,
    /// There was no memory.
    #[error("out of memory")]
    NoMemory,
}

impl From<NoMemory> for StepEnd {
    ghost use Rattle.std.specs.Prelude.{◌≡◌};
    ghost use Rattle.rx_steps.specs.declared.step_end.StepEnd.TheVariants as end;

    ghost from_gives = { λ _ e. e ≡ end.NoMemory };

    fn from(_e: NoMemory) -> StepEnd {
        StepEnd::NoMemory
    }
}

impl From<PolyEnd> for StepEnd {
    ghost use Rattle.std.specs.Prelude.{◌≡◌};
    ghost use Rattle.rx_steps.specs.Faults.{of_poly_end};

    ghost from_gives = { λ p e. e ≡ of_poly_end p };

    fn from(e: PolyEnd) -> StepEnd {
        match e {
            PolyEnd::Large => StepEnd::Large,
            PolyEnd::NoMemory => StepEnd::NoMemory,
        }
    }
}

impl From<FormEnd> for StepEnd {
    ghost use Rattle.std.specs.Prelude.{◌≡◌};
    ghost use Rattle.rx_steps.specs.Faults.{of_form_end};

    ghost from_gives = { λ f e. e ≡ of_form_end f };

    fn from(e: FormEnd) -> StepEnd {
        match e {
            FormEnd::NoGoal => StepEnd::NoGoal,
            FormEnd::WrongShape => StepEnd::WrongShape,
            FormEnd::NoSuchRule => StepEnd::NoSuchRule,
            FormEnd::Large => StepEnd::Large,
            FormEnd::NoMemory => StepEnd::NoMemory,
        }
    }
}
