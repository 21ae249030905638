//! What is found where moves are tried on a goal.
ghost use Rattle.std.specs.Prelude.{◌≡◌, ◌||◌, true, false, Some, None};
ghost use Rattle.rx_moves.specs.Answers.{IsUnready};

use rx_inference::{FormedStep, Step};

/// A step that is formed and shown, and not yet taken.
#[derive(Drop)]
pub struct Ready {
    /// The step, with its certificates.
    pub step: Step,
    /// What it makes.
    pub made: FormedStep,
}

/// What is found where moves are tried on a goal: the first that applies, and whether something on
/// the way to it passed the limits.
#[derive(Drop)]
pub struct Found {
    /// The step of that move.
    pub ready: Option<Ready>,
    /// Whether something passed the limits.
    pub noted: bool,
}

impl Found {
    /// No move applies, and nothing passed the limits.
    pub(crate) fn failed() -> Found
        ensures { result ≡ record { ready = None; noted = false } }
    {
        Found {
            ready: None,
            noted: false,
        }
    }

    /// No move applies, as something passes the limits.
    pub(crate) fn too_large() -> Found
        ensures { result ≡ record { ready = None; noted = true } }
    {
        Found {
            ready: None,
            noted: true,
        }
    }

    /// The move of that step applies.
    pub(crate) fn of(step: Step, made: FormedStep) -> Found
        ensures { result ≡
            record { ready = Some (record { step = step; made = made }); noted = false } }
    {
        Found {
            ready: Some(Ready { step, made }),
            noted: false,
        }
    }

    /// What was found, where before it something passed the limits if `noted` says so.
    pub(crate) fn after(self, noted: bool) -> Found
        ensures { result ≡ record { ready = self.ready; noted = noted || self.noted } }
    {
        Found {
            ready: self.ready,
            noted: noted || self.noted,
        }
    }

    /// Whether something passed the limits, where no move applies; otherwise the same.
    pub(crate) fn unready(self) -> Result<bool, Found>
        ensures { IsUnready self result }
    {
        let Found { ready, noted } = self;
        match ready {
            Some(ready) => Err(Found {
                ready: Some(ready),
                noted,
            }),
            None => Ok(noted),
        }
    }
}
