//! What comes of trying moves.
ghost use Rattle.std.specs.Prelude.{◌≡◌, ◌||◌, true, false, Some, None, IfOk};
ghost use Rattle.rx_settle.specs.Untaken.{IsUntaken};

use rx_inference::Step;
use rx_plain::NoMemory;
use std::alloc::Global;

/// What comes of trying moves: the step that was taken, if one applied, and whether something on
/// the way to it passed the limits.
#[derive(Drop)]
pub struct Trial {
    /// The step, with its certificates.
    pub taken: Option<Step>,
    /// Whether something passed the limits.
    pub noted: bool,
}

impl Trial {
    /// No step is taken, and nothing passed the limits.
    pub(crate) fn failed() -> Trial
        ensures { result ≡ record { taken = None; noted = false } }
    {
        Trial {
            taken: None,
            noted: false,
        }
    }

    /// No step is taken, as something passes the limits.
    pub(crate) fn too_large() -> Trial
        ensures { result ≡ record { taken = None; noted = true } }
    {
        Trial {
            taken: None,
            noted: true,
        }
    }

    /// That step is taken.
    pub(crate) fn of(step: Step) -> Trial
        ensures { result ≡ record { taken = Some step; noted = false } }
    {
        Trial {
            taken: Some(step),
            noted: false,
        }
    }

    /// A copy; fails only when out of memory.
    pub(crate) fn try_clone(&self, alloc: Global) -> Result<Trial, NoMemory>
        ensures { IfOk result (λ trial. trial ≡ self.now) }
    {
        let taken = match &self.taken {
            Some(step) => Some(step.try_clone(alloc)?),
            None => None,
        };
        Ok(Trial {
            taken,
            noted: self.noted,
        })
    }

    /// The same, with what was noted before.
    pub(crate) fn after(self, noted: bool) -> Trial
        ensures { result ≡ record { taken = self.taken; noted = noted || self.noted } }
    {
        Trial {
            taken: self.taken,
            noted: noted || self.noted,
        }
    }

    /// Whether something passed the limits, where no step was taken; otherwise the trial itself.
    pub(crate) fn untaken(self) -> Result<bool, Trial>
        ensures { IsUntaken self result }
    {
        let Trial { taken, noted } = self;
        match taken {
            Some(step) => Err(Trial {
                taken: Some(step),
                noted,
            }),
            None => Ok(noted),
        }
    }
}
