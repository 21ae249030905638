//! What comes of trying something.
ghost use Rattle.std.specs.Prelude.{◌≡◌, ◌||◌};

/// What was made, if anything, and whether something on the way to it passed the limits.
#[derive(Drop)]
pub struct Attempt<T> {
    /// What was made.
    pub made: Option<T>,
    /// Whether something passed the limits.
    pub noted: bool,
}

/// The attempt, where before it something passed the limits if `noted` says so.
pub fn noted_before<T: Drop>(noted: bool, later: Attempt<T>) -> Attempt<T>
    ensures made { result.made ≡ later.made }
    ensures noted { result.noted ≡ (noted || later.noted) }
{
    Attempt {
        made: later.made,
        noted: noted | later.noted,
    }
}

/// What is found of a condition.
#[derive(Clone, Copy)]
pub(crate) enum Finding {
    /// It is shown.
    Shown,
    /// It isn't.
    NotShown,
    /// It isn't, as something passes the limits.
    TooLarge,
}

impl Finding {
    ghost use Rattle.std.specs.Prelude.{◌≡◌};
    ghost use Rattle.rx_rank.specs.Answers.{found};
    ghost use Rattle.rx_rank.specs.Choices.{is_yes};

    /// Whether it is shown.
    pub(crate) fn is_shown(self) -> bool
        ensures { result ≡ is_yes (found self) }
    {
        match self {
            Finding::Shown => true,
            Finding::NotShown => false,
            Finding::TooLarge => false,
        }
    }
}
