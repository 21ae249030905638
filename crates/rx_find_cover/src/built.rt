//! What comes of looking for something, with whether the limits were passed on the way.
ghost use Rattle.std.specs.Prelude.{◌≡◌};
ghost use Rattle.rx_find_cover.specs.Answers.{outcome};
ghost use Rattle.rx_find_cover.specs.Coverage.{noting};

/// What was made, if anything, and whether something on the way to it passed the limits.
#[derive(Drop)]
pub(crate) struct Built<T> {
    /// What was made.
    pub(crate) made: Option<T>,
    /// Whether something passed the limits.
    pub(crate) noted: bool,
}

/// What was built, where before it something passed the limits if `noted` says so.
pub(crate) fn noted_before<T: Drop>(noted: bool, later: Built<T>) -> Built<T>
    ensures made { result.made ≡ later.made }
    ensures outcome { outcome result ≡ noting noted (outcome later) }
{
    Built {
        made: later.made,
        noted: noted || later.noted,
    }
}

/// Whether something was noted; what was made, if anything, isn't wanted.
pub(crate) fn into_noted<T: Drop>(built: Built<T>) -> bool
    ensures { result ≡ built.noted }
{
    built.noted
}
