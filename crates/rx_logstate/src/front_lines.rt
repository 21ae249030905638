//! Where the lines of a log begin that come before its steps.
ghost use Rattle.std.specs.Prelude.{◌≡◌, ◌+◌, IfOk};
ghost use Rattle.rx_logstate.specs.Fronts.{after_domain, after_keep};

use rx_plain::NoMemory;

/// Where the lines of a log begin that come before its steps: the numbers of lines, counted from 1.
#[derive(Clone, Copy, Debug, PartialEq, Eq)]
pub struct Fronts {
    /// The first certificates that a part keeps the domains, or what comes in their place.
    pub keeps: usize,
    /// The trees of the first symbol, or what comes in their place.
    pub covers: usize,
}

/// The number after this one; NoMemory where there is none.
pub(crate) fn count_after(count: usize) -> Result<usize, NoMemory>
    ensures { IfOk result (λ next. next ≡ count + 1) }
{
    match count.checked_add(1) {
        Some(next) => Ok(next),
        None => Err(NoMemory),
    }
}

impl Fronts {
    /// The same with one domain more.
    pub(crate) fn after_domain(self) -> Result<Fronts, NoMemory>
        ensures { IfOk result (λ next. next ≡ after_domain self) }
    {
        Ok(Fronts {
            keeps: count_after(self.keeps)?,
            covers: count_after(self.covers)?,
        })
    }

    /// The same with one list of certificates more.
    pub(crate) fn after_keep(self) -> Result<Fronts, NoMemory>
        ensures { IfOk result (λ next. next ≡ after_keep self) }
    {
        Ok(Fronts {
            keeps: self.keeps,
            covers: count_after(self.covers)?,
        })
    }
}
