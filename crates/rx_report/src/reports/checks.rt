//! The lines of logs that aren't accepted.
ghost use Rattle.std.specs.Prelude.{◌≡◌, IfOk, string_bytes};
ghost use Rattle.rx_report.specs.Texts as spec;

use crate::reports::numbered_line;
use rx_check::{CheckEnd, LimitAt};
use rx_steps::StepEnd;
use std::alloc::{AllocError, Global};

/// A step, by its number and by words.
fn step_line(alloc: Global, step: usize, words: &str) -> Result<String, AllocError>
    ensures { IfOk result (λ line. string_bytes line ≡ spec.step_line step words.now) }
{
    format!(in alloc; "REFUSED step {step} {words}\n")
}

/// A step one of whose conditions isn't shown.
fn not_shown_line(alloc: Global, step: usize, condition: u32) -> Result<String, AllocError>
    ensures { IfOk result (λ line.
        string_bytes line ≡ spec.unmet_line step (StepEnd.NotShown condition)) }
{
    format!(in alloc; "REFUSED step {step} not-shown {condition}\n")
}

/// A step that doesn't apply.
fn unmet_line(alloc: Global, step: usize, end: StepEnd) -> Result<String, AllocError>
    ensures { IfOk result (λ line. string_bytes line ≡ spec.unmet_line step end) }
{
    match end {
        StepEnd::NoGoal => step_line(alloc, step, "no-goal"),
        StepEnd::WrongShape => step_line(alloc, step, "wrong-shape"),
        StepEnd::NoSuchRule => step_line(alloc, step, "no-such-rule"),
        StepEnd::NotShown { condition } => not_shown_line(alloc, step, condition),
        StepEnd::Large | StepEnd::NoMemory => Ok(String::new(alloc)),
    }
}

/// A place that passes the limits.
fn large_line(alloc: Global, place: LimitAt) -> Result<String, AllocError>
    ensures { IfOk result (λ line. string_bytes line ≡ spec.large_line place) }
{
    match place {
        LimitAt::Keep(part) => numbered_line(alloc, "LARGE keep ", part),
        LimitAt::Cover(symbol) => numbered_line(alloc, "LARGE cover s", symbol),
        LimitAt::Step(step) => numbered_line(alloc, "LARGE step ", step),
        LimitAt::Pair(pair) => numbered_line(alloc, "LARGE pair ", pair),
    }
}

/// A log that isn't accepted.
pub fn check_line(alloc: Global, end: CheckEnd) -> Result<String, AllocError>
    ensures { IfOk result (λ line. string_bytes line ≡ spec.check_line end) }
{
    match end {
        CheckEnd::BadDomain { sym } => numbered_line(alloc, "REFUSED domain s", sym),
        CheckEnd::NotKept { part } => numbered_line(alloc, "REFUSED keep ", part),
        CheckEnd::Step { step, end } => unmet_line(alloc, step, end),
        CheckEnd::Unfinished { goals } => {
            numbered_line(alloc, "REFUSED unfinished ", goals as usize)
        }
        CheckEnd::NotCovered { sym } => numbered_line(alloc, "REFUSED cover s", sym),
        CheckEnd::BadRanks { sym } => numbered_line(alloc, "REFUSED ranks s", sym),
        CheckEnd::NotLower { pair } => numbered_line(alloc, "REFUSED pair ", pair),
        CheckEnd::Large { place } => large_line(alloc, place),
        CheckEnd::NoMemory => Ok(String::new(alloc)),
    }
}
