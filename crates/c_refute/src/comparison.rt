//! The comparison of two functions on all points.
ghost use Rattle.std.specs.Prelude.{◌≡◌, ◌<◌, ◌+◌, ◌^◌, ℕ, length, option_copied};
ghost use Rattle.std.specs.Prelude.{if◌then◌else◌, IfOk, ◌↔◌};
ghost use Rattle.c_meaning.specs.Counted.{counted, outcome_of};
ghost use Rattle.c_code.specs.Flat.{IsCode};
ghost use Rattle.c_refute.specs.Points.{arity, finding_at, finding_of};
ghost use Rattle.c_refute.specs.Points.{is_alike, is_undecided, points, IsComparison};

use crate::findings::{Compared, Finding, RefuteEnd};
use crate::points::{MAX_POINTS, advance, first_point, number_of_points};
use c_ast::{Expr, Resolved};
use c_code::{Code, compile};
use c_machine::Machine;
use c_meaning::Outcome;
use rx_plain::{Items, NoMemory};
use std::alloc::Global;

// How many parameters the function at a place has, 0 where there is none.
fn arity_of(program: &Resolved, f: u32) -> usize
    ensures { result ≡ arity program.now f }
{
    match program.functions.as_slice().get(f as usize) {
        Some(function) => function.params.len(),
        None => 0,
    }
}

// What the outcomes of both functions at a point that counts show: alike, different or undecided.
fn compared_outcomes(first: Outcome, second: Outcome) -> Finding
    ensures { result ≡ finding_of first second }
{
    match (first, second) {
        (Outcome::More | Outcome::Over, _) => Finding::Undecided,
        (_, Outcome::More | Outcome::Over) => Finding::Undecided,
        (Outcome::DivError, Outcome::DivError) => Finding::Alike,
        (Outcome::Value(x), Outcome::Value(y)) if x == y => Finding::Alike,
        (first, second) => Finding::Different(first, second),
    }
}

// What is found at a point that counts.
fn finding_that_counts(
    machine: &mut Machine,
    code: &Code<'_>,
    f: u32,
    g: u32,
    point: &[i128],
    rounds: u32,
) -> Result<Finding, NoMemory>
    requires { IsCode code.now }
    ensures { IfOk result (λ o. o ≡
        finding_of (outcome_of (counted code.now.program.now rounds f point.now))
        (outcome_of (counted code.now.program.now rounds g point.now))) }
{
    let first = machine.call_outcome(code, f, point, rounds)?;
    let second = machine.call_outcome(code, g, point, rounds)?;
    Ok(compared_outcomes(first, second))
}

// What is found at a point.
fn finding(
    machine: &mut Machine,
    code: &Code<'_>,
    f: u32,
    g: u32,
    point: &[i128],
    rounds: u32,
) -> Result<Finding, NoMemory>
    requires { IsCode code.now }
    ensures { IfOk result (λ o. o ≡
        finding_at code.now.program.now f g (option_copied code.now.whole) rounds point.now) }
{
    match machine.whole_outcome(code, point, rounds)? {
        Outcome::Value(0) | Outcome::DivError => Ok(Finding::Excluded),
        Outcome::Value(_) => finding_that_counts(machine, code, f, g, point, rounds),
        Outcome::More | Outcome::Over => Ok(Finding::Undecided),
    }
}

// How many points were found alike, and how many undecided.
#[derive(Clone, Copy)]
struct Tally {
    alike: u32,
    undecided: u32,
}

impl Tally {
    // Counts one more point.
    fn count(&mut self, found: Finding)
        requires alike { self.old.alike + 1 < 2 ^ 32 }
        requires undecided { self.old.undecided + 1 < 2 ^ 32 }
        ensures alike { self.new.alike ≡
            self.old.alike + (if is_alike found then 1 else 0) }
        ensures undecided { self.new.undecided ≡
            self.old.undecided + (if is_undecided found then 1 else 0) }
    {
        match found {
            Finding::Alike => self.alike += 1,
            Finding::Undecided => self.undecided += 1,
            Finding::Excluded | Finding::Different(_, _) => {}
        }
    }
}

/// Runs two functions of equally many parameters on all points, that is on all lists of arguments
/// from -side to side in lexicographic order, with this number of rounds for each run. Different
/// has the first point at which the precondition holds and both have outcomes that no more rounds
/// change, and that differ; Alike is answered exactly where there is no such point. TooManyPoints
/// exactly where there are more than `MAX_POINTS`; else fails only when out of memory.
pub fn compare(
    alloc: Global,
    program: &Resolved,
    f: u32,
    g: u32,
    pre: Option<&Expr>,
    side: u32,
    rounds: u32,
) -> Result<Compared, RefuteEnd>
    ensures compared { IfOk result (λ c.
        IsComparison (finding_at program.now f g (option_copied pre.entry) rounds)
        (points side (arity program.now f)) c) }
    ensures too_many { (n : ℕ) → (result ≡ Err (RefuteEnd.TooManyPoints n))
        ↔ (n ≡ arity program.now f) × (MAX_POINTS < length (points side (arity program.now f))) }
{
    let params = arity_of(program, f);
    let Some(number) = number_of_points(side, params) else {
        return Err(RefuteEnd::TooManyPoints { params });
    };
    let code = compile(alloc, program, pre)?;
    let mut machine = Machine::new(alloc);
    let mut point = first_point(alloc, side, params)?;
    let mut tally = Tally {
        alike: 0,
        undecided: 0,
    };
    for _ in 0..number {
        let found = finding(&mut machine, &code, f, g, point.as_slice(), rounds)?;
        if let Finding::Different(first, second) = found {
            let args = Items::from_vec(point);
            return Ok(Compared::Different {
                args,
                first,
                second,
            });
        }
        tally.count(found);
        advance(point.as_mut_slice(), side);
    }
    Ok(Compared::Alike {
        points: tally.alike,
        undecided: tally.undecided,
    })
}
