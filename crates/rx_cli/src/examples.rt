//! Examples: pairs of a loop and a recursion, each of which is searched for a proof that both
//! return the same.
ghost use Rattle.std.specs.Prelude.{◌≡◌, ◌≤◌, ◌<◌, IfOk, length, get_or};
ghost use Rattle.rx_report.specs.Ends.{status_in, status_of};
ghost use Rattle.rx_cli.specs.Answers.{ExamplesAgree};
ghost use Rattle.rx_cli.specs.Examples as spec;
ghost use Rattle.rx_cli.specs.Examples.{HasStatuses, IsShown, IsStatus, IsTally, with_status};
ghost use Rattle.rx_report.specs.Texts.{IsReportableVerdict};

use crate::proving::prove;
use crate::{NoMemory, Status, Verdict};
use c_ast::Integers;
use rx_command::{Effort, Functions};
use std::alloc::Global;

/// How many examples are proved, and whether something passed the limits in one.
#[derive(Clone, Copy)]
pub struct Tally {
    /// Both functions of this many return the same.
    pub equivalent: u32,
    /// What is formed for one passes the limits.
    pub is_large: bool,
}

/// The number whose multiples the example adds up, as a digit: 1 to 7 in turn.
fn digit(number: u32) -> u8
    ensures { result ≡ spec.digit number }
{
    b'1' + (number % 7) as u8
}

/// The text of the example with this number, counted from 0.
fn example_source(alloc: Global, number: u32) -> Result<Vec<u8>, NoMemory>
    ensures { IfOk result (λ source. source.items ≡ spec.example_source number) }
{
    let mut source = Vec::new(alloc);
    source.extend_from_slice(b"int u(int n) { int s = 0; for (int i = 1; i <= n; i++) s += ")?;
    source.push(digit(number))?;
    source.extend_from_slice(b" * i; return s; } int r(int n) { if (n <= 0) return 0; return ")?;
    source.push(digit(number))?;
    source.extend_from_slice(b" * n + r(n - 1); }")?;
    Ok(source)
}

/// How the search for a proof of the example with this number ends.
fn status_of_example(alloc: Global, number: u32) -> Result<Status, NoMemory>
    ensures { IfOk result (IsStatus number) }
{
    let source = example_source(alloc, number)?;
    let functions = Functions {
        integers: Integers::Unbounded,
        file: "",
        first: "u",
        second: "r",
        precondition: None,
    };
    let effort = Effort {
        depth: 4,
        budget: 100_000,
    };
    Ok(prove(alloc, &source, &functions, effort)?.status())
}

impl Tally {
    /// The tally with an example more, whose search ended so.
    fn with_status(self, status: Status) -> Tally
        requires { self.equivalent ≤ 100 }
        ensures { result ≡ with_status self status }
    {
        match status {
            Status::Equivalent => Tally {
                equivalent: self.equivalent + 1,
                is_large: self.is_large,
            },
            Status::Large => Tally {
                equivalent: self.equivalent,
                is_large: true,
            },
            _ => self,
        }
    }
}

/// How many examples differ: those after them have the same texts again.
const DIFFERENT: u32 = 7;

/// How the searches for proofs of the first examples end, of at most as many as differ.
fn first_statuses(alloc: Global, pairs: u32) -> Result<Vec<Status>, NoMemory>
    ensures { IfOk result (λ statuses. HasStatuses pairs statuses.items) }
{
    let mut statuses = Vec::new(alloc);
    for number in 0..pairs.min(DIFFERENT) {
        statuses.push(status_of_example(alloc, number)?)?;
    }
    Ok(statuses)
}

/// How the search for a proof of the example with this number ends, which is one of the first.
fn repeated(statuses: &[Status], number: u32) -> Status
    requires { spec.repeats number < length statuses.now }
    ensures { (d : Status) → result ≡ get_or statuses.now (spec.repeats number) d }
{
    statuses[(number % DIFFERENT) as usize]
}

/// The tally of the first examples.
fn count_proved(alloc: Global, pairs: u32) -> Result<Tally, NoMemory>
    requires { pairs ≤ 100 }
    ensures { IfOk result (IsTally pairs) }
{
    let statuses = first_statuses(alloc, pairs)?;
    let mut tally = Tally {
        equivalent: 0,
        is_large: false,
    };
    for number in 0..pairs {
        tally = tally.with_status(repeated(statuses.as_slice(), number));
    }
    Ok(tally)
}

/// What is said of this many examples, by their tally.
fn verdict_on(pairs: u32, tally: Tally) -> Verdict
    ensures value { result ≡ spec.verdict_on pairs tally }
    ensures line { IsReportableVerdict result }
{
    if tally.is_large {
        Verdict::LargeSearch
    } else {
        Verdict::Demo(pairs, tally.equivalent)
    }
}

/// What is said of the first examples, of which there are at most 100: how many of them are proved
/// by searches of depth 4 with a budget of 100,000, or that in one of them something passes the
/// limits. Where all are proved, the functions of each return alike for all integers. Fails only
/// where there is no memory.
pub fn demo(alloc: Global, pairs: u32) -> Result<Verdict, NoMemory>
    requires { pairs ≤ 100 }
    ensures shown { IfOk result (IsShown pairs) }
    ensures sound { IfOk result (λ verdict. status_of verdict ≡ Status.Equivalent →
        ExamplesAgree pairs) }
    ensures line { IfOk result IsReportableVerdict }
{
    let tally = count_proved(alloc, pairs)?;
    Ok(verdict_on(pairs, tally))
}
