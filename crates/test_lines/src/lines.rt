//! The lines of a table, from the first to the last.
use crate::answers::Meant;
use crate::cases::{case_of, separator_of};
use std::alloc::Global;
use std::io;

/// How a line fares.
#[derive(Drop)]
pub enum Verdict {
    /// It asks for nothing: a heading, or what later lines speak of.
    Given,
    /// What it says is so.
    Holds,
    /// What it says isn't so.
    Differs,
    /// It can't be read, or there is no memory.
    Unread,
}

impl Verdict {
    /// How a line fares that holds or doesn't, or of which that isn't known.
    pub fn of(holds: Option<bool>) -> Verdict {
        match holds {
            Some(true) => Verdict::Holds,
            Some(false) => Verdict::Differs,
            None => Verdict::Unread,
        }
    }
}

// Whether the line is a heading, or empty.
fn is_heading(line: &str) -> bool {
    line.is_empty() || line.starts_with('#')
}

// Prints a line that differs or can't be read; answers how many lines hold, of this one.
fn report<R: Print>(rt: &R, line: &str, verdict: Verdict) -> io::Result<u64> {
    match verdict {
        Verdict::Given => return Ok(0),
        Verdict::Holds => return Ok(1),
        Verdict::Differs => println!(rt; "differs: {line}")?,
        Verdict::Unread => println!(rt; "unread: {line}")?,
    }
    Ok(0)
}

/// Judges each line of the standard input but the headings, which begin with `#`, and the empty
/// ones. Prints each line that differs with the word `differs`, each that can't be read with
/// `unread`, and at the end how many hold, as `9 lines hold`, where `lines` is the word given.
/// Fails where a line can't be taken, or nothing can be printed.
pub fn count_lines<R: Input + Print + AllocGlobal, F: FnMut(Global, &str) -> Verdict>(
    rt: &R,
    what: &str,
    mut judge: F,
) -> io::Result<()>
    requires { F.IsAlwaysCallable judge }
{
    let mut count = 0u64;
    for line in rt.lines(rt.alloc()) {
        let line = line?;
        if is_heading(line.as_str()) {
            continue;
        }
        let verdict = judge(rt.alloc(), line.as_str());
        count = count.saturating_add(report(rt, line.as_str(), verdict)?);
    }
    println!(rt; "{count} {what} hold")
}

// Whether the line's call answers what the line wants; none where that isn't known.
fn is_answered<A: Meant + Drop, F: FnMut(Global, &str, &str) -> Option<A>>(
    alloc: Global,
    line: &str,
    answer: &mut F,
) -> Option<bool>
    requires { (state : F) (alloc : _) (call : _) (given : _) → F.pre state alloc call given }
{
    let case = case_of(line, separator_of(line))?;
    let answer = answer(alloc, case.call, case.given)?;
    answer.is_meant(alloc, case.wanted)
}

/// As `count_lines`, of lines whose parts are a call, what it is given, and what it is to answer,
/// each line with bars between them or with semicolons. The calls answer None where the line can't
/// be read, or there is no memory.
pub fn run<R, A, F>(rt: &R, mut answer: F) -> io::Result<()>
where
    R: Input + Print + AllocGlobal,
    A: Meant + Drop,
    F: FnMut(Global, &str, &str) -> Option<A>,
    requires { (state : F) (alloc : _) (call : _) (given : _) → F.pre state alloc call given }
{
    let mut count = 0u64;
    for line in rt.lines(rt.alloc()) {
        let line = line?;
        if is_heading(line.as_str()) {
            continue;
        }
        let holds = is_answered(rt.alloc(), line.as_str(), &mut answer);
        count = count.saturating_add(report(rt, line.as_str(), Verdict::of(holds))?);
    }
    println!(rt; "{count} lines hold")
}
