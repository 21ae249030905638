//! The state of a proof at a step of the log in a file.
ghost use Rattle.std.specs.Prelude.{◌≡◌, ◌≤◌};
ghost use Rattle.rx_io.specs.Outside.{Rose};
ghost use Rattle.rx_logstate.specs.AtSteps.{FindsFronts, FindsStep};

use crate::at_step::AtStep;
use crate::front_lines::Fronts;
use crate::look_end::LookEnd;
use crate::looking::Look;
use rx_io::Files;
use rx_plain::Items;
use rx_row::Constraint;
use rx_term::{Equation, RuleParts, RuleSet, Term};
use std::alloc::Global;

// The most bytes that one call takes.
const PIECE: usize = 65_536;

/// What is known at the step with that number, counted from 0, of the log in the named file, of at
/// most `limit` bytes, for the rules and the goal; after the last step where there are no more.
///
/// The file is read once, in pieces, up to its end, since only then it is known to hold a log. Kept
/// are a piece of the file, the next line, the state and the ranks. Covers, ranks and pairs aren't
/// judged.
pub fn step_in_file<F: Files>(
    alloc: Global,
    rules: &RuleSet,
    goal: Equation,
    files: &mut F,
    name: &str,
    limit: u32,
    number: usize,
) -> Result<AtStep, LookEnd>
    ensures reach { F.reaches files.old files.new }
    ensures held { F.held files.new ≡ F.held files.old }
    ensures later { F.faults files.old ≤ F.faults files.new }
    ensures finds { FindsStep (F.held files.old) (Rose (F.faults files.old) (F.faults files.new))
        name.now limit rules.now goal number result }
{
    let Ok(()) = files.open(name) else {
        return Err(LookEnd::Unread);
    };
    let most = limit as usize;
    let mut look = Look::start(alloc, goal, number)?;
    let mut piece = [0u8; PIECE];
    let mut read = 0usize;
    loop {
        let Ok(count) = files.take(&mut piece) else {
            return Err(LookEnd::Unread);
        };
        if count == 0 {
            return look.finish();
        }
        if count > most - read {
            return Err(LookEnd::Unread);
        }
        read += count;
        look.take(alloc, rules, &piece[..count])?;
    }
}

/// A rule set without symbols.
fn no_rules(alloc: Global) -> RuleSet {
    let parts = RuleParts {
        symbols: Items::new(alloc),
        domains: Items::new(alloc),
        rules: Items::new(alloc),
        fails: 0,
    };
    match RuleSet::from_parts(parts) {
        Some(rules) => rules,
        None => unreachable!(),
    }
}

/// That a failure is itself, under no rows.
fn plain_goal(alloc: Global) -> Equation {
    Equation {
        left: Term::Fail(0),
        right: Term::Fail(0),
        rows: Constraint::from_rows(Vec::new(alloc)),
    }
}

/// Keeps where the lines before the steps begin, and nothing else.
fn fronts_at(found: AtStep) -> Fronts
    ensures { result ≡ found.fronts }
{
    found.fronts
}

/// Where the lines before the steps begin in the log in the named file, of at most `limit` bytes.
///
/// The file is read once, in pieces, up to its end, since only then it is known to hold a log.
/// Nothing in it is judged, so it is no matter what the log is about.
pub fn fronts_in_file<F: Files>(
    alloc: Global,
    files: &mut F,
    name: &str,
    limit: u32,
) -> Result<Fronts, LookEnd>
    ensures reach { F.reaches files.old files.new }
    ensures held { F.held files.new ≡ F.held files.old }
    ensures later { F.faults files.old ≤ F.faults files.new }
    ensures finds { FindsFronts (F.held files.old) (Rose (F.faults files.old) (F.faults files.new))
        name.now limit result }
{
    // Before the first step no rule is used.
    let rules = no_rules(alloc);
    let goal = plain_goal(alloc);
    match step_in_file(alloc, &rules, goal, files, name, limit, 0) {
        Ok(found) => Ok(fronts_at(found)),
        Err(end) => Err(end),
    }
}
