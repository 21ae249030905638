//! A log that is read from pieces of its text up to a step.
ghost use Rattle.std.specs.Prelude.{◌≡◌, ◌+◌, ◌<◌, ◌≤◌, ◌^◌, [], ◌++◌, drop, ℕ, List, length};
ghost use Rattle.std.specs.Prelude.{IfOk, IsErrOf, OnOk};
ghost use Rattle.rx_logtext.specs.Logs.{up_to_feed};
ghost use Rattle.rx_term.specs.declared.rule.Equation.{Equation};
ghost use Rattle.rx_term.specs.declared.rule_set.RuleParts.{RuleParts};
ghost use Rattle.rx_logstate.specs.Following.{EndsBad, GoesOn, IsCount, Says, StandsFor, lines_in};

use crate::at_step::AtStep;
use crate::following::Follower;
use crate::look_end::LookEnd;
use rx_logtext::{LogEnd, LogReader};
use rx_plain::NoMemory;
use rx_term::{Equation, RuleSet};
use std::alloc::Global;

/// The bytes after the first ones.
fn bytes_after(bytes: &[u8], count: usize) -> &[u8]
    requires { count ≤ length bytes.now }
    ensures { result.now ≡ drop count bytes.now }
{
    &bytes[count..]
}

/// A log that is read from pieces of its text up to a step.
#[derive(Drop)]
pub(crate) struct Look {
    // What has been read.
    reader: LogReader,
    // What its lines give.
    follower: Follower,
}

impl Look {
    /// Nothing has been read yet, for the goal and any rules.
    pub(crate) fn start(alloc: Global, goal: Equation, number: usize) -> Result<Look, NoMemory>
        ensures { IfOk result (λ look. (parts : RuleParts) →
            StandsFor look parts goal number []) }
    {
        let follower = Follower::start(alloc, goal, number)?;
        Ok(Look {
            reader: LogReader::new(alloc),
            follower,
        })
    }

    /// Takes the piece up to and with its first line feed, or all of it, and answers how many bytes
    /// that were; NoPlace where no log begins so.
    fn take_line(&mut self, alloc: Global, rules: &RuleSet, piece: &[u8]) -> Result<usize, LookEnd>
        requires room { lines_in self.old + 1 < 2 ^ 64 }
        ensures takes { OnOk result (GoesOn rules.now self.old (up_to_feed piece.now) self.new) }
        ensures bad { IsErrOf result LookEnd.NoPlace → EndsBad rules.now self.old piece.now }
        ensures read { IsErrOf result LookEnd.Unread → ⊥ }
        ensures count { IfOk result (IsCount piece.now) }
        ensures lines { OnOk result (lines_in self.new ≤ lines_in self.old + 1) }
    {
        match self.reader.take(alloc, piece) {
            Ok((count, Some(line))) => {
                self.follower.line(alloc, rules, line)?;
                Ok(count)
            }
            Ok((count, None)) => Ok(count),
            Err(LogEnd::BadLine { line: _ }) => Err(LookEnd::NoPlace),
            Err(LogEnd::TooDeep | LogEnd::OutOfRange | LogEnd::NoMemory) => Err(LookEnd::NoMemory),
        }
    }

    /// Takes a piece. After an `Err` it is of no more use.
    pub(crate) fn take(
        &mut self,
        alloc: Global,
        rules: &RuleSet,
        piece: &[u8],
    ) -> Result<(), LookEnd>
        requires room { lines_in self.old + length piece.now < 2 ^ 64 }
        ensures takes { OnOk result (GoesOn rules.now self.old piece.now self.new) }
        ensures bad { IsErrOf result LookEnd.NoPlace → EndsBad rules.now self.old piece.now }
        ensures read { IsErrOf result LookEnd.Unread → ⊥ }
    {
        let mut left = piece;
        while !left.is_empty() {
            let count = self.take_line(alloc, rules, left)?;
            left = bytes_after(left, count);
        }
        Ok(())
    }

    /// What is known at the step, where the whole text was taken.
    pub(crate) fn finish(self) -> Result<AtStep, LookEnd>
        requires { lines_in self + 1 < 2 ^ 64 }
        ensures { (parts : RuleParts) (goal : Equation) (number : ℕ) (bytes : List ℕ) →
            StandsFor self parts goal number bytes → Says parts goal number bytes result }
    {
        match self.reader.finish() {
            Ok(()) => match self.follower.finish()? {
                Some(found) => Ok(found),
                None => Err(LookEnd::NoPlace),
            },
            Err(LogEnd::BadLine { line: _ }) => Err(LookEnd::NoPlace),
            Err(LogEnd::TooDeep | LogEnd::OutOfRange | LogEnd::NoMemory) => Err(LookEnd::NoMemory),
        }
    }
}
