//! A log that is replayed while it is read from pieces of its text.
ghost use Rattle.std.specs.Prelude.{◌≡◌, ◌≢◌, ◌+◌, ◌<◌, ◌≤◌, ◌^◌, [], ◌++◌, drop, ℕ, List, length};
ghost use Rattle.std.specs.Prelude.{Err};
ghost use Rattle.std.specs.Prelude.{IfOk, IfSome, OnOk};
ghost use Rattle.rx_term.specs.declared.rule.Equation.{Equation};
ghost use Rattle.rx_term.specs.declared.rule_set.RuleParts.{RuleParts};
ghost use Rattle.rx_logfile.specs.Checking.{IsCount, IsInStep, StandsFor, TakesLine, lines_in};
ghost use Rattle.rx_check.specs.declared.check_end.CheckEnd.{CheckEnd};
ghost use Rattle.rx_logfile.specs.LogFiles.{OnBytes};
ghost use Rattle.rx_logfile.specs.declared.file_end.FileEnd.TheVariants.{Check};

use crate::file_end::FileEnd;
use rx_check::Replayer;
use rx_logtext::{LogEnd, LogReader};
use rx_plain::NoMemory;
use rx_term::{Equation, RuleSet};
use std::alloc::Global;

/// The bytes after the first ones.
fn bytes_after(bytes: &[u8], count: usize) -> &[u8]
    requires { count ≤ length bytes.now }
    ensures { result.now ≡ drop count bytes.now }
{
    &bytes[count..]
}

/// A log that is replayed while it is read from pieces of its text.
#[derive(Drop)]
pub struct LogCheck {
    // What has been read.
    reader: LogReader,
    // What the lines so far come to.
    replayer: Replayer,
}

impl LogCheck {
    /// Nothing has been read yet, for the goal and any rules.
    pub fn start(alloc: Global, goal: Equation) -> Result<LogCheck, NoMemory>
        ensures stands { IfOk result (λ check. (parts : RuleParts) →
            StandsFor check parts goal []) }
        ensures step { IfOk result IsInStep }
    {
        let replayer = Replayer::start(alloc, goal)?;
        Ok(LogCheck {
            reader: LogReader::new(alloc),
            replayer,
        })
    }

    /// Takes the piece up to and with its first line feed, or all of it, and answers how many bytes
    /// that were; None where a line is bad, after which nothing more is looked at.
    fn take_line(
        &mut self,
        alloc: Global,
        rules: &RuleSet,
        piece: &[u8],
    ) -> Result<Option<usize>, NoMemory>
        requires room { lines_in self.old + 1 < 2 ^ 64 }
        requires step { IsInStep self.old }
        ensures takes { IfOk result (λ count. (goal : Equation) (bytes : List ℕ) →
            StandsFor self.old rules.now goal bytes →
            TakesLine self.new rules.now goal bytes piece.now count) }
        ensures count { IfOk result (λ count. IfSome count (IsCount piece.now)) }
        ensures step { OnOk result (IsInStep self.new) }
        ensures lines { OnOk result (lines_in self.new ≤ lines_in self.old + 1) }
    {
        match self.reader.take(alloc, piece) {
            Ok((count, Some(line))) => {
                let place = self.reader.place();
                self.replayer.line(alloc, rules, line, place)?;
                Ok(Some(count))
            }
            Ok((count, None)) => Ok(Some(count)),
            Err(LogEnd::BadLine { line: _ }) => Ok(None),
            Err(LogEnd::TooDeep | LogEnd::OutOfRange | LogEnd::NoMemory) => Err(NoMemory),
        }
    }

    /// Takes a piece. After an `Err` it is of no more use.
    pub fn take(&mut self, alloc: Global, rules: &RuleSet, piece: &[u8]) -> Result<(), NoMemory>
        requires room { lines_in self.old + length piece.now < 2 ^ 64 }
        requires step { IsInStep self.old }
        ensures stands { OnOk result ((goal : Equation) (bytes : List ℕ) →
            StandsFor self.old rules.now goal bytes →
            StandsFor self.new rules.now goal (bytes ++ piece.now)) }
        ensures step { OnOk result (IsInStep self.new) }
    {
        let mut left = piece;
        while !left.is_empty() {
            let Some(count) = self.take_line(alloc, rules, left)? else {
                return Ok(());
            };
            left = bytes_after(left, count);
        }
        Ok(())
    }

    /// Whether the log is accepted, of which the whole text was taken, or why not. The rules must
    /// have no domains: those of the log are used.
    pub fn finish(self, rules: &RuleSet) -> Result<(), FileEnd>
        requires no_domains { rules.now.domains ≡ [] }
        requires room { lines_in self + 1 < 2 ^ 64 }
        requires step { IsInStep self }
        ensures said { (goal : Equation) (bytes : List ℕ) → StandsFor self rules.now goal bytes →
            OnBytes rules.now goal bytes result }
        ensures decided { (goal : Equation) (bytes : List ℕ) →
            StandsFor self rules.now goal bytes → result ≢ Err (Check CheckEnd.NoMemory) }
    {
        match self.reader.finish() {
            Ok(()) => match self.replayer.finish(rules) {
                Ok(()) => Ok(()),
                Err(end) => Err(FileEnd::Check(end)),
            },
            Err(LogEnd::BadLine { line }) => Err(FileEnd::BadLine { line }),
            Err(LogEnd::TooDeep | LogEnd::OutOfRange | LogEnd::NoMemory) => Err(FileEnd::NoMemory),
        }
    }
}
