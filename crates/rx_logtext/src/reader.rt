//! Logs, read line by line from pieces of their texts.
ghost use Rattle.std.specs.Prelude.{◌≡◌, ◌+◌, ◌++◌, ◌<◌, ◌≤◌, ◌^◌, [], ℕ, List, length, IfOk, IsErrOf, OnOk, OnErr};
ghost use Rattle.rx_log.specs.declared.log.Log.{Log};
ghost use Rattle.rx_log.specs.Reading.{blank};
ghost use Rattle.rx_logtext.specs.Logs.{up_to_feed};
ghost use Rattle.rx_logtext.specs.Reading.{ReadsNext};
ghost use Rattle.rx_logtext.specs.Readers as spec;
ghost use Rattle.rx_logtext.specs.Readers.{EndsLine, Finishes, IsNext, IsWhole, StandsFor, Takes, count_of, lines_in, place_of};

use crate::cutting::split_line;
use crate::lines::read_numbered;
use crate::log_end::LogEnd;
use rx_log::{Line, LineState, Version};
use rx_plain::{Items, NoMemory};
use std::alloc::Global;

/// The line that the bytes are in logs of the version, where it may come at the place, with the
/// place after it; None exactly where the bytes are no line that may.
fn read_next(
    alloc: Global,
    version: Version,
    place: LineState,
    bytes: &[u8],
) -> Result<Option<(Line, LineState)>, NoMemory>
    ensures { IfOk result (ReadsNext version place bytes.now) }
{
    let Some((line, symbol)) = read_numbered(alloc, version, bytes)? else {
        return Ok(None);
    };
    match place.after(&line, symbol) {
        Some(next) => Ok(Some((line, next))),
        None => Ok(None),
    }
}

/// Adds bytes to a line; where there is no memory it stays as it was.
fn extend(line: &mut Items<u8>, alloc: Global, bytes: &[u8]) -> Result<(), NoMemory>
    ensures ok { OnOk result (line.new ≡ line.old ++ bytes.now) }
    ensures err { OnErr result (line.new ≡ line.old) }
{
    let more = Items::from_slice(alloc, bytes)?;
    line.append(more)?;
    Ok(())
}

/// The line that begins with the bytes so far and ends with the others, as `read_next` has it. The
/// bytes so far stay as they were.
fn read_joined(
    alloc: Global,
    version: Version,
    place: LineState,
    so_far: &mut Items<u8>,
    bytes: &[u8],
) -> Result<Option<(Line, LineState)>, NoMemory>
    ensures read { IfOk result (ReadsNext version place (so_far.old ++ bytes.now)) }
    ensures kept { so_far.new ≡ so_far.old }
{
    let length = so_far.len();
    extend(so_far, alloc, bytes)?;
    let read = read_next(alloc, version, place, so_far.as_slice());
    so_far.truncate(length);
    read
}

/// The version of a log after one line more.
fn version_after(version: Version, line: &Line) -> Version
    ensures { result ≡ spec.version_after version line.now }
{
    match line {
        Line::Header2 => Version::Two,
        _ => version,
    }
}

/// A log that is read from pieces of its text, wherever that is cut. It keeps the version, and
/// the next line as far as it has come, and nothing else of the text or of the log.
#[derive(Drop)]
pub struct LogReader {
    // That of the first line, once it was taken.
    version: Version,
    // Which lines may come next.
    place: LineState,
    // How many lines were taken.
    taken: usize,
    // The next line so far.
    line: Items<u8>,
    // Whether the next line has come and no log begins with it.
    is_bad: bool,
}

impl LogReader {
    /// A reader that has taken nothing. Takes no memory.
    pub fn new(alloc: Global) -> LogReader
        ensures { StandsFor result blank [] }
    {
        LogReader {
            version: Version::One,
            place: LineState::AtHeader,
            taken: 0,
            line: Items::new(alloc),
            is_bad: false,
        }
    }

    /// Which lines may come next.
    pub fn place(&self) -> LineState
        ensures { result ≡ place_of self.now }
    {
        self.place
    }

    /// The number of the next line, counted from 1.
    fn next_number(&self) -> usize
        requires { self.now.taken + 1 < 2 ^ 64 }
        ensures { result ≡ self.now.taken + 1 }
    {
        self.taken + 1
    }

    /// The next line, which ends with these bytes, as `read_next` has it. It is copied only where a
    /// part of it came before.
    fn read_whole(
        &mut self,
        alloc: Global,
        bytes: &[u8],
    ) -> Result<Option<(Line, LineState)>, NoMemory>
        ensures read { IfOk result (ReadsNext self.old.version self.old.place
            (self.old.line ++ bytes.now)) }
        ensures kept { self.new ≡ self.old }
    {
        if self.line.is_empty() {
            read_next(alloc, self.version, self.place, bytes)
        } else {
            read_joined(alloc, self.version, self.place, &mut self.line, bytes)
        }
    }

    /// Takes the piece up to and with its first line feed, or all of it, and answers how many bytes
    /// that were, and the line that the line feed ends.
    ///
    /// BadLine with the number of the line, counted from 1, exactly where no log begins with it,
    /// which is judged at its line feed: it has then been taken, and from then on each call takes
    /// nothing and answers the same. Fails else only when out of memory, and then the reader stays
    /// as it was. The number of the line must be below 2^64.
    pub fn take(&mut self, alloc: Global, piece: &[u8]) -> Result<(usize, Option<Line>), LogEnd>
        requires { lines_in self.old + 1 < 2 ^ 64 }
        ensures count { IfOk result (λ taken. taken.0 ≡ length (up_to_feed piece.now)) }
        ensures within { IfOk result (λ taken. taken.0 ≤ length piece.now) }
        ensures line { IfOk result (λ taken. EndsLine piece.now taken.1) }
        ensures next { IfOk result (λ taken. IsNext (place_of self.old) taken.1 (place_of self.new)) }
        ensures number { IfOk result (λ taken. lines_in self.new ≡ lines_in self.old +
            count_of taken.1) }
        ensures stays { OnErr result ((place_of self.new ≡ place_of self.old) ×
            (lines_in self.new ≡ lines_in self.old)) }
        ensures takes { (log : Log) (bytes : List ℕ) → StandsFor self.old log bytes →
            Takes self.old log bytes piece.now self.new result }
        ensures kept { IsErrOf result LogEnd.NoMemory → self.new ≡ self.old }
    {
        if self.is_bad {
            return Err(LogEnd::BadLine {
                line: self.next_number(),
            });
        }
        let Some((bytes, _)) = split_line(piece) else {
            extend(&mut self.line, alloc, piece)?;
            return Ok((piece.len(), None));
        };
        let Some((line, place)) = self.read_whole(alloc, bytes)? else {
            self.is_bad = true;
            return Err(LogEnd::BadLine {
                line: self.next_number(),
            });
        };
        self.version = version_after(self.version, &line);
        self.place = place;
        self.taken = self.next_number();
        self.line.truncate(0);
        Ok((bytes.len() + 1, Some(line)))
    }

    /// Whether the lines taken are those of a log, and nothing has come after them.
    fn is_whole(&self) -> bool
        ensures { IsWhole self.now result }
    {
        match self.place {
            LineState::Finished => !self.is_bad && self.line.is_empty(),
            _ => false,
        }
    }

    /// Whether what was taken is the text of a log; else BadLine with the number of the first line
    /// with which no log begins, or that is missing. Takes no memory. The number of the next line
    /// must be below 2^64.
    pub fn finish(&self) -> Result<(), LogEnd>
        requires { lines_in self.now + 1 < 2 ^ 64 }
        ensures place { OnOk result (place_of self.now ≡ LineState.Finished) }
        ensures finishes { (log : Log) (bytes : List ℕ) → StandsFor self.now log bytes →
            Finishes log bytes result }
    {
        if self.is_whole() {
            Ok(())
        } else {
            Err(LogEnd::BadLine {
                line: self.next_number(),
            })
        }
    }
}
