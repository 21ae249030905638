//! The front of a line of a file, which is read in pieces.
ghost use Rattle.std.specs.Prelude.{◌≡◌, ◌≤◌, ◌⊎◌, ◌∷◌, [], ℕ, List, length, take, IfOk, IsErrOf, OnOk};
ghost use Rattle.rx_io.specs.Outside.{HoldsMore, IsMissing, Rose};
ghost use Rattle.rx_places.specs.LineFronts.{IsLineHeld, line_front};

use crate::places::is_line_feed;
use rx_io::{Files, ReadEnd};
use rx_plain::NoMemory;
use std::alloc::Global;

/// The front of a line, as far as its text has come.
#[derive(Drop)]
struct LineFront {
    // How many lines are still in front of it.
    before: usize,
    // Whether its line feed has come.
    is_over: bool,
    // The most bytes that are kept.
    most: usize,
    // Its first bytes.
    bytes: Vec<u8>,
    ghost short: { length bytes.items ≤ most },
}

impl LineFront {
    ghost use Rattle.rx_places.specs.FrontsKept.{Leads, front_with};

    /// Nothing has come yet. The line has this number, counted from 1.
    fn start(alloc: Global, most: usize, number: usize) -> LineFront
        ensures front { (text : List ℕ) → front_with result text ≡ line_front most number text }
        ensures most { result.most ≡ most }
    {
        LineFront {
            before: number.saturating_sub(1),
            is_over: false,
            most,
            bytes: Vec::new(alloc),
        }
    }

    /// Takes a line feed.
    fn take_feed(&mut self)
        ensures { Leads self.old (10 ∷ []) self.new }
    {
        if self.before == 0 {
            self.is_over = true;
        } else {
            self.before -= 1;
        }
    }

    /// Takes a byte.
    fn take_byte(&mut self, byte: u8) -> Result<(), NoMemory>
        ensures { OnOk result (Leads self.old (byte ∷ []) self.new) }
    {
        if self.is_over {
            return Ok(());
        }
        if is_line_feed(byte) {
            self.take_feed();
            return Ok(());
        }
        if self.before == 0 && self.bytes.len() < self.most {
            self.bytes.push(byte)?;
        }
        Ok(())
    }

    /// Takes a piece of the text.
    fn take(&mut self, piece: &[u8]) -> Result<(), NoMemory>
        ensures { OnOk result (Leads self.old piece.now self.new) }
    {
        for byte in piece {
            self.take_byte(*byte)?;
        }
        Ok(())
    }

    /// The front of the line, where the whole text was taken.
    fn finish(self) -> Vec<u8>
        ensures { result.items ≡ front_with self [] }
    {
        self.bytes
    }
}

// The most bytes that one call takes.
const PIECE: usize = 65_536;

/// The first bytes, at most `most`, of the line with that number in the named file, which has at
/// most `limit` bytes. Lines are counted from 1; one that isn't there has no bytes.
///
/// The file is read in pieces, and no more of it is kept. `Failed` comes only where the count of
/// faults rose, or where the name isn't held; `TooLong` where the file has more bytes.
pub fn line_in_file<F: Files>(
    alloc: Global,
    files: &mut F,
    name: &str,
    limit: u32,
    most: usize,
    number: usize,
) -> Result<Vec<u8>, ReadEnd>
    ensures reach { F.reaches files.old files.new }
    ensures held { F.held files.new ≡ F.held files.old }
    ensures later { F.faults files.old ≤ F.faults files.new }
    ensures line { IfOk result (λ line.
        IsLineHeld (F.held files.old) name.now limit most number line.items) }
    ensures failed { IsErrOf result ReadEnd.Failed →
        Rose (F.faults files.old) (F.faults files.new) ⊎ IsMissing (F.held files.old) name.now }
    ensures long { IsErrOf result ReadEnd.TooLong → HoldsMore (F.held files.old) name.now limit }
{
    let Ok(()) = files.open(name) else {
        return Err(ReadEnd::Failed);
    };
    let left_over = limit as usize;
    let mut front = LineFront::start(alloc, most, number);
    let mut piece = [0u8; PIECE];
    let mut read = 0usize;
    loop {
        let Ok(count) = files.take(&mut piece) else {
            return Err(ReadEnd::Failed);
        };
        if count == 0 {
            return Ok(front.finish());
        }
        if count > left_over - read {
            return Err(ReadEnd::TooLong);
        }
        read += count;
        let Ok(()) = front.take(&piece[..count]) else {
            return Err(ReadEnd::NoMemory);
        };
    }
}
