//! Files and a sink in memory, whose calls are short or fail.

use rx_io::{MemoryFiles, MemorySink};
use std::alloc::Global;
use test_lines::numbers_of;

// The most bytes of a call and the room.
fn sizes_of(text: &str) -> Option<(usize, usize)> {
    let (piece, room) = text.trim().split_once(' ')?;
    Some((piece.parse().ok()?, room.parse().ok()?))
}

/// How many bytes one call on the files takes at most, and which calls fail, counted from 1.
#[derive(Drop)]
pub struct Inlet {
    piece: usize,
    fail: Vec<u64>,
}

impl Inlet {
    /// Files that give so much at a time and never fail.
    pub fn new(alloc: Global, piece: usize) -> Inlet {
        Inlet {
            piece,
            fail: Vec::new(alloc),
        }
    }

    /// Files as a line says: the most bytes of a call, and the numbers of the calls that fail.
    pub fn given(alloc: Global, line: &str) -> Option<Inlet> {
        let (piece, fail) = line.split_once(' ').unwrap_or((line, ""));
        Some(Inlet {
            piece: piece.parse().ok()?,
            fail: numbers_of(alloc, fail)?,
        })
    }

    /// Files with these names and contents.
    pub fn files(self, held: Vec<(String, Vec<u8>)>) -> Option<MemoryFiles> {
        if self.piece == 0 {
            return None;
        }
        Some(MemoryFiles::new(held, self.piece, self.fail))
    }
}

/// How many bytes one call on the sink writes at most, the room, and which calls fail or write
/// nothing, counted from 1.
#[derive(Drop)]
pub struct Outlet {
    piece: usize,
    room: usize,
    fail: Vec<u64>,
    zero: Vec<u64>,
}

impl Outlet {
    /// A sink that takes as much as is written and never fails.
    pub fn new(alloc: Global) -> Outlet {
        Outlet {
            piece: 65_536,
            room: 65_536,
            fail: Vec::new(alloc),
            zero: Vec::new(alloc),
        }
    }

    /// A sink as a line says: the most bytes of a call and the room; the numbers of the calls that
    /// fail; those of the calls that write nothing, with `;` between the three.
    pub fn given(alloc: Global, line: &str) -> Option<Outlet> {
        let (sizes, calls) = line.split_once(';')?;
        let (piece, room) = sizes_of(sizes)?;
        let (fail, zero) = calls.split_once(';')?;
        Some(Outlet {
            piece,
            room,
            fail: numbers_of(alloc, fail)?,
            zero: numbers_of(alloc, zero)?,
        })
    }

    /// The sink.
    pub fn sink(self, alloc: Global) -> Option<MemorySink> {
        if self.piece == 0 {
            return None;
        }
        MemorySink::new(alloc, self.piece, self.room, self.fail, self.zero).ok()
    }
}
