//! A sink in memory.
ghost use Rattle.std.specs.Prelude.{◌≡◌, ◌<◌, ◌≤◌, [], length, Some, vec_capacity, IfOk};

use crate::calls::is_listed;
use crate::{Failed, NoMemory, Sink};
use std::alloc::Global;

/// A sink in memory, whose calls fail or take nothing where a list says so.
#[derive(Drop)]
pub struct MemorySink {
    taken: Vec<u8>,
    piece: usize,
    room: usize,
    fail: Vec<u64>,
    zero: Vec<u64>,
    calls: u64,
    faults: u64,
    ghost some_piece: { 1 ≤ piece },
    ghost within: { length taken.items ≤ room },
    ghost has_room: { room ≤ vec_capacity taken },
    ghost fails_when_full: { fail.items ≡ [] → zero.items ≡ [] → 0 < faults → room ≤ length taken.items },
}

impl MemorySink {
    ghost use Rattle.rx_io.specs.MemorySink.{put_in, calls_in, faults_in, piece_in, room_in, fail_in, zero_in};

    /// A sink with nothing written and room for n bytes, for which it takes the memory; a write
    /// takes none. One call takes at most `piece` bytes. The calls whose numbers are in `fail`
    /// fail, and those in `zero` alone answer 0; they are counted together from 1.
    pub fn new(
        alloc: Global,
        piece: usize,
        room: usize,
        fail: Vec<u64>,
        zero: Vec<u64>,
    ) -> Result<MemorySink, NoMemory>
        requires { 1 ≤ piece }
        ensures put { IfOk result (λ sink. put_in sink ≡ []) }
        ensures piece { IfOk result (λ sink. piece_in sink ≡ piece) }
        ensures room { IfOk result (λ sink. room_in sink ≡ room) }
        ensures fail { IfOk result (λ sink. fail_in sink ≡ fail.items) }
        ensures zero { IfOk result (λ sink. zero_in sink ≡ zero.items) }
        ensures calls { IfOk result (λ sink. calls_in sink ≡ 0) }
        ensures faults { IfOk result (λ sink. faults_in sink ≡ 0) }
    {
        Ok(MemorySink {
            taken: Vec::with_capacity(alloc, room)?,
            piece,
            room,
            fail,
            zero,
            calls: 0,
            faults: 0,
        })
    }

    /// The bytes written so far.
    pub fn put_so_far(&self) -> &[u8]
        ensures { result.now ≡ put_in self.now }
    {
        &self.taken
    }
}

impl Sink for MemorySink {
    ghost use Rattle.rx_io.specs.MemorySink.{put_in, faults_in, IsSameSetup, same_setup, same_setup_on, Puts};

    ghost contents = { λ sink. Some (put_in sink) };

    ghost faults = { λ sink. faults_in sink };

    ghost reaches = { IsSameSetup };

    ghost puts = { Puts };

    ghost reaches_same = { same_setup };

    ghost reaches_on = { same_setup_on };

    fn put(&mut self, piece: &[u8]) -> Result<usize, Failed> {
        let fails = is_listed(&self.fail, self.calls);
        let gives_zero = is_listed(&self.zero, self.calls);
        let room = self.room - self.taken.len();
        let is_full = room == 0 && !piece.is_empty();
        self.calls = self.calls.saturating_add(1);
        if fails || gives_zero || is_full {
            self.faults = self.faults.saturating_add(1);
            return if gives_zero && !fails {
                Ok(0)
            } else {
                Err(Failed)
            };
        }
        let count = piece.len().min(self.piece.min(room));
        match self.taken.extend_from_slice(&piece[..count]) {
            Ok(()) => Ok(count),
            Err(_) => unreachable!(),
        }
    }
}
