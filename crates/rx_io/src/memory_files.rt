//! Files in memory.
ghost use Rattle.std.specs.Prelude.{◌≡◌, ◌≤◌, ◌⊎◌, ◌++◌, ◌+◌, ◌<◌, ◌^◌, List, [], min, length, take, drop, Option, None, Some, IfOk, IsErr, OnOk, OnErr, string_bytes, position};
ghost use Rattle.std.specs.Option.{ForSome, option_map};
ghost use Rattle.std.specs.Str.{bytes_eq};
ghost use Rattle.std.specs.Io.{ReadsAtMost};
ghost use Rattle.std.specs.Io.KnownBytes.{Keeps, ReadConsumes};
ghost use Rattle.rx_io.specs.Held.{Entry, names_of, left_of};
ghost use Rattle.rx_io.specs.Outside.{Rose, IsMissing, IsOpenedAt};

use crate::calls::is_listed;
use crate::{Failed, Files};

// How far the file of an entry is read.
#[derive(Clone, Copy)]
struct Opened {
    entry: usize,
    taken: usize,
}

/// Files in memory, whose calls fail where a list says so.
#[derive(Drop)]
pub struct MemoryFiles {
    held: Vec<(String, Vec<u8>)>,
    piece: usize,
    fail: Vec<u64>,
    opened: Option<Opened>,
    calls: u64,
    faults: u64,
    ghost some_piece: { 1 ≤ piece },
    ghost never_fails: { fail.items ≡ [] → faults ≡ 0 },
}

impl MemoryFiles {
    ghost use Rattle.rx_io.specs.MemoryFiles.{names_in, left_in, calls_in, faults_in, piece_in, fail_in};

    /// Files with these names and contents, none of them open. Of two equal names the first counts.
    /// One call takes at most `piece` bytes. The calls whose numbers are in `fail` fail; they are
    /// counted together from 1. It takes no memory.
    pub fn new(held: Vec<(String, Vec<u8>)>, piece: usize, fail: Vec<u64>) -> MemoryFiles
        requires { 1 ≤ piece }
        ensures names { names_in result ≡ names_of held.items }
        ensures piece { piece_in result ≡ piece }
        ensures fail { fail_in result ≡ fail.items }
        ensures left { left_in result ≡ [] }
        ensures calls { calls_in result ≡ 0 }
        ensures faults { faults_in result ≡ 0 }
    {
        MemoryFiles {
            held,
            piece,
            fail,
            opened: None,
            calls: 0,
            faults: 0,
        }
    }
}

// The first entry with this name.
fn entry_of(held: &[(String, Vec<u8>)], name: &str) -> Option<usize>
    ensures { result ≡ position (λ (entry : Entry). bytes_eq (string_bytes entry.0) name.now)
        held.now }
{
    held.iter().position(|entry| entry.0.as_str() == name)
}

// The first file with this name, from its beginning.
#[tactic(auto, using(crate::proofs::HeldLemmas::named_entry))]
fn opened_file(held: &[(String, Vec<u8>)], name: &str) -> Option<Opened>
    ensures { names_of held.now name.now ≡ option_map (λ opened. left_of held.now (Some opened))
        result }
{
    let entry = entry_of(held, name)?;
    Some(Opened { entry, taken: 0 })
}

// What is left of the open file.
fn rest_of(held: &[(String, Vec<u8>)], opened: Option<Opened>) -> &[u8]
    ensures rest { result.now ≡ left_of held.now opened }
    ensures fits { ForSome opened (λ file. file.taken + length result.now < 2 ^ 64) }
{
    let Some(opened) = opened else {
        return &[];
    };
    match held.get(opened.entry) {
        Some((_, bytes)) => &bytes[opened.taken.min(bytes.len())..],
        None => &[],
    }
}

// The open file, that many bytes later.
fn past(opened: Option<Opened>, count: usize) -> Option<Opened>
    requires { ForSome opened (λ file. file.taken + count < 2 ^ 64) }
    ensures { (held : List Entry) → left_of held result ≡ drop count (left_of held opened) }
{
    let Opened { entry, taken } = opened?;
    Some(Opened {
        entry,
        taken: taken + count,
    })
}

// Moves the front of `rest` into the front of `into`, as much as fits and at most n bytes.
fn move_front(rest: &[u8], most: usize, into: &mut [u8]) -> usize
    ensures count { result ≡ min most (min (length into.old) (length rest.now)) }
    ensures moved { into.new ≡ take result rest.now ++ drop result into.old }
{
    let count = most.min(into.len().min(rest.len()));
    into[..count].copy_from_slice(&rest[..count]);
    count
}

impl Files for MemoryFiles {
    ghost use Rattle.rx_io.specs.MemoryFiles.{names_in, left_in, faults_in, IsSameSetup, same_setup, same_setup_on, Opens, Takes};

    ghost held = { λ files. Some (names_in files) };

    ghost left = { λ files. Some (left_in files) };

    ghost faults = { λ files. faults_in files };

    ghost reaches = { IsSameSetup };

    ghost reaches_same = { same_setup };

    ghost reaches_on = { same_setup_on };

    fn open(&mut self, name: &str) -> Result<(), Failed>
        ensures reach { IsSameSetup self.old self.new }
        ensures held { Some (names_in self.new) ≡ Some (names_in self.old) }
        ensures later { faults_in self.old ≤ faults_in self.new }
        ensures ok { OnOk result (IsOpenedAt (Some (names_in self.old)) name.now
            (Some (left_in self.new))) }
        ensures err { OnErr result (Keeps (Some (left_in self.old)) (Some (left_in self.new))) }
        ensures cause { OnErr result (Rose (faults_in self.old) (faults_in self.new) ⊎
            IsMissing (Some (names_in self.old)) name.now) }
        ensures missing { IsMissing (Some (names_in self.old)) name.now → IsErr result ×
            (faults_in self.new ≡ faults_in self.old) }
        ensures does { Opens self.old name.now result self.new }
    {
        let fails = is_listed(&self.fail, self.calls);
        self.calls = self.calls.saturating_add(1);
        let Some(opened) = opened_file(&self.held, name) else {
            return Err(Failed);
        };
        if fails {
            self.faults = self.faults.saturating_add(1);
            return Err(Failed);
        }
        self.opened = Some(opened);
        Ok(())
    }

    fn take(&mut self, into: &mut [u8]) -> Result<usize, Failed>
        ensures reach { IsSameSetup self.old self.new }
        ensures held { Some (names_in self.new) ≡ Some (names_in self.old) }
        ensures later { faults_in self.old ≤ faults_in self.new }
        ensures bound { ReadsAtMost result into.new }
        ensures bytes { ReadConsumes (Some (left_in self.old)) (Some (left_in self.new)) result
            into.new }
        ensures cause { OnErr result (Rose (faults_in self.old) (faults_in self.new)) }
        ensures does { Takes self.old into.old result into.new self.new }
    {
        let is_fault = is_listed(&self.fail, self.calls);
        self.calls = self.calls.saturating_add(1);
        if is_fault {
            self.faults = self.faults.saturating_add(1);
            return Err(Failed);
        }
        let count = move_front(rest_of(&self.held, self.opened), self.piece, into);
        self.opened = past(self.opened, count);
        Ok(count)
    }
}
