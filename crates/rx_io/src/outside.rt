//! The outside as two traits, and what each of their calls may do.
ghost use Rattle.std.specs.Prelude.{◌≡◌, ◌<◌, ◌≤◌, ◌⊎◌, ℕ, List, Option, Result, length, IfOk, IsErr, OnOk, OnErr};
ghost use Rattle.std.specs.Io.{ReadsAtMost, WritesAtMost};
ghost use Rattle.std.specs.Io.KnownBytes.{Keeps, ReadConsumes, WriteAppends};
ghost use Rattle.rx_io.specs.Outside.{Rose, IsMissing, IsOpenedAt};

use thiserror::Error;

/// A call on the outside failed.
#[derive(Clone, Copy, Debug, PartialEq, Eq, Error)]
#[error("a call on the outside failed")]
pub struct Failed;

/// Files that are read by name, one at a time.
pub trait Files {
    /// What each name holds, by the name's bytes, where it is known.
    ghost held: { Self → Option (List ℕ → Option (List ℕ)) };

    /// What is left of the open file, where it is known.
    ghost left: { Self → Option (List ℕ) };

    /// How many calls found a fault. It never falls.
    ghost faults: { Self → ℕ };

    /// The second state can follow from the first by calls.
    ghost reaches: { Self → Self → Type 0 };

    /// Makes the named file the open one, from its beginning. After `Failed` the open file is as it
    /// was.
    fn open(&mut self, name: &str) -> Result<(), Failed>
        ensures reach { reaches self.old self.new }
        ensures held { held self.new ≡ held self.old }
        ensures later { faults self.old ≤ faults self.new }
        ensures ok { OnOk result (IsOpenedAt (held self.old) name.now (left self.new)) }
        ensures err { OnErr result (Keeps (left self.old) (left self.new)) }
        ensures cause { OnErr result (Rose (faults self.old) (faults self.new) ⊎
            IsMissing (held self.old) name.now) }
        ensures missing { IsMissing (held self.old) name.now → IsErr result ×
            (faults self.new ≡ faults self.old) };

    /// Moves bytes from the front of what is left into the front of `into`, and answers how many.
    /// It answers 0 for a nonempty `into` only at the file's end, and where no file is open.
    fn take(&mut self, into: &mut [u8]) -> Result<usize, Failed>
        ensures reach { reaches self.old self.new }
        ensures held { held self.new ≡ held self.old }
        ensures later { faults self.old ≤ faults self.new }
        ensures bound { ReadsAtMost result into.new }
        ensures bytes { ReadConsumes (left self.old) (left self.new) result into.new }
        ensures cause { OnErr result (Rose (faults self.old) (faults self.new)) };

    /// A state reaches itself.
    ghost reaches_same: { (a : Self) → reaches a a };

    /// What is reached from a reached state is reached.
    ghost reaches_on: { (a b c : Self) → reaches a b → reaches b c → reaches a c };
}

/// What takes the bytes of a report.
pub trait Sink {
    ghost use Rattle.rx_io.specs.declared.outside.Failed.{Failed};

    /// The bytes written so far, where they are known.
    ghost contents: { Self → Option (List ℕ) };

    /// How many calls found a fault. It never falls.
    ghost faults: { Self → ℕ };

    /// The second state can follow from the first by calls.
    ghost reaches: { Self → Self → Type 0 };

    /// A write of these bytes, from the first state, may answer this and leave the second.
    ghost puts: { Self → List ℕ → Result ℕ Failed → Self → Type 0 };

    /// Appends the first bytes of the piece, and answers how many. After `Failed` the bytes are as
    /// they were.
    fn put(&mut self, piece: &[u8]) -> Result<usize, Failed>
        ensures reach { reaches self.old self.new }
        ensures later { faults self.old ≤ faults self.new }
        ensures bound { WritesAtMost result piece.now }
        ensures bytes { WriteAppends (contents self.old) (contents self.new) result piece.now }
        ensures cause { OnErr result (Rose (faults self.old) (faults self.new)) }
        ensures nothing { IfOk result (λ count. count ≡ 0 → 0 < length piece.now →
            Rose (faults self.old) (faults self.new)) }
        ensures gives { puts self.old piece.now result self.new };

    /// A state reaches itself.
    ghost reaches_same: { (a : Self) → reaches a a };

    /// What is reached from a reached state is reached.
    ghost reaches_on: { (a b c : Self) → reaches a b → reaches b c → reaches a c };
}
