//! Things that are in words of a line.
ghost use Rattle.std.specs.Prelude.{◌≡◌, ◌++◌, ℕ, Bool, List, IfOk, OnOk};
ghost use Rattle.rx_text.specs.Formats.{Reads};
ghost use Rattle.rx_words.specs.Words.{words};

use rx_plain::NoMemory;
use std::alloc::Global;

/// What is written as words of a line, and read back from them.
pub(crate) trait Text: Drop {
    ghost text: { Self → List ℕ };

    ghost in_range: { Self → Bool };

    /// The thing whose text is at the place, with the place after it; None exactly where no thing
    /// in range has its text there.
    fn read(alloc: Global, bytes: &[u8], at: usize) -> Result<Option<(Self, usize)>, NoMemory>
        ensures { IfOk result (λ found. Reads (words text in_range) bytes.now at found) };

    /// Writes the text after what was written before. Fails only when out of memory, and then some
    /// of the text may have been written.
    fn push_text(&self, out: &mut Vec<u8>) -> Result<(), NoMemory>
        ensures { OnOk result (out.new.items ≡ out.old.items ++ text self.now) };
}
