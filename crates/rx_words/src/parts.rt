//! The parts of a sum.
ghost use Rattle.std.specs.Prelude.{◌≡◌, ◌++◌, IfOk, OnOk};
ghost use Rattle.rx_text.specs.Formats.{Reads};
ghost use Rattle.rx_words.specs.Certificates.{part_lists};

use crate::lists::{push_list, read_list};
use crate::text::Text;
use rx_cert::Parts;
use rx_plain::NoMemory;
use std::alloc::Global;

/// The parts of a sum that are at the place, with the place after them: how many, then the number
/// of a row and its multiplier for each. None exactly where no such text is there.
pub fn read_parts(
    alloc: Global,
    bytes: &[u8],
    at: usize,
) -> Result<Option<(Parts, usize)>, NoMemory>
    ensures { IfOk result (λ found. Reads part_lists bytes.now at found) }
{
    read_list(alloc, bytes, at)
}

/// Writes the text of the parts after what was written before. Fails only when out of memory, and
/// then some of the text may have been written.
pub fn push_parts(parts: &Parts, out: &mut Vec<u8>) -> Result<(), NoMemory>
    ensures { OnOk result (out.new.items ≡ out.old.items ++ part_lists.text parts.now) }
{
    push_list(parts.as_slice(), out)
}

impl Text for Parts {
    ghost use Rattle.rx_words.specs.Certificates as spec;

    ghost text = { spec.part_lists.text };

    ghost in_range = { spec.part_lists.in_range };

    fn read(alloc: Global, bytes: &[u8], at: usize) -> Result<Option<(Parts, usize)>, NoMemory> {
        read_parts(alloc, bytes, at)
    }

    fn push_text(&self, out: &mut Vec<u8>) -> Result<(), NoMemory> {
        push_parts(self, out)
    }
}
