//! Lists of things, each after a space.
ghost use Rattle.std.specs.Prelude.{◌≡◌, ◌≤◌, ◌++◌, true, length, drop, IfOk, OnOk};
ghost use Rattle.rx_text.specs.Formats.{IsUnambiguous, Reads, is_over};
ghost use Rattle.rx_text.specs.Numbers.{natural_text};
ghost use Rattle.rx_words.specs.Lists.{ReadsSpaced};
ghost use Rattle.rx_words.specs.Words.{counted, each_spaced, in_word, words};

use crate::numbers::read_number;
use crate::text::Text;
use itoa::Buffer;
use rx_plain::{Items, NoMemory};
use rx_text::{push_word, skip_word};
use std::alloc::Global;

/// That many things that are at the place, each after a space.
pub(crate) fn read_spaced<T: Text>(
    alloc: Global,
    bytes: &[u8],
    from: usize,
    count: u32,
) -> Result<Option<(Items<T>, usize)>, NoMemory>
    requires within { from ≤ length bytes.now }
    requires once { IsUnambiguous (words T.text T.in_range) }
    requires over { is_over in_word (drop from bytes.now) ≡ true }
    ensures { IfOk result (λ found. ReadsSpaced (words T.text T.in_range) count bytes.now from
        found) }
{
    let mut things = Items::new(alloc);
    let mut at = from;
    for _turn in 0..count {
        let Some(next) = skip_word(bytes, at, b" ") else {
            return Ok(None);
        };
        let Some((thing, end)) = T::read(alloc, bytes, next)? else {
            return Ok(None);
        };
        things.push(thing)?;
        at = end;
    }
    Ok(Some((things, at)))
}

/// Writes each thing after a space.
pub(crate) fn push_spaced<T: Text>(things: &[T], out: &mut Vec<u8>) -> Result<(), NoMemory>
    ensures { OnOk result (out.new.items ≡ out.old.items ++ each_spaced T.text things.now) }
{
    for thing in things {
        out.push(b' ')?;
        thing.push_text(out)?;
    }
    Ok(())
}

/// A list whose number is at the place, with its things after it.
pub(crate) fn read_list<T: Text>(
    alloc: Global,
    bytes: &[u8],
    at: usize,
) -> Result<Option<(Items<T>, usize)>, NoMemory>
    requires once { IsUnambiguous (words T.text T.in_range) }
    ensures { IfOk result (λ found. Reads (counted (words T.text T.in_range)) bytes.now at found) }
{
    match read_number(bytes, at) {
        Some((count, behind)) => read_spaced(alloc, bytes, behind, count),
        None => Ok(None),
    }
}

/// Writes the number after what was written before. Fails only when out of memory, and then some of
/// its text may have been written.
pub fn push_count(out: &mut Vec<u8>, count: usize) -> Result<(), NoMemory>
    ensures { OnOk result (out.new.items ≡ out.old.items ++ natural_text count) }
{
    let mut buffer = Buffer::new();
    push_word(out, buffer.format(count).as_bytes())
}

/// Writes how many things there are after what was written before, and then each of them.
pub(crate) fn push_list<T: Text>(things: &[T], out: &mut Vec<u8>) -> Result<(), NoMemory>
    ensures { OnOk result (out.new.items ≡ out.old.items ++
        (counted (words T.text T.in_range)).text things.now) }
{
    push_count(out, things.len())?;
    push_spaced(things, out)
}
