//! Two things with a space between them.
ghost use Rattle.std.specs.Prelude.{◌≡◌, ◌++◌, IfOk, OnOk};
ghost use Rattle.rx_text.specs.Formats.{IsUnambiguous, Reads};
ghost use Rattle.rx_words.specs.Words.{pairs, words};

use crate::numbers::Variable;
use crate::text::Text;
use rx_plain::NoMemory;
use rx_text::skip_word;
use std::alloc::Global;

/// Two things that are at the place, with a space between them.
pub(crate) fn read_pair<A: Text, B: Text>(
    alloc: Global,
    bytes: &[u8],
    at: usize,
) -> Result<Option<((A, B), usize)>, NoMemory>
    requires once { IsUnambiguous (words A.text A.in_range) }
    ensures { IfOk result (λ found. Reads (pairs (words A.text A.in_range)
        (words B.text B.in_range)) bytes.now at found) }
{
    let Some((first, middle)) = A::read(alloc, bytes, at)? else {
        return Ok(None);
    };
    let Some(next) = skip_word(bytes, middle, b" ") else {
        return Ok(None);
    };
    let Some((second, end)) = B::read(alloc, bytes, next)? else {
        return Ok(None);
    };
    Ok(Some(((first, second), end)))
}

/// Writes the two after what was written before, with a space between them.
pub(crate) fn push_pair<A: Text, B: Text>(
    first: &A,
    second: &B,
    out: &mut Vec<u8>,
) -> Result<(), NoMemory>
    ensures { OnOk result (out.new.items ≡ out.old.items ++
        (pairs (words A.text A.in_range) (words B.text B.in_range)).text (first.now, second.now)) }
{
    first.push_text(out)?;
    out.push(b' ')?;
    second.push_text(out)
}

impl Text for (u32, i128) {
    ghost use Rattle.rx_text.specs.Numbers.{integers};
    ghost use Rattle.rx_words.specs.Words as spec;

    ghost text = { (spec.pairs spec.numbers (spec.word integers)).text };

    ghost in_range = { (spec.pairs spec.numbers (spec.word integers)).in_range };

    fn read(
        alloc: Global,
        bytes: &[u8],
        at: usize,
    ) -> Result<Option<((u32, i128), usize)>, NoMemory> {
        read_pair(alloc, bytes, at)
    }

    fn push_text(&self, out: &mut Vec<u8>) -> Result<(), NoMemory> {
        push_pair(&self.0, &self.1, out)
    }
}

impl Text for (u32, Variable) {
    ghost use Rattle.rx_words.specs.Words as spec;

    ghost text = { (spec.pairs spec.numbers spec.variables).text };

    ghost in_range = { (spec.pairs spec.numbers spec.variables).in_range };

    fn read(
        alloc: Global,
        bytes: &[u8],
        at: usize,
    ) -> Result<Option<((u32, Variable), usize)>, NoMemory> {
        read_pair(alloc, bytes, at)
    }

    fn push_text(&self, out: &mut Vec<u8>) -> Result<(), NoMemory> {
        push_pair(&self.0, &self.1, out)
    }
}
