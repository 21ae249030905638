//! Numbers as text.
ghost use Rattle.std.specs.Prelude.{◌≡◌, ℕ, ◌+◌, ◌-◌, ◌^◌, ◌<◌, ◌≤◌, ◌++◌, negsuc, pos, OnOk, SomeIff};
ghost use Rattle.rx_text.specs.Formats.{Reads};
ghost use Rattle.rx_text.specs.Numbers.{integer_text, integers, integers_from_zero, natural_text, naturals, sizes_below_zero};

use crate::digits::read_digits;
use crate::words::{push_word, skip_word};
use itoa::Buffer;
use rx_plain::NoMemory;

/// The natural number of at most `most` whose text is at the place, and the place after it. None
/// where there is no such text: also of a number with a leading zero.
pub fn read_natural(bytes: &[u8], at: usize, most: u32) -> Option<(u32, usize)>
    ensures { Reads (naturals most) bytes.now at result }
{
    let Some((value, end)) = read_digits(bytes, at) else {
        return None;
    };
    if value <= most as u128 {
        Some((value as u32, end))
    } else {
        None
    }
}

/// The number of i128 that is so far above -1, or so far below it.
fn at_least_zero(size: u128) -> Option<i128>
    ensures { SomeIff result (size < 2 ^ 127) (pos size) }
{
    if size < 1 << 127 {
        Some(size as i128)
    } else {
        None
    }
}

/// The number of i128 that is minus that; None at 0, and where it is below the least one.
fn below_zero(size: u128) -> Option<i128>
    ensures { SomeIff result ((0 < size) × (size ≤ 2 ^ 127)) (negsuc (size - 1)) }
{
    if 0 < size && size <= 1 << 127 {
        let further = (size - 1) as i128;
        Some(-1 - further)
    } else {
        None
    }
}

/// The integer below 0 whose text, without its sign, is at the place.
fn read_below_zero(bytes: &[u8], at: usize) -> Option<(i128, usize)>
    ensures { Reads sizes_below_zero bytes.now at result }
{
    let Some((size, end)) = read_digits(bytes, at) else {
        return None;
    };
    match below_zero(size) {
        Some(value) => Some((value, end)),
        None => None,
    }
}

/// The integer of at least 0 whose text is at the place.
fn read_at_least_zero(bytes: &[u8], at: usize) -> Option<(i128, usize)>
    ensures { Reads integers_from_zero bytes.now at result }
{
    let Some((size, end)) = read_digits(bytes, at) else {
        return None;
    };
    match at_least_zero(size) {
        Some(value) => Some((value, end)),
        None => None,
    }
}

/// The integer of i128 whose text is at the place, and the place after it. None where there is no
/// such text: also of `-0`, and of a number with a leading zero.
pub fn read_integer(bytes: &[u8], at: usize) -> Option<(i128, usize)>
    ensures { Reads integers bytes.now at result }
{
    match skip_word(bytes, at, b"-") {
        Some(after) => read_below_zero(bytes, after),
        None => read_at_least_zero(bytes, at),
    }
}

/// Adds the text of the number after the bytes; fails only where there is no memory.
pub fn push_natural(out: &mut Vec<u8>, natural: u32) -> Result<(), NoMemory>
    ensures { OnOk result (out.new.items ≡ out.old.items ++ natural_text natural) }
{
    let mut buffer = Buffer::new();
    push_word(out, buffer.format(natural).as_bytes())
}

/// Adds the text of the integer after the bytes; fails only where there is no memory.
pub fn push_integer(out: &mut Vec<u8>, integer: &i128) -> Result<(), NoMemory>
    ensures { OnOk result (out.new.items ≡ out.old.items ++ integer_text integer.now) }
{
    let mut buffer = Buffer::new();
    push_word(out, buffer.format(*integer).as_bytes())
}
