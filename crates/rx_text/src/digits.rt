//! Runs of decimal digits, and the numbers that they write.
ghost use Rattle.std.specs.Prelude.{◌≡◌, ◌↔◌, ℕ, ◌+◌, ◌^◌, ◌<◌, ◌≤◌, ◌-◌, drop, length, IfSome, IsTrue, Some};
ghost use Rattle.std.specs.List.{prefix_len};
ghost use Rattle.rx_text.specs.Formats.{Reads, StandsAt, is_over};
ghost use Rattle.rx_text.specs.Numbers.{is_digit, natural_text, naturals};

use crate::words::rest_from;
use itoa::Buffer;

/// Whether the byte is a decimal digit.
pub(crate) fn is_digit(byte: u8) -> bool
    ensures { result ≡ is_digit byte }
{
    b'0' <= byte && byte <= b'9'
}

/// Whether no digit is at the place.
pub(crate) fn ends_number(bytes: &[u8], at: usize) -> bool
    ensures { result ≡ is_over is_digit (drop at bytes.now) }
{
    match bytes.get(at) {
        Some(byte) => !is_digit(*byte),
        None => true,
    }
}

/// How many digits are at the front.
fn run_of_digits(bytes: &[u8]) -> usize
    ensures run { result ≡ prefix_len is_digit bytes.now }
    ensures within { result ≤ length bytes.now }
{
    bytes.iter().take_while(|byte| is_digit(**byte)).count()
}

/// The number that the digits write; another or none where that isn't the number's decimal text.
fn value_of(digits: &[u8]) -> Option<u128>
    ensures value { (n : ℕ) → n < 2 ^ 128 → digits.now ≡ natural_text n → result ≡ Some n }
    ensures fits { IfSome result (λ n. n < 2 ^ 128) }
{
    let Ok(text) = str::from_utf8(digits) else {
        return None;
    };
    let Ok(value) = text.parse::<u128>() else {
        return None;
    };
    Some(value)
}

/// Whether the digits are the decimal text of the number.
fn is_text_of(digits: &[u8], value: u128) -> bool
    ensures { IsTrue result ↔ (digits.now ≡ natural_text value) }
{
    let mut buffer = Buffer::new();
    digits == buffer.format(value).as_bytes()
}

/// The number that a digit writes with no other after it, where such a one is at the place.
fn read_digit(bytes: &[u8], at: usize) -> Option<(u128, usize)>
    ensures { IfSome result
        (λ read. StandsAt (naturals (2 ^ 128 - 1)) bytes.now at read.0 read.1) }
{
    let digit = *bytes.get(at)?;
    if is_digit(digit) && ends_number(bytes, at + 1) {
        Some(((digit - b'0') as u128, at + 1))
    } else {
        None
    }
}

/// The natural number of u128 whose text is at the place. Most numbers have one digit.
pub(crate) fn read_digits(bytes: &[u8], at: usize) -> Option<(u128, usize)>
    ensures { Reads (naturals (2 ^ 128 - 1)) bytes.now at result }
{
    if at >= bytes.len() {
        return None;
    }
    if let Some(read) = read_digit(bytes, at) {
        return Some(read);
    }
    let end = at + run_of_digits(rest_from(bytes, at));
    let digits = &bytes[at..end];
    let Some(value) = value_of(digits) else {
        return None;
    };
    if is_text_of(digits, value) {
        Some((value, end))
    } else {
        None
    }
}
