//! Decimal numbers in words of the command line.
ghost use Rattle.std.specs.Prelude.{◌≡◌, ◌≤◌, ◌^◌, true, MatchOption};
ghost use Rattle.std.specs.Str.{all_ascii_digits};
ghost use Rattle.std.specs.Str.Parse.{digits_value};
ghost use Rattle.rx_command.specs.Numbers as spec;

/// Whether all bytes are decimal digits.
fn are_digits(text: &[u8]) -> bool
    ensures { result ≡ all_ascii_digits text.now }
{
    for byte in text {
        if !byte.is_ascii_digit() {
            return false;
        }
    }
    true
}

/// Whether the text is one decimal digit or more, with no 0 in front of others.
fn is_decimal(text: &[u8]) -> bool
    ensures { result ≡ spec.is_decimal text.now }
{
    match text {
        [] => false,
        [_] => are_digits(text),
        [first, ..] => *first != b'0' && are_digits(text),
    }
}

/// The value of decimal digits, where it is below 2^32.
#[tactic(auto, using(crate::proofs::Digits::read_digits))]
fn value_of(text: &str) -> Option<u32>
    requires { spec.is_decimal text.now ≡ true }
    ensures { MatchOption result (2 ^ 32 ≤ digits_value 10 text.now)
        (λ n. n ≡ digits_value 10 text.now) }
{
    match text.parse::<u32>() {
        Ok(number) => Some(number),
        Err(_) => None,
    }
}

/// The number that the text is in decimal digits, with no 0 in front of others, where it lies
/// between these two.
pub fn number_of(least: u32, most: u32, text: &str) -> Option<u32>
    ensures { result ≡ spec.number_of least most text.now }
{
    if !is_decimal(text.as_bytes()) {
        return None;
    }
    let number = value_of(text)?;
    if least <= number && number <= most {
        Some(number)
    } else {
        None
    }
}
