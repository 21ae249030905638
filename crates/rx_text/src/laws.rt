//! Bytes begin with the text of at most one thing of a kind, and it ends at one place.
ghost use Rattle.std.specs.Prelude.{ℕ, ◌<◌, ◌^◌};
ghost use Rattle.rx_text.specs.Formats.{IsUnambiguous};
ghost use Rattle.rx_text.specs.Numbers.{integers, naturals};
ghost use Rattle.rx_text.specs.Polynomials.{polynomials};
ghost use Rattle.rx_text.specs.Rows.{row_format};

/// This is so of natural numbers.
pub fn naturals_have_one_reading()
    ensures { (most : ℕ) → most < 2 ^ 128 → IsUnambiguous (naturals most) }
{}

/// This is so of integers.
pub fn integers_have_one_reading()
    ensures { IsUnambiguous integers }
{}

/// This is so of polynomials.
pub fn polynomials_have_one_reading()
    ensures { IsUnambiguous polynomials }
{}

/// This is so of rows.
pub fn rows_have_one_reading()
    ensures { IsUnambiguous row_format }
{}
