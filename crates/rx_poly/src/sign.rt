//! Numbers that are taken with one of the two signs.
ghost use Rattle.std.specs.Prelude.{◌≡◌, ◌+ℤ◌, true, SomeIff};
ghost use Rattle.rx_poly.specs.Limits.{fits_i128};
ghost use Rattle.rx_poly.specs.Signs.{signed};

/// Whether a sum is added or subtracted.
#[derive(Clone, Copy)]
pub(crate) enum Sign {
    /// It is added.
    Plus,
    /// It is subtracted.
    Minus,
}

/// The number with that sign; None where this leaves i128.
pub(crate) fn with_its_sign(number: &i128, sign: Sign) -> Option<i128>
    ensures { SomeIff result (fits_i128 (signed sign number.now) ≡ true) (signed sign number.now) }
{
    match sign {
        Sign::Plus => Some(*number),
        Sign::Minus => number.checked_neg(),
    }
}

/// The one number plus or minus the other; None where this leaves i128.
pub(crate) fn sum_of(left: &i128, right: &i128, sign: Sign) -> Option<i128>
    ensures { SomeIff result (fits_i128 (left.now +ℤ signed sign right.now) ≡ true)
        (left.now +ℤ signed sign right.now) }
{
    match sign {
        Sign::Plus => left.checked_add(*right),
        Sign::Minus => left.checked_sub(*right),
    }
}
