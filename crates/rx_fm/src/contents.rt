//! The content of a polynomial.
ghost use Rattle.std.specs.Prelude.{◌≡◌, ◌≤ℤ◌, pos, true, unsigned_abs, SomeIff};
ghost use Rattle.rx_fm.specs.Content.{content, gcd_with_term, term_fits, variable_coefficients};
ghost use Rattle.rx_fm.specs.Numbers.{sizes_fit};

use crate::numbers::{gcd, size};
use rx_poly::{Mono, Poly};

/// The greatest common divisor of the number and of the size of the term's coefficient, or the
/// number alone where the term is the constant; None where the size leaves i128.
fn with_term(number: &i128, term: &(Mono, i128)) -> Option<i128>
    requires { pos 0 ≤ℤ number.now }
    ensures { SomeIff result (term_fits term.now ≡ true)
        (pos (gcd_with_term (unsigned_abs number.now) term.now)) }
{
    if term.0.atoms.is_empty() {
        return Some(*number);
    }
    Some(gcd(number, &size(&term.1)?))
}

/// The greatest common divisor of the sizes of the polynomial's coefficients, without the constant;
/// None where one of these leaves i128. Takes no memory.
pub fn content(poly: &Poly) -> Option<i128>
    ensures { SomeIff result (sizes_fit (variable_coefficients poly.now) ≡ true)
        (pos (content poly.now)) }
{
    let mut content = 0;
    for term in poly.body().terms.as_slice() {
        content = with_term(&content, term)?;
    }
    Some(content)
}
