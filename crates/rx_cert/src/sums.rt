//! Sums of rows that are negative numbers.
ghost use Rattle.std.specs.Prelude.{◌≡◌, IfOk, IfErr};
ghost use Rattle.rx_cert.specs.Findings.{Beyond, said};
ghost use Rattle.rx_cert.specs.Sums.{is_below_zero, sum_finding};
ghost use Rattle.rx_poly.specs.Reading.{constant_of};
ghost use Rattle.rx_poly.specs.declared.body.Body.{out-Body};

use rx_poly::{Poly, PolyEnd};
use rx_row::{Row, combine_rows};
use std::alloc::Global;

/// Whether the polynomial is a negative number.
fn is_negative_number(poly: &Poly) -> bool
    ensures { result ≡ is_below_zero (constant_of (out-Body poly.now).terms) }
{
    match poly.is_constant() {
        Some(number) => number < 0,
        None => false,
    }
}

/// Whether the parts are lawful and their sum is a negative number. Large exactly where a
/// polynomial on the way to the sum passes the limits.
pub fn sum_refutes(alloc: Global, rows: &[Row], parts: &[(u32, i128)]) -> Result<bool, PolyEnd>
    ensures finding { IfOk result (λ b. sum_finding rows.now parts.now ≡ said b) }
    ensures large { IfErr result (λ e. e ≡ PolyEnd.Large → sum_finding rows.now parts.now ≡ Beyond) }
{
    match combine_rows(alloc, rows, parts)? {
        Some(sum) => Ok(is_negative_number(&sum)),
        None => Ok(false),
    }
}
