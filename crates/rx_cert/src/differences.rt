//! The two rows of what is not 0.
ghost use Rattle.std.specs.Prelude.{◌≡◌, slice_get, IfOk};
ghost use Rattle.rx_plain.specs.Formed.{Forms};
ghost use Rattle.rx_cert.specs.Differences.{above, below, disequal};

use rx_poly::{Poly, PolyEnd};
use rx_row::Row;
use std::alloc::{AllocError, Global};

/// The polynomial of the row with that number, where this is a disequality.
pub(crate) fn disequal_at(alloc: Global, rows: &[Row], at: u32) -> Result<Option<Poly>, AllocError>
    ensures { IfOk result (λ p. p ≡ disequal (slice_get rows.now at)) }
{
    match rows.get(at as usize) {
        Some(Row::Ne(poly)) => Ok(Some(poly.try_clone(alloc)?)),
        _ => Ok(None),
    }
}

/// `p - 1 >= 0`. Large exactly where `p - 1` passes the limits.
pub fn row_above(alloc: Global, poly: &Poly) -> Result<Row, PolyEnd>
    ensures forms { Forms PolyEnd.Large result (above poly.now) }
{
    let one = Poly::constant(alloc, 1)?;
    Ok(Row::Ge(poly.sub(alloc, &one)?))
}

/// `-p - 1 >= 0`
pub fn row_below(alloc: Global, poly: &Poly) -> Result<Row, PolyEnd>
    ensures forms { Forms PolyEnd.Large result (below poly.now) }
{
    Row::Ge(poly.try_clone(alloc)?).negate(alloc)
}
