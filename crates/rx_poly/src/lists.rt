//! Lists of polynomials.
ghost use Rattle.std.specs.Prelude.{◌≡◌, ◌↔◌, IsTrue, IfOk};

use crate::poly::Poly;
use rx_plain::Items;
use std::alloc::{AllocError, Global};

/// Whether both are the same polynomials in order. Takes no memory.
pub fn are_same_polys(left: &[Poly], right: &[Poly]) -> bool
    ensures { IsTrue result ↔ (left.now ≡ right.now) }
{
    let mut rest = left;
    let mut others = right;
    while let Some((one, more)) = rest.split_first() {
        let Some((other, further)) = others.split_first() else {
            return false;
        };
        if !one.is_same(other) {
            return false;
        }
        rest = more;
        others = further;
    }
    others.is_empty()
}

/// The same polynomials once more; fails only when out of memory.
pub fn copied_polys(alloc: Global, polys: &[Poly]) -> Result<Items<Poly>, AllocError>
    ensures { IfOk result (λ made. made ≡ polys.now) }
{
    let mut made = Items::with_capacity(alloc, polys.len())?;
    for poly in polys {
        made.push(poly.try_clone(alloc)?)?;
    }
    Ok(made)
}
