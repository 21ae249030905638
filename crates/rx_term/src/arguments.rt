//! Lists of polynomials: what a call, a frame or a result holds.
ghost use Rattle.std.specs.Prelude.{◌≡◌, true, false, IfOk};
ghost use Rattle.rx_plain.specs.Formed.{Forms};
ghost use Rattle.rx_poly.specs.Substitution.{subst_body};
ghost use Rattle.rx_term.specs.Differences.{differences};
ghost use Rattle.rx_term.specs.Replacements.{replacements};
ghost use Rattle.rx_term.specs.Substitution.{polys_with};
ghost use Rattle.rx_term.specs.Variables.{polys_use_below};

use rx_plain::Items;
use rx_poly::{Poly, PolyEnd, uses_below};
use std::alloc::{AllocError, Global};

/// What variables are replaced by.
#[derive(Clone, Copy)]
pub(crate) enum Replacements<'a> {
    /// Each by the first polynomial that is listed for its number.
    Listed(&'a [(u32, Poly)]),
    /// The first variables by these polynomials, in order.
    InOrder(&'a [Poly]),
}

/// The polynomial with its variables replaced; Large exactly where one on the way to it passes the
/// limits.
pub(crate) fn instance(alloc: Global, poly: &Poly, with: Replacements) -> Result<Poly, PolyEnd>
    ensures forms { Forms PolyEnd.Large result (subst_body (replacements with.entry) poly.now) }
{
    match with {
        Replacements::Listed(pairs) => poly.subst(alloc, pairs),
        Replacements::InOrder(args) => poly.at_args(alloc, args),
    }
}

/// Each polynomial with its variables replaced; Large exactly where one on the way to them passes
/// the limits.
pub(crate) fn substituted(
    alloc: Global,
    polys: &[Poly],
    with: Replacements,
) -> Result<Items<Poly>, PolyEnd>
    ensures forms { Forms PolyEnd.Large result (polys_with (replacements with.entry) polys.now) }
{
    let mut made = Items::with_capacity(alloc, polys.len())?;
    for poly in polys {
        let changed = instance(alloc, poly, with)?;
        made.push(changed)?;
    }
    Ok(made)
}

/// Whether all variables of the polynomials are below the number.
pub(crate) fn are_below(args: &[Poly], bound: u32) -> bool
    ensures { result ≡ polys_use_below bound args.now }
{
    for arg in args {
        if !uses_below(arg, bound) {
            return false;
        }
    }
    true
}

/// The polynomials of the first list minus those of the second, one by one, as far as both go.
/// Large exactly where one of these differences passes the limits.
pub fn differences(alloc: Global, left: &[Poly], right: &[Poly]) -> Result<Items<Poly>, PolyEnd>
    ensures forms { Forms PolyEnd.Large result (differences left.now right.now) }
{
    let mut made = Items::with_capacity(alloc, left.len())?;
    let mut others = right;
    for one in left {
        let Some((other, more)) = others.split_first() else {
            return Ok(made);
        };
        let difference = one.sub(alloc, other)?;
        made.push(difference)?;
        others = more;
    }
    Ok(made)
}
