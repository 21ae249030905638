//! Tests of values for being 32-bit integers.
ghost use Rattle.std.specs.Prelude.{◌≡◌, length};
ghost use Rattle.rx_plain.specs.Formed.{Forms};
ghost use Rattle.rx_code.specs.Expressions as table;
ghost use Rattle.rx_code.specs.Expressions.{range_tests};
ghost use Rattle.rx_exprs.specs.Compiles.{CompilesValue, ranged_at};

use crate::setting::Setting;
use c_ast::Integers;
use rx_code::{Action, Code, Point};
use rx_poly::{Poly, PolyEnd};
use rx_row::Row;
use std::alloc::Global;

/// The row that a value is above every 32-bit integer. Large exactly where its difference passes
/// the limits.
fn above(alloc: Global, p: &Poly) -> Result<Row, PolyEnd>
    ensures forms { Forms PolyEnd.Large result (table.above p.now) }
{
    let least = Poly::constant(alloc, 2_147_483_648)?;
    Ok(Row::Ge(p.sub(alloc, &least)?))
}

/// The row that a value is below every 32-bit integer. Large exactly where what is scaled by -1, or
/// its difference, passes the limits.
fn below(alloc: Global, p: &Poly) -> Result<Row, PolyEnd>
    ensures forms { Forms PolyEnd.Large result (table.below p.now) }
{
    let opposite = p.scale(alloc, -1)?;
    let least = Poly::constant(alloc, 2_147_483_649)?;
    Ok(Row::Ge(opposite.sub(alloc, &least)?))
}

/// The tests of a value for being a 32-bit integer: two new points have it, the first where it
/// isn't above these, the second where it isn't below them either.
fn tested_range(
    alloc: Global,
    code: &mut Code,
    p: Poly,
    at: Point,
) -> Result<(Point, Poly), PolyEnd>
    ensures value { CompilesValue code.old code.new result
        (range_tests p at (length code.old.opened)) }
{
    let h = code.open(at.width, false)?;
    let b = code.open(at.width, false)?;
    let over = above(alloc, &p)?;
    let under = below(alloc, &p)?;
    code.emit(at, Action::Exclude(over, h))?;
    code.emit(h, Action::Exclude(under, b))?;
    Ok((b, p))
}

/// The value of an operator: of 32-bit integers it is tested.
pub(crate) fn ranged(
    setting: Setting,
    code: &mut Code,
    p: Poly,
    at: Point,
) -> Result<(Point, Poly), PolyEnd>
    ensures value { CompilesValue code.old code.new result
        (ranged_at setting.integers p at (length code.old.opened)) }
{
    match setting.integers {
        Integers::Unbounded => Ok((at, p)),
        Integers::Bits32 => tested_range(setting.alloc, code, p, at),
    }
}
