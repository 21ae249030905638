//! Operators on polynomials.
ghost use Rattle.std.specs.Prelude.{◌≡◌};
ghost use Rattle.rx_plain.specs.Formed.{Forms};
ghost use Rattle.rx_code.specs.Expressions as table;
ghost use Rattle.rx_code.specs.Expressions.{arithmetic_of, one_less, test_of};

use c_ast::BinOp;
use rx_code::OpKind;
use rx_poly::{Poly, PolyEnd};
use rx_row::Row;
use std::alloc::Global;

/// The polynomial of `+`, `-` or `*`. Large exactly where it, or the right operand scaled by -1,
/// passes the limits.
pub fn arithmetic(alloc: Global, op: BinOp, left: &Poly, right: &Poly) -> Result<Poly, PolyEnd>
    requires kind { table.kind_of op ≡ OpKind.Arithmetic }
    ensures forms { Forms PolyEnd.Large result (arithmetic_of op left.now right.now) }
{
    match op {
        BinOp::Add => left.add(alloc, right),
        BinOp::Sub => {
            let opposite = right.scale(alloc, -1)?;
            left.add(alloc, &opposite)
        }
        _ => left.mul(alloc, right),
    }
}

/// `left - right - 1`. Large exactly where one of the two differences passes the limits.
fn one_below(alloc: Global, left: &Poly, right: &Poly) -> Result<Poly, PolyEnd>
    ensures forms { Forms PolyEnd.Large result (one_less left.now right.now) }
{
    let difference = left.sub(alloc, right)?;
    let one = Poly::constant(alloc, 1)?;
    difference.sub(alloc, &one)
}

/// The row of a comparison. Large exactly where one of its differences passes the limits.
pub fn comparison(alloc: Global, op: BinOp, left: &Poly, right: &Poly) -> Result<Row, PolyEnd>
    requires kind { table.kind_of op ≡ OpKind.Comparing }
    ensures forms { Forms PolyEnd.Large result (test_of op left.now right.now) }
{
    match op {
        BinOp::Lt => Ok(Row::Ge(one_below(alloc, right, left)?)),
        BinOp::Le => Ok(Row::Ge(right.sub(alloc, left)?)),
        BinOp::Gt => Ok(Row::Ge(one_below(alloc, left, right)?)),
        BinOp::Ge => Ok(Row::Ge(left.sub(alloc, right)?)),
        BinOp::Eq => Ok(Row::Eq(left.sub(alloc, right)?)),
        _ => Ok(Row::Ne(left.sub(alloc, right)?)),
    }
}
