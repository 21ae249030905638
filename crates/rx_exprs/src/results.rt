//! Results of operators, from the points at which their operands are known.
ghost use Rattle.std.specs.Prelude.{◌≡◌, length};
ghost use Rattle.c_ast.specs.declared.integers.Integers.{Integers};
ghost use Rattle.rx_code.specs.Expressions as table;
ghost use Rattle.rx_code.specs.Expressions.{tested_by};
ghost use Rattle.rx_exprs.specs.Compiles.{CompilesValue, arithmetic_at, divided_at, division_at, negated_at};

use crate::operators::arithmetic;
use crate::ranges::ranged;
use crate::setting::Setting;
use c_ast::{BinOp, Integers};
use rx_code::{Action, Code, Division, OpKind, Point};
use rx_poly::{Poly, PolyEnd};
use std::alloc::Global;

/// Which result of a division the operator takes.
fn division_of(op: BinOp) -> Division
    ensures { result ≡ table.division_of op }
{
    match op {
        BinOp::Div => Division::Quotient,
        _ => Division::Remainder,
    }
}

/// The integers for which the result of a division is tested: a remainder isn't tested, since of two
/// 32-bit integers it is one.
fn division_setting(setting: Setting, op: BinOp) -> Setting
    ensures { result.integers ≡ tested_by setting.integers (table.division_of op) }
{
    match division_of(op) {
        Division::Quotient => setting,
        Division::Remainder => Setting {
            integers: Integers::Unbounded,
            ..setting
        },
    }
}

/// A division of two values: a new point has its result as one variable more.
fn division(
    alloc: Global,
    code: &mut Code,
    op: BinOp,
    left: Poly,
    right: Poly,
    at: Point,
) -> Result<(Point, Poly), PolyEnd>
    ensures value { CompilesValue code.old code.new result
        (division_at op left right at (length code.old.opened)) }
{
    let b = code.open_wider(at.width)?;
    code.emit(at, Action::Divide(division_of(op), left, right, b))?;
    Ok((b, Poly::variable(alloc, at.width)?))
}

/// The result of `/` or `%`.
pub(crate) fn divided(
    setting: Setting,
    code: &mut Code,
    op: BinOp,
    left: Poly,
    right: Poly,
    at: Point,
) -> Result<(Point, Poly), PolyEnd>
    ensures value { CompilesValue code.old code.new result
        (divided_at setting.integers op left right at (length code.old.opened)) }
{
    let (b, quotient) = division(setting.alloc, code, op, left, right, at)?;
    ranged(division_setting(setting, op), code, quotient, b)
}

/// The result of `+`, `-` or `*`.
pub(crate) fn joined(
    setting: Setting,
    code: &mut Code,
    op: BinOp,
    left: &Poly,
    right: &Poly,
    at: Point,
) -> Result<(Point, Poly), PolyEnd>
    requires kind { table.kind_of op ≡ OpKind.Arithmetic }
    ensures value { CompilesValue code.old code.new result
        (arithmetic_at setting.integers op left.now right.now at (length code.old.opened)) }
{
    let sum = arithmetic(setting.alloc, op, left, right)?;
    ranged(setting, code, sum, at)
}

/// The result of unary minus.
pub(crate) fn negated(
    setting: Setting,
    code: &mut Code,
    p: &Poly,
    at: Point,
) -> Result<(Point, Poly), PolyEnd>
    ensures value { CompilesValue code.old code.new result
        (negated_at setting.integers p.now at (length code.old.opened)) }
{
    let opposite = p.scale(setting.alloc, -1)?;
    ranged(setting, code, opposite, at)
}
