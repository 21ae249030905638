//! The code of expressions, as the table of rx_code says.
ghost use Rattle.std.specs.Prelude.{◌≡◌, false, length};
ghost use Rattle.rx_code.specs.Expressions.{is_logical};
ghost use Rattle.rx_exprs.specs.Compiles.{CompilesArguments, CompilesCode, CompilesValue, arguments_at, call_at, condition_at, set_at, truth_at, value_at};

use crate::operators::comparison;
use crate::results::{divided, joined, negated};
use crate::setting::Setting;
use c_ast::{BinOp, Expr, UnOp};
use rx_code::{Action, Code, OpKind, Point, kind_of};
use rx_plain::Items;
use rx_poly::{Poly, PolyEnd};
use rx_row::Row;
use std::alloc::Global;

/// Whether the expression is a comparison, `!`, `&&` or `||`.
fn decides(e: &Expr) -> bool
    ensures { result ≡ is_logical e.now }
{
    match e {
        Expr::Unary(op, _) => matches!(*op, UnOp::Not),
        Expr::Binary(op, _, _) => !matches!(kind_of(*op), OpKind::Arithmetic | OpKind::Dividing),
        _ => false,
    }
}

/// A call with arguments that are known: a frame waits for what is returned, which becomes one
/// variable more of a new point.
fn called(
    alloc: Global,
    code: &mut Code,
    f: u32,
    values: Items<Poly>,
    at: Point,
) -> Result<(Point, Poly), PolyEnd>
    ensures value { CompilesValue code.old code.new result
        (call_at f values at (length code.old.opened)) }
{
    let r = code.open(at.width, true)?;
    let b = code.open_wider(at.width)?;
    code.emit(at, Action::Call(f, values, r))?;
    code.emit(r, Action::Resume(b))?;
    Ok((b, Poly::variable(alloc, at.width)?))
}

/// The value of an expression: the point at which it is known, and the value there.
#[cycle(exprs)]
#[tactic(auto, using(crate::proofs::Conditions::logical_code))]
pub fn value(
    setting: Setting,
    code: &mut Code,
    e: &Expr,
    a: Point,
) -> Result<(Point, Poly), PolyEnd>
    ensures value { CompilesValue code.old code.new result
        (value_at setting.integers e.now a code.old) }
{
    if decides(e) {
        truth(setting, code, e, a)
    } else {
        computed(setting, code, e, a)
    }
}

/// The truth of an expression as its value, 1 or 0.
#[cycle(exprs)]
fn truth(setting: Setting, code: &mut Code, e: &Expr, a: Point) -> Result<(Point, Poly), PolyEnd>
    ensures value { CompilesValue code.old code.new result
        (truth_at setting.integers e.now a code.old) }
{
    let y = code.open(a.width, false)?;
    let w = code.open(a.width, false)?;
    let b = code.open_wider(a.width)?;
    condition(setting, code, e, a, y, w)?;
    code.emit(
        y,
        Action::Set(a.width, Poly::constant(setting.alloc, 1)?, b),
    )?;
    code.emit(
        w,
        Action::Set(a.width, Poly::constant(setting.alloc, 0)?, b),
    )?;
    Ok((b, Poly::variable(setting.alloc, a.width)?))
}

/// The value of an expression that is no comparison, `!`, `&&` or `||`.
#[cycle(exprs)]
fn computed(setting: Setting, code: &mut Code, e: &Expr, a: Point) -> Result<(Point, Poly), PolyEnd>
    requires kind { is_logical e.now ≡ false }
    ensures value { CompilesValue code.old code.new result
        (value_at setting.integers e.now a code.old) }
{
    match e {
        Expr::Lit(n) => Ok((a, Poly::constant(setting.alloc, *n as i128)?)),
        Expr::Var(slot) => Ok((a, Poly::variable(setting.alloc, *slot)?)),
        Expr::Unary(op, inner) => {
            let (at, inner_value) = value(setting, code, inner.get(), a)?;
            match *op {
                UnOp::Minus => negated(setting, code, &inner_value, at),
                _ => Ok((at, inner_value)),
            }
        }
        Expr::Binary(op, l, r) => {
            let (middle, left) = value(setting, code, l.get(), a)?;
            let (at, right) = value(setting, code, r.get(), middle)?;
            match kind_of(*op) {
                OpKind::Dividing => divided(setting, code, *op, left, right, at),
                _ => joined(setting, code, *op, &left, &right, at),
            }
        }
        Expr::Choose(test, first, second) => {
            let y = code.open(a.width, false)?;
            let w = code.open(a.width, false)?;
            let b = code.open_wider(a.width)?;
            condition(setting, code, test.get(), a, y, w)?;
            set_value(setting, code, first.get(), y, a.width, b)?;
            set_value(setting, code, second.get(), w, a.width, b)?;
            Ok((b, Poly::variable(setting.alloc, a.width)?))
        }
        Expr::Apply(f, es) => {
            let (at, values) = arguments(setting, code, es, a)?;
            called(setting.alloc, code, *f, values, at)
        }
    }
}

/// The value of an expression becomes that of a variable; then on to `b`.
#[cycle(exprs)]
pub fn set_value(
    setting: Setting,
    code: &mut Code,
    e: &Expr,
    a: Point,
    slot: u32,
    b: Point,
) -> Result<(), PolyEnd>
    ensures condition { CompilesCode code.old code.new result
        (set_at setting.integers e.now slot b a code.old) }
{
    let (at, set) = value(setting, code, e, a)?;
    code.emit(at, Action::Set(slot, set, b))?;
    Ok(())
}

/// The values of arguments from left to right, and the point at which they are known.
#[cycle(exprs)]
fn arguments(
    setting: Setting,
    code: &mut Code,
    es: &Items<Expr>,
    a: Point,
) -> Result<(Point, Items<Poly>), PolyEnd>
    ensures values { CompilesArguments code.old code.new result
        (arguments_at setting.integers es.now a code.old) }
{
    let mut at = a;
    let mut values = Items::new(setting.alloc);
    for e in es.as_slice() {
        let (next, argument) = value(setting, code, e, at)?;
        at = next;
        values.push(argument)?;
    }
    Ok((at, values))
}

/// A condition: on to `y` where the expression isn't 0, and to `w` where it is.
#[cycle(exprs)]
#[tactic(auto, using(crate::proofs::Conditions::computed_code))]
pub fn condition(
    setting: Setting,
    code: &mut Code,
    e: &Expr,
    a: Point,
    y: Point,
    w: Point,
) -> Result<(), PolyEnd>
    ensures condition { CompilesCode code.old code.new result
        (condition_at setting.integers e.now a y w code.old) }
{
    match e {
        Expr::Unary(UnOp::Not, inner) => condition(setting, code, inner.get(), a, w, y),
        Expr::Binary(op, l, r) => match kind_of(*op) {
            OpKind::Conjunction => {
                let m = code.open(a.width, false)?;
                condition(setting, code, l.get(), a, m, w)?;
                condition(setting, code, r.get(), m, y, w)
            }
            OpKind::Disjunction => {
                let m = code.open(a.width, false)?;
                condition(setting, code, l.get(), a, y, m)?;
                condition(setting, code, r.get(), m, y, w)
            }
            OpKind::Comparing => {
                let (between, left) = value(setting, code, l.get(), a)?;
                let (at, right) = value(setting, code, r.get(), between)?;
                let row = comparison(setting.alloc, *op, &left, &right)?;
                code.emit(at, Action::Test(row, y, w))?;
                Ok(())
            }
            _ => tested(setting, code, e, a, y, w),
        },
        _ => tested(setting, code, e, a, y, w),
    }
}

/// The condition of an expression that is no comparison, `!`, `&&` or `||`: its value isn't 0.
#[cycle(exprs)]
#[tactic(auto, using(crate::proofs::Conditions::computed_code))]
fn tested(
    setting: Setting,
    code: &mut Code,
    e: &Expr,
    a: Point,
    y: Point,
    w: Point,
) -> Result<(), PolyEnd>
    requires kind { is_logical e.now ≡ false }
    ensures condition { CompilesCode code.old code.new result
        (condition_at setting.integers e.now a y w code.old) }
{
    let (at, tested_value) = computed(setting, code, e, a)?;
    code.emit(at, Action::Test(Row::Ne(tested_value), y, w))?;
    Ok(())
}
