//! The rows of a goal by the kind of integers: over 32-bit integers each variable is one.
ghost use Rattle.std.specs.Prelude.{◌≡◌, true, IfOk, OnOk, pos, negsuc};
ghost use Rattle.c_ast.specs.declared.integers.Integers.TheVariants.{Bits32};
ghost use Rattle.rx_poly.specs.Constants.{number, variable};
ghost use Rattle.rx_poly.specs.Limits.{body_sum, is_within, scaled_by};
ghost use Rattle.rx_row.specs.declared.row.Row.TheVariants as row;
ghost use Rattle.rx_code.specs.Bounds.{int_rows, joined_rows, rows_in};

use c_ast::Integers;
use rx_plain::NoMemory;
use rx_poly::{Poly, PolyEnd};
use rx_row::{Constraint, Row};
use std::alloc::Global;

/// The sum of a polynomial and a number, where it keeps the limits.
fn plus(alloc: Global, p: &Poly, k: i128) -> Result<Poly, NoMemory>
    requires { is_within (body_sum p.now (number k)) ≡ true }
    ensures { IfOk result (λ q. q ≡ body_sum p.now (number k)) }
{
    match p.add(alloc, &Poly::constant(alloc, k)?) {
        Ok(sum) => Ok(sum),
        Err(PolyEnd::NoMemory) => Err(NoMemory),
        Err(PolyEnd::Large) => unreachable!(),
    }
}

/// A variable times -1.
fn minus(alloc: Global, v: u32) -> Result<Poly, NoMemory>
    ensures { IfOk result (λ q. q ≡ scaled_by (negsuc 0) (variable v)) }
{
    match Poly::variable(alloc, v)?.scale(alloc, -1) {
        Ok(opposite) => Ok(opposite),
        Err(PolyEnd::NoMemory) => Err(NoMemory),
        Err(PolyEnd::Large) => unreachable!(),
    }
}

/// The variable isn't below each 32-bit integer.
fn at_least(alloc: Global, v: u32) -> Result<Row, NoMemory>
    ensures { IfOk result (λ r. r ≡ row.Ge (body_sum (variable v) (number (pos 2147483648)))) }
{
    Ok(Row::Ge(plus(alloc, &Poly::variable(alloc, v)?, 2_147_483_648)?))
}

/// The variable isn't above each 32-bit integer.
fn at_most(alloc: Global, v: u32) -> Result<Row, NoMemory>
    ensures { IfOk result (λ r. r ≡
        row.Ge (body_sum (scaled_by (negsuc 0) (variable v)) (number (pos 2147483647)))) }
{
    Ok(Row::Ge(plus(alloc, &minus(alloc, v)?, 2_147_483_647)?))
}

/// Adds the rows that the variable is a 32-bit integer, but none that is there.
fn push_int_rows(alloc: Global, rows: &mut Constraint, v: u32) -> Result<(), NoMemory>
    ensures { OnOk result (rows.new ≡ joined_rows rows.old (int_rows v)) }
{
    rows.push(at_least(alloc, v)?)?;
    rows.push(at_most(alloc, v)?)
}

/// The rows with those that each of the first `count` variables is a 32-bit integer.
#[tactic(auto, using(crate::proofs::BoundLemmas::one_more))]
fn each_bounded(alloc: Global, count: u32, mut rows: Constraint) -> Result<Constraint, NoMemory>
    ensures { IfOk result (λ bounded. bounded ≡ rows_in Bits32 count rows) }
{
    for v in 0..count {
        push_int_rows(alloc, &mut rows, v)?;
    }
    Ok(rows)
}

/// The rows of a goal on the first `count` variables, from those of its precondition: of 32-bit
/// integers also that each variable is one, but no row that is there. Fails only where there is no
/// memory.
pub fn bounds(
    alloc: Global,
    integers: Integers,
    count: u32,
    rows: Constraint,
) -> Result<Constraint, NoMemory>
    ensures { IfOk result (λ bounded. bounded ≡ rows_in integers count rows) }
{
    match integers {
        Integers::Unbounded => Ok(rows),
        Integers::Bits32 => each_bounded(alloc, count, rows),
    }
}
