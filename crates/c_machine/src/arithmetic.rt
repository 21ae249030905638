//! Operators on numbers of `i128`.
ghost use Rattle.std.specs.Prelude.{◌≡◌, true, false, IfSome, SomeIff, Some, pos, ◌^◌, ◌≤ℤ◌, ◌<ℤ◌, ◌+ℤ◌, ◌-ℤ◌, ◌*ℤ◌, neg_ℤ, int_div, int_rem, ℤ};
ghost use Rattle.std.specs.Bool.{OnTrue};
ghost use Rattle.c_ast.specs.declared.expr.BinOp.TheVariants.{Div, Rem};
ghost use Rattle.c_meaning.specs.Expressions.{is_zero, truth};
ghost use Rattle.c_meaning.specs.CountedExpressions.{apply, unary};
ghost use Rattle.c_meaning.specs.Runs.{exact, fits_i128};
ghost use Rattle.c_machine.specs.Ends.{GivesNumber};

use crate::stop::Stop;
use c_ast::{BinOp, UnOp};

/// 1 for true and 0 for false.
#[inline(always)]
fn number_of(holds: bool) -> i128
    ensures { result ≡ truth holds }
{
    if holds { 1 } else { 0 }
}

/// Whether the number is 0.
#[inline(always)]
pub(crate) fn is_zero(x: &i128) -> bool
    ensures { result ≡ is_zero x.now }
{
    *x == 0
}

/// The number negated; None where this leaves `i128`.
#[inline(always)]
fn negative(x: i128) -> Option<i128>
    ensures { SomeIff result (fits_i128 (neg_ℤ x) ≡ true) (neg_ℤ x) }
{
    x.checked_neg()
}

/// Whether the number is from -2^126 to 2^126 - 1, so that a sum or difference of two such numbers
/// is one of `i128`.
#[inline(always)]
fn is_moderate(x: i128) -> bool
    ensures { OnTrue result ((neg_ℤ (pos (2 ^ 126)) ≤ℤ x) × (x <ℤ pos (2 ^ 126))) }
{
    -0x4000_0000_0000_0000_0000_0000_0000_0000 <= x && x < 0x4000_0000_0000_0000_0000_0000_0000_0000
}

/// The sum; None where it leaves `i128`.
#[inline(always)]
fn sum(x: i128, y: i128) -> Option<i128>
    ensures { SomeIff result (fits_i128 (x +ℤ y) ≡ true) (x +ℤ y) }
{
    if is_moderate(x) && is_moderate(y) {
        Some(x + y)
    } else {
        x.checked_add(y)
    }
}

/// The difference; None where it leaves `i128`.
#[inline(always)]
fn difference(x: i128, y: i128) -> Option<i128>
    ensures { SomeIff result (fits_i128 (x -ℤ y) ≡ true) (x -ℤ y) }
{
    if is_moderate(x) && is_moderate(y) {
        Some(x - y)
    } else {
        x.checked_sub(y)
    }
}

/// The product, if both numbers are of 64 bits, as most are: it takes one instruction.
#[inline(always)]
fn small_product(x: i128, y: i128) -> Option<i128>
    ensures { IfSome result (λ product. product ≡ x *ℤ y) }
{
    let (Ok(a), Ok(b)) = (i64::try_from(x), i64::try_from(y)) else {
        return None;
    };
    Some(i128::from(a) * i128::from(b))
}

/// The product; None where it leaves `i128`.
#[inline(always)]
fn product(x: i128, y: i128) -> Option<i128>
    ensures { SomeIff result (fits_i128 (x *ℤ y) ≡ true) (x *ℤ y) }
{
    match small_product(x, y) {
        Some(small) => Some(small),
        None => x.checked_mul(y),
    }
}

/// The number, or that it leaves `i128`.
#[inline(always)]
fn fitted(number: Option<i128>) -> Result<i128, Stop>
    ensures { (x : ℤ) → SomeIff number (fits_i128 x ≡ true) x → GivesNumber (exact x) result }
{
    match number {
        Some(number) => Ok(number),
        None => Err(Stop::Over),
    }
}

/// The quotient; None where it leaves `i128`.
fn quotient(x: i128, y: i128) -> Option<i128>
    requires { is_zero y ≡ false }
    ensures { SomeIff result (fits_i128 (int_div x y) ≡ true) (int_div x y) }
{
    x.checked_div(y)
}

/// What `/` gives.
fn divided(x: i128, y: i128) -> Result<i128, Stop>
    ensures { GivesNumber (apply Div x y) result }
{
    if y == 0 {
        return Err(Stop::DivisionError);
    }
    fitted(quotient(x, y))
}

/// The remainder. No quotient is formed, so it always fits.
fn remainder(x: i128, y: i128) -> i128
    requires { is_zero y ≡ false }
    ensures { SomeIff (Some result) (fits_i128 (int_rem x y) ≡ true) (int_rem x y) }
{
    if y == -1 {
        return 0;
    }
    x % y
}

/// What `%` gives.
fn remained(x: i128, y: i128) -> Result<i128, Stop>
    ensures { GivesNumber (apply Rem x y) result }
{
    if y == 0 {
        return Err(Stop::DivisionError);
    }
    Ok(remainder(x, y))
}

/// What an operator before its operand gives.
#[inline(always)]
pub(crate) fn apply_unary(op: UnOp, x: i128) -> Result<i128, Stop>
    ensures { GivesNumber (unary op x) result }
{
    match op {
        UnOp::Plus => Ok(x),
        UnOp::Minus => fitted(negative(x)),
        UnOp::Not => Ok(number_of(x == 0)),
    }
}

/// What an operator gives, from both operands.
#[inline(always)]
pub(crate) fn apply_binary(op: BinOp, x: i128, y: i128) -> Result<i128, Stop>
    ensures { GivesNumber (apply op x y) result }
{
    match op {
        BinOp::Add => fitted(sum(x, y)),
        BinOp::Sub => fitted(difference(x, y)),
        BinOp::Mul => fitted(product(x, y)),
        BinOp::Div => divided(x, y),
        BinOp::Rem => remained(x, y),
        BinOp::Lt => Ok(number_of(x < y)),
        BinOp::Le => Ok(number_of(x <= y)),
        BinOp::Gt => Ok(number_of(x > y)),
        BinOp::Ge => Ok(number_of(x >= y)),
        BinOp::Eq => Ok(number_of(x == y)),
        BinOp::Ne => Ok(number_of(x != y)),
        BinOp::AndAlso | BinOp::OrElse => Ok(number_of(y != 0)),
    }
}
