//! From an integer term to its normal form.
ghost use Rattle.std.specs.Prelude.{◌≡◌, ℕ, ℤ, IfOk};
ghost use Rattle.rx_plain.specs.Formed.{Forms};
ghost use Rattle.rx_poly_laws.specs.Norm.{formed, term_value};
ghost use Rattle.rx_poly_laws.specs.Operations.{formed_by, joined_by, value_by};
ghost use Rattle.rx_poly.specs.Value.{value};

use crate::iterm::ITerm;
use rx_plain::Boxed;
use rx_poly::{Poly, PolyEnd};
use std::alloc::Global;

/// What joins the two parts of a term.
#[derive(Clone, Copy)]
enum Operation {
    /// They are added.
    Add,
    /// They are multiplied.
    Mul,
    /// The first is divided by the second.
    Div,
    /// The remainder of that division is taken.
    Mod,
}

/// The two polynomials joined.
fn joined(alloc: Global, left: &Poly, operation: Operation, right: &Poly) -> Result<Poly, PolyEnd>
    ensures forms { Forms PolyEnd.Large result (joined_by operation left.now right.now) }
    ensures value { IfOk result (λ p. (a : ℕ → ℤ) → value a p ≡
        value_by operation (value a left.now) (value a right.now)) }
{
    match operation {
        Operation::Add => left.add(alloc, right),
        Operation::Mul => left.mul(alloc, right),
        Operation::Div => left.quotient(alloc, right),
        Operation::Mod => left.remainder(alloc, right),
    }
}

/// The normal form of two terms joined: of the left one, of the right one, and of the two joined.
#[cycle(norms)]
fn norm_of_both(
    alloc: Global,
    left: &Boxed<ITerm>,
    operation: Operation,
    right: &Boxed<ITerm>,
) -> Result<Poly, PolyEnd>
    ensures forms { Forms PolyEnd.Large result (formed_by operation left.now right.now) }
    ensures value { IfOk result (λ p. (a : ℕ → ℤ) → value a p ≡
        value_by operation (term_value a left.now) (term_value a right.now)) }
{
    let left = norm(alloc, left.get())?;
    let right = norm(alloc, right.get())?;
    joined(alloc, &left, operation, &right)
}

/// The normal form of `term`: of its left part, of its right part, and of the two joined. Large
/// exactly where one of the polynomials on the way passes the limits.
#[cycle(norms)]
pub fn norm(alloc: Global, term: &ITerm) -> Result<Poly, PolyEnd>
    ensures forms { Forms PolyEnd.Large result (formed term.now) }
    ensures value { IfOk result (λ p. (a : ℕ → ℤ) → value a p ≡ term_value a term.now) }
{
    match term {
        ITerm::Var(number) => Ok(Poly::variable(alloc, *number)?),
        ITerm::Lit(number) => Ok(Poly::constant(alloc, *number)?),
        ITerm::Neg(inner) => norm(alloc, inner.get())?.scale(alloc, -1),
        ITerm::Add(left, right) => norm_of_both(alloc, left, Operation::Add, right),
        ITerm::Mul(left, right) => norm_of_both(alloc, left, Operation::Mul, right),
        ITerm::Div(left, right) => norm_of_both(alloc, left, Operation::Div, right),
        ITerm::Mod(left, right) => norm_of_both(alloc, left, Operation::Mod, right),
    }
}
