//! Integer terms as they are written, before any is brought to its normal form.

use rx_plain::Boxed;

/// An integer term over variables, with exact arithmetic.
#[derive(Drop, PartialEq)]
pub enum ITerm {
    /// A variable, by its number.
    Var(u32),
    /// A number.
    Lit(i128),
    /// The sum of two terms.
    Add(Boxed<ITerm>, Boxed<ITerm>),
    /// The product of two terms.
    Mul(Boxed<ITerm>, Boxed<ITerm>),
    /// The term with its sign reversed.
    Neg(Boxed<ITerm>),
    /// The quotient of the first by the second, truncated toward zero (ISO C99 6.5.5); 0 at divisor
    /// 0.
    Div(Boxed<ITerm>, Boxed<ITerm>),
    /// The remainder that belongs to that quotient; 0 at divisor 0.
    Mod(Boxed<ITerm>, Boxed<ITerm>),
}
