//! Which results of arithmetic operators are values.

/// Which results of arithmetic operators are values. Literals and arguments are what they are, by
/// either.
#[derive(Clone, Copy, Debug, PartialEq, Eq)]
pub enum Integers {
    /// All: the mathematical integers.
    Unbounded,
    /// Those that a 32-bit `int` has: -2147483648 to 2147483647.
    Bits32,
}
