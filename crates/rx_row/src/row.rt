//! Rows: a polynomial with what is said of it.
ghost use Rattle.std.specs.Prelude.{◌≡◌, ◌↔◌, ℕ, ℤ, false, IsTrue, IfOk};
ghost use Rattle.rx_plain.specs.Formed.{Forms};
ghost use Rattle.rx_row.specs.Digest.{row_digest};
ghost use Rattle.rx_row.specs.Holds.{RowHolds};
ghost use Rattle.rx_row.specs.Naming.{named};
ghost use Rattle.rx_row.specs.Negation.{less_one_more, negated};
ghost use Rattle.rx_row.specs.Parts.{poly_of};
ghost use Rattle.rx_row.specs.Substitution.{row_with};
ghost use Rattle.rx_poly.specs.Substitution.{numbered, updated_assignment};

use rx_poly::{Poly, PolyEnd};
use std::alloc::{AllocError, Global};
use std::hash::{Hash, Hasher};

/// What is said of one polynomial.
#[derive(Debug, Drop, PartialEq, Eq, PartialOrd, Ord)]
pub enum Row {
    /// The polynomial is at least 0.
    Ge(Poly),
    /// The polynomial is 0.
    Eq(Poly),
    /// The polynomial is not 0.
    Ne(Poly),
}

/// A row feeds a hash function one number.
impl Hash for Row {
    ghost use Rattle.rx_row.specs.Digest.{fed_alike, fed_of};

    ghost hash_input = { fed_of };

    ghost respects_eq = { fed_alike };

    fn hash<H: Hasher>(&self, state: &mut H) {
        state.write_u128(self.digest());
    }
}

/// `-p - 1`: p scaled by -1, minus 1. Large exactly where one of the two passes the limits.
fn below_zero(alloc: Global, poly: &Poly) -> Result<Poly, PolyEnd>
    ensures forms { Forms PolyEnd.Large result (less_one_more poly.now) }
{
    let opposite = poly.scale(alloc, -1)?;
    let one = Poly::constant(alloc, 1)?;
    opposite.sub(alloc, &one)
}

impl Row {
    /// The row that holds exactly where this one doesn't: `-p - 1 >= 0` for `p >= 0`, and for an
    /// equation the disequality, and the other way round. Large exactly where `-p` or `-p - 1`
    /// passes the limits.
    pub fn negate(&self, alloc: Global) -> Result<Row, PolyEnd>
        ensures forms { Forms PolyEnd.Large result (negated self.now) }
        ensures holds { IfOk result (λ r. (a : ℕ → ℤ) → RowHolds a r ↔ ¬ (RowHolds a self.now)) }
    {
        match self {
            Row::Ge(poly) => Ok(Row::Ge(below_zero(alloc, poly)?)),
            Row::Eq(poly) => Ok(Row::Ne(poly.try_clone(alloc)?)),
            Row::Ne(poly) => Ok(Row::Eq(poly.try_clone(alloc)?)),
        }
    }

    /// The row that says that the variable is the number: the variable minus the number is 0. Large
    /// exactly where that passes the limits, as for the least number of i128.
    pub fn named(alloc: Global, var: u32, integer: i128) -> Result<Row, PolyEnd>
        ensures forms { Forms PolyEnd.Large result (named var integer) }
        ensures holds { IfOk result (λ r. (a : ℕ → ℤ) → RowHolds a r ↔ (a var ≡ integer)) }
    {
        let variable = Poly::variable(alloc, var)?;
        let constant = Poly::constant(alloc, integer)?;
        Ok(Row::Eq(variable.sub(alloc, &constant)?))
    }

    /// The row of its polynomial with those polynomials in place of their variables. Large exactly
    /// where a polynomial on the way to that passes the limits.
    pub fn subst(&self, alloc: Global, with: &[(u32, Poly)]) -> Result<Row, PolyEnd>
        ensures forms { Forms PolyEnd.Large result (row_with with.now self.now) }
        ensures holds { IfOk result (λ r. (a : ℕ → ℤ) →
            RowHolds a r ↔ RowHolds (updated_assignment a with.now) self.now) }
    {
        match self {
            Row::Ge(poly) => Ok(Row::Ge(poly.subst(alloc, with)?)),
            Row::Eq(poly) => Ok(Row::Eq(poly.subst(alloc, with)?)),
            Row::Ne(poly) => Ok(Row::Ne(poly.subst(alloc, with)?)),
        }
    }

    /// The row of its polynomial with the first of those polynomials in place of v0, the second in
    /// place of v1, and so on. Large exactly where `subst` is, for that list.
    pub fn at_args(&self, alloc: Global, args: &[Poly]) -> Result<Row, PolyEnd>
        ensures forms { Forms PolyEnd.Large result (row_with (numbered args.now) self.now) }
        ensures holds { IfOk result (λ r. (a : ℕ → ℤ) →
            RowHolds a r ↔ RowHolds (updated_assignment a (numbered args.now)) self.now) }
    {
        match self {
            Row::Ge(poly) => Ok(Row::Ge(poly.at_args(alloc, args)?)),
            Row::Eq(poly) => Ok(Row::Eq(poly.at_args(alloc, args)?)),
            Row::Ne(poly) => Ok(Row::Ne(poly.at_args(alloc, args)?)),
        }
    }

    /// One number made of the row: equal rows have one. Two others may have the same, but seldom.
    /// Takes no memory.
    pub(crate) fn digest(&self) -> u128
        ensures { result ≡ row_digest self.now }
    {
        match self {
            Row::Ge(poly) => poly.digest().wrapping_add(0),
            Row::Eq(poly) => poly.digest().wrapping_add(1),
            Row::Ne(poly) => poly.digest().wrapping_add(2),
        }
    }

    /// Whether the row is an inequality, `p >= 0`. Takes no memory.
    pub fn is_ge(&self) -> bool
        ensures { IsTrue result ↔ (self.now ≡ Row.Ge (poly_of self.now)) }
    {
        matches!(self, Row::Ge(_))
    }

    /// The row's polynomial, borrowed.
    pub fn poly(&self) -> &Poly
        ensures { result.now ≡ poly_of self.now }
    {
        match self {
            Row::Ge(poly) => poly,
            Row::Eq(poly) => poly,
            Row::Ne(poly) => poly,
        }
    }

    /// Whether the two are one row.
    pub fn is_same(&self, other: &Row) -> bool
        ensures { IsTrue result ↔ (self.now ≡ other.now) }
    {
        match (self, other) {
            (Row::Ge(left), Row::Ge(right)) => left.is_same(right),
            (Row::Eq(left), Row::Eq(right)) => left.is_same(right),
            (Row::Ne(left), Row::Ne(right)) => left.is_same(right),
            _ => false,
        }
    }

    /// The same row once more; fails only when out of memory.
    pub fn try_clone(&self, alloc: Global) -> Result<Row, AllocError>
        ensures { IfOk result (λ r. r ≡ self.now) }
    {
        match self {
            Row::Ge(poly) => Ok(Row::Ge(poly.try_clone(alloc)?)),
            Row::Eq(poly) => Ok(Row::Eq(poly.try_clone(alloc)?)),
            Row::Ne(poly) => Ok(Row::Ne(poly.try_clone(alloc)?)),
        }
    }
}
