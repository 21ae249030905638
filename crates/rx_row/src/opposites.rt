//! Whether one row is the negation of another, by the coefficients alone.
ghost use Rattle.std.specs.Prelude.{◌≡◌, ◌↔◌, ◌+ℤ◌, IsTrue};
ghost use Rattle.rx_poly.specs.Terms.{is_zero};
ghost use Rattle.rx_row.specs.Negation.{minus_one_more, negation};
ghost use Rattle.rx_row.specs.Opposites.{number_terms, one_less_negated, turned};

use crate::row::Row;
use rx_poly::{Mono, Poly};

/// Whether the terms are those of the number.
fn are_number(terms: &[(Mono, i128)], number: &i128) -> bool
    ensures { IsTrue result ↔ (terms.now ≡ number_terms number.now) }
{
    match terms.split_first() {
        None => *number == 0,
        Some((term, more)) => {
            more.is_empty() && term.0.atoms.is_empty() && term.1 == *number && *number != 0
        }
    }
}

/// Whether the two numbers have the sum 0.
fn are_opposite(left: &i128, right: &i128) -> bool
    ensures { result ≡ is_zero (left.now +ℤ right.now) }
{
    match left.checked_add(*right) {
        Some(sum) => sum == 0,
        None => false,
    }
}

/// Whether the one term is the other with its sign reversed.
fn is_negated(left: &(Mono, i128), right: &(Mono, i128)) -> bool
    ensures { IsTrue result ↔ (left.now ≡ turned right.now) }
{
    left.0.cmp(&right.0).is_eq() && are_opposite(&left.1, &right.1)
}

/// Whether the terms are those of `-p - 1`, where the others are those of p.
fn are_one_less_negated(left: &[(Mono, i128)], right: &[(Mono, i128)]) -> bool
    ensures { IsTrue result ↔ (left.now ≡ one_less_negated right.now) }
{
    let mut rest = left;
    for term in right {
        if term.0.atoms.is_empty() {
            return are_number(rest, &(-1 - term.1));
        }
        let Some((first, more)) = rest.split_first() else {
            return false;
        };
        if !is_negated(first, term) {
            return false;
        }
        rest = more;
    }
    are_number(rest, &-1)
}

/// Whether the one polynomial is `-p - 1`, where the other is p.
fn is_one_less_negated(left: &Poly, right: &Poly) -> bool
    ensures { IsTrue result ↔ (left.now ≡ minus_one_more right.now) }
{
    are_one_less_negated(left.body().terms.as_slice(), right.body().terms.as_slice())
}

impl Row {
    /// Whether this row is the negation of the other, as `negate` forms it. Nothing is formed, and
    /// no limit looked at. Takes no memory.
    pub fn is_negation_of(&self, other: &Row) -> bool
        ensures { IsTrue result ↔ (self.now ≡ negation other.now) }
    {
        match (self, other) {
            (Row::Ge(left), Row::Ge(right)) => is_one_less_negated(left, right),
            (Row::Ne(left), Row::Eq(right)) => left.is_same(right),
            (Row::Eq(left), Row::Ne(right)) => left.is_same(right),
            _ => false,
        }
    }
}
