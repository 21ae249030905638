//! A polynomial that is in normal form and within the limits.
ghost use Rattle.std.specs.Prelude.{◌≡◌, ◌↔◌, ◌+ℤ◌, ◌-ℤ◌, ◌*ℤ◌, ℕ, ℤ, true, false, IsTrue, IfOk, IfSome, IsSome};
ghost use Rattle.std.specs.Prelude.{[]};
ghost use Rattle.rx_plain.specs.Formed.{Forms, kept};
ghost use Rattle.rx_poly.specs.Limits.{body_sum, is_sum, of_terms, is_small, is_within, scaled_by, body_difference};
ghost use Rattle.rx_poly.specs.Normal.{is_normal, is_normal_atom, is_normal_mono, is_poly};
ghost use Rattle.rx_poly.specs.Constants.{number, variable, variable_times};
ghost use Rattle.rx_poly.specs.Digest.{digest_of};
ghost use Rattle.rx_poly.specs.Division.{atom_alone, quotient_of, remainder_of};
ghost use Rattle.rx_poly.specs.Products.{term_product, product_formed};
ghost use Rattle.rx_poly.specs.Reading.{coefficient, constant_of};
ghost use Rattle.rx_poly.specs.Signs.{combined};
ghost use Rattle.rx_poly.specs.Terms.{all_keys, is_zero};
ghost use Rattle.rx_poly.specs.declared.body.Body.{out-Body};
ghost use Rattle.rx_poly.specs.Value.{quotient, remainder, value};

use crate::body::{Atom, Body, Mono};
use crate::digest::digest_of;
use crate::division::{divide, remainder};
use crate::equality::is_same_body;
use crate::merge::merge;
use crate::moved::moved_sum;
use crate::multiple::multiple;
use crate::normal_test::body_is_normal;
use crate::poly_end::PolyEnd;
use crate::product::scale;
use crate::sign::Sign;
use crate::size::is_within_limits;
use rx_plain::{Graded, Items, Shared};
use std::alloc::{AllocError, Global};
use std::cmp::Ordering;
use std::marker::Model;

/// One polynomial: at every level in normal form, with coefficients in i128, a size of at most
/// 4,096, and quotients and remainders nested at most 64 deep. Its tree is shared: another copy of
/// a polynomial takes no memory.
#[derive(Debug, Drop, PartialEq, Eq, PartialOrd, Ord, Hash)]
pub struct Poly {
    body: Shared<Body>,
}

impl Model for Poly {
    ghost use Rattle.std.specs.Prelude.{◌≡◌, true};
    ghost use Rattle.std.specs.Coded.{codes};
    ghost use Rattle.rx_poly.specs.contracts.body.Body as body_row;
    ghost use Rattle.rx_poly.specs.declared.body.Body.{Body};

    ghost Value = { Body };

    ghost coded = { Prim.hlevel (codes, body_row.the_row.coded) };

    ghost use Rattle.rx_poly.specs.Normal.{is_poly};

    ghost view = { λ p. p.body };

    ghost invariant = { λ p. is_poly p.body ≡ true };

    ghost inverse = { λ b. record { body = b } };
}

/// The polynomial of a normal form; Large where its size or depth passes the limits.
pub(crate) fn within_limits(alloc: Global, body: Body) -> Result<Poly, PolyEnd>
    requires { is_normal body ≡ true }
    ensures forms { Forms PolyEnd.Large result (kept is_small body) }
{
    if is_within_limits(&body) {
        let body = Shared::new(alloc, body)?;
        Ok(Poly { body })
    } else {
        Err(PolyEnd::Large)
    }
}

impl Poly {
    /// The polynomial as a plain tree, borrowed.
    pub fn body(&self) -> &Body
        ensures body { result.now ≡ self.now }
        ensures normal { is_poly self.now ≡ true }
    {
        self.body.get()
    }

    /// The polynomial, borrowed, with what is known of each.
    pub(crate) fn as_normal(&self) -> &Poly
        ensures same { result.now ≡ self.now }
        ensures normal { is_poly self.now ≡ true }
    {
        let _ = &self.body;
        self
    }

    /// The polynomial with that body; None exactly where the body is, at some level, no normal
    /// form, or passes the limits. Fails only when out of memory.
    pub fn from_body(alloc: Global, body: Body) -> Result<Option<Poly>, AllocError>
        ensures same { IfOk result (λ made. IfSome made (λ p. p ≡ body)) }
        ensures exact { IfOk result (λ made. IsSome made ↔ (is_poly body ≡ true)) }
    {
        if is_within_limits(&body) && body_is_normal(&body) {
            let body = Shared::new(alloc, body)?;
            Ok(Some(Poly { body }))
        } else {
            Ok(None)
        }
    }

    /// The polynomial that is one number; fails only where there is no memory.
    pub fn constant(alloc: Global, integer: i128) -> Result<Poly, AllocError>
        ensures same { IfOk result (λ p. p ≡ number integer) }
        ensures value { IfOk result (λ p. (a : ℕ → ℤ) → value a p ≡ integer) }
    {
        of_number(alloc, &integer)
    }

    /// The polynomial that is one variable, by its number; fails only where there is no memory.
    pub fn variable(alloc: Global, at: u32) -> Result<Poly, AllocError>
        ensures same { IfOk result (λ p. p ≡ variable at) }
        ensures value { IfOk result (λ p. (a : ℕ → ℤ) → value a p ≡ a at) }
    {
        of_variable(alloc, at)
    }

    /// Whether the two are one polynomial.
    pub fn is_same(&self, other: &Poly) -> bool
        ensures { IsTrue result ↔ (self.now ≡ other.now) }
    {
        is_same_body(self.body.get(), other.body.get())
    }

    /// The number that the polynomial is, where it is one. Takes no memory.
    pub fn is_constant(&self) -> Option<i128>
        ensures number { result ≡ constant_of (out-Body self.now).terms }
        ensures value { IfSome result (λ k. (a : ℕ → ℤ) → value a self.now ≡ k) }
    {
        let Some((term, more)) = self.body().terms.as_slice().split_first() else {
            return Some(0);
        };
        if more.is_empty() && term.0.atoms.is_empty() {
            Some(term.1)
        } else {
            None
        }
    }

    /// The coefficient of the monomial, 0 where it has none. Takes no memory.
    pub fn coeff(&self, at: &Mono) -> i128
        ensures { result ≡ coefficient at.now (out-Body self.now).terms }
    {
        for term in self.body().terms.as_slice() {
            match at.cmp(&term.0) {
                Ordering::Less => return 0,
                Ordering::Equal => {
                    return term.1;
                }
                Ordering::Greater => {}
            }
        }
        0
    }

    /// One number made of the terms: equal polynomials have one. Two others may have the same, but
    /// seldom. Takes no memory.
    pub fn digest(&self) -> u128
        ensures { result ≡ digest_of (out-Body self.now).terms }
    {
        digest_of(self.body().terms.as_slice())
    }

    /// The same polynomial once more, which takes no memory; fails only where no more copies can be
    /// counted.
    pub fn try_clone(&self, _alloc: Global) -> Result<Poly, AllocError>
        ensures { IfOk result (λ p. p ≡ self.now) }
    {
        let body = self.body.try_clone()?;
        Ok(Poly { body })
    }

    /// The sum of the two; Large exactly where the sum passes the limits.
    pub fn add(&self, alloc: Global, other: &Poly) -> Result<Poly, PolyEnd>
        ensures forms { Forms PolyEnd.Large result (kept is_within (body_sum self.now other.now)) }
        ensures value { IfOk result (λ p. (a : ℕ → ℤ) → value a p ≡
            value a self.now +ℤ value a other.now) }
    {
        combine(alloc, self, other, Sign::Plus)
    }

    /// This polynomial minus the other, coefficient by coefficient; Large exactly where the
    /// difference passes the limits. A polynomial minus itself is always 0.
    pub fn sub(&self, alloc: Global, other: &Poly) -> Result<Poly, PolyEnd>
        ensures forms { Forms PolyEnd.Large result
            (kept is_within (body_difference self.now other.now)) }
        ensures value { IfOk result (λ p. (a : ℕ → ℤ) → value a p ≡
            value a self.now -ℤ value a other.now) }
    {
        combine(alloc, self, other, Sign::Minus)
    }

    /// The polynomial times a number; Large exactly where that passes the limits.
    pub fn scale(&self, alloc: Global, by: i128) -> Result<Poly, PolyEnd>
        ensures forms { Forms PolyEnd.Large result (kept is_within (scaled_by by self.now)) }
        ensures value { IfOk result (λ p. (a : ℕ → ℤ) → value a p ≡ by *ℤ value a self.now) }
    {
        times_number(alloc, self, &by)
    }

    /// The product of the two. Large exactly where the product of one term of this polynomial with
    /// the whole other one passes the limits, or the sum of the first such products does.
    pub fn mul(&self, alloc: Global, other: &Poly) -> Result<Poly, PolyEnd>
        ensures forms { Forms PolyEnd.Large result (product_formed self.now other.now) }
        ensures value { IfOk result (λ p. (a : ℕ → ℤ) → value a p ≡
            value a self.now *ℤ value a other.now) }
    {
        let start = zero(alloc)?;
        let mut sum = start;
        for term in self.body().terms.as_slice() {
            let product = times_term(alloc, term, other)?;
            sum = plus(alloc, sum, product)?;
        }
        Ok(sum)
    }

    /// The quotient of this polynomial by the other, truncated toward zero, and 0 where the other
    /// is 0. Of two numbers it is a number, else it is one atom. Large exactly where that passes
    /// the limits.
    pub fn quotient(&self, alloc: Global, by: &Poly) -> Result<Poly, PolyEnd>
        ensures forms { Forms PolyEnd.Large result (kept is_within (quotient_of self.now by.now)) }
        ensures value { IfOk result (λ p. (a : ℕ → ℤ) → value a p ≡
            quotient (value a self.now) (value a by.now)) }
    {
        divide(alloc, self, by)
    }

    /// The remainder that belongs to that quotient, with the sign of this polynomial's value. Large
    /// exactly where it passes the limits.
    pub fn remainder(&self, alloc: Global, by: &Poly) -> Result<Poly, PolyEnd>
        ensures forms { Forms PolyEnd.Large result (kept is_within (remainder_of self.now by.now)) }
        ensures value { IfOk result (λ p. (a : ℕ → ℤ) → value a p ≡
            remainder (value a self.now) (value a by.now)) }
    {
        remainder(alloc, self, by)
    }
}

/// The polynomial 0.
pub(crate) fn zero(alloc: Global) -> Result<Poly, AllocError>
    ensures { IfOk result (λ p. p ≡ of_terms []) }
{
    let terms = Items::new(alloc);
    let body = Shared::new(alloc, Body { terms })?;
    Ok(Poly { body })
}

/// The polynomial as a plain tree, moved out where it is the only copy.
fn own_body(alloc: Global, poly: Poly) -> Result<Body, AllocError>
    ensures body { IfOk result (λ b. b ≡ poly) }
    ensures normal { IfOk result (λ b. is_poly b ≡ true) }
{
    let Poly { body } = poly;
    match body.try_unwrap() {
        Ok(body) => Ok(body),
        Err(body) => body.get().try_clone(alloc),
    }
}

/// The sum of the two, of their own terms; Large exactly where the sum passes the limits.
pub(crate) fn plus(alloc: Global, left: Poly, right: Poly) -> Result<Poly, PolyEnd>
    ensures forms { Forms PolyEnd.Large result (kept is_within (body_sum left right)) }
{
    if left.body().terms.is_empty() {
        let _ = right.as_normal();
        return Ok(right);
    }
    let first = own_body(alloc, left)?;
    let second = own_body(alloc, right)?;
    let terms = moved_sum(alloc, first.terms, second.terms)?;
    within_limits(alloc, Body { terms })
}

/// The sum, plus terms of a polynomial; Large exactly where that passes the limits.
pub(crate) fn plus_terms(alloc: Global, sum: &Poly, terms: &[(Mono, i128)]) -> Result<Poly, PolyEnd>
    requires sum { is_sum terms.now ≡ true }
    requires normal { all_keys is_normal_mono terms.now ≡ true }
    ensures forms { Forms PolyEnd.Large result
        (kept is_within (body_sum sum.now (of_terms terms.now))) }
{
    let terms = merge(alloc, sum.body().terms.as_slice(), terms, Sign::Plus)?;
    within_limits(alloc, Body { terms })
}

/// One term times a polynomial; Large exactly where that product passes the limits.
fn times_term(alloc: Global, term: &(Mono, i128), factor: &Poly) -> Result<Poly, PolyEnd>
    requires normal { is_normal_mono term.now.0 ≡ true }
    requires nonzero { is_zero term.now.1 ≡ false }
    ensures forms { Forms PolyEnd.Large result
        (kept is_within (of_terms (term_product term.now (out-Body factor.now).terms))) }
{
    let terms = scale(alloc, term, factor.body().terms.as_slice())?;
    within_limits(alloc, Body { terms })
}

/// A number other than 0 times one variable.
pub(crate) fn of_multiple(alloc: Global, at: u32, by: &i128) -> Result<Poly, AllocError>
    requires { is_zero by.now ≡ false }
    ensures { IfOk result (λ p. p ≡ variable_times by.now at) }
{
    let mut atoms = Graded::new(alloc);
    atoms.push(Atom::Var(at))?;
    let mut terms = Items::new(alloc);
    terms.push((Mono { atoms }, *by))?;
    let body = Shared::new(alloc, Body { terms })?;
    Ok(Poly { body })
}

/// The polynomial that is one variable.
pub(crate) fn of_variable(alloc: Global, at: u32) -> Result<Poly, AllocError>
    ensures { IfOk result (λ p. p ≡ variable at) }
{
    of_multiple(alloc, at, &1)
}

/// The polynomial that is one number.
pub(crate) fn of_number(alloc: Global, by: &i128) -> Result<Poly, AllocError>
    ensures { IfOk result (λ p. p ≡ number by.now) }
{
    if *by == 0 {
        return zero(alloc);
    }
    let one = Mono {
        atoms: Graded::new(alloc),
    };
    let mut terms = Items::new(alloc);
    terms.push((one, *by))?;
    let body = Shared::new(alloc, Body { terms })?;
    Ok(Poly { body })
}

/// The first polynomial plus or minus the second; Large exactly where that passes the limits.
fn combine(alloc: Global, left: &Poly, right: &Poly, sign: Sign) -> Result<Poly, PolyEnd>
    ensures forms { Forms PolyEnd.Large result (kept is_within (combined sign left.now right.now)) }
{
    let terms = merge(
        alloc,
        left.body().terms.as_slice(),
        right.body().terms.as_slice(),
        sign,
    )?;
    within_limits(alloc, Body { terms })
}

/// The polynomial times a number; Large exactly where that passes the limits.
pub(crate) fn times_number(alloc: Global, poly: &Poly, by: &i128) -> Result<Poly, PolyEnd>
    ensures forms { Forms PolyEnd.Large result (kept is_within (scaled_by by.now poly.now)) }
{
    let terms = multiple(alloc, poly.body().terms.as_slice(), by)?;
    within_limits(alloc, Body { terms })
}

/// The polynomial that is one atom; Large where that passes the limits.
pub(crate) fn of_atom(alloc: Global, atom: Atom) -> Result<Poly, PolyEnd>
    requires { is_normal_atom atom ≡ true }
    ensures forms { Forms PolyEnd.Large result (kept is_within (atom_alone atom)) }
{
    let mut atoms = Graded::new(alloc);
    atoms.push(atom)?;
    let mut terms = Items::new(alloc);
    terms.push((Mono { atoms }, 1))?;
    within_limits(alloc, Body { terms })
}
