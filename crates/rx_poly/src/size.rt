//! Whether a sum keeps the limits on size and depth. Both walks stop as soon as the answer is
//! known, so neither counts past its limit, whatever tree it is given.
ghost use Rattle.std.specs.Prelude.{◌≡◌, ◌+◌, ◌-◌, ◌≤◌, ℤ, nat_le, sum_by, SomeIff};
ghost use Rattle.rx_poly.specs.declared.body.Mono.{Mono};
ghost use Rattle.rx_poly.specs.Limits.{atom_size, mono_size, body_size, atom_depth, mono_depth, body_depth, is_small};

use crate::body::{Atom, Body, Mono};

/// The greatest size of a polynomial.
const LARGEST_SIZE: u32 = 4096;

/// How deep quotients and remainders may be nested.
const DEEPEST: u32 = 64;

/// Whether size and depth keep the limits. A sum is nested at most as deep as it is large, so that
/// the depth of a small one isn't looked at.
pub(crate) fn is_within_limits(body: &Body) -> bool
    ensures { result ≡ is_small body.now }
{
    match body_after(body, LARGEST_SIZE) {
        Some(left) => left >= LARGEST_SIZE - DEEPEST || body_fits_in(body, DEEPEST),
        None => false,
    }
}

/// What is left of `budget` once the atom's size is taken from it.
#[cycle(sizes)]
fn atom_after(atom: &Atom, budget: u32) -> Option<u32>
    ensures { SomeIff result (atom_size atom.now ≤ budget) (budget - atom_size atom.now) }
{
    let left = budget.checked_sub(1)?;
    match atom {
        Atom::Var(_) => Some(left),
        Atom::Div(num, den) => body_after(den, body_after(num, left)?),
        Atom::Mod(num, den) => body_after(den, body_after(num, left)?),
    }
}

/// What is left of `budget` once the monomial's size is taken from it.
#[cycle(sizes)]
fn mono_after(mono: &Mono, budget: u32) -> Option<u32>
    ensures { SomeIff result (mono_size mono.now ≤ budget) (budget - mono_size mono.now) }
{
    let mut left = budget.checked_sub(1)?;
    for atom in mono.atoms.as_slice() {
        left = atom_after(atom, left)?;
    }
    Some(left)
}

/// What is left of `budget` once the sum's size is taken from it.
#[cycle(sizes)]
fn body_after(body: &Body, budget: u32) -> Option<u32>
    ensures { SomeIff result (body_size body.now ≤ budget) (budget - body_size body.now) }
{
    let mut left = budget;
    for term in body.terms.as_slice() {
        left = mono_after(&term.0, left)?;
    }
    Some(left)
}

/// Whether the sum and those terms together keep the limit on size.
pub(crate) fn fit_together(sum: &Body, terms: &[(Mono, i128)]) -> bool
    ensures { result ≡
        nat_le (body_size sum.now + sum_by (λ (t : Mono × ℤ). mono_size t.0) terms.now) 4096 }
{
    let Some(rest) = body_after(sum, LARGEST_SIZE) else {
        return false;
    };
    let mut left = rest;
    for term in terms {
        match mono_after(&term.0, left) {
            Some(rest) => left = rest,
            None => return false,
        }
    }
    true
}

/// Whether the atom nests quotients and remainders at most `limit` deep.
#[cycle(depths)]
fn atom_fits_in(atom: &Atom, limit: u32) -> bool
    ensures { result ≡ nat_le (atom_depth atom.now) limit }
{
    match atom {
        Atom::Var(_) => true,
        Atom::Div(num, den) => limit > 0
            && body_fits_in(num, limit - 1)
            && body_fits_in(den, limit - 1),
        Atom::Mod(num, den) => limit > 0
            && body_fits_in(num, limit - 1)
            && body_fits_in(den, limit - 1),
    }
}

/// Whether the monomial nests quotients and remainders at most `limit` deep.
#[cycle(depths)]
fn mono_fits_in(mono: &Mono, limit: u32) -> bool
    ensures { result ≡ nat_le (mono_depth mono.now) limit }
{
    for atom in mono.atoms.as_slice() {
        if !atom_fits_in(atom, limit) {
            return false;
        }
    }
    true
}

/// Whether the sum nests quotients and remainders at most `limit` deep.
#[cycle(depths)]
fn body_fits_in(body: &Body, limit: u32) -> bool
    ensures { result ≡ nat_le (body_depth body.now) limit }
{
    for term in body.terms.as_slice() {
        if !mono_fits_in(&term.0, limit) {
            return false;
        }
    }
    true
}
