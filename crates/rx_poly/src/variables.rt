//! Which variables are below a number in a polynomial.
ghost use Rattle.std.specs.Prelude.{◌≡◌};
ghost use Rattle.rx_poly.specs.Variables.{atom_bound, mono_bound, uses_below, variable_bound};

use crate::body::{Atom, Body, Mono};
use crate::poly::Poly;

/// Whether all variables of the polynomial, at every level, are below the number. Takes no memory.
#[tactic(auto, using(crate::proofs::VariableLaws::bound_decides))]
pub fn uses_below(poly: &Poly, bound: u32) -> bool
    ensures { result ≡ uses_below bound poly.now }
{
    variable_bound(poly) <= u64::from(bound)
}

/// The least number above all variables of the polynomial, at every level; 0 where it has none.
/// Takes no memory.
pub fn variable_bound(poly: &Poly) -> u64
    ensures { result ≡ variable_bound poly.now }
{
    body_bound(poly.body())
}

/// The least number above all variables of the atom.
#[cycle(bounds)]
#[tactic(auto, using(crate::proofs::VariableLaws::bound_Var, crate::proofs::VariableLaws::bound_Div, crate::proofs::VariableLaws::bound_Mod))]
fn atom_bound(atom: &Atom) -> u64
    ensures { result ≡ atom_bound atom.now }
{
    match atom {
        Atom::Var(number) => *number as u64 + 1,
        Atom::Div(num, den) => body_bound(num).max(body_bound(den)),
        Atom::Mod(num, den) => body_bound(num).max(body_bound(den)),
    }
}

/// The least number above all variables of the monomial.
#[cycle(bounds)]
fn mono_bound(mono: &Mono) -> u64
    ensures { result ≡ mono_bound mono.now }
{
    let mut bound = 0;
    for atom in mono.atoms.as_slice() {
        bound = atom_bound(atom).max(bound);
    }
    bound
}

/// The least number above all variables of the sum.
#[cycle(bounds)]
fn body_bound(body: &Body) -> u64
    ensures { result ≡ variable_bound body.now }
{
    let mut bound = 0;
    for term in body.terms.as_slice() {
        bound = mono_bound(&term.0).max(bound);
    }
    bound
}
