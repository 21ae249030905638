//! What can be read from a polynomial without forming anything.
ghost use Rattle.std.specs.Prelude.{◌≡◌, ◌↔◌, ℕ, [], ◌∷◌, Some, IsTrue};
ghost use Rattle.rx_poly.specs.Constants.{variable};
ghost use Rattle.rx_poly.specs.Limits.{of_atoms};
ghost use Rattle.rx_poly.specs.Reading.{coefficient, variable_of, variable_of_atoms};
ghost use Rattle.rx_poly.specs.declared.body.Body.{out-Body};
ghost use Rattle.rx_poly.specs.declared.body.Mono.{out-Mono};

use crate::body::{Atom, Body, Mono};
use crate::poly::Poly;

/// The variable that the monomial is, where it is one.
#[tactic(auto, unfolding(crate::specs::Reading::variable_of_atoms))]
fn lone_variable(mono: &Mono) -> Option<u32>
    ensures { result ≡ variable_of_atoms (out-Mono mono.now).atoms }
{
    let (atom, more) = mono.atoms.as_slice().split_first()?;
    if !more.is_empty() {
        return None;
    }
    match atom {
        Atom::Var(number) => Some(*number),
        Atom::Div(_, _) => None,
        Atom::Mod(_, _) => None,
    }
}

/// Whether the monomial is that variable.
fn is_variable(mono: &Mono, var: u32) -> bool
    ensures { IsTrue result ↔ (mono.now ≡ of_atoms (Atom.Var var ∷ [])) }
{
    lone_variable(mono) == Some(var)
}

/// Whether the monomial is 1, the empty product.
fn is_one(mono: &Mono) -> bool
    ensures { IsTrue result ↔ (mono.now ≡ of_atoms []) }
{
    mono.atoms.is_empty()
}

/// The variable that the sum is, where it is one.
fn variable_in(body: &Body) -> Option<u32>
    ensures { result ≡ variable_of (out-Body body.now).terms }
{
    let (term, more) = body.terms.as_slice().split_first()?;
    if more.is_empty() && term.1 == 1 {
        lone_variable(&term.0)
    } else {
        None
    }
}

impl Poly {
    /// The variable that the polynomial is, where it is one. Takes no memory.
    pub fn as_variable(&self) -> Option<u32>
        ensures variable { result ≡ variable_of (out-Body self.now).terms }
        ensures exact { (n : ℕ) → (result ≡ Some n) ↔ (self.now ≡ variable n) }
    {
        variable_in(self.body())
    }

    /// The coefficient of the variable alone, not in a product; 0 where it has none. Takes no
    /// memory.
    pub fn coeff_of(&self, var: u32) -> i128
        ensures { result ≡ coefficient (of_atoms (Atom.Var var ∷ [])) (out-Body self.now).terms }
    {
        for term in self.body().terms.as_slice() {
            if is_variable(&term.0, var) {
                return term.1;
            }
        }
        0
    }

    /// The coefficient of 1, the empty product; 0 where it has none. Takes no memory.
    pub fn constant_term(&self) -> i128
        ensures { result ≡ coefficient (of_atoms []) (out-Body self.now).terms }
    {
        for term in self.body().terms.as_slice() {
            if is_one(&term.0) {
                return term.1;
            }
        }
        0
    }
}
