//! Which variables occur in a polynomial.
ghost use Rattle.std.specs.Prelude.{◌≡◌, ◌++◌, IfOk, OnOk};
ghost use Rattle.rx_poly.specs.Variables.{atom_uses, atom_variables, mono_uses, mono_variables, uses, variables};

use rx_poly::{Atom, Body, Mono, Poly};
use std::alloc::{AllocError, Global};

/// Whether the variable is one of the polynomial's, at any level. Takes no memory.
pub fn uses(poly: &Poly, var: u32) -> bool
    ensures { result ≡ uses var poly.now }
{
    body_uses(poly.body(), var)
}

/// Whether the variable is the atom, or one of its parts'.
#[cycle(uses)]
#[tactic(auto, using(rx_poly::proofs::VariableLaws::uses_Var, rx_poly::proofs::VariableLaws::uses_Div, rx_poly::proofs::VariableLaws::uses_Mod))]
fn atom_uses(atom: &Atom, var: u32) -> bool
    ensures { result ≡ atom_uses var atom.now }
{
    match atom {
        Atom::Var(number) => *number == var,
        Atom::Div(num, den) => body_uses(num, var) || body_uses(den, var),
        Atom::Mod(num, den) => body_uses(num, var) || body_uses(den, var),
    }
}

/// Whether the variable is one of the monomial's.
#[cycle(uses)]
fn mono_uses(mono: &Mono, var: u32) -> bool
    ensures { result ≡ mono_uses var mono.now }
{
    for atom in mono.atoms.as_slice() {
        if atom_uses(atom, var) {
            return true;
        }
    }
    false
}

/// Whether the variable is one of the sum's.
#[cycle(uses)]
fn body_uses(body: &Body, var: u32) -> bool
    ensures { result ≡ uses var body.now }
{
    for term in body.terms.as_slice() {
        if mono_uses(&term.0, var) {
            return true;
        }
    }
    false
}

/// The variables of the polynomial in order, at every level, each as often as it occurs; fails only
/// where there is no memory.
pub fn variables_of(alloc: Global, poly: &Poly) -> Result<Vec<u32>, AllocError>
    ensures { IfOk result (λ v. v.items ≡ variables poly.now) }
{
    let mut found = Vec::new(alloc);
    push_body(&mut found, poly.body())?;
    Ok(found)
}

/// Adds the variables of the atom after the others.
#[cycle(listing)]
#[tactic(auto, using(rx_poly::proofs::VariableLaws::variables_Var, rx_poly::proofs::VariableLaws::variables_Div, rx_poly::proofs::VariableLaws::variables_Mod))]
fn push_atom(found: &mut Vec<u32>, atom: &Atom) -> Result<(), AllocError>
    ensures { OnOk result (found.new.items ≡ found.old.items ++ atom_variables atom.now) }
{
    match atom {
        Atom::Var(number) => found.push(*number).map_err(AllocError::from),
        Atom::Div(num, den) => {
            push_body(found, num)?;
            push_body(found, den)
        }
        Atom::Mod(num, den) => {
            push_body(found, num)?;
            push_body(found, den)
        }
    }
}

/// Adds the variables of the monomial after the others.
#[cycle(listing)]
fn push_mono(found: &mut Vec<u32>, mono: &Mono) -> Result<(), AllocError>
    ensures { OnOk result (found.new.items ≡ found.old.items ++ mono_variables mono.now) }
{
    for atom in mono.atoms.as_slice() {
        push_atom(found, atom)?;
    }
    Ok(())
}

/// Adds the variables of the sum after the others.
#[cycle(listing)]
fn push_body(found: &mut Vec<u32>, body: &Body) -> Result<(), AllocError>
    ensures { OnOk result (found.new.items ≡ found.old.items ++ variables body.now) }
{
    for term in body.terms.as_slice() {
        push_mono(found, &term.0)?;
    }
    Ok(())
}
