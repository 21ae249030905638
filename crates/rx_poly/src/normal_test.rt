//! Whether a sum is a normal form at every level. Neither size nor depth is looked at, so a caller
//! tests these first: the walk goes as deep as quotients and remainders are nested.
ghost use Rattle.std.specs.Prelude.{◌≡◌, ◌&&◌, not, true, false};
ghost use Rattle.rx_poly.specs.Normal.{is_sorted, is_number, is_open, is_normal_atom, is_normal_mono, is_normal};
ghost use Rattle.rx_poly.specs.Order.{atom_cmp, mono_cmp};
ghost use Rattle.rx_poly.specs.Terms.{is_sparse_sorted, is_zero};
ghost use Rattle.rx_poly.specs.Normal.{is_first, precedes};
ghost use Rattle.rx_poly.specs.declared.body.Body.{out-Body};

use crate::body::{Atom, Body, Mono};

/// Whether the atom doesn't come after the first of the others.
fn comes_first(atom: &Atom, others: &[Atom]) -> bool
    ensures { result ≡ is_first atom_cmp atom.now others.now }
{
    match others.first() {
        None => true,
        Some(next) => atom.cmp(next).is_le(),
    }
}

/// Whether the atoms are sorted.
fn are_sorted(atoms: &[Atom]) -> bool
    ensures { result ≡ is_sorted atom_cmp atoms.now }
{
    let mut rest = atoms;
    while let Some((atom, behind)) = rest.split_first() {
        if !comes_first(atom, behind) {
            return false;
        }
        rest = behind;
    }
    true
}

/// Whether the term isn't 0 and comes before the first of the others.
fn comes_before(term: &(Mono, i128), others: &[(Mono, i128)]) -> bool
    ensures { result ≡ precedes mono_cmp term.now others.now }
{
    if term.1 == 0 {
        return false;
    }
    match others.first() {
        None => true,
        Some(next) => term.0.cmp(&next.0).is_lt(),
    }
}

/// Whether the monomials rise and no coefficient is 0.
fn are_listed(terms: &[(Mono, i128)]) -> bool
    ensures { result ≡ is_sparse_sorted mono_cmp terms.now }
{
    let mut rest = terms;
    while let Some((term, behind)) = rest.split_first() {
        if !comes_before(term, behind) {
            return false;
        }
        rest = behind;
    }
    true
}

/// Whether the sum is one number.
fn is_one_number(body: &Body) -> bool
    ensures { result ≡ is_number (out-Body body.now).terms }
{
    match body.terms.as_slice().split_first() {
        None => true,
        Some((term, more)) => more.is_empty() && term.0.atoms.is_empty(),
    }
}

/// Whether no rule computes a quotient or remainder of the two.
fn stays_open(num: &Body, den: &Body) -> bool
    ensures { result ≡ is_open num.now den.now }
{
    !den.terms.is_empty() && !(is_one_number(num) && is_one_number(den))
}

/// Whether the atom's parts are normal forms, and no rule computes it.
#[cycle(normal)]
#[tactic(auto, using(crate::proofs::Levels::var_is_normal, crate::proofs::Levels::div_is_normal, crate::proofs::Levels::mod_is_normal))]
fn atom_is_normal(atom: &Atom) -> bool
    ensures { result ≡ is_normal_atom atom.now }
{
    match atom {
        Atom::Var(_) => true,
        Atom::Div(num, den) => {
            if !body_is_normal(num) {
                return false;
            }
            if !body_is_normal(den) {
                return false;
            }
            stays_open(num, den)
        }
        Atom::Mod(num, den) => {
            if !body_is_normal(num) {
                return false;
            }
            if !body_is_normal(den) {
                return false;
            }
            stays_open(num, den)
        }
    }
}

/// Whether the monomial's atoms are normal and sorted.
#[cycle(normal)]
fn mono_is_normal(mono: &Mono) -> bool
    ensures { result ≡ is_normal_mono mono.now }
{
    for atom in mono.atoms.as_slice() {
        if !atom_is_normal(atom) {
            return false;
        }
    }
    are_sorted(mono.atoms.as_slice())
}

/// Whether the sum is a normal form at every level.
#[cycle(normal)]
pub(crate) fn body_is_normal(body: &Body) -> bool
    ensures { result ≡ is_normal body.now }
{
    for term in body.terms.as_slice() {
        let _number = term.1;
        if !mono_is_normal(&term.0) {
            return false;
        }
    }
    are_listed(body.terms.as_slice())
}
