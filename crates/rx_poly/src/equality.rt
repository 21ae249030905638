//! Whether two sums are one, compared part by part. Variables, which most atoms are, are compared by
//! number.
ghost use Rattle.std.specs.Prelude.{◌≡◌, ◌↔◌, IsTrue};
ghost use Rattle.rx_poly.specs.declared.body.Body.{out-Body};

use crate::body::{Atom, Body, Mono};

/// Whether both are one atom.
fn is_same_atom(one: &Atom, other: &Atom) -> bool
    ensures { IsTrue result ↔ (one.now ≡ other.now) }
{
    if let Atom::Var(first) = one {
        if let Atom::Var(second) = other {
            return first == second;
        }
    }
    one == other
}

/// Whether both are the same atoms in order.
fn are_same_atoms(left: &[Atom], right: &[Atom]) -> bool
    ensures { IsTrue result ↔ (left.now ≡ right.now) }
{
    let mut rest = left;
    let mut others = right;
    while let Some((one, more)) = rest.split_first() {
        let Some((other, further)) = others.split_first() else {
            return false;
        };
        if !is_same_atom(one, other) {
            return false;
        }
        rest = more;
        others = further;
    }
    others.is_empty()
}

/// Whether both are one term.
fn is_same_term(one: &(Mono, i128), other: &(Mono, i128)) -> bool
    ensures { IsTrue result ↔ (one.now ≡ other.now) }
{
    one.1 == other.1 && are_same_atoms(one.0.atoms.as_slice(), other.0.atoms.as_slice())
}

/// Whether both are the same terms in order.
fn are_same_terms(left: &[(Mono, i128)], right: &[(Mono, i128)]) -> bool
    ensures { IsTrue result ↔ (left.now ≡ right.now) }
{
    let mut rest = left;
    let mut others = right;
    while let Some((one, more)) = rest.split_first() {
        let Some((other, further)) = others.split_first() else {
            return false;
        };
        if !is_same_term(one, other) {
            return false;
        }
        rest = more;
        others = further;
    }
    others.is_empty()
}

/// Whether both are one sum.
pub(crate) fn is_same_body(one: &Body, other: &Body) -> bool
    ensures { IsTrue result ↔ (one.now ≡ other.now) }
{
    are_same_terms(one.terms.as_slice(), other.terms.as_slice())
}
