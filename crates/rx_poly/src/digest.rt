//! One number made of a polynomial, for hash functions.
ghost use Rattle.std.specs.Prelude.{◌≡◌};
ghost use Rattle.std.specs.List.{fold};
ghost use Rattle.rx_poly.specs.Digest.{atom_number, digest_of, then, with_atom, with_term};

use crate::body::{Atom, Mono};

/// A large odd number, whose multiples differ in all their bits.
const FACTOR: u128 = 0x9e37_79b9_7f4a_7c15;

/// The number of a variable; all quotients have one number, and all remainders.
fn number_of(atom: &Atom) -> u128
    ensures { result ≡ atom_number atom.now }
{
    match atom {
        Atom::Var(number) => *number as u128,
        Atom::Div(_, _) => 1 << 32,
        Atom::Mod(_, _) => 2 << 32,
    }
}

/// What was there, and then the next number: one number made of both, for hash functions.
pub fn digest_with(before: u128, next: u128) -> u128
    ensures { result ≡ then before next }
{
    before.wrapping_mul(FACTOR).wrapping_add(next)
}

/// What was there, and then each atom.
fn after_atoms(before: u128, atoms: &[Atom]) -> u128
    ensures { result ≡ fold with_atom before atoms.now }
{
    let mut digest = before;
    for atom in atoms {
        digest = digest_with(digest, number_of(atom));
    }
    digest
}

/// What was there, and then the coefficient and each atom.
fn after_term(before: u128, term: &(Mono, i128)) -> u128
    ensures { result ≡ with_term before term.now }
{
    after_atoms(
        digest_with(before, term.1.cast_unsigned()),
        term.0.atoms.as_slice(),
    )
}

/// The number made of a sum.
pub(crate) fn digest_of(terms: &[(Mono, i128)]) -> u128
    ensures { result ≡ digest_of terms.now }
{
    let mut digest = 0;
    for term in terms {
        digest = after_term(digest, term);
    }
    digest
}
