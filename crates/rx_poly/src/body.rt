//! Polynomials as plain trees: atoms, monomials and sums, with the order of their normal form.

ghost use Rattle.std.specs.Prelude.{◌≡◌, IfOk};

use rx_plain::{Graded, Items};
use std::alloc::{AllocError, Global};

/// What a polynomial treats as one unknown. Variables come first, then quotients, then remainders;
/// two of one kind are ordered by their first part, then by their second.
#[cycle(poly)]
#[derive(Debug, Drop, PartialEq, Eq, PartialOrd, Ord, Hash)]
pub enum Atom {
    /// A variable, by its number.
    Var(u32),
    /// The quotient of the first by the second, truncated toward zero (ISO C99 6.5.5); 0 at divisor
    /// 0.
    Div(Body, Body),
    /// The remainder that belongs to that quotient; 0 at divisor 0.
    Mod(Body, Body),
}

/// A product of atoms, each as often as it occurs in the list; the empty product is 1.
/// The one with more atoms comes first; those as long are ordered atom by atom.
#[cycle(poly)]
#[derive(Debug, Drop, PartialEq, Eq, PartialOrd, Ord, Hash)]
pub struct Mono {
    /// The factors; in a normal form they are sorted.
    pub atoms: Graded<Atom>,
}

/// A sum of monomials with integer coefficients; the empty sum is 0. Ordered term by term, a
/// proper beginning first.
#[cycle(poly)]
#[derive(Debug, Drop, PartialEq, Eq, PartialOrd, Ord, Hash)]
pub struct Body {
    /// The summands; in a normal form their monomials rise strictly and no coefficient is 0.
    pub terms: Items<(Mono, i128)>,
}

impl Atom {
    /// The same atom once more; fails only when out of memory.
    #[cycle(clones)]
    pub fn try_clone(&self, alloc: Global) -> Result<Atom, AllocError>
        ensures { IfOk result (λ x. x ≡ self.now) }
    {
        match self {
            Atom::Var(number) => Ok(Atom::Var(*number)),
            Atom::Div(num, den) => Ok(Atom::Div(num.try_clone(alloc)?, den.try_clone(alloc)?)),
            Atom::Mod(num, den) => Ok(Atom::Mod(num.try_clone(alloc)?, den.try_clone(alloc)?)),
        }
    }
}

impl Mono {
    /// The same monomial once more; fails only when out of memory.
    #[cycle(clones)]
    pub fn try_clone(&self, alloc: Global) -> Result<Mono, AllocError>
        ensures { IfOk result (λ m. m ≡ self.now) }
    {
        let mut copies = Vec::new(alloc);
        for atom in self.atoms.as_slice() {
            copies.push(atom.try_clone(alloc)?)?;
        }
        Ok(Mono {
            atoms: Graded::from_vec(copies),
        })
    }
}

impl Body {
    /// The same sum once more; fails only when out of memory.
    #[cycle(clones)]
    pub fn try_clone(&self, alloc: Global) -> Result<Body, AllocError>
        ensures { IfOk result (λ b. b ≡ self.now) }
    {
        let mut copies = Vec::new(alloc);
        for term in self.terms.as_slice() {
            copies.push((term.0.try_clone(alloc)?, term.1))?;
        }
        Ok(Body {
            terms: Items::from_vec(copies),
        })
    }
}
