//! The least number above all variables: where fresh variables begin.
ghost use Rattle.std.specs.Prelude.{◌≡◌};
ghost use Rattle.rx_term.specs.Bounds.{equation_bound, polys_bound, term_bound};

use crate::rule::Equation;
use crate::term::Term;
use rx_poly::{Poly, variable_bound};

/// The least number above all variables of the polynomials; 0 where there is none.
fn polys_bound(polys: &[Poly]) -> u64
    ensures { result ≡ polys_bound polys.now }
{
    let mut bound = 0;
    for poly in polys {
        bound = variable_bound(poly).max(bound);
    }
    bound
}

impl Term {
    /// The least number above all variables of the term, at every level of its polynomials; 0 where
    /// it has none. Takes no memory.
    pub fn variable_bound(&self) -> u64
        ensures { result ≡ term_bound self.now }
    {
        let mut here = self;
        let mut bound = 0;
        loop {
            match here {
                Term::Return(value) => return variable_bound(value).max(bound),
                Term::Fail(_) => return bound,
                Term::Call(_, args) => return polys_bound(args.as_slice()).max(bound),
                Term::Frame(_, args, inner) => {
                    bound = polys_bound(args.as_slice()).max(bound);
                    here = inner.get();
                }
            }
        }
    }
}

impl Equation {
    /// The least number above all variables of both sides and of the rows; 0 where there is none.
    /// Takes no memory.
    pub fn variable_bound(&self) -> u64
        ensures { result ≡ equation_bound self.now }
    {
        let sides = self.left.variable_bound().max(self.right.variable_bound());
        sides.max(self.rows.variable_bound())
    }
}
