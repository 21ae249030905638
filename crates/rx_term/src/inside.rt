//! The rows that put terms and equations inside the domains of the symbols.
ghost use Rattle.rx_plain.specs.Formed.{Forms};
ghost use Rattle.rx_term.specs.Domains.{inside_of, inside_rows, rows_at};

use crate::rule::Equation;
use crate::rule_set::RuleSet;
use crate::term::{Sym, Term};
use rx_plain::Items;
use rx_poly::{Poly, PolyEnd};
use rx_row::{Row, rows_at_args};
use std::alloc::Global;

impl RuleSet {
    /// The domain of the symbol at these arguments: its rows in order, each with the first of the
    /// polynomials in place of v0, the second in place of v1, and so on. Large exactly where a
    /// polynomial on the way to one of them passes the limits.
    pub fn rows_at(&self, alloc: Global, sym: Sym, args: &[Poly]) -> Result<Items<Row>, PolyEnd>
        ensures forms { Forms PolyEnd.Large result (rows_at self.now sym.0 args.now) }
    {
        let rows = rows_at_args(alloc, self.domain(sym), args)?;
        Ok(Items::from_vec(rows))
    }

    /// The rows that put the term inside the domains: for each of its frames from outside in, and
    /// then for its call, the domain of the symbol at its arguments. Large exactly where a
    /// polynomial on the way to one of them passes the limits.
    pub fn inside_rows(&self, alloc: Global, term: &Term) -> Result<Items<Row>, PolyEnd>
        ensures forms { Forms PolyEnd.Large result (inside_rows self.now term.now) }
    {
        let mut here = term;
        let mut made = Items::new(alloc);
        loop {
            match here {
                Term::Return(_) => return Ok(made),
                Term::Fail(_) => return Ok(made),
                Term::Call(sym, args) => {
                    let last = self.rows_at(alloc, *sym, args.as_slice())?;
                    made.append(last)?;
                    return Ok(made);
                }
                Term::Frame(sym, args, inner) => {
                    let own = self.rows_at(alloc, *sym, args.as_slice())?;
                    made.append(own)?;
                    here = inner.get();
                }
            }
        }
    }
}

/// The rows that put both sides of the equation inside the domains of the rules, those of its left
/// side first. Large exactly where a polynomial on the way to one of them passes the limits.
pub fn inside_of(alloc: Global, rules: &RuleSet, equation: &Equation) -> Result<Items<Row>, PolyEnd>
    ensures forms { Forms PolyEnd.Large result (inside_of rules.now equation.now) }
{
    let mut rows = rules.inside_rows(alloc, &equation.left)?;
    rows.append(rules.inside_rows(alloc, &equation.right)?)?;
    Ok(rows)
}
