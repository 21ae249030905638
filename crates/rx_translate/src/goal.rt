//! The equation that is to be shown of two symbols.
ghost use Rattle.std.specs.Prelude.{◌≡◌, IfOk};
ghost use Rattle.rx_code.specs.Translation.{goal_at};
ghost use Rattle.rx_term.specs.WellMade.{variables_from};

use rx_plain::Items;
use rx_poly::Poly;
use rx_row::Constraint;
use rx_term::{Equation, Sym, Term};
use std::alloc::{AllocError, Global};

/// The first `count` variables, in order.
#[tactic(auto, using(crate::proofs::Variables::one_more))]
pub(crate) fn first_variables(alloc: Global, count: u32) -> Result<Items<Poly>, AllocError>
    ensures { IfOk result (λ ps. ps ≡ variables_from 0 count) }
{
    let mut variables = Items::new(alloc);
    for at in 0..count {
        variables.push(Poly::variable(alloc, at)?)?;
    }
    Ok(variables)
}

/// The two symbols on the same variables, under the rows; fails only where there is no memory.
pub fn goal_of(
    alloc: Global,
    f: Sym,
    g: Sym,
    arity: u32,
    rows: Constraint,
) -> Result<Equation, AllocError>
    ensures { IfOk result (λ e. e ≡ goal_at f g arity rows) }
{
    Ok(Equation {
        left: Term::Call(f, first_variables(alloc, arity)?),
        right: Term::Call(g, first_variables(alloc, arity)?),
        rows,
    })
}
