//! Variables in place of polynomials that are whole arguments of frames and calls.
ghost use Rattle.std.specs.Prelude.{◌≡◌, ◌+◌, ◌≤◌, length, map, IfOk};
ghost use Rattle.rx_lemma.specs.Lemmas.{variables_end};
ghost use Rattle.rx_lemma.specs.Repeated as spec;
ghost use Rattle.rx_term.specs.Stacks as stacks;

use crate::repeated::is_same_poly;
use rx_plain::{Boxed, Items};
use rx_poly::Poly;
use rx_term::Term;
use std::alloc::{AllocError, Global};

/// New variables, the first having that number, one for each of the polynomials in order.
pub(crate) fn new_variables(
    alloc: Global,
    first: u32,
    polys: &[Poly],
) -> Result<Items<(u32, Poly)>, AllocError>
    requires { first + length polys.now ≤ variables_end }
    ensures { IfOk result (λ with. with ≡ spec.new_variables first polys.now) }
{
    let mut with = Items::new(alloc);
    let mut number = first;
    for poly in polys {
        with.push((number, poly.try_clone(alloc)?))?;
        number += 1;
    }
    Ok(with)
}

/// The variable in place of the polynomial, if there is one; else a copy of the polynomial.
#[tactic(auto, unfolding(crate::specs::Repeated::replaced_by))]
fn replaced_by(alloc: Global, with: &[(u32, Poly)], poly: &Poly) -> Result<Poly, AllocError>
    ensures { IfOk result (λ p. p ≡ spec.replaced_by with.now poly.now) }
{
    for (variable, known) in with {
        if is_same_poly(known, poly) {
            return Poly::variable(alloc, *variable);
        }
    }
    poly.try_clone(alloc)
}

/// The polynomials, each with its variable in its place, if it has one.
fn replaced_polys(
    alloc: Global,
    with: &[(u32, Poly)],
    polys: &[Poly],
) -> Result<Items<Poly>, AllocError>
    ensures { IfOk result (λ made. made ≡ map (spec.replaced_by with.now) polys.now) }
{
    let mut made = Items::new(alloc);
    for poly in polys {
        made.push(replaced_by(alloc, with, poly)?)?;
    }
    Ok(made)
}

/// The frames of the first term, its innermost outside, over the other. Takes no memory.
fn onto(frames: Term, inner: Term) -> Term
    ensures { result ≡ stacks.plug_reversed frames inner }
{
    let mut upper = frames;
    let mut whole = inner;
    loop {
        let rest = match &mut upper {
            Term::Frame(_, _, below) => below.replace(whole),
            _ => return whole,
        };
        whole = upper;
        upper = rest;
    }
}

/// The term with the variables in place of their polynomials, as whole arguments of its frames and
/// of its call; inside polynomials and in results nothing is replaced.
pub(crate) fn replaced_in(
    alloc: Global,
    with: &[(u32, Poly)],
    term: &Term,
) -> Result<Term, AllocError>
    ensures { IfOk result (λ t. t ≡ spec.replaced_in with.now term.now) }
{
    let mut here = term;
    let mut upper = Term::Fail(0);
    loop {
        match here {
            Term::Return(value) => {
                return Ok(onto(upper, Term::Return(value.try_clone(alloc)?)));
            }
            Term::Fail(code) => return Ok(onto(upper, Term::Fail(*code))),
            Term::Call(sym, args) => {
                let args = replaced_polys(alloc, with, args.as_slice())?;
                return Ok(onto(upper, Term::Call(*sym, args)));
            }
            Term::Frame(sym, args, inner) => {
                let args = replaced_polys(alloc, with, args.as_slice())?;
                upper = Term::Frame(*sym, args, Boxed::new(alloc, upper)?);
                here = inner.get();
            }
        }
    }
}
