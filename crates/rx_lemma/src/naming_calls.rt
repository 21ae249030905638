//! What is at the places of the call that a term ends in.
ghost use Rattle.std.specs.Prelude.{◌≡◌, slice_set, IfOk};
ghost use Rattle.rx_lemma.specs.NamingCalls.{constant_at, variable_at, with_variable};
ghost use Rattle.rx_lemma.specs.Calls.{call_of};
ghost use Rattle.rx_poly.specs.Constants.{variable};

use crate::calls::call_of;
use rx_plain::Items;
use rx_poly::{Poly, copied_polys};
use rx_term::Term;
use std::alloc::{AllocError, Global};

/// The number at the place of the term's call, if there is one.
#[tactic(auto, unfolding(crate::specs::NamingCalls::constant_at))]
pub(crate) fn constant_at(term: &Term, place: usize) -> Option<i128>
    ensures { result ≡ constant_at place term.now }
{
    match call_of(term) {
        Some(call) => call.arguments.get(place)?.is_constant(),
        None => None,
    }
}

/// The variable that is alone at the place of the other term's call, where that is of the symbol of
/// the term's call.
#[tactic(auto, unfolding(crate::specs::NamingCalls::variable_at))]
pub(crate) fn variable_at(term: &Term, other: &Term, place: usize) -> Option<u32>
    ensures { result ≡ variable_at place term.now other.now }
{
    let call = call_of(term)?;
    let other = call_of(other)?;
    if other.symbol.0 != call.symbol.0 {
        return None;
    }
    other.arguments.get(place)?.as_variable()
}

/// Copies of the polynomials, with the variable at the place, if there is such a place.
fn with_variable_among(
    alloc: Global,
    polys: &[Poly],
    place: usize,
    number: u32,
) -> Result<Items<Poly>, AllocError>
    ensures { IfOk result (λ made. made ≡ slice_set polys.now place (variable number)) }
{
    let mut made = copied_polys(alloc, polys)?.into_vec();
    let replacement = Poly::variable(alloc, number)?;
    if place < made.len() {
        made[place] = replacement;
    }
    Ok(Items::from_vec(made))
}

/// The term with the variable at the place of its call.
#[tactic(auto, unfolding(crate::specs::NamingCalls::with_variable))]
pub(crate) fn with_variable(
    alloc: Global,
    term: Term,
    place: usize,
    variable: u32,
) -> Result<Term, AllocError>
    ensures { IfOk result (λ t. t ≡ with_variable place variable term) }
{
    let Some(call) = call_of(&term) else {
        return Ok(term);
    };
    let symbol = call.symbol;
    let arguments = with_variable_among(alloc, call.arguments, place, variable)?;
    Ok(term.replace_redex(Term::Call(symbol, arguments)))
}
