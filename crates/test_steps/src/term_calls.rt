//! Terms: how deep they are, what stands in them, what takes the place of a part, and what is
//! substituted for variables.
use crate::reading::{perhaps_term, term, written_term};
use crate::rule_calls::without_rules;
use rx_plain::{Items, NoMemory};
use rx_poly::{Poly, PolyEnd};
use rx_term::{Term, differences};
use rx_text::{push_poly, push_word};
use std::alloc::Global;
use test_lines::{
    Answer, count, ended, nothing, perhaps, polys, push_list, substitution, told, written,
};

/// More frames than a term of a line has.
const MANY: u32 = 1_000_000;

// How deep a term is, and where its redex is.
fn walked(name: &str, term: &Term) -> Option<Answer> {
    if term.suffix(MANY).is_some() {
        return None;
    }
    match name {
        "depth" => Some(Answer::Number(term.depth() as i128)),
        "redex" => place(term.redex_place()),
        _ => None,
    }
}

// The number of its outermost symbol.
fn root(term: &Term) -> Option<Answer> {
    match term.root() {
        Some(sym) => Some(Answer::Number(sym.0 as i128)),
        None => nothing(),
    }
}

fn copied(alloc: Global, term: &Term) -> Option<Answer> {
    let copy = term.try_clone(alloc).ok()?;
    written_term(alloc, &copy)
}

fn fits(alloc: Global, term: &Term) -> Option<Answer> {
    let set = without_rules(alloc)?;
    told(set.fits(term))
}

// What a term alone answers.
fn alone(alloc: Global, name: &str, term: &Term) -> Option<Answer> {
    match name {
        "redex_itself" => perhaps_term(alloc, term.redex()),
        "bound" => Some(Answer::Number(term.variable_bound() as i128)),
        "clone" => copied(alloc, term),
        "fits" => fits(alloc, term),
        "root" => root(term),
        "ends_in_call" => told(term.ends_in_call()),
        _ => walked(name, term),
    }
}

fn push_zero(poly: &Poly, out: &mut Vec<u8>) -> Result<(), NoMemory> {
    push_word(out, b"eq:")?;
    push_poly(out, poly)
}

// The rows that say that the polynomials are 0.
fn zeros(alloc: Global, polys: &[Poly]) -> Option<Answer> {
    written(alloc, |out| push_list(polys, out, push_zero))
}

// That the polynomials of the two lists are equal, one by one.
fn compared(alloc: Global, left: &[Poly], right: &[Poly]) -> Option<Answer> {
    match differences(alloc, left, right) {
        Ok(polys) => zeros(alloc, polys.as_slice()),
        Err(end) => ended(end),
    }
}

fn formed_term(alloc: Global, answer: Result<Term, PolyEnd>) -> Option<Answer> {
    match answer {
        Ok(term) => written_term(alloc, &term),
        Err(end) => ended(end),
    }
}

// A number, if there is one.
fn place(found: Option<u32>) -> Option<Answer> {
    perhaps(found.map(|place| place as i128))
}

fn arguments(alloc: Global, term: &Term) -> Option<Items<Poly>> {
    term.arguments(alloc).ok()
}

fn compared_arguments(alloc: Global, left: &Term, right: &Term) -> Option<Answer> {
    let left = arguments(alloc, left)?;
    let right = arguments(alloc, right)?;
    compared(alloc, left.as_slice(), right.as_slice())
}

// What two terms answer.
fn between(alloc: Global, name: &str, left: &Term, right: &Term) -> Option<Answer> {
    match name {
        "same" => told(left.is_same(right)),
        "differences" => compared_arguments(alloc, left, right),
        "same_shape" => told(left.has_shape_of(right)),
        _ => None,
    }
}

fn beside(alloc: Global, name: &str, left: &Term, right: &str) -> Option<Answer> {
    let right = term(alloc, right)?;
    between(alloc, name, left, &right)
}

fn at_args(alloc: Global, whole: &Term, args: &str) -> Option<Answer> {
    let args = polys(alloc, args)?;
    formed_term(alloc, whole.at_args(alloc, args.as_slice()))
}

fn substituted(alloc: Global, whole: &Term, with: &str) -> Option<Answer> {
    let with = substitution(alloc, with)?;
    formed_term(alloc, whole.subst(alloc, with.as_slice()))
}

// What a term answers, and what else is given.
fn with_another(alloc: Global, name: &str, term: &Term, second: &str) -> Option<Answer> {
    match name {
        "suffix" => perhaps_term(alloc, term.suffix(count(second)?)),
        "uses_below" => told(term.uses_below(count(second)?)),
        "subst" => substituted(alloc, term, second),
        "at_args" => at_args(alloc, term, second),
        _ => beside(alloc, name, term, second),
    }
}

fn of_term(alloc: Global, name: &str, first: &str, second: &str) -> Option<Answer> {
    let term = term(alloc, first)?;
    if second.is_empty() {
        return alone(alloc, name, &term);
    }
    with_another(alloc, name, &term, second)
}

fn with_part(alloc: Global, whole: Term, place: u32, inner: &str) -> Option<Answer> {
    let inner = term(alloc, inner)?;
    written_term(alloc, &whole.replace(place, inner))
}

// The term with another in place of the part that so many frames are over.
fn replaced(alloc: Global, first: &str, place: &str, inner: &str) -> Option<Answer> {
    let place = count(place)?;
    let whole = term(alloc, first)?;
    with_part(alloc, whole, place, inner)
}

fn with_redex(alloc: Global, whole: Term, inner: &str) -> Option<Answer> {
    let inner = term(alloc, inner)?;
    written_term(alloc, &whole.replace_redex(inner))
}

// The term with another in place of its redex.
fn replaced_redex(alloc: Global, first: &str, inner: &str) -> Option<Answer> {
    let whole = term(alloc, first)?;
    with_redex(alloc, whole, inner)
}

/// What the call answers.
pub fn answer_to(
    alloc: Global,
    name: &str,
    first: &str,
    second: &str,
    third: &str,
) -> Option<Answer> {
    match name {
        "replace_redex" => replaced_redex(alloc, first, second),
        "replace" => replaced(alloc, first, second, third),
        _ => of_term(alloc, name, first, second),
    }
}
