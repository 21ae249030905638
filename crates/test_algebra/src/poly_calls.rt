//! Polynomials: normal forms, sums, products, orders, what is read from them, and what is
//! substituted for variables.
use crate::integer_terms::integer_term;
use rx_poly::{Atom, Body, Mono, Poly, PolyEnd, variable_bound};
use rx_poly_laws::{norm, uses, uses_below, variables_of};
use std::alloc::{AllocError, Global};
use test_lines::{
    Answer, compared, count, ended, equal, integer, integers, nothing, ordered, perhaps, poly,
    polys, substitution, told, written_poly,
};

// The polynomial, or why there is none.
fn formed(alloc: Global, answer: Result<Poly, PolyEnd>) -> Option<Answer> {
    match answer {
        Ok(poly) => written_poly(alloc, &poly),
        Err(end) => ended(end),
    }
}

fn normal_form(alloc: Global, given: &str) -> Option<Answer> {
    let term = integer_term(alloc, given)?;
    formed(alloc, norm(alloc, &term))
}

// The polynomial, where there is memory for it.
fn made(alloc: Global, poly: Result<Poly, AllocError>) -> Option<Answer> {
    match poly {
        Ok(poly) => written_poly(alloc, &poly),
        Err(_) => None,
    }
}

// The polynomial of a copy of the sum.
fn of_copied_sum(alloc: Global, sum: &Body) -> Option<Answer> {
    let copy = sum.try_clone(alloc).ok()?;
    written_poly(alloc, &Poly::from_body(alloc, copy).ok()??)
}

// What is read makes its sum a polynomial where it is a normal form, and else there is none.
fn from_body(alloc: Global, given: &str) -> Option<Answer> {
    match poly(alloc, given) {
        Some(poly) => of_copied_sum(alloc, poly.body()),
        None => nothing(),
    }
}

// The variables in order, each as often as it occurs.
fn variables(alloc: Global, poly: &Poly) -> Option<Answer> {
    let variables = variables_of(alloc, poly).ok()?;
    integers(alloc, variables.as_slice())
}

fn only_variable(poly: &Poly) -> Option<Answer> {
    match poly.as_variable() {
        Some(variable) => Some(Answer::Number(variable as i128)),
        None => nothing(),
    }
}

// What a polynomial alone answers.
fn alone(alloc: Global, name: &str, poly: &Poly) -> Option<Answer> {
    match name {
        "variables" => variables(alloc, poly),
        "as_variable" => only_variable(poly),
        "clone" => made(alloc, poly.try_clone(alloc)),
        "minus_itself" => formed(alloc, poly.sub(alloc, poly)),
        "bound" => Some(Answer::Number(variable_bound(poly) as i128)),
        "constant_term" => Some(Answer::Number(poly.constant_term())),
        "number" => perhaps(poly.is_constant()),
        _ => None,
    }
}

// The first monomial of a polynomial that isn't 0.
fn first_monomial(poly: &Poly) -> Option<&Mono> {
    let (mono, _) = poly.body().terms.as_slice().first()?;
    Some(mono)
}

fn first_atom(poly: &Poly) -> Option<&Atom> {
    first_monomial(poly)?.atoms.as_slice().first()
}

fn coefficient(of: &Poly, at: Option<&Mono>) -> Option<Answer> {
    match at {
        Some(at) => Some(Answer::Number(of.coeff(at))),
        None => None,
    }
}

// What is read from two polynomials.
fn read(name: &str, left: &Poly, right: &Poly) -> Option<Answer> {
    match name {
        "coeff" => coefficient(left, first_monomial(right)),
        "compare" => ordered(left.cmp(right)),
        "compare_sums" => ordered(left.body().cmp(right.body())),
        "compare_monomials" => compared(first_monomial(left), first_monomial(right)),
        "compare_atoms" => compared(first_atom(left), first_atom(right)),
        "same" => told(left.is_same(right)),
        _ => None,
    }
}

// What two polynomials answer.
fn between(alloc: Global, name: &str, left: &Poly, right: &Poly) -> Option<Answer> {
    match name {
        "add" => formed(alloc, left.add(alloc, right)),
        "sub" => formed(alloc, left.sub(alloc, right)),
        "mul" => formed(alloc, left.mul(alloc, right)),
        "quotient" => formed(alloc, left.quotient(alloc, right)),
        "remainder" => formed(alloc, left.remainder(alloc, right)),
        _ => read(name, left, right),
    }
}

fn beside(alloc: Global, name: &str, left: &Poly, right: &str) -> Option<Answer> {
    let right = poly(alloc, right)?;
    between(alloc, name, left, &right)
}

// A hundred calls, for measuring.
fn substitute_often(alloc: Global, of: &Poly, with: &[(u32, Poly)]) -> Option<()> {
    for _ in 0..100 {
        of.subst(alloc, with).ok()?;
    }
    Some(())
}

fn after_hundred(alloc: Global, of: &Poly, with: &[(u32, Poly)]) -> Option<Answer> {
    substitute_often(alloc, of, with)?;
    formed(alloc, of.subst(alloc, with))
}

fn substituted(alloc: Global, name: &str, of: &Poly, with: &str) -> Option<Answer> {
    let with = substitution(alloc, with)?;
    match name {
        "subst_101" => after_hundred(alloc, of, with.as_slice()),
        _ => formed(alloc, of.subst(alloc, with.as_slice())),
    }
}

fn at_args(alloc: Global, of: &Poly, args: &str) -> Option<Answer> {
    let args = polys(alloc, args)?;
    formed(alloc, of.at_args(alloc, args.as_slice()))
}

fn scaled(alloc: Global, poly: &Poly, by: &str) -> Option<Answer> {
    let by = integer(by)?;
    formed(alloc, poly.scale(alloc, by))
}

fn of_variable(name: &str, poly: &Poly, variable: u32) -> Option<Answer> {
    match name {
        "coeff_of" => Some(Answer::Number(poly.coeff_of(variable))),
        "uses" => told(uses(poly, variable)),
        _ => told(uses_below(poly, variable)),
    }
}

// What a polynomial answers, and what else is given.
fn with_another(alloc: Global, name: &str, poly: &Poly, second: &str) -> Option<Answer> {
    match name {
        "scale" => scaled(alloc, poly, second),
        "coeff_of" | "uses" | "uses_below" => of_variable(name, poly, count(second)?),
        "subst" | "subst_101" => substituted(alloc, name, poly, second),
        "at_args" => at_args(alloc, poly, second),
        _ => beside(alloc, name, poly, second),
    }
}

fn of_poly(alloc: Global, name: &str, first: &str, second: &str) -> Option<Answer> {
    let poly = poly(alloc, first)?;
    if second.is_empty() {
        return alone(alloc, name, &poly);
    }
    with_another(alloc, name, &poly, second)
}

/// What the call answers.
pub fn answer_to(alloc: Global, name: &str, first: &str, second: &str) -> Option<Answer> {
    match name {
        "norm" => normal_form(alloc, first),
        "same_terms" => equal(integer_term(alloc, first), integer_term(alloc, second)),
        "constant" => made(alloc, Poly::constant(alloc, integer(first)?)),
        "variable" => made(alloc, Poly::variable(alloc, count(first)?)),
        "from_body" => from_body(alloc, first),
        _ => of_poly(alloc, name, first, second),
    }
}
