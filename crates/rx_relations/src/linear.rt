//! Linear relations between the places of goals, solved for places.
ghost use Rattle.std.specs.Prelude.{◌≡◌, ◌∷◌, ◌++◌, [], None, IfOk, OnOk};
ghost use Rattle.std.specs.List.{filter_map, last_or};
ghost use Rattle.rx_plain.specs.Formed.{Forms, FormsAs, fold_formed, map_formed};
ghost use Rattle.rx_poly.specs.Constants.{variable};
ghost use Rattle.rx_relations.specs.Linear.{last_place, last_unit, linear, linear_basis, none_solved, place_of, replaced_in, solved, solved_for, solved_next, solved_with, unit_of, unsolved};

use crate::common::common;
use crate::content::primitive;
use crate::instance::Instance;
use rx_cert::solve;
use rx_plain::Items;
use rx_poly::{Atom, Mono, Poly, PolyEnd};
use std::alloc::{AllocError, Global};

/// Relations solved for places, as far as they were taken.
#[derive(Drop)]
pub(crate) struct Solved {
    /// The relations in order.
    pub(crate) relations: Items<Poly>,
    /// The places that they give.
    pub(crate) given: Items<u32>,
    /// What is in place of those of coefficient 1 or -1, in later relations.
    pub(crate) values: Items<(u32, Poly)>,
}

/// The place that the term's monomial is, where it is one.
pub(crate) fn place_of(term: &(Mono, i128)) -> Option<u32>
    ensures { result ≡ place_of term.now }
{
    let (atom, more) = term.0.atoms.as_slice().split_first()?;
    if !more.is_empty() {
        return None;
    }
    match atom {
        Atom::Var(number) => Some(*number),
        Atom::Div(_, _) => None,
        Atom::Mod(_, _) => None,
    }
}

/// That place, where its coefficient is 1 or -1.
fn unit_of(term: &(Mono, i128)) -> Option<u32>
    ensures { result ≡ unit_of term.now }
{
    if term.1 == 1 || term.1 == -1 {
        place_of(term)
    } else {
        None
    }
}

/// The last place of the relation.
fn last_place(poly: &Poly) -> Option<u32>
    ensures { result ≡ last_place poly.now }
{
    let mut last = None;
    for term in poly.body().terms.as_slice() {
        if let Some(place) = place_of(term) {
            last = Some(place);
        }
    }
    last
}

/// The last place of coefficient 1 or -1 in the relation.
fn last_unit(poly: &Poly) -> Option<u32>
    ensures { result ≡ last_unit poly.now }
{
    let mut last = None;
    for term in poly.body().terms.as_slice() {
        if let Some(place) = unit_of(term) {
            last = Some(place);
        }
    }
    last
}

/// The relation with the polynomial in place of the place; Large exactly where a polynomial on the
/// way passes the limits.
fn replaced_in(alloc: Global, poly: &Poly, with: &(u32, Poly)) -> Result<Poly, PolyEnd>
    ensures { Forms PolyEnd.Large result (replaced_in poly.now with.now) }
{
    let value = with.1.try_clone(alloc)?;
    let with = [(with.0, value)];
    let replaced = poly.subst(alloc, with.as_slice())?;
    Ok(primitive(alloc, replaced)?)
}

/// The relation with each of these in place of its place, one after the other; Large exactly where
/// a polynomial on the way passes the limits.
fn all_replaced_in(alloc: Global, poly: &Poly, with: &[(u32, Poly)]) -> Result<Poly, PolyEnd>
    ensures { Forms PolyEnd.Large result (fold_formed replaced_in poly.now with.now) }
{
    let mut relation = poly.try_clone(alloc)?;
    for pair in with {
        relation = replaced_in(alloc, &relation, pair)?;
    }
    Ok(relation)
}

/// The relations, each with the polynomial in place of the place; Large exactly where a polynomial
/// on the way to one of these passes the limits.
fn replaced_in_all(
    alloc: Global,
    polys: &[Poly],
    with: &(u32, Poly),
) -> Result<Items<Poly>, PolyEnd>
    ensures { Forms PolyEnd.Large result (map_formed (λ q. replaced_in q with.now) polys.now) }
{
    let mut made = Items::with_capacity(alloc, polys.len())?;
    for poly in polys {
        let next = replaced_in(alloc, poly, with)?;
        made.push(next)?;
    }
    Ok(made)
}

impl Solved {
    /// Adds a relation that no other is changed by.
    fn push_unsolved(&mut self, poly: Poly) -> Result<(), AllocError>
        ensures { OnOk result (self.new ≡ unsolved self.old poly) }
    {
        if let Some(place) = last_place(&poly) {
            self.given.push(place)?;
        }
        self.relations.push(poly)
    }

    /// Adds a relation that says the value of a place, after the others, in which it is replaced.
    fn push_with(
        &mut self,
        others: Items<Poly>,
        poly: Poly,
        with: (u32, Poly),
    ) -> Result<(), AllocError>
        ensures { OnOk result (self.new ≡ record {
          relations = others ++ poly ∷ [];
          given = self.old.given ++ with.0 ∷ [];
          values = self.old.values ++ with ∷ [];
        }) }
    {
        self.relations = others;
        self.relations.push(poly)?;
        self.given.push(with.0)?;
        self.values.push(with)
    }

    /// Adds a relation that says the value of the place, which is replaced in those before it;
    /// Large exactly where a polynomial on the way passes the limits.
    fn push_solved(
        &mut self,
        alloc: Global,
        poly: Poly,
        place: u32,
        value: Option<Poly>,
    ) -> Result<(), PolyEnd>
        ensures { FormsAs (λ _. self.new) PolyEnd.Large result
            (solved_with self.old poly place value) }
    {
        let Some(value) = value else {
            return Ok(self.push_unsolved(poly)?);
        };
        let with = (place, value);
        let others = replaced_in_all(alloc, self.relations.as_slice(), &with)?;
        Ok(self.push_with(others, poly, with)?)
    }

    /// Adds a relation, by its last place of coefficient 1 or -1; Large exactly where a polynomial
    /// on the way passes the limits.
    fn push(&mut self, alloc: Global, poly: Poly) -> Result<(), PolyEnd>
        ensures { FormsAs (λ _. self.new) PolyEnd.Large result
            (solved_for self.old poly (last_unit poly)) }
    {
        let Some(place) = last_unit(&poly) else {
            return Ok(self.push_unsolved(poly)?);
        };
        let value = solve(alloc, &poly, place)?;
        self.push_solved(alloc, poly, place, value)
    }

    /// Adds the next relation, in which the places of those before it are replaced; Large exactly
    /// where a polynomial on the way passes the limits.
    fn push_next(&mut self, alloc: Global, poly: &Poly) -> Result<(), PolyEnd>
        ensures { FormsAs (λ _. self.new) PolyEnd.Large result (solved_next self.old poly.now) }
    {
        let next = all_replaced_in(alloc, poly, self.values.as_slice())?;
        self.push(alloc, next)
    }
}

/// The relations solved for places, one after the other; Large exactly where a polynomial on the
/// way passes the limits.
fn solve_all(alloc: Global, polys: &[Poly]) -> Result<Solved, PolyEnd>
    ensures { Forms PolyEnd.Large result (solved polys.now) }
{
    let mut done = Solved {
        relations: Items::new(alloc),
        given: Items::new(alloc),
        values: Items::new(alloc),
    };
    for poly in polys {
        done.push_next(alloc, poly)?;
    }
    Ok(done)
}

/// Adds the place.
pub(crate) fn push_variable(
    basis: &mut Items<Poly>,
    alloc: Global,
    place: u32,
) -> Result<(), AllocError>
    ensures { OnOk result (basis.new ≡ basis.old ++ variable place ∷ []) }
{
    basis.push(Poly::variable(alloc, place)?)
}

/// 1, and then as many places.
fn linear_basis(alloc: Global, count: u32) -> Result<Items<Poly>, AllocError>
    ensures { IfOk result (λ ps. ps ≡ linear_basis count) }
{
    let mut basis = Items::new(alloc);
    basis.push(Poly::constant(alloc, 1)?)?;
    for place in 0..count {
        push_variable(&mut basis, alloc, place)?;
    }
    Ok(basis)
}

/// The linear relations of as many places that hold at all the goals, solved for places; Large
/// exactly where a polynomial on the way passes the limits.
pub(crate) fn linear(alloc: Global, count: u32, goals: &[Instance]) -> Result<Solved, PolyEnd>
    ensures { Forms PolyEnd.Large result (linear count goals.now) }
{
    let basis = linear_basis(alloc, count)?;
    let relations = common(alloc, basis, goals)?;
    solve_all(alloc, relations.as_slice())
}
