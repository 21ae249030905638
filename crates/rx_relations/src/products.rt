//! Relations between places of goals and products of two of them.
ghost use Rattle.std.specs.Prelude.{◌≡◌, ◌∷◌, ◌++◌, [], not, filter, IfOk, OnOk};
ghost use Rattle.std.specs.List.{list_any};
ghost use Rattle.rx_plain.specs.Formed.{Forms};
ghost use Rattle.rx_poly.specs.Constants.{variable};
ghost use Rattle.rx_poly.specs.Products.{product_formed};
ghost use Rattle.rx_poly.specs.Variables.{is_one_of};
ghost use Rattle.rx_poly.specs.declared.body.Atom.{out-Atom};
ghost use Rattle.rx_poly.specs.declared.body.Body.{out-Body};
ghost use Rattle.rx_poly.specs.declared.body.Mono.{out-Mono};
ghost use Rattle.rx_relations.specs.Linear.{place_of};
ghost use Rattle.rx_relations.specs.Products.{free_places, gives_a_place, is_multiplied, is_place, is_product_of, product_basis, product_relations, products, products_of, times_each};

use crate::common::common;
use crate::instance::Instance;
use crate::linear::{place_of, push_variable};
use rx_plain::Items;
use rx_poly::{Atom, Mono, Poly, PolyEnd};
use std::alloc::{AllocError, Global};

/// The most places of which products are formed.
const MOST_FREE: usize = 9;

/// Whether the place is one of these.
fn is_one_of(place: u32, places: &[u32]) -> bool
    ensures { result ≡ is_one_of place places.now }
{
    for other in places {
        if *other == place {
            return true;
        }
    }
    false
}

/// Adds the place, unless it is given.
fn push_free(free: &mut Items<u32>, place: u32, given: &[u32]) -> Result<(), AllocError>
    ensures { OnOk result (free.new ≡ free.old ++
        filter (λ i. not (is_one_of i given.now)) (place ∷ [])) }
{
    if is_one_of(place, given) {
        return Ok(());
    }
    free.push(place)
}

/// The places, of so many, that aren't given.
pub(crate) fn free_places(
    alloc: Global,
    count: u32,
    given: &[u32],
) -> Result<Items<u32>, AllocError>
    ensures { IfOk result (λ xs. xs ≡ free_places count given.now) }
{
    let mut free = Items::new(alloc);
    for place in 0..count {
        push_free(&mut free, place, given)?;
    }
    Ok(free)
}

/// The product of two places; Large exactly where that passes the limits.
fn product(alloc: Global, first: u32, second: u32) -> Result<Poly, PolyEnd>
    ensures { Forms PolyEnd.Large result (product_formed (variable first) (variable second)) }
{
    let left = Poly::variable(alloc, first)?;
    let right = Poly::variable(alloc, second)?;
    left.mul(alloc, &right)
}

/// The place times each of these; Large exactly where one of the products passes the limits.
fn times_each(alloc: Global, first: u32, places: &[u32]) -> Result<Items<Poly>, PolyEnd>
    ensures { Forms PolyEnd.Large result (times_each first places.now) }
{
    let mut made = Items::with_capacity(alloc, places.len())?;
    for second in places {
        made.push(product(alloc, first, *second)?)?;
    }
    Ok(made)
}

/// Each place times itself and those after it; Large exactly where one of the products passes the
/// limits.
fn products_of(alloc: Global, places: &[u32]) -> Result<Items<Poly>, PolyEnd>
    ensures { Forms PolyEnd.Large result (products_of places.now) }
{
    let mut made = Items::new(alloc);
    let mut rest = places;
    while let Some((first, after)) = rest.split_first() {
        let more = times_each(alloc, *first, rest)?;
        made.append(more)?;
        rest = after;
    }
    Ok(made)
}

/// 1, the products, and then the places alone; Large exactly where one of the products passes the
/// limits.
fn product_basis(alloc: Global, places: &[u32]) -> Result<Items<Poly>, PolyEnd>
    ensures { Forms PolyEnd.Large result (product_basis places.now) }
{
    let products = products_of(alloc, places)?;
    let mut basis = Items::new(alloc);
    basis.push(Poly::constant(alloc, 1)?)?;
    basis.append(products)?;
    for place in places {
        push_variable(&mut basis, alloc, *place)?;
    }
    Ok(basis)
}

/// Whether the atom is the place.
fn is_place(atom: &Atom, place: u32) -> bool
    ensures { result ≡ is_place place (out-Atom atom.now) }
{
    match atom {
        Atom::Var(number) => *number == place,
        Atom::Div(_, _) => false,
        Atom::Mod(_, _) => false,
    }
}

/// Whether one of the atoms is the place.
fn has_place(atoms: &[Atom], place: u32) -> bool
    ensures { result ≡ list_any (λ a. is_place place (out-Atom a)) atoms.now }
{
    for atom in atoms {
        if is_place(atom, place) {
            return true;
        }
    }
    false
}

/// Whether the term is a product that has the place.
fn multiplies(term: &(Mono, i128), place: u32) -> bool
    ensures { result ≡ is_product_of place (out-Mono term.now.0).atoms }
{
    let atoms = term.0.atoms.as_slice();
    atoms.len() > 1 && has_place(atoms, place)
}

/// Whether one of the terms is a product that has the place.
fn is_multiplied(terms: &[(Mono, i128)], place: u32) -> bool
    ensures { result ≡ is_multiplied terms.now place }
{
    for term in terms {
        if multiplies(term, place) {
            return true;
        }
    }
    false
}

/// Whether some place stands alone in the relation, and in no product.
fn gives_a_place(poly: &Poly) -> bool
    ensures { result ≡ gives_a_place poly.now }
{
    let terms = poly.body().terms.as_slice();
    for term in terms {
        if let Some(place) = place_of(term) {
            if !is_multiplied(terms, place) {
                return true;
            }
        }
    }
    false
}

/// Those of the relations in which some place stands alone, and in no product.
fn giving(alloc: Global, polys: Items<Poly>) -> Result<Items<Poly>, AllocError>
    ensures { IfOk result (λ ps. ps ≡ filter gives_a_place polys) }
{
    let mut kept = Items::new(alloc);
    for poly in polys.into_vec() {
        if gives_a_place(&poly) {
            kept.push(poly)?;
        }
    }
    Ok(kept)
}

/// The relations between these places and their products that hold at all the goals, and give a
/// place; Large exactly where a polynomial on the way passes the limits.
fn product_relations(
    alloc: Global,
    places: &[u32],
    goals: &[Instance],
) -> Result<Items<Poly>, PolyEnd>
    ensures { Forms PolyEnd.Large result (product_relations places.now goals.now) }
{
    let basis = product_basis(alloc, places)?;
    let relations = common(alloc, basis, goals)?;
    Ok(giving(alloc, relations)?)
}

/// The same of at most 9 places; of more there are none.
pub(crate) fn products(
    alloc: Global,
    places: &[u32],
    goals: &[Instance],
) -> Result<Items<Poly>, PolyEnd>
    ensures { Forms PolyEnd.Large result (products places.now goals.now) }
{
    if places.len() <= MOST_FREE {
        product_relations(alloc, places, goals)
    } else {
        Ok(Items::new(alloc))
    }
}
