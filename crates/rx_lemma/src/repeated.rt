//! Polynomials that occur repeatedly in an equation.
ghost use Rattle.std.specs.Prelude.{◌≡◌, ◌↔◌, ◌++◌, ◌+◌, IsTrue, true, IfOk, OnOk, length, filter};
ghost use Rattle.std.specs.List.{list_any};
ghost use Rattle.rx_lemma.specs.Repeated as spec;

use rx_plain::Items;
use rx_poly::Poly;
use rx_term::{Equation, Term};
use std::alloc::{AllocError, Global};

/// A polynomial at a place of a symbol.
#[derive(Drop)]
pub(crate) struct Occurrence {
    /// The number of the symbol.
    pub(crate) symbol: u32,
    /// The place.
    pub(crate) place: usize,
    /// The polynomial.
    pub(crate) poly: Poly,
}

/// Adds the polynomials of a symbol, each with its place.
fn push_places(
    occurrences: &mut Vec<Occurrence>,
    alloc: Global,
    symbol: u32,
    polys: &[Poly],
) -> Result<(), AllocError>
    ensures { OnOk result (occurrences.new.items ≡
        occurrences.old.items ++ spec.occurrences_from symbol 0 polys.now) }
{
    for (place, poly) in polys.iter().enumerate() {
        let poly = poly.try_clone(alloc)?;
        occurrences.push(Occurrence {
            symbol,
            place,
            poly,
        })?;
    }
    Ok(())
}

/// Adds the polynomials of the term's frames from outside in, and then of its call.
fn push_occurrences(
    occurrences: &mut Vec<Occurrence>,
    alloc: Global,
    term: &Term,
) -> Result<(), AllocError>
    ensures { OnOk result (occurrences.new.items ≡
        occurrences.old.items ++ spec.occurrences_in term.now) }
{
    let mut here = term;
    loop {
        match here {
            Term::Return(_) => return Ok(()),
            Term::Fail(_) => return Ok(()),
            Term::Call(sym, args) => return push_places(occurrences, alloc, sym.0, args.as_slice()),
            Term::Frame(sym, args, inner) => {
                push_places(occurrences, alloc, sym.0, args.as_slice())?;
                here = inner.get();
            }
        }
    }
}

/// The polynomials of the goal's frames and calls, each with its place; the left side's first.
fn all_occurrences(alloc: Global, goal: &Equation) -> Result<Vec<Occurrence>, AllocError>
    ensures { IfOk result (λ all. all.items ≡ spec.occurrences goal.now) }
{
    let mut all = Vec::new(alloc);
    push_occurrences(&mut all, alloc, &goal.left)?;
    push_occurrences(&mut all, alloc, &goal.right)?;
    Ok(all)
}

/// Whether the two are one polynomial.
pub(crate) fn is_same_poly(one: &Poly, other: &Poly) -> bool
    ensures { result ≡ spec.is_same_poly one.now other.now }
{
    one == other
}

/// Whether it is one polynomial at one place of one symbol.
#[tactic(auto, unfolding(crate::specs::Repeated::is_same_occurrence))]
fn is_same_occurrence(one: &Occurrence, other: &Occurrence) -> bool
    ensures { result ≡ spec.is_same_occurrence one.now other.now }
{
    one.symbol == other.symbol && one.place == other.place && is_same_poly(&one.poly, &other.poly)
}

/// How many of them are that polynomial at that place of that symbol.
fn count_same(all: &[Occurrence], one: &Occurrence) -> usize
    ensures { result ≡ length (filter (spec.is_same_occurrence one.now) all.now) }
{
    let mut count = 0;
    for other in all {
        if is_same_occurrence(one, other) {
            count += 1;
        }
    }
    count
}

/// Whether the occurring polynomial is no variable alone, and occurs twice or more at its place of
/// its symbol.
#[tactic(auto, unfolding(crate::specs::Repeated::is_repeated))]
fn is_repeated(all: &[Occurrence], one: &Occurrence) -> bool
    ensures { result ≡ spec.is_repeated all.now one.now }
{
    one.poly.as_variable().is_none() && count_same(all, one) >= 2
}

/// Whether the occurrence is of that polynomial, and is repeated.
#[tactic(auto, unfolding(crate::specs::Repeated::is_taken_by))]
fn is_taken_by(all: &[Occurrence], poly: &Poly, one: &Occurrence) -> bool
    ensures { result ≡ spec.is_taken_by all.now poly.now one.now }
{
    is_same_poly(&one.poly, poly) && is_repeated(all, one)
}

/// Whether an occurrence of the polynomial is repeated.
fn is_taken(all: &[Occurrence], poly: &Poly) -> bool
    ensures { result ≡ spec.is_taken all.now poly.now }
{
    for one in all {
        if is_taken_by(all, poly, one) {
            return true;
        }
    }
    false
}

/// Whether the polynomial is one of them.
fn is_among(polys: &[Poly], poly: &Poly) -> bool
    ensures { result ≡ list_any (λ p. spec.is_same_poly p poly.now) polys.now }
{
    for one in polys {
        if is_same_poly(one, poly) {
            return true;
        }
    }
    false
}

/// Adds the polynomial, where it occurs repeatedly somewhere and isn't there.
#[tactic(auto, unfolding(crate::specs::Repeated::with_taken))]
fn push_taken(
    done: &mut Items<Poly>,
    alloc: Global,
    all: &[Occurrence],
    one: &Occurrence,
) -> Result<(), AllocError>
    ensures { OnOk result (done.new ≡ spec.with_taken all.now done.old one.now) }
{
    if !is_among(done.as_slice(), &one.poly) && is_taken(all, &one.poly) {
        done.push(one.poly.try_clone(alloc)?)?;
    }
    Ok(())
}

/// Those that occur repeatedly, each once, in order.
fn taken_of(alloc: Global, all: &[Occurrence]) -> Result<Items<Poly>, AllocError>
    ensures { IfOk result (λ polys. polys ≡ spec.taken_of all.now) }
{
    let mut done = Items::new(alloc);
    for one in all {
        push_taken(&mut done, alloc, all, one)?;
    }
    Ok(done)
}

/// The polynomials that are no variable alone and occur twice or more at one place of one symbol of
/// the goal, each once, by their first place in the goal.
pub(crate) fn repeated(alloc: Global, goal: &Equation) -> Result<Items<Poly>, AllocError>
    ensures { IfOk result (λ polys. polys ≡ spec.repeated goal.now) }
{
    let all = all_occurrences(alloc, goal)?;
    taken_of(alloc, all.as_slice())
}
