//! The monomials that polynomials have.
ghost use Rattle.std.specs.Prelude.{◌≡◌, ◌≤◌, ◌++◌, [], ◌∷◌, true, length, insert, MatchOption, IfOk, OnOk};
ghost use Rattle.std.specs.List.{list_all};
ghost use Rattle.rx_poly.specs.Normal.{is_poly};
ghost use Rattle.rx_fm.specs.Elimination.{monomials, with_all, with_mono, with_monos};

use rx_poly::{Mono, Poly};
use std::alloc::{AllocError, Global};
use std::cmp::Ordering;

/// Where the monomial belongs among others that rise; None where it is there.
fn place_of(monos: &[Mono], mono: &Mono) -> Option<usize>
    ensures { MatchOption result (with_mono mono.now monos.now ≡ monos.now)
        (λ at. (at ≤ length monos.now) × (with_mono mono.now monos.now ≡
        insert monos.now at mono.now)) }
{
    for (at, standing) in monos.iter().enumerate() {
        match mono.cmp(standing) {
            Ordering::Less => return Some(at),
            Ordering::Equal => return None,
            Ordering::Greater => {}
        }
    }
    Some(monos.len())
}

/// Copies the monomial to its place, unless it is there.
fn push_mono(monos: &mut Vec<Mono>, alloc: Global, mono: &Mono) -> Result<(), AllocError>
    ensures { OnOk result (monos.new.items ≡ with_mono mono.now monos.old.items) }
{
    let Some(at) = place_of(monos.as_slice(), mono) else {
        return Ok(());
    };
    let copy = mono.try_clone(alloc)?;
    monos.insert(at, copy).map_err(AllocError::from)?;
    Ok(())
}

/// Copies the monomials of the terms that are not 1 to their places, unless they are there.
fn push_monos(
    monos: &mut Vec<Mono>,
    alloc: Global,
    terms: &[(Mono, i128)],
) -> Result<(), AllocError>
    ensures { OnOk result (monos.new.items ≡ with_monos terms.now monos.old.items) }
{
    for term in terms {
        if !term.0.atoms.is_empty() {
            push_mono(monos, alloc, &term.0)?;
        }
    }
    Ok(())
}

/// The monomials other than 1 that the polynomials have, each once, in order.
pub(crate) fn monomials(alloc: Global, polys: &[Poly]) -> Result<Vec<Mono>, AllocError>
    ensures monomials { IfOk result (λ ms. ms.items ≡ monomials polys.now) }
    ensures normal { OnOk result (list_all is_poly polys.now ≡ true) }
{
    let mut monos = Vec::new(alloc);
    for poly in polys {
        push_monos(&mut monos, alloc, poly.body().terms.as_slice())?;
    }
    Ok(monos)
}
