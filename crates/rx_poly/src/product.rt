//! Products of monomials, and of one term with a whole sum.
ghost use Rattle.std.specs.Prelude.{◌≡◌, ◌+◌, ◌<◌, [], ◌∷◌, ◌++◌, true, length, ◌*ℤ◌, IfOk, OnOk};
ghost use Rattle.rx_plain.specs.Formed.{Forms, FormsAs, kept};
ghost use Rattle.rx_poly.specs.Limits.{all_fit, fits_i128};
ghost use Rattle.rx_poly.specs.Normal.{is_sorted, is_normal_mono};
ghost use Rattle.rx_poly.specs.Order.{atom_cmp};
ghost use Rattle.rx_poly.specs.Products.{join_sorted, mono_times, term_product};
ghost use Rattle.rx_poly.specs.Terms.{all_keys};

use crate::body::{Atom, Mono};
use crate::poly_end::PolyEnd;
use rx_plain::{Graded, Items};
use std::alloc::{AllocError, Global};

/// Copies `atom` after the others.
fn push_atom(atoms: &mut Graded<Atom>, alloc: Global, atom: &Atom) -> Result<(), AllocError>
    ensures { OnOk result (atoms.new ≡ atoms.old ++ atom.now ∷ []) }
{
    let copy = atom.try_clone(alloc)?;
    atoms.push(copy)
}

/// Copies the atoms of `more` after the others.
fn push_atoms(atoms: &mut Graded<Atom>, alloc: Global, more: &[Atom]) -> Result<(), AllocError>
    ensures { OnOk result (atoms.new ≡ atoms.old ++ more.now) }
{
    for atom in more {
        push_atom(atoms, alloc, atom)?;
    }
    Ok(())
}

/// The atoms of two sorted lists, sorted.
fn join(alloc: Global, left: &[Atom], right: &[Atom]) -> Result<Graded<Atom>, AllocError>
    requires left { is_sorted atom_cmp left.now ≡ true }
    requires right { is_sorted atom_cmp right.now ≡ true }
    ensures { IfOk result (λ xs. xs ≡ join_sorted atom_cmp left.now right.now) }
{
    let mut joined = Graded::with_capacity(alloc, left.len().saturating_add(right.len()))?;
    let mut xs = left;
    let mut ys = right;
    while let Some((x, xs_after)) = xs.split_first() {
        let Some((y, ys_after)) = ys.split_first() else {
            push_atom(&mut joined, alloc, x)?;
            xs = xs_after;
            continue;
        };
        if x.cmp(y).is_gt() {
            push_atom(&mut joined, alloc, y)?;
            ys = ys_after;
        } else {
            push_atom(&mut joined, alloc, x)?;
            xs = xs_after;
        }
    }
    push_atoms(&mut joined, alloc, ys)?;
    Ok(joined)
}

/// The product of two monomials.
fn times(alloc: Global, left: &Mono, right: &Mono) -> Result<Mono, AllocError>
    requires left { is_normal_mono left.now ≡ true }
    requires right { is_normal_mono right.now ≡ true }
    ensures { IfOk result (λ m. m ≡ mono_times left.now right.now) }
{
    let atoms = join(alloc, left.atoms.as_slice(), right.atoms.as_slice())?;
    Ok(Mono { atoms })
}

/// Adds the product of two terms after the others.
fn push_product(
    products: &mut Items<(Mono, i128)>,
    alloc: Global,
    left: &(Mono, i128),
    right: &(Mono, i128),
) -> Result<(), PolyEnd>
    requires left { is_normal_mono left.now.0 ≡ true }
    requires right { is_normal_mono right.now.0 ≡ true }
    ensures { FormsAs (λ _. products.new) PolyEnd.Large result
        (record {
          form =
              products.old ++ (mono_times left.now.0 right.now.0, left.now.1 *ℤ right.now.1) ∷ [];
          within = fits_i128 (left.now.1 *ℤ right.now.1);
        }) }
{
    let Some(coefficient) = left.1.checked_mul(right.1) else {
        return Err(PolyEnd::Large);
    };
    let mono = times(alloc, &left.0, &right.0)?;
    products.push((mono, coefficient))?;
    Ok(())
}

/// One term times each of the others.
pub(crate) fn scale(
    alloc: Global,
    term: &(Mono, i128),
    terms: &[(Mono, i128)],
) -> Result<Items<(Mono, i128)>, PolyEnd>
    requires term { is_normal_mono term.now.0 ≡ true }
    requires terms { all_keys is_normal_mono terms.now ≡ true }
    ensures { Forms PolyEnd.Large result (kept all_fit (term_product term.now terms.now)) }
{
    let mut products = Items::with_capacity(alloc, terms.len())?;
    for other in terms {
        push_product(&mut products, alloc, term, other)?;
    }
    Ok(products)
}
