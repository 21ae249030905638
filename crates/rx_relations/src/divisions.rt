//! Divisions by numbers that occur in polynomials.
ghost use Rattle.std.specs.Prelude.{◌≡◌, ◌++◌, true, All, IfOk, OnOk};
ghost use Rattle.std.specs.List.{flat_map, fold, list_any};
ghost use Rattle.rx_plain.specs.Formed.{Forms};
ghost use Rattle.rx_poly.specs.Division.{atom_alone};
ghost use Rattle.rx_poly.specs.Normal.{is_poly};
ghost use Rattle.rx_poly.specs.Reading.{constant_of};
ghost use Rattle.rx_poly.specs.contracts.body.BodyPartialEq.TheImpl as body_equal;
ghost use Rattle.rx_poly.specs.declared.body.Atom.{out-Atom};
ghost use Rattle.rx_poly.specs.declared.body.Atom.TheVariants.{Div, Mod};
ghost use Rattle.rx_poly.specs.declared.body.Body.{out-Body};
ghost use Rattle.rx_relations.specs.Alone.{AreAlone, IsAlone};
ghost use Rattle.rx_relations.specs.Divisions.{by_divisor, division_by, division_of, divisions, divisions_in, fact_formed, facts_formed, is_among, term_divisions, with_division};

use rx_plain::{Graded, Items};
use rx_poly::{Atom, Body, Mono, Poly, PolyEnd};
use std::alloc::{AllocError, Global};

/// A division by a number other than 0.
#[derive(Debug, Drop)]
pub struct Division {
    /// What is divided.
    pub dividend: Poly,
    /// The number.
    pub divisor: i128,
    /// The quotient, truncated toward zero.
    pub quotient: Poly,
    /// The remainder that belongs to it.
    pub remainder: Poly,
}

/// A copy of the sum, which is a polynomial.
fn copied(alloc: Global, body: &Body) -> Result<Poly, AllocError>
    requires { is_poly body.now ≡ true }
    ensures { IfOk result (λ p. p ≡ body.now) }
{
    match Poly::from_body(alloc, body.try_clone(alloc)?)? {
        Some(poly) => Ok(poly),
        None => unreachable!(),
    }
}

/// The polynomial that is the atom alone.
fn alone(alloc: Global, atom: Atom) -> Result<Poly, AllocError>
    requires { IsAlone atom }
    ensures { IfOk result (λ p. p ≡ atom_alone atom) }
{
    let mut atoms = Graded::new(alloc);
    atoms.push(atom)?;
    let mut terms = Items::new(alloc);
    terms.push((Mono { atoms }, 1))?;
    let made = Poly::from_body(alloc, Body { terms })?;
    Ok(made.unwrap())
}

/// The quotient of the two.
fn quotient(alloc: Global, num: &Body, den: &Body) -> Result<Poly, AllocError>
    requires { IsAlone (Div num.now den.now) }
    ensures { IfOk result (λ p. p ≡ atom_alone (Div num.now den.now)) }
{
    let num = num.try_clone(alloc)?;
    let den = den.try_clone(alloc)?;
    alone(alloc, Atom::Div(num, den))
}

/// The remainder of the two.
#[tactic(auto, using(crate::proofs::DivisionLaws::mod_alone))]
fn remainder(alloc: Global, num: &Body, den: &Body) -> Result<Poly, AllocError>
    requires { IsAlone (Div num.now den.now) }
    ensures { IfOk result (λ p. p ≡ atom_alone (Mod num.now den.now)) }
{
    let num = num.try_clone(alloc)?;
    let den = den.try_clone(alloc)?;
    alone(alloc, Atom::Mod(num, den))
}

/// The division of the two, where the second is the number.
#[tactic(auto, using(crate::proofs::DivisionLaws::dividend_poly))]
fn divided(alloc: Global, num: &Body, den: &Body, divisor: &i128) -> Result<Division, AllocError>
    requires { IsAlone (Div num.now den.now) }
    ensures { IfOk result (λ d. d ≡ division_by num.now den.now divisor.now) }
{
    Ok(Division {
        dividend: copied(alloc, num)?,
        divisor: *divisor,
        quotient: quotient(alloc, num, den)?,
        remainder: remainder(alloc, num, den)?,
    })
}

/// Adds the division of the two, if the second is a number other than 0.
#[tactic(auto, using(crate::proofs::DivisionLaws::divisor_poly))]
fn push_division(
    found: &mut Items<Division>,
    alloc: Global,
    num: &Body,
    den: &Body,
) -> Result<(), AllocError>
    requires { IsAlone (Div num.now den.now) }
    ensures { OnOk result (found.new ≡
        found.old ++ by_divisor num.now den.now (constant_of (out-Body den.now).terms)) }
{
    match copied(alloc, den)?.is_constant() {
        None | Some(0) => Ok(()),
        Some(divisor) => found.push(divided(alloc, num, den, &divisor)?),
    }
}

/// Adds the division that the atom is the quotient of, if its divisor is a number.
fn push_atom(found: &mut Items<Division>, alloc: Global, atom: &Atom) -> Result<(), AllocError>
    requires { IsAlone atom.now }
    ensures { OnOk result (found.new ≡ found.old ++ division_of (out-Atom atom.now)) }
{
    match atom {
        Atom::Var(_) => Ok(()),
        Atom::Div(num, den) => push_division(found, alloc, num, den),
        Atom::Mod(_, _) => Ok(()),
    }
}

/// Adds those of the atoms.
fn push_atoms(found: &mut Items<Division>, alloc: Global, atoms: &[Atom]) -> Result<(), AllocError>
    requires { All IsAlone atoms.now }
    ensures { OnOk result (found.new ≡ found.old ++ flat_map (λ x. division_of (out-Atom x)) atoms.now) }
{
    for atom in atoms {
        push_atom(found, alloc, atom)?;
    }
    Ok(())
}

/// Adds those of the monomials.
fn push_terms(
    found: &mut Items<Division>,
    alloc: Global,
    terms: &[(Mono, i128)],
) -> Result<(), AllocError>
    requires { All AreAlone terms.now }
    ensures { OnOk result (found.new ≡ found.old ++ flat_map term_divisions terms.now) }
{
    for term in terms {
        push_atoms(found, alloc, term.0.atoms.as_slice())?;
    }
    Ok(())
}

/// Adds those of the polynomial.
#[tactic(auto, using(crate::proofs::DivisionLaws::all_alone))]
fn push_poly(found: &mut Items<Division>, alloc: Global, poly: &Poly) -> Result<(), AllocError>
    ensures { OnOk result (found.new ≡ found.old ++ divisions_in poly.now) }
{
    push_terms(found, alloc, poly.body().terms.as_slice())
}

/// Those of the polynomials, each as often as it occurs.
fn all_divisions(alloc: Global, polys: &[Poly]) -> Result<Items<Division>, AllocError>
    ensures { IfOk result (λ ds. ds ≡ flat_map divisions_in polys.now) }
{
    let mut found = Items::new(alloc);
    for poly in polys {
        push_poly(&mut found, alloc, poly)?;
    }
    Ok(found)
}

/// Whether the division has that quotient.
fn has_quotient(division: &Division, quotient: &Poly) -> bool
    ensures { result ≡ (body_equal.ghosts).eq division.now.quotient quotient.now }
{
    division.quotient.is_same(quotient)
}

/// Whether one of these has that quotient.
fn is_among(known: &[Division], quotient: &Poly) -> bool
    ensures { result ≡ is_among known.now quotient.now }
{
    for other in known {
        if has_quotient(other, quotient) {
            return true;
        }
    }
    false
}

/// Adds the division, unless its quotient is that of one of these.
fn push_once(known: &mut Items<Division>, division: Division) -> Result<(), AllocError>
    ensures { OnOk result (known.new ≡ with_division known.old division) }
{
    if is_among(known.as_slice(), &division.quotient) {
        return Ok(());
    }
    known.push(division)
}

/// The divisions by numbers that occur in the polynomials, as quotients that are factors of their
/// monomials, in order, each once. Fails only where there is no memory.
pub fn divisions_of(alloc: Global, polys: &[Poly]) -> Result<Items<Division>, AllocError>
    ensures { IfOk result (λ ds. ds ≡ divisions polys.now) }
{
    let mut known = Items::new(alloc);
    for division in all_divisions(alloc, polys)?.into_vec() {
        push_once(&mut known, division)?;
    }
    Ok(known)
}

/// The divisor times the quotient, less the dividend, and the remainder: it is 0 always. Large
/// exactly where that, or a polynomial on the way, passes the limits.
fn fact(alloc: Global, division: &Division) -> Result<Poly, PolyEnd>
    ensures { Forms PolyEnd.Large result (fact_formed division.now) }
{
    let multiple = division.quotient.scale(alloc, division.divisor)?;
    let without = multiple.sub(alloc, &division.dividend)?;
    without.add(alloc, &division.remainder)
}

/// What is 0 of the divisions in these polynomials; Large exactly where one of these, or a
/// polynomial on the way to it, passes the limits.
pub(crate) fn facts(alloc: Global, polys: &[Poly]) -> Result<Items<Poly>, PolyEnd>
    ensures { Forms PolyEnd.Large result (facts_formed polys.now) }
{
    let divisions = divisions_of(alloc, polys)?;
    let mut made = Items::with_capacity(alloc, divisions.len())?;
    for division in divisions.as_slice() {
        made.push(fact(alloc, division)?)?;
    }
    Ok(made)
}
