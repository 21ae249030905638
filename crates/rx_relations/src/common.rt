//! Combinations of a basis that are 0 at a goal, and at each of several goals.
ghost use Rattle.std.specs.Prelude.{◌≡◌, filter, map, IfOk};
ghost use Rattle.rx_plain.specs.Formed.{Forms, map_formed};
ghost use Rattle.rx_relations.specs.Applying.{form_within};
ghost use Rattle.rx_relations.specs.Common.{combinations, common, is_nonzero, of_equation, valued, vanishing_at};
ghost use Rattle.rx_relations.specs.Content.{primitive};

use crate::applying::form_within;
use crate::combination::Combination;
use crate::content::primitive;
use crate::instance::Instance;
use crate::reduction::vanishing_combinations;
use rx_plain::{Items, NoMemory};
use rx_poly::{Poly, PolyEnd};
use std::alloc::{AllocError, Global};

/// The equation, as a combination of the basis that is 0.
fn of_equation(alloc: Global, equation: &Poly) -> Result<Combination, AllocError>
    ensures { IfOk result (λ c. c ≡ of_equation equation.now) }
{
    let value = equation.try_clone(alloc)?;
    let relation = Poly::constant(alloc, 0)?;
    Ok(Combination { value, relation })
}

/// The equations, as combinations of the basis that are 0.
fn of_equations(alloc: Global, equations: &[Poly]) -> Result<Items<Combination>, AllocError>
    ensures { IfOk result (λ cs. cs ≡ map of_equation equations.now) }
{
    let mut made = Items::with_capacity(alloc, equations.len())?;
    for equation in equations {
        made.push(of_equation(alloc, equation)?)?;
    }
    Ok(made)
}

/// The polynomial with its value; Large exactly where a polynomial on the way to that passes the
/// limits.
fn valued(alloc: Global, values: &[Poly], poly: &Poly) -> Result<Combination, PolyEnd>
    ensures { Forms PolyEnd.Large result (valued values.now poly.now) }
{
    let value = poly.at_args(alloc, values)?;
    let relation = poly.try_clone(alloc)?;
    Ok(Combination { value, relation })
}

/// Each polynomial with its value; Large exactly where a polynomial on the way to one of these
/// passes the limits.
fn all_valued(alloc: Global, values: &[Poly], basis: &[Poly]) -> Result<Items<Combination>, PolyEnd>
    ensures { Forms PolyEnd.Large result (map_formed (valued values.now) basis.now) }
{
    let mut made = Items::with_capacity(alloc, basis.len())?;
    for poly in basis {
        made.push(valued(alloc, values, poly)?)?;
    }
    Ok(made)
}

/// The equations of the goal, and then the basis, with their values; Large exactly where a
/// polynomial on the way to one of these passes the limits.
fn combinations(
    alloc: Global,
    goal: &Instance,
    basis: &[Poly],
) -> Result<Items<Combination>, PolyEnd>
    ensures { Forms PolyEnd.Large result (combinations goal.now basis.now) }
{
    let mut made = of_equations(alloc, goal.equations.as_slice())?;
    let valued = all_valued(alloc, goal.values.as_slice(), basis)?;
    made.append(valued)?;
    Ok(made)
}

/// Those of the polynomials that are not 0.
fn nonzero(alloc: Global, polys: Items<Poly>) -> Result<Items<Poly>, AllocError>
    ensures { IfOk result (λ ps. ps ≡ filter is_nonzero polys) }
{
    let mut kept = Items::new(alloc);
    for poly in polys.into_vec() {
        if !poly.body().terms.is_empty() {
            kept.push(poly)?;
        }
    }
    Ok(kept)
}

/// The combinations of the basis that are 0 at the goal; Large exactly where a polynomial on the
/// way passes the limits.
fn vanishing_at(alloc: Global, basis: &[Poly], goal: &Instance) -> Result<Items<Poly>, PolyEnd>
    ensures { Forms PolyEnd.Large result (vanishing_at basis.now goal.now) }
{
    let combinations = combinations(alloc, goal, basis)?;
    let relations = vanishing_combinations(alloc, combinations.as_slice())?;
    Ok(nonzero(alloc, relations)?)
}

/// The combinations of the basis, not 0 themselves, that Gauss's elimination finds to be 0 at the
/// goal. The value of a polynomial at the goal is that with the goal's values in place of its
/// variables. None exactly where a polynomial on the way passes the limits.
pub fn vanishing(
    alloc: Global,
    basis: &[Poly],
    goal: &Instance,
) -> Result<Option<Items<Poly>>, NoMemory>
    ensures { IfOk result (λ ps. ps ≡ form_within (vanishing_at basis.now goal.now)) }
{
    form_within(vanishing_at(alloc, basis, goal))
}

/// Each polynomial divided by the greatest common divisor of its coefficients.
fn all_primitive(alloc: Global, polys: Items<Poly>) -> Result<Items<Poly>, AllocError>
    ensures { IfOk result (λ ps. ps ≡ map primitive polys) }
{
    let mut made = Items::with_capacity(alloc, polys.len())?;
    for poly in polys.into_vec() {
        made.push(primitive(alloc, poly)?)?;
    }
    Ok(made)
}

/// The combinations of the basis that are 0 at each of the goals, none of them with a common
/// divisor of its coefficients; Large exactly where a polynomial on the way passes the limits.
pub(crate) fn common(
    alloc: Global,
    basis: Items<Poly>,
    goals: &[Instance],
) -> Result<Items<Poly>, PolyEnd>
    ensures { Forms PolyEnd.Large result (common basis goals.now) }
{
    let mut left = basis;
    for goal in goals {
        left = vanishing_at(alloc, left.as_slice(), goal)?;
    }
    Ok(all_primitive(alloc, left)?)
}
