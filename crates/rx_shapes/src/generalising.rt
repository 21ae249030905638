//! The general equation of a shape.
ghost use Rattle.std.specs.Prelude.{◌≡◌, ◌++◌, [], length, IfOk};
ghost use Rattle.rx_inference.specs.Pieces.{all_pushed};
ghost use Rattle.rx_relations.specs.Applying.{form_within};
ghost use Rattle.rx_relations.specs.Relations.{relations_formed};
ghost use Rattle.rx_shapes.specs.Generalising as spec;
ghost use Rattle.rx_shapes.specs.Numbers.{number_bounds};
ghost use Rattle.rx_shapes.specs.Options.{try_map};
ghost use Rattle.rx_shapes.specs.Places.{places_of};

use crate::explores::Explores;
use crate::followed::{Followed, KnownGoal};
use crate::inside::stays_inside;
use crate::numbers::number_bounds;
use crate::places::places_of;
use crate::shown::{shown_at, shown_at_all};
use rx_plain::{Items, NoMemory};
use rx_poly::{Poly, copied_polys};
use rx_relations::relations;
use rx_row::{Constraint, Row};
use std::alloc::{AllocError, Global};

/// The rows, each where it first stands.
fn each_once(alloc: Global, rows: Items<Row>) -> Result<Constraint, NoMemory>
    ensures { IfOk result (λ c. c ≡ all_pushed [] rows) }
{
    let mut kept = Constraint::from_rows(Vec::new(alloc));
    for row in rows.into_vec() {
        kept.push(row)?;
    }
    Ok(kept)
}

/// The relations, and then the bounds, each row once.
fn both_rows(
    alloc: Global,
    relations: Items<Row>,
    bounds: &Constraint,
) -> Result<Constraint, NoMemory>
    ensures { IfOk result (λ c. c ≡ all_pushed [] (relations ++ bounds.now)) }
{
    let mut rows = relations;
    let copies = bounds.try_clone(alloc)?;
    rows.append(Items::from_vec(copies.into_rows()))?;
    each_once(alloc, rows)
}

/// The variables at all places of the shape.
fn all_places(alloc: Global, shape: &Followed) -> Result<Items<Poly>, AllocError>
    ensures { IfOk result (λ ps. ps ≡ spec.all_places shape.now) }
{
    let mut places = places_of(alloc, &shape.general)?;
    places.append(copied_polys(alloc, shape.variables.as_slice())?)?;
    Ok(places)
}

/// The relations of the goals of the shape; None exactly where something passes the limits.
fn relations_of(alloc: Global, shape: &Followed) -> Result<Option<Items<Row>>, NoMemory>
    ensures { IfOk result (λ o. o ≡ form_within
        (relations_formed (length (spec.all_places shape.now)) shape.now.values)) }
{
    let count = all_places(alloc, shape)?.len();
    if count as u64 >= 1 << 32 {
        return Err(NoMemory);
    }
    relations(alloc, count as u32, shape.values.as_slice())
}

/// The shape under its relations and bounds; None exactly where a relation passes the limits.
fn with_relations(alloc: Global, shape: Followed) -> Result<Option<Followed>, NoMemory>
    ensures { IfOk result (λ o. o ≡ spec.with_relations shape) }
{
    let mut shape = shape;
    let Some(relations) = relations_of(alloc, &shape)? else {
        return Ok(None);
    };
    shape.general.rows = both_rows(alloc, relations, &shape.bounds)?;
    Ok(Some(shape))
}

/// The shape with its general equation; None exactly where a relation passes the limits, or one of
/// the rows that put its sides inside the domains is no bound any more.
fn generalised(alloc: Global, shape: Followed) -> Result<Option<Followed>, NoMemory>
    ensures { IfOk result (λ o. o ≡ spec.generalised shape) }
{
    if !stays_inside(&shape) {
        return Ok(None);
    }
    with_relations(alloc, shape)
}

/// The shape with the goal, without the bounds that this doesn't show.
fn narrowed<E: Explores>(
    alloc: Global,
    explores: &mut E,
    known: &KnownGoal,
    shape: Followed,
) -> Result<Followed, NoMemory>
    requires ready { E.ready explores.old }
    ensures ready { E.ready explores.new }
    ensures world { E.world explores.new ≡ E.world explores.old }
    ensures exact { IfOk result (λ f. f ≡ spec.narrowed known.now shape) }
{
    let mut shape = shape;
    shape.bounds = shown_at(alloc, explores, &known.goal, shape.bounds.rows())?;
    shape.add(alloc, known)?;
    Ok(shape)
}

/// The shape with the goal, without the bounds that this doesn't show, and with its general equation
/// then; None exactly where a relation passes the limits, or the goal doesn't show that the general
/// sides are inside the domains.
pub(crate) fn taken<E: Explores>(
    alloc: Global,
    explores: &mut E,
    known: &KnownGoal,
    shape: Followed,
) -> Result<Option<Followed>, NoMemory>
    requires ready { E.ready explores.old }
    ensures ready { E.ready explores.new }
    ensures world { E.world explores.new ≡ E.world explores.old }
    ensures exact { IfOk result (λ o. o ≡ spec.taken known.now shape) }
{
    let shape = narrowed(alloc, explores, known, shape)?;
    generalised(alloc, shape)
}

/// The bounds of the shape, and what the places of its goals say that are numbers; None exactly where
/// one of these passes the limits.
fn all_bounds(alloc: Global, shape: &Followed) -> Result<Option<Constraint>, NoMemory>
    ensures { IfOk result (λ o. o ≡
        form_within (number_bounds (length (places_of shape.now.general)) shape.now.bounds
        shape.now.values)) }
{
    let count = places_of(alloc, &shape.general)?.len();
    let rows = shape.bounds.try_clone(alloc)?;
    number_bounds(alloc, count, rows, shape.values.as_slice())
}

/// The shape with its general equation, where what the places of its goals say that are numbers is
/// a bound, too; None exactly where something passes the limits, or one of its goals doesn't show
/// that the general sides are inside the domains.
fn with_all_bounds<E: Explores>(
    alloc: Global,
    explores: &mut E,
    shape: Followed,
) -> Result<Option<Followed>, NoMemory>
    requires ready { E.ready explores.old }
    ensures ready { E.ready explores.new }
    ensures world { E.world explores.new ≡ E.world explores.old }
    ensures exact { IfOk result (λ o. o ≡ spec.with_all_bounds shape) }
{
    let mut shape = shape;
    let Some(rows) = all_bounds(alloc, &shape)? else {
        return Ok(None);
    };
    shape.bounds = shown_at_all(alloc, explores, rows, shape.goals.as_slice())?;
    generalised(alloc, shape)
}

/// The shape with its general equation, if it has a goal; None exactly where it has one and something
/// passes the limits, or a goal doesn't show that the general sides are inside the domains.
fn first_generalised<E: Explores>(
    alloc: Global,
    explores: &mut E,
    shape: Followed,
) -> Result<Option<Followed>, NoMemory>
    requires ready { E.ready explores.old }
    ensures ready { E.ready explores.new }
    ensures world { E.world explores.new ≡ E.world explores.old }
    ensures exact { IfOk result (λ o. o ≡ spec.first_generalised shape) }
{
    if shape.goals.is_empty() {
        return Ok(Some(shape));
    }
    with_all_bounds(alloc, explores, shape)
}

/// The shapes with their general equations, those that have a goal; None exactly where something
/// passes the limits, or a goal doesn't show that the general sides are inside the domains.
pub(crate) fn all_generalised<E: Explores>(
    alloc: Global,
    explores: &mut E,
    shapes: Items<Followed>,
) -> Result<Option<Items<Followed>>, NoMemory>
    requires ready { E.ready explores.old }
    ensures ready { E.ready explores.new }
    ensures world { E.world explores.new ≡ E.world explores.old }
    ensures exact { IfOk result (λ o. o ≡ try_map spec.first_generalised shapes) }
{
    let mut done = Items::new(alloc);
    for shape in shapes.into_vec() {
        match first_generalised(alloc, explores, shape)? {
            Some(shape) => done.push(shape)?,
            None => return Ok(None),
        }
    }
    Ok(Some(done))
}
