//! Goals of followed shapes.
ghost use Rattle.std.specs.Prelude.{◌≡◌, map, IfOk, OnOk};
ghost use Rattle.std.specs.Option.{option_copied};
ghost use Rattle.rx_shapes.specs.Goals as spec;

use crate::followed::{Followed, KnownGoal, PlacedGoal, copied_goal, copied_values};
use crate::following::shape_of;
use crate::places::places_of;
use rx_plain::{Items, NoMemory};
use rx_poly::{Poly, copied_polys};
use rx_relations::values;
use rx_term::Equation;
use std::alloc::{AllocError, Global};

/// The equation, where these stand at the remainder places.
fn with_rest(alloc: Global, equation: Equation, rest: &[Poly]) -> Result<PlacedGoal, AllocError>
    ensures { IfOk result (λ g. g ≡ spec.with_rest equation rest.now) }
{
    let mut places = places_of(alloc, &equation)?;
    places.append(copied_polys(alloc, rest)?)?;
    Ok(PlacedGoal { equation, places })
}

/// What stands at the remainder places of the shape at first.
fn remainders_in<'a>(shape: Option<&'a Followed>) -> &'a [Poly]
    ensures { result.now ≡ spec.remainders_in (option_copied shape.entry) }
{
    match shape {
        Some(shape) => shape.remainders.as_slice(),
        None => &[],
    }
}

/// What stands there later.
fn variables_in<'a>(shape: Option<&'a Followed>) -> &'a [Poly]
    ensures { result.now ≡ spec.variables_in (option_copied shape.entry) }
{
    match shape {
        Some(shape) => shape.variables.as_slice(),
        None => &[],
    }
}

/// The equation as one of the first goals of its shape.
fn placed_first(
    alloc: Global,
    shapes: &[Followed],
    equation: Equation,
) -> Result<PlacedGoal, AllocError>
    ensures { IfOk result (λ g. g ≡ spec.placed_first shapes.now equation) }
{
    let rest = remainders_in(shape_of(shapes, &equation));
    with_rest(alloc, equation, rest)
}

/// The equation, where it comes of a general equation.
pub(crate) fn placed_later(
    alloc: Global,
    shapes: &[Followed],
    equation: Equation,
) -> Result<PlacedGoal, AllocError>
    ensures { IfOk result (λ g. g ≡ spec.placed_later shapes.now equation) }
{
    let rest = variables_in(shape_of(shapes, &equation));
    with_rest(alloc, equation, rest)
}

/// The goal with the values at its places; None exactly where one passes the limits.
pub(crate) fn known_goal(alloc: Global, goal: PlacedGoal) -> Result<Option<KnownGoal>, NoMemory>
    ensures { IfOk result (λ o. o ≡ spec.known_goal goal) }
{
    match values(alloc, goal.equation.rows.rows(), goal.places.as_slice())? {
        Some(values) => Ok(Some(KnownGoal { goal, values })),
        None => Ok(None),
    }
}

impl Followed {
    /// Adds the goal.
    pub(crate) fn add(&mut self, alloc: Global, known: &KnownGoal) -> Result<(), AllocError>
        ensures { OnOk result (self.new ≡ spec.with_goal known.now self.old) }
    {
        let goal = copied_goal(alloc, &known.goal)?;
        let values = copied_values(alloc, &known.values)?;
        self.goals.push(goal)?;
        self.values.push(values)
    }
}

/// The shape, with the goal if it is of it.
fn put_to(alloc: Global, known: &KnownGoal, shape: Followed) -> Result<Followed, AllocError>
    ensures { IfOk result (λ f. f ≡ spec.put_to known.now shape) }
{
    let mut shape = shape;
    if shape.has(&known.goal.equation) {
        shape.add(alloc, known)?;
    }
    Ok(shape)
}

/// The shapes, with the goal put to its own.
fn put_known(
    alloc: Global,
    shapes: Items<Followed>,
    known: &KnownGoal,
) -> Result<Items<Followed>, AllocError>
    ensures { IfOk result (λ fs. fs ≡ map (spec.put_to known.now) shapes) }
{
    let mut done = Items::new(alloc);
    for shape in shapes.into_vec() {
        done.push(put_to(alloc, known, shape)?)?;
    }
    Ok(done)
}

/// The shapes, with the goal put to its own; None exactly where a value of it passes the limits.
pub(crate) fn put(
    alloc: Global,
    shapes: Items<Followed>,
    equation: &Equation,
) -> Result<Option<Items<Followed>>, NoMemory>
    ensures { IfOk result (λ o. o ≡ spec.put shapes equation.now) }
{
    let copy = equation.try_clone(alloc)?;
    let goal = placed_first(alloc, shapes.as_slice(), copy)?;
    match known_goal(alloc, goal)? {
        Some(known) => Ok(Some(put_known(alloc, shapes, &known)?)),
        None => Ok(None),
    }
}

/// The shapes, with each of the goals put to its own; None exactly where a value of one passes the
/// limits.
pub(crate) fn put_all(
    alloc: Global,
    shapes: Items<Followed>,
    equations: &[Equation],
) -> Result<Option<Items<Followed>>, NoMemory>
    ensures { IfOk result (λ o. o ≡ spec.put_all shapes equations.now) }
{
    let mut shapes = shapes;
    for equation in equations {
        match put(alloc, shapes, equation)? {
            Some(more) => shapes = more,
            None => return Ok(None),
        }
    }
    Ok(Some(shapes))
}
