//! Shapes that are followed, with what is known of their goals.
ghost use Rattle.std.specs.Prelude.{◌≡◌, IfOk};
ghost use Rattle.rx_shapes.specs.Following.{is_of};

use rx_inference::{Side, have_one_shape};
use rx_plain::Items;
use rx_poly::{Poly, copied_polys};
use rx_relations::Instance;
use rx_row::{Constraint, Row};
use rx_term::Equation;
use std::alloc::{AllocError, Global};

/// A goal of a shape.
#[derive(Drop)]
pub(crate) struct PlacedGoal {
    /// The goal.
    pub(crate) equation: Equation,
    /// The polynomials at all places of the shape, those of remainders last.
    pub(crate) places: Items<Poly>,
}

/// A goal with the values at its places.
#[derive(Drop)]
pub(crate) struct KnownGoal {
    /// The goal.
    pub(crate) goal: PlacedGoal,
    /// The values.
    pub(crate) values: Instance,
}

/// A shape that is followed.
#[derive(Drop)]
pub(crate) struct Followed {
    /// Its general equation, of this moment.
    pub(crate) general: Equation,
    /// The sides that are to be unfolded in a goal of it, in order.
    pub(crate) task: Items<Side>,
    /// What stands at its remainder places in its first goals.
    pub(crate) remainders: Items<Poly>,
    /// The variables of these places.
    pub(crate) variables: Items<Poly>,
    /// The rows that put its general sides inside the domains.
    pub(crate) inside: Items<Row>,
    /// Rows that may hold at all its goals.
    pub(crate) bounds: Constraint,
    /// Its goals so far.
    pub(crate) goals: Items<PlacedGoal>,
    /// The values at their places, goal by goal.
    pub(crate) values: Items<Instance>,
}

impl Followed {
    /// Whether the equation is of the shape.
    pub(crate) fn has(&self, equation: &Equation) -> bool
        ensures { result ≡ is_of equation.now self.now }
    {
        have_one_shape(&self.general.left, &equation.left)
            && have_one_shape(&self.general.right, &equation.right)
    }
}

/// The same goal once more; fails only when out of memory.
pub(crate) fn copied_goal(alloc: Global, goal: &PlacedGoal) -> Result<PlacedGoal, AllocError>
    ensures { IfOk result (λ made. made ≡ goal.now) }
{
    Ok(PlacedGoal {
        equation: goal.equation.try_clone(alloc)?,
        places: copied_polys(alloc, goal.places.as_slice())?,
    })
}

/// The same values once more; fails only when out of memory.
pub(crate) fn copied_values(alloc: Global, values: &Instance) -> Result<Instance, AllocError>
    ensures { IfOk result (λ made. made ≡ values.now) }
{
    let copies = copied_polys(alloc, values.values.as_slice())?;
    let equations = copied_polys(alloc, values.equations.as_slice())?;
    Ok(Instance {
        values: copies,
        equations,
    })
}
