//! The choices at a goal, before they are tried.
ghost use Rattle.std.specs.Prelude.{◌≡◌, ◌∷◌, ◌++◌, IfOk};
ghost use Rattle.rx_poly.specs.Substitution.{numbered};
ghost use Rattle.rx_shapes.specs.Places.{places_of};
ghost use Rattle.rx_shapes.specs.Remainders.{remainders_of};
ghost use Rattle.rx_wider.specs.Menu.{have_redexes, keeping, rest_of, unfolding_only};

use rx_inference::{Side, Step, side_of};
use rx_plain::{Items, NoMemory};
use rx_poly::Poly;
use rx_shapes::{places_of, remainders_of};
use rx_term::Equation;
use std::alloc::Global;

/// A plan of which sides are unfolded where an equation is kept.
#[derive(Clone, Copy, Drop)]
pub struct Plan {
    /// The number of the choice.
    pub number: u8,
    /// The side that is unfolded first, once the equation is kept.
    pub first: Side,
    /// The side that is unfolded after it, if there is one.
    pub second: Option<Side>,
}

/// A choice at a goal, before it is tried.
#[derive(Drop)]
pub struct Candidate {
    /// Its number.
    pub number: u8,
    /// Whether ranks are to be found with the hypothesis that it keeps.
    pub keeps: bool,
    /// Its steps, without certificates.
    pub steps: Items<Step>,
    /// The sides that are still to be unfolded at the goals that come of them.
    pub task: Items<Side>,
}

/// The sides of a plan after the first one.
fn rest_of(alloc: Global, plan: Plan) -> Result<Items<Side>, NoMemory>
    ensures { IfOk result (λ sides. sides ≡ rest_of plan) }
{
    let mut sides = Items::new(alloc);
    if let Some(second) = plan.second {
        sides.push(second)?;
    }
    Ok(sides)
}

/// The sides of a plan, in order.
pub(crate) fn sides_of(alloc: Global, plan: Plan) -> Result<Items<Side>, NoMemory>
    ensures { IfOk result (λ sides. sides ≡ plan.first ∷ rest_of plan) }
{
    let mut sides = Items::new(alloc);
    sides.push(plan.first)?;
    sides.append(rest_of(alloc, plan)?)?;
    Ok(sides)
}

/// Whether each of the sides has a redex.
pub(crate) fn have_redexes(goal: &Equation, sides: &[Side]) -> bool
    ensures { result ≡ have_redexes goal.now sides.now }
{
    sides
        .iter()
        .all(|side| side_of(goal, *side).redex().is_some())
}

/// The polynomials, in place of variables from 0 on.
fn number_all(alloc: Global, polys: Items<Poly>) -> Result<Items<(u32, Poly)>, NoMemory>
    ensures { IfOk result (λ subst. subst ≡ numbered polys) }
{
    let mut subst = Items::with_capacity(alloc, polys.len())?;
    let mut next = 0;
    for poly in polys.into_vec() {
        if next == u32::MAX {
            return Err(NoMemory);
        }
        subst.push((next, poly))?;
        next += 1;
    }
    Ok(subst)
}

/// The polynomials at the places of the goal, those of remainders last.
fn all_places(alloc: Global, goal: &Equation) -> Result<Items<Poly>, NoMemory>
    ensures { IfOk result (λ ps. ps ≡ places_of goal.now ++ remainders_of goal.now) }
{
    let mut places = places_of(alloc, goal)?;
    places.append(remainders_of(alloc, goal)?)?;
    Ok(places)
}

/// The steps by which the goal becomes the equation, of which it is the instance at its places, and
/// the equation is kept.
fn keeping_steps(
    alloc: Global,
    goal: &Equation,
    plan: Plan,
    equation: Equation,
) -> Result<Items<Step>, NoMemory>
    ensures { IfOk result (λ steps. steps ≡ (keeping goal.now plan equation).steps) }
{
    let subst = number_all(alloc, all_places(alloc, goal)?)?;
    let Equation { left, right, rows } = equation;
    Ok(Items::from_vec(vec![in alloc;
        Step::Generalise {
            left,
            right,
            rows,
            subst,
            certs: Items::new(alloc),
        },
        Step::Expand {
            side: plan.first,
            keep: true,
        },
    ]?))
}

/// The choice to keep the equation, by the plan.
pub(crate) fn keeping(
    alloc: Global,
    goal: &Equation,
    plan: Plan,
    equation: Equation,
) -> Result<Candidate, NoMemory>
    ensures { IfOk result (λ c. c ≡ keeping goal.now plan equation) }
{
    Ok(Candidate {
        number: plan.number,
        keeps: true,
        steps: keeping_steps(alloc, goal, plan, equation)?,
        task: rest_of(alloc, plan)?,
    })
}

/// The choice to unfold a side without keeping the goal.
pub(crate) fn unfolding_only(alloc: Global, number: u8, side: Side) -> Result<Candidate, NoMemory>
    ensures { IfOk result (λ c. c ≡ unfolding_only number side) }
{
    Ok(Candidate {
        number,
        keeps: false,
        steps: Items::from_vec(vec![in alloc; Step::Expand { side, keep: false }]?),
        task: Items::new(alloc),
    })
}
