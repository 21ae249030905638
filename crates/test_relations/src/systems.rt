//! Transition systems: what comes of goals by transitions from shape to shape.
ghost use Rattle.std.specs.Prelude.{◌≡◌, ◌++◌, IfOk};
ghost use Rattle.rx_plain.specs.Formed.{Forms};
ghost use Rattle.rx_relations.specs.Applying.{form_within};
ghost use Rattle.rx_shapes.specs.Places.{places_of};
ghost use Rattle.rx_shapes.specs.Shown.{is_shown};
ghost use Rattle.test_relations.specs.Leading as spec;

use rx_fm::FmEnd;
use rx_inference::{Side, have_one_shape};
use rx_plain::{Items, NoMemory};
use rx_poly::{Poly, PolyEnd};
use rx_row::{Constraint, Row};
use rx_shapes::{Explores, places_of};
use rx_solve::entails;
use rx_term::Equation;
use std::alloc::{AllocError, Global};

/// From goals of a shape to an equation at their places.
#[derive(Drop)]
pub struct Transition {
    /// An equation of that shape.
    pub from: Equation,
    /// The equation, in which variable i stands for the polynomial at place i.
    pub to: Equation,
}

/// Transitions, in order.
#[derive(Drop)]
pub struct System {
    /// The allocator.
    pub alloc: Global,
    /// The transitions.
    pub transitions: Items<Transition>,
}

/// Whether the transition leads from the goal.
fn leads_from(transition: &Transition, goal: &Equation) -> bool
    ensures { result ≡ spec.leads_from transition.now goal.now }
{
    have_one_shape(&transition.from.left, &goal.left)
        && have_one_shape(&transition.from.right, &goal.right)
}

/// Both lists, one after the other.
fn joined(alloc: Global, rows: &Constraint, more: Constraint) -> Result<Constraint, AllocError>
    ensures { IfOk result (λ c. c ≡ rows.now ++ more) }
{
    let copies = rows.try_clone(alloc)?;
    let mut all = Items::from_vec(copies.into_rows());
    all.append(Items::from_vec(more.into_rows()))?;
    Ok(Constraint::from_rows(all.into_vec()))
}

/// The equation at these polynomials, under these rows too; Large exactly where a polynomial passes
/// the limits.
fn placed_at(
    alloc: Global,
    places: &[Poly],
    rows: &Constraint,
    to: &Equation,
) -> Result<Equation, PolyEnd>
    ensures { Forms PolyEnd.Large result (spec.placed_at places.now rows.now to.now) }
{
    let left = to.left.at_args(alloc, places)?;
    let right = to.right.at_args(alloc, places)?;
    let more = to.rows.at_args(alloc, places)?;
    let rows = joined(alloc, rows, more)?;
    Ok(Equation { left, right, rows })
}

/// The equation to which the transition leads from the goal; None exactly where a polynomial passes
/// the limits.
fn reached(
    alloc: Global,
    goal: &Equation,
    transition: &Transition,
) -> Result<Option<Equation>, NoMemory>
    ensures { IfOk result (λ o. o ≡
        form_within (spec.placed_at (places_of goal.now) goal.now.rows transition.now.to)) }
{
    let places = places_of(alloc, goal)?;
    match placed_at(alloc, places.as_slice(), &goal.rows, &transition.to) {
        Ok(equation) => Ok(Some(equation)),
        Err(PolyEnd::Large) => Ok(None),
        Err(PolyEnd::NoMemory) => Err(NoMemory),
    }
}

/// The equations, and then that to which the transition leads from the goal, if it leads from it;
/// None exactly where a polynomial of it passes the limits.
fn with_transition(
    alloc: Global,
    goal: &Equation,
    found: Items<Equation>,
    transition: &Transition,
) -> Result<Option<Items<Equation>>, NoMemory>
    ensures { IfOk result (λ o. o ≡ spec.with_transition goal.now found transition.now) }
{
    if !leads_from(transition, goal) {
        return Ok(Some(found));
    }
    match reached(alloc, goal, transition)? {
        Some(equation) => {
            let mut all = found;
            all.push(equation)?;
            Ok(Some(all))
        }
        None => Ok(None),
    }
}

/// The equations to which the transitions lead from the goal; None exactly where a polynomial of one
/// passes the limits.
fn led(
    alloc: Global,
    transitions: &[Transition],
    task: &[Side],
    goal: &Equation,
) -> Result<Option<Items<Equation>>, NoMemory>
    ensures { IfOk result (λ o. o ≡ spec.led transitions.now task.now goal.now) }
{
    let _task = task;
    let mut found = Items::new(alloc);
    for transition in transitions {
        match with_transition(alloc, goal, found, transition)? {
            Some(more) => found = more,
            None => return Ok(None),
        }
    }
    Ok(Some(found))
}

/// Whether the refuter shows the row under the given ones.
fn is_shown_by(alloc: Global, given: &Constraint, row: &Row) -> Result<bool, NoMemory>
    ensures { IfOk result (λ b. b ≡ is_shown given.now row.now) }
{
    match entails(alloc, given, row) {
        Ok(Some(None)) => Ok(true),
        Ok(Some(Some(_cert))) => Ok(true),
        Ok(None) => Ok(false),
        Err(FmEnd::Large) => Ok(false),
        Err(FmEnd::NoMemory) => Err(NoMemory),
    }
}

impl Explores for System {
    ghost use Rattle.std.specs.Prelude.{List};
    ghost use Rattle.test_relations.specs.Leading as spec;
    ghost use Rattle.test_relations.specs.declared.systems.Transition.{Transition};

    ghost World = { List Transition };

    ghost world = { λ s. s.transitions };

    ghost ready = { λ _. Unit {0} };

    ghost found = { spec.led };

    fn descendants(
        &mut self,
        task: &[Side],
        goal: &Equation,
    ) -> Result<Option<Items<Equation>>, NoMemory> {
        led(self.alloc, self.transitions.as_slice(), task, goal)
    }

    fn shows(&mut self, given: &Constraint, row: &Row) -> Result<bool, NoMemory> {
        is_shown_by(self.alloc, given, row)
    }
}
