//! Constants in calls of loop heads become variables.
ghost use Rattle.std.specs.Prelude.{◌≡◌, ◌<◌, Some, IfOk};
ghost use Rattle.rx_plain.specs.Formed.{Forms};
ghost use Rattle.rx_poly.specs.Constants.{number};
ghost use Rattle.rx_row.specs.Membership.{stands_among};
ghost use Rattle.rx_row.specs.Naming.{named};
ghost use Rattle.rx_lemma.specs.NamingCalls as calls;
ghost use Rattle.rx_inference.specs.Pieces.{side_of, other_side};
ghost use Rattle.rx_lemma.specs.Naming.{Answers, gives, goal_with, named_as, named_new};
ghost use Rattle.rx_lemma.specs.Naming.{naming_at, naming_by, naming_constant};
ghost use Rattle.rx_lemma.specs.Naming.{naming_from, naming_new};
ghost use Rattle.rx_lemma.specs.Lemmas.{variables_end};

use crate::lemma::VARIABLES_END;
use crate::naming_calls::{constant_at, variable_at, with_variable};
use rx_inference::{Side, side_of};
use rx_plain::Items;
use rx_poly::{Poly, PolyEnd};
use rx_row::{Constraint, Row};
use rx_term::{Equation, NoMemory, Term};
use std::alloc::{AllocError, Global};

/// A goal of which some constants are named.
#[derive(Drop)]
pub(crate) struct Naming {
    /// The goal, as it is by now.
    pub(crate) goal: Equation,
    /// Its new variables, each with its constant.
    pub(crate) subst: Items<(u32, Poly)>,
    /// The number of the next new variable.
    pub(crate) fresh: u64,
}

/// The other side of the goal, borrowed.
fn other_side(goal: &Equation, side: Side) -> &Term
    ensures { result.now ≡ other_side side goal.now }
{
    match side {
        Side::Left => &goal.right,
        Side::Right => &goal.left,
    }
}

/// The number as a polynomial.
fn constant(alloc: Global, integer: &i128) -> Result<Poly, AllocError>
    ensures { IfOk result (λ p. p ≡ number integer.now) }
{
    Poly::constant(alloc, *integer)
}

/// The row that says that the variable is the number. Large exactly where it passes the limits.
fn value_row(alloc: Global, variable: u32, integer: &i128) -> Result<Row, PolyEnd>
    ensures forms { Forms PolyEnd.Large result (named variable integer.now) }
{
    Row::named(alloc, variable, *integer)
}

/// Whether the row is one of the rows.
fn stands_among(rows: &Constraint, row: &Row) -> bool
    ensures { result ≡ stands_among rows.now row.now }
{
    rows.contains(row)
}

/// The goal with the variable at that place of the side's call.
fn goal_with(
    alloc: Global,
    goal: Equation,
    side: Side,
    place: usize,
    variable: u32,
) -> Result<Equation, AllocError>
    ensures { IfOk result (λ e. e ≡ goal_with side place variable goal) }
{
    let Equation { left, right, rows } = goal;
    match side {
        Side::Left => {
            let left = with_variable(alloc, left, place, variable)?;
            Ok(Equation { left, right, rows })
        }
        Side::Right => {
            let right = with_variable(alloc, right, place, variable)?;
            Ok(Equation { left, right, rows })
        }
    }
}

/// The variable, which has the value by a row, is written at the place.
fn named_as(
    alloc: Global,
    naming: Naming,
    side: Side,
    place: usize,
    variable: u32,
) -> Result<Naming, AllocError>
    ensures { IfOk result (λ n. n ≡ named_as side place variable naming) }
{
    let Naming { goal, subst, fresh } = naming;
    let goal = goal_with(alloc, goal, side, place, variable)?;
    Ok(Naming { goal, subst, fresh })
}

/// The next new variable is written at the place, with the row that gives it the value.
fn named_new(
    alloc: Global,
    naming: Naming,
    side: Side,
    place: usize,
    integer: &i128,
    row: Row,
) -> Result<Naming, NoMemory>
    requires { naming.fresh < variables_end }
    ensures { IfOk result (λ n. n ≡ named_new side place integer.now row naming) }
{
    let Naming { goal, subst, fresh } = naming;
    let variable = fresh as u32;
    let mut goal = goal_with(alloc, goal, side, place, variable)?;
    goal.rows.push(row)?;
    let mut subst = subst;
    subst.push((variable, constant(alloc, integer)?))?;
    Ok(Naming {
        goal,
        subst,
        fresh: fresh + 1,
    })
}

/// A new variable in place of the constant; None where there are no more variables. Large exactly
/// where its row passes the limits.
#[tactic(auto, unfolding(crate::specs::Naming::naming_new))]
fn name_new(
    alloc: Global,
    naming: Naming,
    side: Side,
    place: usize,
    integer: &i128,
) -> Result<Option<Naming>, PolyEnd>
    ensures { Answers (naming_new side place integer.now naming) result }
{
    if naming.fresh >= VARIABLES_END {
        return Ok(None);
    }
    let row = value_row(alloc, naming.fresh as u32, integer)?;
    match named_new(alloc, naming, side, place, integer, row) {
        Ok(next) => Ok(Some(next)),
        Err(NoMemory) => Err(PolyEnd::NoMemory),
    }
}

/// Whether one of the rows gives the variable the value. Large exactly where such a row passes the
/// limits.
fn gives(alloc: Global, rows: &Constraint, variable: u32, integer: &i128) -> Result<bool, PolyEnd>
    ensures forms { Forms PolyEnd.Large result (gives variable integer.now rows.now) }
{
    let row = value_row(alloc, variable, integer)?;
    Ok(stands_among(rows, &row))
}

/// The variable in place of the constant, where a row gives it the value; else a new one.
#[tactic(auto, unfolding(crate::specs::Naming::naming_constant))]
fn name_by(
    alloc: Global,
    naming: Naming,
    side: Side,
    place: usize,
    integer: &i128,
    variable: u32,
) -> Result<Option<Naming>, PolyEnd>
    ensures { Answers (naming_by side place integer.now naming (Some variable)) result }
{
    let known = gives(alloc, &naming.goal.rows, variable, integer)?;
    if known {
        return Ok(Some(named_as(alloc, naming, side, place, variable)?));
    }
    name_new(alloc, naming, side, place, integer)
}

/// The variable of the other side's call, as it is by then, that is alone at the place.
fn other_variable(goal: &Equation, side: Side, place: usize) -> Option<u32>
    ensures { result ≡ calls.variable_at place (side_of side goal.now) (other_side side goal.now) }
{
    variable_at(side_of(goal, side), other_side(goal, side), place)
}

/// The other call's variable in place of the constant, where a row gives it the value; else a new
/// one.
#[tactic(auto, unfolding(crate::specs::Naming::naming_constant))]
fn name_constant(
    alloc: Global,
    naming: Naming,
    side: Side,
    place: usize,
    integer: &i128,
) -> Result<Option<Naming>, PolyEnd>
    ensures { Answers (naming_constant side place integer.now naming) result }
{
    match other_variable(&naming.goal, side, place) {
        Some(variable) => name_by(alloc, naming, side, place, integer, variable),
        None => name_new(alloc, naming, side, place, integer),
    }
}

/// The constant at the place of the side's call is named, if there is one.
#[tactic(auto, unfolding(crate::specs::Naming::naming_at))]
fn name_at(
    alloc: Global,
    naming: Naming,
    side: Side,
    place: usize,
) -> Result<Option<Naming>, PolyEnd>
    ensures { Answers (naming_at side place naming) result }
{
    match constant_at(side_of(&naming.goal, side), place) {
        Some(integer) => name_constant(alloc, naming, side, place, &integer),
        None => Ok(Some(naming)),
    }
}

/// The constants at the first places of the side's call are named, in order.
pub(crate) fn name_places(
    alloc: Global,
    naming: Naming,
    side: Side,
    count: usize,
) -> Result<Option<Naming>, PolyEnd>
    ensures { Answers (naming_from side 0 count naming) result }
{
    let mut naming = naming;
    for place in 0..count {
        match name_at(alloc, naming, side, place)? {
            Some(next) => naming = next,
            None => return Ok(None),
        }
    }
    Ok(Some(naming))
}
