//! The match of a hypothesis with a part where the other side of the goal sets variables too.
ghost use Rattle.std.specs.Prelude.{◌≡◌, Some, IfOk, option_and_then};
ghost use Rattle.rx_inference.specs.Pieces.{other_side};
ghost use Rattle.rx_match.specs.Beside.{by_equations, by_other_side, by_part, by_result, if_unset, matching_beside, returned_variable, solved_for, wanted, wanted_in, where_unset, with_unknown, with_value};
ghost use Rattle.rx_match.specs.Simplification.{returned};
ghost use Rattle.rx_plain.specs.Formed.{Forms};

use crate::arguments::set_by_terms;
use crate::equations::pass_often;
use crate::matching::match_part;
use crate::settings::{is_set, set_to};
use crate::simplifying::{returned, simplify_often};
use crate::unset::is_rule_set;
use rx_cert::solve;
use rx_inference::{Side, have_one_shape, side_of};
use rx_plain::Items;
use rx_poly::{Poly, PolyEnd};
use rx_term::{Equation, Rule, Term};
use std::alloc::{AllocError, Global};

/// Numbers of variables are below this.
const VARIABLE_LIMIT: u64 = 1 << 31;

/// Where a hypothesis is to be used.
#[derive(Clone, Copy)]
pub(crate) struct Spot<'a> {
    /// The goal.
    pub(crate) goal: &'a Equation,
    /// The hypothesis.
    pub(crate) hypothesis: &'a Rule,
    /// The side of the goal.
    pub(crate) side: Side,
    /// How many frames are over the part of that side.
    pub(crate) place: u32,
}

/// The other side of the goal, borrowed.
fn other_side(goal: &Equation, side: Side) -> &Term
    ensures { result.now ≡ other_side side goal.now }
{
    match side {
        Side::Left => &goal.right,
        Side::Right => &goal.left,
    }
}

/// The settings with what the hypothesis's equations set. Large exactly where a value or its
/// instance passes the limits.
fn set_by_equations(
    alloc: Global,
    hypothesis: &Rule,
    settings: Items<(u32, Poly)>,
) -> Result<Items<(u32, Poly)>, PolyEnd>
    ensures forms { Forms PolyEnd.Large result (by_equations hypothesis.now settings) }
{
    pass_often(alloc, settings, hypothesis.rows.rows())
}

/// The settings with what a part beside sets, where it has the shape of the hypothesis's right
/// side, and the equations after it.
fn set_by_part(
    alloc: Global,
    hypothesis: &Rule,
    settings: Items<(u32, Poly)>,
    part: &Term,
) -> Result<Items<(u32, Poly)>, PolyEnd>
    ensures forms { Forms PolyEnd.Large result (by_part hypothesis.now settings (Some part.now)) }
{
    if !have_one_shape(part, &hypothesis.right) {
        return Ok(settings);
    }
    let settings = set_by_terms(alloc, &hypothesis.right, part, settings)?;
    set_by_equations(alloc, hypothesis, settings)
}

/// The settings with what the part under equally many frames of the other side sets.
fn set_by_other_side(
    alloc: Global,
    spot: &Spot<'_>,
    settings: Items<(u32, Poly)>,
) -> Result<Items<(u32, Poly)>, PolyEnd>
    ensures forms { Forms PolyEnd.Large result (by_other_side spot.now.goal.now
        spot.now.hypothesis.now spot.now.side spot.now.place settings) }
{
    match other_side(spot.goal, spot.side).suffix(spot.place) {
        Some(part) => set_by_part(alloc, spot.hypothesis, settings, part),
        None => Ok(settings),
    }
}

/// What the variable is where the term returns the wanted value, where that says a value of it.
/// Large exactly where a polynomial on the way passes the limits.
fn solve_for(
    alloc: Global,
    variable: u32,
    wanted: &Poly,
    end: &Term,
) -> Result<Option<Poly>, PolyEnd>
    ensures forms { Forms PolyEnd.Large result
        (solved_for variable wanted.now (returned end.now)) }
{
    match returned(end) {
        Some(value) => {
            let gap = value.sub(alloc, wanted)?;
            solve(alloc, &gap, variable)
        }
        None => Ok(None),
    }
}

/// What the variable must be for the term to come to the wanted value, simplified without a choice.
fn find_wanted(
    alloc: Global,
    rules: &[Rule],
    variable: u32,
    term: Term,
    value: &Poly,
) -> Result<Option<Poly>, PolyEnd>
    ensures forms { Forms PolyEnd.Large result (wanted rules.now variable term value.now) }
{
    let end = simplify_often(alloc, rules, term)?;
    solve_for(alloc, variable, value, &end)
}

/// The side with the variable as a result in place of the part.
fn with_unknown(
    alloc: Global,
    goal: &Equation,
    side: Side,
    place: u32,
    variable: u32,
) -> Result<Term, AllocError>
    ensures { IfOk result (λ t. t ≡ with_unknown goal.now side place variable) }
{
    let unknown = Term::Return(Poly::variable(alloc, variable)?);
    Ok(
        side_of(goal, side)
            .try_clone(alloc)?
            .replace(place, unknown),
    )
}

/// What a new variable in place of the part must be for the side to come to the wanted value.
fn wanted_in(
    alloc: Global,
    rules: &[Rule],
    goal: &Equation,
    side: Side,
    place: u32,
    value: &Poly,
) -> Result<Option<Poly>, PolyEnd>
    ensures forms { Forms PolyEnd.Large result (wanted_in rules.now goal.now side place value.now) }
{
    let bound = goal.variable_bound();
    if bound >= VARIABLE_LIMIT {
        return Ok(None);
    }
    let variable = bound as u32;
    let term = with_unknown(alloc, goal, side, place, variable)?;
    find_wanted(alloc, rules, variable, term, value)
}

/// The variable that the hypothesis returns, where it isn't set.
fn unset_result(hypothesis: &Rule, settings: &[(u32, Poly)]) -> Option<u32>
    ensures { result ≡ option_and_then (if_unset settings.now)
        (returned_variable hypothesis.now) }
{
    let variable = returned(&hypothesis.right)?.as_variable()?;
    if is_set(settings, variable) {
        None
    } else {
        Some(variable)
    }
}

/// The settings with the variable set to the value, if there is one, and the equations after it.
fn set_value(
    alloc: Global,
    hypothesis: &Rule,
    settings: Items<(u32, Poly)>,
    variable: u32,
    value: Option<Poly>,
) -> Result<Items<(u32, Poly)>, PolyEnd>
    ensures forms { Forms PolyEnd.Large result
        (with_value hypothesis.now settings variable value) }
{
    match value {
        Some(value) => {
            let settings = set_to(settings, variable, value)?;
            set_by_equations(alloc, hypothesis, settings)
        }
        None => Ok(settings),
    }
}

/// The settings with the variable that the hypothesis returns set to what makes this side come to
/// the result on the other one.
fn set_by_result(
    alloc: Global,
    rules: &[Rule],
    spot: &Spot<'_>,
    settings: Items<(u32, Poly)>,
) -> Result<Items<(u32, Poly)>, PolyEnd>
    ensures forms { Forms PolyEnd.Large result (by_result rules.now spot.now.goal.now
        spot.now.hypothesis.now spot.now.side spot.now.place settings) }
{
    let Some(variable) = unset_result(spot.hypothesis, settings.as_slice()) else {
        return Ok(settings);
    };
    let Some(wanted) = returned(other_side(spot.goal, spot.side)) else {
        return Ok(settings);
    };
    let value = wanted_in(alloc, rules, spot.goal, spot.side, spot.place, wanted)?;
    set_value(alloc, spot.hypothesis, settings, variable, value)
}

/// The settings with what the part beside sets, where a variable of the hypothesis is unset.
fn set_unset_by_part(
    alloc: Global,
    spot: &Spot<'_>,
    settings: Items<(u32, Poly)>,
) -> Result<Items<(u32, Poly)>, PolyEnd>
    ensures forms { Forms PolyEnd.Large result (where_unset spot.now.hypothesis.now
        (by_other_side spot.now.goal.now spot.now.hypothesis.now spot.now.side spot.now.place)
        settings) }
{
    if is_rule_set(alloc, settings.as_slice(), spot.hypothesis)? {
        return Ok(settings);
    }
    set_by_other_side(alloc, spot, settings)
}

/// The settings with what the result that is wanted sets, where a variable of the hypothesis is
/// unset.
fn set_unset_by_result(
    alloc: Global,
    rules: &[Rule],
    spot: &Spot<'_>,
    settings: Items<(u32, Poly)>,
) -> Result<Items<(u32, Poly)>, PolyEnd>
    ensures forms { Forms PolyEnd.Large result (where_unset spot.now.hypothesis.now
        (by_result rules.now spot.now.goal.now spot.now.hypothesis.now spot.now.side
        spot.now.place) settings) }
{
    if is_rule_set(alloc, settings.as_slice(), spot.hypothesis)? {
        return Ok(settings);
    }
    set_by_result(alloc, rules, spot, settings)
}

/// What the variables of the hypothesis are set to at the part: as without the other side, and
/// where one isn't set then, by the part beside, and by the result that is wanted. Large exactly
/// where a polynomial on the way passes the limits.
pub(crate) fn match_beside(
    alloc: Global,
    rules: &[Rule],
    spot: &Spot<'_>,
    part: &Term,
) -> Result<Items<(u32, Poly)>, PolyEnd>
    ensures forms { Forms PolyEnd.Large result (matching_beside rules.now spot.now.goal.now
        spot.now.hypothesis.now spot.now.side spot.now.place part.now) }
{
    let alone = match_part(alloc, spot.hypothesis, part)?;
    let beside = set_unset_by_part(alloc, spot, alone)?;
    set_unset_by_result(alloc, rules, spot, beside)
}
