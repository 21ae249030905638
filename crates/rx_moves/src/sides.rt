//! The redexes of both sides of a goal.
ghost use Rattle.std.specs.Prelude.{◌≡◌, IfOk};
ghost use Rattle.rx_inference.specs.declared.step.Side.{Side};
ghost use Rattle.rx_solve.specs.Answers.{IsSolver};
ghost use Rattle.rx_moves.specs.Answers.{IsFoundAt};
ghost use Rattle.rx_moves.specs.LoopPoints.{AreLoopPoints};
ghost use Rattle.rx_moves.specs.Unfolding.{leaving_side, leaving_sides, redex_symbol};
ghost use Rattle.rx_moves.specs.Unfolding.{unfolding_side, unfolding_sides};

use crate::expanding::find_expansion;
use crate::found::Found;
use crate::loop_points::LoopPoints;
use crate::rules::find_rules;
use rx_cert::Cert;
use rx_fm::FmEnd;
use rx_inference::{Side, side_of};
use rx_plain::NoMemory;
use rx_row::Constraint;
use rx_term::{Equation, RuleSet, Sym};
use std::alloc::Global;

/// The symbol of the redex of a side, if that has one.
fn redex_symbol(goal: &Equation, side: Side) -> Option<Sym>
    ensures { result ≡ redex_symbol side goal.now }
{
    match side_of(goal, side).redex() {
        Some(redex) => redex.root(),
        None => None,
    }
}

/// A side, where its redex is at no loop point: the rules in order, and then its expansion.
fn find_unfolding_side<S: FnMut(&Constraint) -> Result<Option<Cert>, FmEnd>>(
    alloc: Global,
    rules: &RuleSet,
    points: &LoopPoints,
    goal: &Equation,
    side: Side,
    solve: &mut S,
) -> Result<Found, NoMemory>
    requires points { AreLoopPoints rules.now points.now }
    requires solver { IsSolver S.FnMut solve.old }
    ensures solver { IsSolver S.FnMut solve.new }
    ensures found { IfOk result (IsFoundAt rules.now goal.now (λ state.
        unfolding_side rules.now state side goal.now)) }
{
    if points.is_at_loop_point(redex_symbol(goal, side)) {
        return Ok(Found::failed());
    }
    let noted = match find_rules(alloc, rules, points, goal, side, None, solve)?.unready() {
        Ok(noted) => noted,
        Err(found) => return Ok(found),
    };
    let expanded = find_expansion(alloc, rules, goal, side)?;
    Ok(expanded.after(noted))
}

/// What unfolds a side of the goal whose redex is at no loop point, the left one first: the rules
/// in order, and then the expansion. Fails only where there is no memory.
pub fn find_unfolding<S: FnMut(&Constraint) -> Result<Option<Cert>, FmEnd>>(
    alloc: Global,
    rules: &RuleSet,
    points: &LoopPoints,
    goal: &Equation,
    solve: &mut S,
) -> Result<Found, NoMemory>
    requires points { AreLoopPoints rules.now points.now }
    requires solver { IsSolver S.FnMut solve.old }
    ensures solver { IsSolver S.FnMut solve.new }
    ensures found { IfOk result (IsFoundAt rules.now goal.now (λ state.
        unfolding_sides rules.now state goal.now)) }
{
    let left = find_unfolding_side(alloc, rules, points, goal, Side::Left, solve)?;
    let noted = match left.unready() {
        Ok(noted) => noted,
        Err(found) => return Ok(found),
    };
    let right = find_unfolding_side(alloc, rules, points, goal, Side::Right, solve)?;
    Ok(right.after(noted))
}

/// A side, where its redex is at a loop point: the rules in order that leave its component.
fn find_leaving_side<S: FnMut(&Constraint) -> Result<Option<Cert>, FmEnd>>(
    alloc: Global,
    rules: &RuleSet,
    points: &LoopPoints,
    goal: &Equation,
    side: Side,
    solve: &mut S,
) -> Result<Found, NoMemory>
    requires points { AreLoopPoints rules.now points.now }
    requires solver { IsSolver S.FnMut solve.old }
    ensures solver { IsSolver S.FnMut solve.new }
    ensures found { IfOk result (IsFoundAt rules.now goal.now (λ state.
        leaving_side rules.now state side goal.now)) }
{
    let redex = redex_symbol(goal, side);
    if !points.is_at_loop_point(redex) {
        return Ok(Found::failed());
    }
    find_rules(alloc, rules, points, goal, side, redex, solve)
}

/// What leaves the loop of a side of the goal whose redex is at a loop point, the left one first:
/// the rules in order whose right sides don't begin in its component. Fails only where there is no
/// memory.
pub fn find_leaving<S: FnMut(&Constraint) -> Result<Option<Cert>, FmEnd>>(
    alloc: Global,
    rules: &RuleSet,
    points: &LoopPoints,
    goal: &Equation,
    solve: &mut S,
) -> Result<Found, NoMemory>
    requires points { AreLoopPoints rules.now points.now }
    requires solver { IsSolver S.FnMut solve.old }
    ensures solver { IsSolver S.FnMut solve.new }
    ensures found { IfOk result (IsFoundAt rules.now goal.now (λ state.
        leaving_sides rules.now state goal.now)) }
{
    let left = find_leaving_side(alloc, rules, points, goal, Side::Left, solve)?;
    let noted = match left.unready() {
        Ok(noted) => noted,
        Err(found) => return Ok(found),
    };
    let right = find_leaving_side(alloc, rules, points, goal, Side::Right, solve)?;
    Ok(right.after(noted))
}
