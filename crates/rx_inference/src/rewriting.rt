//! Steps that rewrite a side of the goal.
ghost use Rattle.std.specs.Prelude.{◌≡◌, ◌∷◌, [], if◌then◌else◌, IfOk};
ghost use Rattle.rx_plain.specs.Formed.{Formed, Forms, map_formed};
ghost use Rattle.rx_term.specs.Paired.{rules_of_shape};
ghost use Rattle.rx_term.specs.Shapes.{shape_of};
ghost use Rattle.rx_term.specs.Stacks.{replace_redex, replace_at};
ghost use Rattle.rx_inference.specs.Forming.{Gives};
ghost use Rattle.rx_inference.specs.Kinds.{expanded, simplified, used};
ghost use Rattle.rx_inference.specs.Making.{expanded_by, expanded_by_all, from_side, hypothesis_with, kept_if, simplified_by, used_by};
ghost use Rattle.rx_inference.specs.Pieces.{side_of, with_side};
ghost use Rattle.rx_inference.specs.declared.pieces.RuleInstance.{RuleInstance};

use crate::form_end::FormEnd;
use crate::formed_step::FormedStep;
use crate::pieces::{
    RuleInstance, asking_for, asking_nothing, equal_arguments, have_one_shape, is_substitution,
    limited, other_side, rule_at, rule_subst, side_of, with_rows, with_side,
};
use crate::step::Side;
use rx_plain::Items;
use rx_poly::{Poly, PolyEnd};
use rx_term::{Equation, Rule, Term};
use std::alloc::{AllocError, Global};

/// The goal with another term in place of the redex of that side; what isn't replaced is copied.
/// Fails only where there is no memory.
pub fn rewritten(
    alloc: Global,
    goal: &Equation,
    side: Side,
    right: Term,
) -> Result<Equation, AllocError>
    ensures { IfOk result (λ e. e ≡ with_side side goal.now
        (replace_redex (side_of side goal.now) right)) }
{
    let term = side_of(goal, side).try_clone(alloc)?.replace_redex(right);
    with_side(alloc, goal, side, term)
}

/// What a rule makes of the redex.
fn simplify_by(
    alloc: Global,
    goal: &Equation,
    side: Side,
    redex: &Term,
    rule: &Rule,
) -> Result<FormedStep, PolyEnd>
    ensures forms { Forms PolyEnd.Large result (simplified_by goal.now side redex.now rule.now) }
{
    let RuleInstance { rows, right } = rule_at(alloc, rule, redex)?;
    let made = rewritten(alloc, goal, side, right)?;
    Ok(asking_for(alloc, rows, made)?)
}

/// A rule replaces the redex of a side.
pub(crate) fn simplify(
    alloc: Global,
    rules: &[Rule],
    goal: &Equation,
    side: Side,
    number: u32,
) -> Result<FormedStep, FormEnd>
    ensures { Gives result (simplified rules.now goal.now side number) }
{
    let Some(redex) = side_of(goal, side).redex() else {
        return Err(FormEnd::WrongShape);
    };
    let Some(rule) = rules.get(number as usize) else {
        return Err(FormEnd::NoSuchRule);
    };
    if !have_one_shape(&rule.left, redex) {
        return Err(FormEnd::WrongShape);
    }
    limited(simplify_by(alloc, goal, side, redex, rule))
}

/// The rows that a hypothesis asks for in place of the part, with those polynomials in place of its
/// variables, and its right side: first that the polynomials of the part equal those of its left
/// side, one by one, and then its own rows. Large exactly where a polynomial of these, or on the
/// way to them, passes the limits.
pub fn hypothesis_at(
    alloc: Global,
    part: &Term,
    hypothesis: &Rule,
    with: &[(u32, Poly)],
) -> Result<RuleInstance, PolyEnd>
    ensures forms { Forms PolyEnd.Large result (hypothesis_with with.now part.now hypothesis.now) }
{
    let left = hypothesis.left.subst(alloc, with)?;
    let mut rows = equal_arguments(alloc, part, &left)?;
    let RuleInstance { rows: more, right } = rule_subst(alloc, hypothesis, with)?;
    rows.append(more)?;
    Ok(RuleInstance { rows, right })
}

/// The goal with another term in place of a part of that side.
fn with_part(
    alloc: Global,
    goal: &Equation,
    side: Side,
    place: u32,
    right: Term,
) -> Result<Equation, AllocError>
    ensures { IfOk result (λ e. e ≡ with_side side goal.now
        (replace_at place (side_of side goal.now) right)) }
{
    let term = side_of(goal, side).try_clone(alloc)?.replace(place, right);
    with_side(alloc, goal, side, term)
}

/// What a hypothesis makes of the part.
fn use_by(
    alloc: Global,
    goal: &Equation,
    side: Side,
    place: u32,
    instance: Result<RuleInstance, PolyEnd>,
) -> Result<FormedStep, PolyEnd>
    ensures forms { (f : Formed RuleInstance) → Forms PolyEnd.Large instance f →
        Forms PolyEnd.Large result (used_by goal.now side place f) }
{
    let RuleInstance { rows, right } = instance?;
    let made = with_part(alloc, goal, side, place, right)?;
    Ok(asking_for(alloc, rows, made)?)
}

/// A hypothesis replaces a part of a side.
pub(crate) fn use_hypothesis(
    alloc: Global,
    hypotheses: &[Rule],
    goal: &Equation,
    side: Side,
    place: u32,
    number: u32,
    with: &[(u32, Poly)],
) -> Result<FormedStep, FormEnd>
    ensures { Gives result (used hypotheses.now goal.now side place number with.now) }
{
    let Some(part) = side_of(goal, side).suffix(place) else {
        return Err(FormEnd::WrongShape);
    };
    if !is_substitution(with) {
        return Err(FormEnd::WrongShape);
    }
    let Some(hypothesis) = hypotheses.get(number as usize) else {
        return Err(FormEnd::NoSuchRule);
    };
    if !have_one_shape(part, &hypothesis.left) {
        return Err(FormEnd::WrongShape);
    }
    let instance = hypothesis_at(alloc, part, hypothesis, with);
    limited(use_by(alloc, goal, side, place, instance))
}

/// What one rule makes of the redex, beside the rule's rows.
fn expand_by(
    alloc: Global,
    goal: &Equation,
    side: Side,
    redex: &Term,
    rule: &Rule,
) -> Result<Equation, PolyEnd>
    ensures forms { Forms PolyEnd.Large result (expanded_by goal.now side redex.now rule.now) }
{
    let RuleInstance { rows, right } = rule_at(alloc, rule, redex)?;
    let made = rewritten(alloc, goal, side, right)?;
    Ok(with_rows(made, rows)?)
}

/// What each rule of the redex's shape makes of it.
fn expand_by_each(
    alloc: Global,
    rules: &[Rule],
    goal: &Equation,
    side: Side,
    redex: &Term,
) -> Result<Items<Equation>, PolyEnd>
    ensures forms { Forms PolyEnd.Large result
        (map_formed (expanded_by goal.now side redex.now)
        (rules_of_shape (shape_of redex.now) rules.now)) }
{
    let mut goals = Items::new(alloc);
    for rule in rules {
        if !have_one_shape(&rule.left, redex) {
            continue;
        }
        let made = expand_by(alloc, goal, side, redex, rule)?;
        goals.push(made)?;
    }
    Ok(goals)
}

/// The goal as a rule, from that side to the other.
fn from_side(alloc: Global, goal: &Equation, side: Side) -> Result<Rule, AllocError>
    ensures { IfOk result (λ r. r ≡ from_side side goal.now) }
{
    Ok(Rule {
        left: side_of(goal, side).try_clone(alloc)?,
        right: other_side(goal, side).try_clone(alloc)?,
        rows: goal.rows.try_clone(alloc)?,
    })
}

/// The goal as a rule, where it is to be kept.
fn kept_if(
    alloc: Global,
    goal: &Equation,
    side: Side,
    keep: bool,
) -> Result<Items<Rule>, AllocError>
    ensures { IfOk result (λ kept. kept ≡ kept_if keep side goal.now) }
{
    let mut kept = Items::new(alloc);
    if keep {
        kept.push(from_side(alloc, goal, side)?)?;
    }
    Ok(kept)
}

/// What the rules make of the redex, and the goal as a rule where it is to be kept.
fn expand_by_all(
    alloc: Global,
    rules: &[Rule],
    goal: &Equation,
    side: Side,
    keep: bool,
    redex: &Term,
) -> Result<FormedStep, PolyEnd>
    ensures forms { Forms PolyEnd.Large result
        (expanded_by_all rules.now goal.now side keep redex.now) }
{
    let goals = expand_by_each(alloc, rules, goal, side, redex)?;
    let kept = kept_if(alloc, goal, side, keep)?;
    Ok(asking_nothing(alloc, goals, kept))
}

/// Each rule of the shape of a side's redex replaces it.
pub(crate) fn expand(
    alloc: Global,
    rules: &[Rule],
    goal: &Equation,
    side: Side,
    keep: bool,
) -> Result<FormedStep, FormEnd>
    ensures { Gives result (expanded rules.now goal.now side keep) }
{
    let Some(redex) = side_of(goal, side).redex() else {
        return Err(FormEnd::WrongShape);
    };
    limited(expand_by_all(alloc, rules, goal, side, keep, redex))
}
