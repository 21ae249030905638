//! The parts of which steps are formed.
ghost use Rattle.std.specs.Prelude.{◌≡◌, ◌∷◌, [], IfOk, IfSome, OnOk};
ghost use Rattle.std.specs.List.{list_all};
ghost use Rattle.rx_plain.specs.Formed.{Formed, Forms};
ghost use Rattle.rx_poly.specs.Substitution.{numbered};
ghost use Rattle.rx_row.specs.Membership.{pushed};
ghost use Rattle.rx_term.specs.Differences.{term_differences};
ghost use Rattle.rx_term.specs.Meaning.{matched};
ghost use Rattle.rx_term.specs.Variables.{arguments_of};
ghost use Rattle.rx_inference.specs.Forming.{Gives, limited};
ghost use Rattle.rx_inference.specs.Pieces.{all_pushed, all_zero, have_one_shape, asking, asking_nothing, equal_arguments, equal_lists, is_equation, is_replacement, is_substitution, other_side, rises, rule_with, side_of, with_rows, with_side};

use crate::form_end::FormEnd;
use crate::formed_step::{Asked, FormedStep, Group, Under};
use crate::step::Side;
use rx_plain::Items;
use rx_poly::{Poly, PolyEnd, variable_bound};
use rx_row::{Constraint, Row, rows_at_args, subst_rows};
use rx_term::{Equation, Rule, RuleParts, Term, differences};
use std::alloc::{AllocError, Global};

/// The numbers of variables are below this.
pub(crate) const VARIABLE_LIMIT: u64 = 1 << 31;

/// Rows that are asked, and what replaces the redex or the part.
#[derive(Drop)]
pub struct RuleInstance {
    /// The rows: a rule's, or those that a hypothesis asks for.
    pub rows: Items<Row>,
    /// The right side of the rule or the hypothesis.
    pub right: Term,
}

/// Whether the two terms have one shape: they are one stack, their polynomials left out. Takes no
/// memory.
pub fn have_one_shape(left: &Term, right: &Term) -> bool
    ensures { result ≡ have_one_shape left.now right.now }
{
    left.has_shape_of(right)
}

/// That side of the goal, borrowed.
pub fn side_of(goal: &Equation, side: Side) -> &Term
    ensures { result.now ≡ side_of side goal.now }
{
    match side {
        Side::Left => &goal.left,
        Side::Right => &goal.right,
    }
}

/// The other side of the goal, borrowed.
pub(crate) fn other_side(goal: &Equation, side: Side) -> &Term
    ensures { result.now ≡ other_side side goal.now }
{
    match side {
        Side::Left => &goal.right,
        Side::Right => &goal.left,
    }
}

/// A copy of the goal with that term as that side.
pub(crate) fn with_side(
    alloc: Global,
    goal: &Equation,
    side: Side,
    term: Term,
) -> Result<Equation, AllocError>
    ensures { IfOk result (λ e. e ≡ with_side side goal.now term) }
{
    let other = other_side(goal, side).try_clone(alloc)?;
    let rows = goal.rows.try_clone(alloc)?;
    match side {
        Side::Left => Ok(Equation {
            left: term,
            right: other,
            rows,
        }),
        Side::Right => Ok(Equation {
            left: other,
            right: term,
            rows,
        }),
    }
}

/// Adds the row, unless it is one of them.
fn push_row(rows: &mut Constraint, row: Row) -> Result<(), AllocError>
    ensures { OnOk result (rows.new ≡ pushed rows.old row) }
{
    match rows.push(row) {
        Ok(()) => Ok(()),
        Err(_) => Err(AllocError),
    }
}

/// Adds the rows, each unless it is one of them.
#[tactic(auto, using(crate::proofs::PieceLaws::pushed_after))]
fn push_rows(rows: &mut Constraint, more: Items<Row>) -> Result<(), AllocError>
    ensures { OnOk result (rows.new ≡ all_pushed rows.old more) }
{
    for row in more.into_vec() {
        push_row(rows, row)?;
    }
    Ok(())
}

/// The goal with more rows.
pub(crate) fn with_rows(goal: Equation, more: Items<Row>) -> Result<Equation, AllocError>
    ensures { IfOk result (λ e. e ≡ with_rows goal more) }
{
    let mut goal = goal;
    push_rows(&mut goal.rows, more)?;
    Ok(goal)
}

/// A copy of the goal with one more row.
pub(crate) fn with_row(alloc: Global, goal: &Equation, row: Row) -> Result<Equation, AllocError>
    ensures { IfOk result (λ e. e ≡ with_rows goal.now (row ∷ [])) }
{
    let mut made = goal.try_clone(alloc)?;
    push_row(&mut made.rows, row)?;
    Ok(made)
}

/// The rows that say that the polynomials are 0.
fn all_zero(alloc: Global, polys: Items<Poly>) -> Result<Items<Row>, AllocError>
    ensures { IfOk result (λ rows. rows ≡ all_zero polys) }
{
    let mut rows = Items::with_capacity(alloc, polys.len())?;
    for poly in polys.into_vec() {
        rows.push(Row::Eq(poly))?;
    }
    Ok(rows)
}

/// The rows that say that the polynomials of the two lists are equal, one by one. Large exactly
/// where a difference passes the limits.
pub(crate) fn equal_lists(
    alloc: Global,
    left: &[Poly],
    right: &[Poly],
) -> Result<Items<Row>, PolyEnd>
    ensures forms { Forms PolyEnd.Large result (equal_lists left.now right.now) }
{
    let polys = differences(alloc, left, right)?;
    Ok(all_zero(alloc, polys)?)
}

/// The polynomials of a call, borrowed; other terms have none that can be.
fn call_arguments(term: &Term) -> Option<&[Poly]>
    ensures { IfSome result (λ args. args.now ≡ arguments_of term.now) }
{
    match term {
        Term::Call(_, args) => Some(args.as_slice()),
        _ => None,
    }
}

/// The differences of copies of the polynomials of the two terms, one by one.
fn copied_differences(alloc: Global, left: &Term, right: &Term) -> Result<Items<Poly>, PolyEnd>
    ensures forms { Forms PolyEnd.Large result (term_differences left.now right.now) }
{
    let lefts = left.arguments(alloc)?;
    let rights = right.arguments(alloc)?;
    differences(alloc, lefts.as_slice(), rights.as_slice())
}

/// The differences of the polynomials of the two terms, one by one.
pub(crate) fn term_differences(
    alloc: Global,
    left: &Term,
    right: &Term,
) -> Result<Items<Poly>, PolyEnd>
    ensures forms { Forms PolyEnd.Large result (term_differences left.now right.now) }
{
    if let Some(lefts) = call_arguments(left) {
        if let Some(rights) = call_arguments(right) {
            return differences(alloc, lefts, rights);
        }
    }
    copied_differences(alloc, left, right)
}

/// The rows that say that the polynomials of the two terms are equal, one by one.
pub(crate) fn equal_arguments(
    alloc: Global,
    left: &Term,
    right: &Term,
) -> Result<Items<Row>, PolyEnd>
    ensures forms { Forms PolyEnd.Large result (equal_arguments left.now right.now) }
{
    let polys = term_differences(alloc, left, right)?;
    Ok(all_zero(alloc, polys)?)
}

/// The rule with those polynomials in place of v0, v1, and so on.
fn rule_at_args(alloc: Global, rule: &Rule, args: &[Poly]) -> Result<RuleInstance, PolyEnd>
    ensures forms { Forms PolyEnd.Large result (rule_with (numbered args.now) rule.now) }
{
    let rows = rows_at_args(alloc, rule.rows.rows(), args)?;
    let right = rule.right.at_args(alloc, args)?;
    Ok(RuleInstance {
        rows: Items::from_vec(rows),
        right,
    })
}

/// The rule with copies of the polynomials of the part in place of its variables.
fn rule_at_copies(alloc: Global, rule: &Rule, part: &Term) -> Result<RuleInstance, PolyEnd>
    ensures forms { Forms PolyEnd.Large result (rule_with (matched part.now) rule.now) }
{
    let args = part.arguments(alloc)?;
    rule_at_args(alloc, rule, args.as_slice())
}

/// The rows and the right side of the rule, with the polynomials of the part in place of its
/// variables, in order. Large exactly where a polynomial on the way to them passes the limits. The
/// polynomials of a call are borrowed.
pub fn rule_at(alloc: Global, rule: &Rule, part: &Term) -> Result<RuleInstance, PolyEnd>
    ensures forms { Forms PolyEnd.Large result (rule_with (matched part.now) rule.now) }
{
    match call_arguments(part) {
        Some(args) => rule_at_args(alloc, rule, args),
        None => rule_at_copies(alloc, rule, part),
    }
}

/// The rule with those polynomials in place of its variables.
pub(crate) fn rule_subst(
    alloc: Global,
    rule: &Rule,
    with: &[(u32, Poly)],
) -> Result<RuleInstance, PolyEnd>
    ensures forms { Forms PolyEnd.Large result (rule_with with.now rule.now) }
{
    let rows = subst_rows(alloc, rule.rows.rows(), with)?;
    let right = rule.right.subst(alloc, with)?;
    Ok(RuleInstance {
        rows: Items::from_vec(rows),
        right,
    })
}

/// Whether the numbers of the variables rise.
fn are_rising(with: &[(u32, Poly)]) -> bool
    ensures { result ≡ rises 0 with.now }
{
    let mut from: u64 = 0;
    for (variable, _) in with {
        let number = *variable as u64;
        if number < from {
            return false;
        }
        from = number + 1;
    }
    true
}

/// Whether the number of each variable, and the variables of what replaces it, are below the limit.
fn are_replacements(with: &[(u32, Poly)]) -> bool
    ensures { result ≡ list_all is_replacement with.now }
{
    for (variable, poly) in with {
        if (*variable as u64) >= VARIABLE_LIMIT || variable_bound(poly) > VARIABLE_LIMIT {
            return false;
        }
    }
    true
}

/// Whether the list says what variables are replaced by: their numbers rise, and these and all
/// variables of the polynomials are below 2^31. Takes no memory.
pub fn is_substitution(with: &[(u32, Poly)]) -> bool
    ensures { result ≡ is_substitution with.now }
{
    are_rising(with) && are_replacements(with)
}

/// Whether both sides fit the rules, and all variables of them and of the rows are below 2^31.
/// Takes no memory.
pub fn is_equation(rules: &RuleParts, equation: &Equation) -> bool
    ensures { result ≡ is_equation rules.now equation.now }
{
    rules.fits(&equation.left)
        && rules.fits(&equation.right)
        && equation.variable_bound() <= VARIABLE_LIMIT
}

/// A step that asks rows under those of the goal.
pub(crate) fn asking(
    alloc: Global,
    rows: Items<Row>,
    goals: Items<Equation>,
) -> Result<FormedStep, AllocError>
    ensures { IfOk result (λ f. f ≡ asking rows goals) }
{
    let mut groups = Items::new(alloc);
    groups.push(Group {
        under: Under::Goal,
        rows,
    })?;
    Ok(FormedStep {
        asked: Asked::Rows(groups),
        goals,
        kept: Items::new(alloc),
    })
}

/// What a step makes that asks these rows under those of the goal, with one new goal, and that
/// keeps nothing. Fails only where there is no memory.
pub fn asking_for(alloc: Global, rows: Items<Row>, goal: Equation) -> Result<FormedStep, AllocError>
    ensures { IfOk result (λ f. f ≡ asking rows (goal ∷ [])) }
{
    let mut goals = Items::new(alloc);
    goals.push(goal)?;
    asking(alloc, rows, goals)
}

/// A step that asks nothing.
pub(crate) fn asking_nothing(alloc: Global, goals: Items<Equation>, kept: Items<Rule>) -> FormedStep
    ensures { result ≡ asking_nothing goals kept }
{
    FormedStep {
        asked: Asked::Rows(Items::new(alloc)),
        goals,
        kept,
    }
}

/// The step as it is formed, or that it passes the limits.
pub(crate) fn limited(made: Result<FormedStep, PolyEnd>) -> Result<FormedStep, FormEnd>
    ensures { (f : Formed FormedStep) → Forms PolyEnd.Large made f → Gives result (limited f) }
{
    Ok(made?)
}
