//! Steps that go over to other goals.
ghost use Rattle.std.specs.Prelude.{◌≡◌, ◌∷◌, ◌&&◌, [], IfOk, List};
ghost use Rattle.rx_plain.specs.Formed.{Formed, Forms};
ghost use Rattle.rx_row.specs.declared.row.Row.{Row};
ghost use Rattle.rx_inference.specs.Forming.{Gives};
ghost use Rattle.rx_inference.specs.Kinds.{generalised, postulated, split};
ghost use Rattle.rx_inference.specs.Making.{asking_before, asking_inside, generalised_by, instance_equals, instance_rows, postulated_by, side_rows, split_by};
ghost use Rattle.rx_inference.specs.Pieces.{have_one_shape, is_equation, is_substitution, with_rows};

use crate::form_end::FormEnd;
use crate::formed_step::{Asked, FormedStep, Group, Under};
use crate::pieces::{
    VARIABLE_LIMIT, asking_nothing, equal_arguments, have_one_shape, is_equation, is_substitution,
    limited, with_row,
};
use rx_plain::Items;
use rx_poly::{Poly, PolyEnd};
use rx_row::{Row, subst_rows};
use rx_term::{Equation, RuleParts, RuleSet, Term, inside_of};
use std::alloc::{AllocError, Global};

/// That the polynomials of a term, with those in place of its variables, equal those of the other.
fn instance_equals(
    alloc: Global,
    term: &Term,
    with: &[(u32, Poly)],
    other: &Term,
) -> Result<Items<Row>, PolyEnd>
    ensures forms { Forms PolyEnd.Large result (instance_equals with.now term.now other.now) }
{
    let instance = term.subst(alloc, with)?;
    equal_arguments(alloc, &instance, other)
}

/// That both sides of the goal are instances of those of the new one.
fn side_rows(
    alloc: Global,
    new: &Equation,
    with: &[(u32, Poly)],
    goal: &Equation,
) -> Result<Items<Row>, PolyEnd>
    ensures forms { Forms PolyEnd.Large result (side_rows with.now new.now goal.now) }
{
    let mut rows = instance_equals(alloc, &new.left, with, &goal.left)?;
    let more = instance_equals(alloc, &new.right, with, &goal.right)?;
    rows.append(more)?;
    Ok(rows)
}

/// That the goal is an instance of the new one, and the new rows hold.
fn instance_rows(
    alloc: Global,
    new: &Equation,
    with: &[(u32, Poly)],
    goal: &Equation,
) -> Result<Items<Row>, PolyEnd>
    ensures forms { Forms PolyEnd.Large result (instance_rows with.now new.now goal.now) }
{
    let mut rows = side_rows(alloc, new, with, goal)?;
    let more = subst_rows(alloc, new.rows.rows(), with)?;
    rows.append(Items::from_vec(more))?;
    Ok(rows)
}

/// A step that asks rows under those of the goal and others under those of the new goal, which
/// takes its place.
fn asking_inside(
    alloc: Global,
    rows: Items<Row>,
    inside: Items<Row>,
    new: Equation,
) -> Result<FormedStep, AllocError>
    ensures { IfOk result (λ f. f ≡ asking_inside rows inside new) }
{
    let mut groups = Items::new(alloc);
    groups.push(Group {
        under: Under::Goal,
        rows,
    })?;
    groups.push(Group {
        under: Under::New,
        rows: inside,
    })?;
    let mut goals = Items::new(alloc);
    goals.push(new)?;
    Ok(FormedStep {
        asked: Asked::Rows(groups),
        goals,
        kept: Items::new(alloc),
    })
}

/// A step that asks these rows, and that the new goal is inside by rows that may pass the limits.
fn asking_formed_inside(
    alloc: Global,
    rows: Items<Row>,
    inside: Result<Items<Row>, PolyEnd>,
    new: Equation,
) -> Result<FormedStep, PolyEnd>
    ensures { (f : Formed (List Row)) → Forms PolyEnd.Large inside f →
        Forms PolyEnd.Large result
        (record { form = asking_inside rows f.form new; within = f.within }) }
{
    let inside = inside?;
    Ok(asking_inside(alloc, rows, inside, new)?)
}

/// What generalising makes of the goal: the new goal, of which the old one is an instance, and
/// which is to be inside the domains.
fn generalise_by(
    alloc: Global,
    rules: &RuleSet,
    goal: &Equation,
    new: Equation,
    with: &[(u32, Poly)],
) -> Result<FormedStep, PolyEnd>
    ensures forms { Forms PolyEnd.Large result (generalised_by rules.now goal.now new with.now) }
{
    let rows = instance_rows(alloc, &new, with, goal)?;
    let inside = inside_of(alloc, rules, &new);
    asking_formed_inside(alloc, rows, inside, new)
}

/// Whether the new goal is an equation, the list a substitution, and each new side has the shape of
/// the old one.
fn has_form(rules: &RuleParts, goal: &Equation, new: &Equation, with: &[(u32, Poly)]) -> bool
    ensures { result ≡ (is_equation rules.now new.now && (is_substitution with.now &&
        (have_one_shape new.now.left goal.now.left && have_one_shape new.now.right goal.now.right))) }
{
    is_equation(rules, new)
        && is_substitution(with)
        && have_one_shape(&new.left, &goal.left)
        && have_one_shape(&new.right, &goal.right)
}

/// What generalising makes of the goal, which is to be an instance of the new one.
pub(crate) fn generalise(
    alloc: Global,
    rules: &RuleSet,
    goal: &Equation,
    new: Equation,
    with: &[(u32, Poly)],
) -> Result<FormedStep, FormEnd>
    ensures { Gives result (generalised rules.now goal.now new with.now) }
{
    if !has_form(rules.parts(), goal, &new, with) {
        return Err(FormEnd::WrongShape);
    }
    limited(generalise_by(alloc, rules, goal, new, with))
}

/// The two goals in order.
fn both_goals(
    alloc: Global,
    first: Equation,
    second: Equation,
) -> Result<Items<Equation>, AllocError>
    ensures { IfOk result (λ goals. goals ≡ first ∷ second ∷ []) }
{
    let mut goals = Items::new(alloc);
    goals.push(first)?;
    goals.push(second)?;
    Ok(goals)
}

/// A step that asks rows under those of the new goal, which comes before the old one.
fn asking_before(
    alloc: Global,
    inside: Items<Row>,
    new: Equation,
    goal: Equation,
) -> Result<FormedStep, AllocError>
    ensures { IfOk result (λ f. f ≡ asking_before inside new goal) }
{
    let mut groups = Items::new(alloc);
    groups.push(Group {
        under: Under::New,
        rows: inside,
    })?;
    Ok(FormedStep {
        asked: Asked::Rows(groups),
        goals: both_goals(alloc, new, goal)?,
        kept: Items::new(alloc),
    })
}

/// A step by which the new goal comes before the old one, and is inside by rows that may pass the
/// limits.
fn asking_formed_before(
    alloc: Global,
    inside: Result<Items<Row>, PolyEnd>,
    new: Equation,
    goal: &Equation,
) -> Result<FormedStep, PolyEnd>
    ensures { (f : Formed (List Row)) → Forms PolyEnd.Large inside f →
        Forms PolyEnd.Large result
        (record { form = asking_before f.form new goal.now; within = f.within }) }
{
    let inside = inside?;
    let copy = goal.try_clone(alloc)?;
    Ok(asking_before(alloc, inside, new, copy)?)
}

/// The new goal, which is to be inside the domains, before the old one.
fn postulate_by(
    alloc: Global,
    rules: &RuleSet,
    goal: &Equation,
    new: Equation,
) -> Result<FormedStep, PolyEnd>
    ensures forms { Forms PolyEnd.Large result (postulated_by rules.now goal.now new) }
{
    let inside = inside_of(alloc, rules, &new);
    asking_formed_before(alloc, inside, new, goal)
}

/// A new goal comes before the old one.
pub(crate) fn postulate(
    alloc: Global,
    rules: &RuleSet,
    goal: &Equation,
    new: Equation,
) -> Result<FormedStep, FormEnd>
    ensures { Gives result (postulated rules.now goal.now new) }
{
    if !is_equation(rules.parts(), &new) {
        return Err(FormEnd::WrongShape);
    }
    limited(postulate_by(alloc, rules, goal, new))
}

/// The goal with each of the two rows.
fn with_either(
    alloc: Global,
    goal: &Equation,
    row: Row,
    other: Row,
) -> Result<Items<Equation>, AllocError>
    ensures { IfOk result (λ goals. goals ≡ with_rows goal.now (row ∷ []) ∷
        with_rows goal.now (other ∷ []) ∷ []) }
{
    let first = with_row(alloc, goal, row)?;
    let second = with_row(alloc, goal, other)?;
    both_goals(alloc, first, second)
}

/// A goal with the row, and one with its negation.
fn split_by(alloc: Global, goal: &Equation, row: &Row) -> Result<FormedStep, PolyEnd>
    ensures forms { Forms PolyEnd.Large result (split_by goal.now row.now) }
{
    let negation = row.negate(alloc)?;
    let copy = row.try_clone(alloc)?;
    let goals = with_either(alloc, goal, copy, negation)?;
    Ok(asking_nothing(alloc, goals, Items::new(alloc)))
}

/// A row holds, or its negation does.
pub(crate) fn split(alloc: Global, goal: &Equation, row: &Row) -> Result<FormedStep, FormEnd>
    ensures { Gives result (split goal.now row.now) }
{
    if row.variable_bound() > VARIABLE_LIMIT {
        return Err(FormEnd::WrongShape);
    }
    limited(split_by(alloc, goal, row))
}
