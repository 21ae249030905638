//! Two generalisations of a goal.
ghost use Rattle.std.specs.Prelude.{◌≡◌, IfOk};
ghost use Rattle.rx_lemma.specs.GeneraliseAnswers.{FindsAll, FindsAny};
ghost use Rattle.rx_lemma.specs.Generalising as spec;
ghost use Rattle.rx_lemma.specs.Lemmas.{found_as};
ghost use Rattle.rx_lemma.specs.Parts.{AreListed, AreVariablesFor};
ghost use Rattle.rx_lemma.specs.RuleRows.{Makes};
ghost use Rattle.rx_solve.specs.Answers.{IsSolver};

use crate::generalised::Generalised;
use crate::inside_rows::require_rows;
use crate::lemma::{LemmaKind, VARIABLES_END};
use crate::repeated::repeated;
use crate::replaced::{new_variables, replaced_in};
use crate::rule_rows::{add_rows, rule_rows};
use crate::values::{any_value, other_rows};
use rx_cert::Cert;
use rx_fm::FmEnd;
use rx_plain::Items;
use rx_poly::Poly;
use rx_row::Constraint;
use rx_term::{Equation, RuleSet, inside_of};
use std::alloc::{AllocError, Global};

/// The rows of the goal that don't give a value, and those of the rules at the new equation's calls
/// whose instances are shown under the goal's rows.
fn kept_rows<S: FnMut(&Constraint) -> Result<Option<Cert>, FmEnd>>(
    alloc: Global,
    rules: &RuleSet,
    goal: &Equation,
    new: &Equation,
    with: &[(u32, Poly)],
    solve: &mut S,
) -> Result<Constraint, FmEnd>
    requires solver { IsSolver S.FnMut solve.old }
    ensures solver { IsSolver S.FnMut solve.new }
    ensures answer { Makes (spec.kept_rows rules.now goal.now new.now with.now) result }
{
    let more = rule_rows(alloc, rules.rules(), new)?;
    let others = other_rows(alloc, goal.rows.rows())?;
    add_rows(alloc, with, &goal.rows, more.as_slice(), others, solve)
}

/// The rows of the new equation: those that are kept, and those that put it inside the domains; None
/// where one of the latter isn't shown under the goal's rows.
#[tactic(auto, unfolding(crate::specs::Generalising::new_rows))]
fn new_rows<S: FnMut(&Constraint) -> Result<Option<Cert>, FmEnd>>(
    alloc: Global,
    rules: &RuleSet,
    goal: &Equation,
    new: &Equation,
    with: &[(u32, Poly)],
    solve: &mut S,
) -> Result<Option<Constraint>, FmEnd>
    requires solver { IsSolver S.FnMut solve.old }
    ensures solver { IsSolver S.FnMut solve.new }
    ensures answer { Makes (spec.new_rows rules.now goal.now new.now with.now) result }
{
    let kept = kept_rows(alloc, rules, goal, new, with, solve)?;
    let inside = inside_of(alloc, rules, new)?;
    require_rows(alloc, with, &goal.rows, inside.as_slice(), kept, solve)
}

/// The new equation over the rows.
fn over_rows(
    kind: LemmaKind,
    new: Equation,
    with: Items<(u32, Poly)>,
    rows: Constraint,
) -> Generalised
    ensures { found_as result ≡ spec.over_rows kind new with rows }
{
    let Equation { left, right, .. } = new;
    Generalised {
        kind,
        goal: Equation { left, right, rows },
        subst: with,
    }
}

/// The new equation with its rows: the goal's that don't give a value, those of the rules at its
/// calls whose instances are shown under the goal's rows, and those that put it inside the domains.
/// None where one of the last isn't shown.
#[tactic(auto, unfolding(crate::specs::Generalising::generalised))]
fn generalise<S: FnMut(&Constraint) -> Result<Option<Cert>, FmEnd>>(
    alloc: Global,
    rules: &RuleSet,
    goal: &Equation,
    kind: LemmaKind,
    new: Equation,
    with: Items<(u32, Poly)>,
    solve: &mut S,
) -> Result<Option<Generalised>, FmEnd>
    requires solver { IsSolver S.FnMut solve.old }
    ensures solver { IsSolver S.FnMut solve.new }
    ensures answer { FindsAny (spec.generalised rules.now goal.now kind new with) result }
{
    match new_rows(alloc, rules, goal, &new, with.as_slice(), solve)? {
        Some(rows) => Ok(Some(over_rows(kind, new, with, rows))),
        None => Ok(None),
    }
}

/// The goal without the rows that give a variable its value, where there are such rows.
#[tactic(auto, unfolding(crate::specs::Generalising::without_values))]
fn without_values<S: FnMut(&Constraint) -> Result<Option<Cert>, FmEnd>>(
    alloc: Global,
    rules: &RuleSet,
    goal: &Equation,
    solve: &mut S,
) -> Result<Option<Generalised>, FmEnd>
    requires solver { IsSolver S.FnMut solve.old }
    ensures solver { IsSolver S.FnMut solve.new }
    ensures answer { FindsAny (spec.without_values rules.now goal.now) result }
{
    if !any_value(goal.rows.rows()) {
        return Ok(None);
    }
    let copy = goal.try_clone(alloc)?;
    let kind = LemmaKind::DropValues;
    generalise(alloc, rules, goal, kind, copy, Items::new(alloc), solve)
}

/// The goal with the variables in place of their polynomials.
fn replacing(alloc: Global, goal: &Equation, with: &[(u32, Poly)]) -> Result<Equation, AllocError>
    ensures { IfOk result (λ e. e ≡ spec.replacing goal.now with.now) }
{
    Ok(Equation {
        left: replaced_in(alloc, with, &goal.left)?,
        right: replaced_in(alloc, with, &goal.right)?,
        rows: goal.rows.try_clone(alloc)?,
    })
}

/// The generalisation by those variables.
#[tactic(auto, unfolding(crate::specs::Generalising::replacing_by))]
fn replacing_by<S: FnMut(&Constraint) -> Result<Option<Cert>, FmEnd>>(
    alloc: Global,
    rules: &RuleSet,
    goal: &Equation,
    with: Items<(u32, Poly)>,
    solve: &mut S,
) -> Result<Option<Generalised>, FmEnd>
    requires solver { IsSolver S.FnMut solve.old }
    ensures solver { IsSolver S.FnMut solve.new }
    ensures answer { FindsAny (spec.replacing_by rules.now goal.now with) result }
{
    let new = replacing(alloc, goal, with.as_slice())?;
    let kind = LemmaKind::ReplaceRepeated;
    generalise(alloc, rules, goal, kind, new, with, solve)
}

/// New variables for the polynomials, above those of the goal; None where there are not enough.
fn variables_for(
    alloc: Global,
    goal: &Equation,
    polys: &[Poly],
) -> Result<Option<Items<(u32, Poly)>>, AllocError>
    ensures { IfOk result (AreVariablesFor goal.now polys.now) }
{
    let bound = goal.variable_bound();
    let count = polys.len() as u64;
    if bound > VARIABLES_END || count > VARIABLES_END - bound {
        return Ok(None);
    }
    Ok(Some(new_variables(alloc, bound as u32, polys)?))
}

/// The goal with new variables in place of these polynomials, where there are any, and enough
/// variables.
#[tactic(auto, unfolding(crate::specs::Generalising::replacing_all))]
fn replacing_all<S: FnMut(&Constraint) -> Result<Option<Cert>, FmEnd>>(
    alloc: Global,
    rules: &RuleSet,
    goal: &Equation,
    polys: &[Poly],
    solve: &mut S,
) -> Result<Option<Generalised>, FmEnd>
    requires solver { IsSolver S.FnMut solve.old }
    ensures solver { IsSolver S.FnMut solve.new }
    ensures answer { FindsAny (spec.replacing_all rules.now goal.now polys.now) result }
{
    if polys.is_empty() {
        return Ok(None);
    }
    let Some(with) = variables_for(alloc, goal, polys)? else {
        return Ok(None);
    };
    replacing_by(alloc, rules, goal, with, solve)
}

/// The goal with new variables in place of the polynomials that occur repeatedly, where there are
/// any.
fn replacing_repeated<S: FnMut(&Constraint) -> Result<Option<Cert>, FmEnd>>(
    alloc: Global,
    rules: &RuleSet,
    goal: &Equation,
    solve: &mut S,
) -> Result<Option<Generalised>, FmEnd>
    requires solver { IsSolver S.FnMut solve.old }
    ensures solver { IsSolver S.FnMut solve.new }
    ensures answer { FindsAny (spec.replacing_repeated rules.now goal.now) result }
{
    let polys = repeated(alloc, goal)?;
    replacing_all(alloc, rules, goal, polys.as_slice(), solve)
}

/// Those that were found, the first before the second.
fn listed(
    alloc: Global,
    first: Option<Generalised>,
    second: Option<Generalised>,
) -> Result<Items<Generalised>, AllocError>
    ensures { IfOk result (AreListed first second) }
{
    let mut all = Items::new(alloc);
    if let Some(found) = first {
        all.push(found)?;
    }
    if let Some(found) = second {
        all.push(found)?;
    }
    Ok(all)
}

/// Two generalisations of the goal, as far as they apply. Both drop the rows that only say that a
/// variable is a number. They take the rows of the rules at the calls of the new goal, left side
/// first, and add those whose instances the solver shows under the old rows. Then they add the rows
/// that put the new goal inside the domains, left side first: where the solver doesn't show the
/// instance of one of these under the old rows, the generalisation doesn't apply.
///
/// The first applies where the goal has rows that say that a variable is a number. The second
/// applies where a polynomial that is no variable alone is twice or more at one place of one symbol
/// in the goal: each such polynomial becomes a new variable, above all variables of the goal, in
/// the order of their first places, wherever it is a whole argument of a frame or a call. It
/// doesn't apply where a new variable would have a number of 1,000,000 or above.
///
/// Large exactly where one of those rows or an instance of it passes the limits, or something does
/// as it is shown. The solver is asked in place of the refuter.
#[tactic(auto, unfolding(crate::specs::Generalising::generalisations))]
pub fn lemmas<S: FnMut(&Constraint) -> Result<Option<Cert>, FmEnd>>(
    alloc: Global,
    goal: &Equation,
    rules: &RuleSet,
    solve: &mut S,
) -> Result<Items<Generalised>, FmEnd>
    requires solver { IsSolver S.FnMut solve.old }
    ensures solver { IsSolver S.FnMut solve.new }
    ensures answer { FindsAll (spec.generalisations rules.now goal.now) result }
{
    let first = without_values(alloc, rules, goal, solve)?;
    let second = replacing_repeated(alloc, rules, goal, solve)?;
    Ok(listed(alloc, first, second)?)
}
