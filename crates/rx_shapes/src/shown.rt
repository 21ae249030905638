//! Which rows a goal shows.
ghost use Rattle.std.specs.Prelude.{◌≡◌, ◌∷◌, ◌++◌, [], filter, IfOk, OnOk};
ghost use Rattle.std.specs.List.{list_all};
ghost use Rattle.rx_poly.specs.Substitution.{numbered};
ghost use Rattle.rx_relations.specs.Applying.{form_within};
ghost use Rattle.rx_row.specs.Substitution.{row_with};
ghost use Rattle.rx_shapes.specs.Shown.{shown_at, shown_at_all, shows};

use crate::applying::form_within;
use crate::explores::Explores;
use crate::followed::PlacedGoal;
use rx_plain::NoMemory;
use rx_poly::Poly;
use rx_row::{Constraint, Row};
use std::alloc::Global;

/// The row with these polynomials in place of its variables; None exactly where one on the way
/// passes the limits.
fn instance(alloc: Global, row: &Row, places: &[Poly]) -> Result<Option<Row>, NoMemory>
    ensures { IfOk result (λ o. o ≡ form_within (row_with (numbered places.now) row.now)) }
{
    form_within(row.at_args(alloc, places))
}

/// Whether the goal shows the row.
#[tactic(auto, using(crate::proofs::ShownLaws::not_formed))]
fn is_shown<E: Explores>(
    alloc: Global,
    explores: &mut E,
    goal: &PlacedGoal,
    row: &Row,
) -> Result<bool, NoMemory>
    requires ready { E.ready explores.old }
    ensures ready { E.ready explores.new }
    ensures world { E.world explores.new ≡ E.world explores.old }
    ensures exact { IfOk result (λ b. b ≡ shows goal.now row.now) }
{
    match instance(alloc, row, goal.places.as_slice())? {
        Some(row) => explores.shows(&goal.equation.rows, &row),
        None => Ok(false),
    }
}

/// Whether the goal shows all the rows. Fails only where there is no memory.
pub(crate) fn shows_all<E: Explores>(
    alloc: Global,
    explores: &mut E,
    goal: &PlacedGoal,
    rows: &[Row],
) -> Result<bool, NoMemory>
    requires ready { E.ready explores.old }
    ensures ready { E.ready explores.new }
    ensures world { E.world explores.new ≡ E.world explores.old }
    ensures exact { IfOk result (λ b. b ≡ list_all (shows goal.now) rows.now) }
{
    for row in rows {
        if !is_shown(alloc, explores, goal, row)? {
            return Ok(false);
        }
    }
    Ok(true)
}

/// Adds the row, if the goal shows it.
fn push_shown<E: Explores>(
    rows: &mut Constraint,
    alloc: Global,
    explores: &mut E,
    goal: &PlacedGoal,
    row: &Row,
) -> Result<(), NoMemory>
    requires ready { E.ready explores.old }
    ensures ready { E.ready explores.new }
    ensures world { E.world explores.new ≡ E.world explores.old }
    ensures exact { OnOk result (rows.new ≡
        rows.old ++ filter (shows goal.now) (row.now ∷ [])) }
{
    if is_shown(alloc, explores, goal, row)? {
        rows.append(row.try_clone(alloc)?)?;
    }
    Ok(())
}

/// Those of the rows that the goal shows. Fails only where there is no memory.
pub(crate) fn shown_at<E: Explores>(
    alloc: Global,
    explores: &mut E,
    goal: &PlacedGoal,
    rows: &[Row],
) -> Result<Constraint, NoMemory>
    requires ready { E.ready explores.old }
    ensures ready { E.ready explores.new }
    ensures world { E.world explores.new ≡ E.world explores.old }
    ensures exact { IfOk result (λ c. c ≡ shown_at goal.now rows.now) }
{
    let mut kept = Constraint::from_rows(Vec::new(alloc));
    for row in rows {
        push_shown(&mut kept, alloc, explores, goal, row)?;
    }
    Ok(kept)
}

/// Those of the rows that each of the goals shows. Fails only where there is no memory.
pub(crate) fn shown_at_all<E: Explores>(
    alloc: Global,
    explores: &mut E,
    rows: Constraint,
    goals: &[PlacedGoal],
) -> Result<Constraint, NoMemory>
    requires ready { E.ready explores.old }
    ensures ready { E.ready explores.new }
    ensures world { E.world explores.new ≡ E.world explores.old }
    ensures exact { IfOk result (λ c. c ≡ shown_at_all rows goals.now) }
{
    let mut rows = rows;
    for goal in goals {
        rows = shown_at(alloc, explores, goal, rows.rows())?;
    }
    Ok(rows)
}
