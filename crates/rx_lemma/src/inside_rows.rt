//! Rows that a new equation has to have, as those that put it inside the domains.
ghost use Rattle.rx_lemma.specs.InsideRows as spec;
ghost use Rattle.rx_lemma.specs.RuleRows.{Makes};
ghost use Rattle.rx_solve.specs.Answers.{IsSolver};

use crate::rule_rows::is_instance_shown;
use rx_cert::Cert;
use rx_fm::FmEnd;
use rx_poly::Poly;
use rx_row::{Constraint, Row};
use std::alloc::Global;

/// The rows with the row, where its instance is shown under the given ones; None where it isn't.
#[tactic(auto, unfolding(crate::specs::InsideRows::row_required))]
fn require_row<S: FnMut(&Constraint) -> Result<Option<Cert>, FmEnd>>(
    alloc: Global,
    with: &[(u32, Poly)],
    given: &Constraint,
    row: &Row,
    rows: Constraint,
    solve: &mut S,
) -> Result<Option<Constraint>, FmEnd>
    requires solver { IsSolver S.FnMut solve.old }
    ensures solver { IsSolver S.FnMut solve.new }
    ensures answer { Makes (spec.row_required with.now given.now row.now rows) result }
{
    if !is_instance_shown(alloc, with, given, row, solve)? {
        return Ok(None);
    }
    let copy = row.try_clone(alloc)?;
    let mut rows = rows;
    rows.push(copy).map_err(|_| FmEnd::NoMemory)?;
    Ok(Some(rows))
}

/// The rows with all others, where the instance of each of these is shown under the given ones; None
/// where one isn't.
pub(crate) fn require_rows<S: FnMut(&Constraint) -> Result<Option<Cert>, FmEnd>>(
    alloc: Global,
    with: &[(u32, Poly)],
    given: &Constraint,
    more: &[Row],
    rows: Constraint,
    solve: &mut S,
) -> Result<Option<Constraint>, FmEnd>
    requires solver { IsSolver S.FnMut solve.old }
    ensures solver { IsSolver S.FnMut solve.new }
    ensures answer { Makes (spec.rows_required with.now given.now more.now rows) result }
{
    let mut rows = rows;
    for row in more {
        match require_row(alloc, with, given, row, rows, solve)? {
            Some(next) => rows = next,
            None => return Ok(None),
        }
    }
    Ok(Some(rows))
}
