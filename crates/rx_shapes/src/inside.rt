//! The rows that put the general sides of a shape inside the domains.
ghost use Rattle.std.specs.Prelude.{◌≡◌, IfOk, OnOk};
ghost use Rattle.rx_inference.specs.Pieces.{all_pushed};
ghost use Rattle.rx_relations.specs.Applying.{form_within};
ghost use Rattle.rx_row.specs.Membership.{stands_among};
ghost use Rattle.rx_shapes.specs.Inside as spec;
ghost use Rattle.rx_term.specs.Domains as domains;

use crate::applying::form_within;
use crate::followed::Followed;
use rx_plain::{Items, NoMemory};
use rx_row::{Constraint, Row};
use rx_term::{Equation, RuleSet, inside_of};
use std::alloc::Global;

/// The rows that put the sides of the general equation inside the domains; None exactly where a
/// polynomial of them passes the limits.
fn inside_rows(
    alloc: Global,
    rules: &RuleSet,
    general: &Equation,
) -> Result<Option<Items<Row>>, NoMemory>
    ensures { IfOk result (λ o. o ≡ form_within (domains.inside_of rules.now general.now)) }
{
    form_within(inside_of(alloc, rules, general))
}

/// Adds a copy of each of the rows, unless it stands there.
fn push_copies(kept: &mut Constraint, alloc: Global, rows: &[Row]) -> Result<(), NoMemory>
    ensures { OnOk result (kept.new ≡ all_pushed kept.old rows.now) }
{
    for row in rows {
        kept.push(row.try_clone(alloc)?)?;
    }
    Ok(())
}

/// The shape with these rows, behind its other bounds.
fn with_inside_rows(alloc: Global, shape: Followed, rows: Items<Row>) -> Result<Followed, NoMemory>
    ensures { IfOk result (λ f. f ≡ spec.with_inside_rows shape rows) }
{
    let mut bounds = shape.bounds.try_clone(alloc)?;
    push_copies(&mut bounds, alloc, rows.as_slice())?;
    Ok(Followed {
        inside: rows,
        bounds,
        ..shape
    })
}

/// The shape with the rows that put its general sides inside the domains: they are bounds, those of
/// a number too. None exactly where a polynomial of them passes the limits.
pub(crate) fn with_inside(
    alloc: Global,
    rules: &RuleSet,
    shape: Followed,
) -> Result<Option<Followed>, NoMemory>
    ensures { IfOk result (λ o. o ≡ spec.with_inside rules.now shape) }
{
    match inside_rows(alloc, rules, &shape.general)? {
        Some(rows) => Ok(Some(with_inside_rows(alloc, shape, rows)?)),
        None => Ok(None),
    }
}

/// Whether the row is one of the rows.
fn is_among(rows: &Constraint, row: &Row) -> bool
    ensures { result ≡ stands_among rows.now row.now }
{
    rows.contains(row)
}

/// Whether the rows that put the general sides inside the domains are bounds still.
pub(crate) fn stays_inside(shape: &Followed) -> bool
    ensures { result ≡ spec.stays_inside shape.now }
{
    for row in shape.inside.as_slice() {
        if !is_among(&shape.bounds, row) {
            return false;
        }
    }
    true
}
