//! Rows with their signs.
ghost use Rattle.std.specs.Prelude.{◌≡◌, OnOk};
ghost use Rattle.std.specs.List.{flat_map};
ghost use Rattle.rx_plain.specs.Formed.{Forms};
ghost use Rattle.rx_row.specs.declared.row.Row.{Row};
ghost use Rattle.rx_wider_domains.specs.Groups.{taken};
ghost use Rattle.rx_wider_domains.specs.Signs.{both_signs, opposite_row, signs};

use crate::group_lists::{take, take_formed};
use rx_plain::NoMemory;
use rx_poly::{Poly, PolyEnd};
use rx_row::{Constraint, Row};
use std::alloc::Global;

/// `-p >= 0`; Large exactly where `-p` passes the limits.
fn at_most_zero(alloc: Global, poly: &Poly) -> Result<Row, PolyEnd>
    ensures { Forms PolyEnd.Large result (opposite_row poly.now) }
{
    Ok(Row::Ge(poly.scale(alloc, -1)?))
}

/// Adds `p >= 0`, and `-p >= 0`.
fn take_both(rows: &mut Constraint, alloc: Global, poly: &Poly) -> Result<(), NoMemory>
    ensures { OnOk result (rows.new ≡ taken rows.old (both_signs poly.now)) }
{
    take(rows, Row::Ge(poly.try_clone(alloc)?))?;
    take_formed(rows, at_most_zero(alloc, poly))
}

/// Adds the row, and behind an equation and a disequality both signs.
fn take_signs(rows: &mut Constraint, alloc: Global, row: &Row) -> Result<(), NoMemory>
    ensures { OnOk result (rows.new ≡ taken rows.old (signs row.now)) }
{
    take(rows, row.try_clone(alloc)?)?;
    match row {
        Row::Ge(_) => Ok(()),
        Row::Eq(poly) => take_both(rows, alloc, poly),
        Row::Ne(poly) => take_both(rows, alloc, poly),
    }
}

/// Adds these rows with their signs, one after the other.
pub(crate) fn take_all_signs(
    rows: &mut Constraint,
    alloc: Global,
    more: &[Row],
) -> Result<(), NoMemory>
    ensures { OnOk result (rows.new ≡ taken rows.old (flat_map signs more.now)) }
{
    for row in more {
        take_signs(rows, alloc, row)?;
    }
    Ok(())
}
