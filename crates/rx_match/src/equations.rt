//! Variables that equations set.
ghost use Rattle.std.specs.Prelude.{◌≡◌, Some, length};
ghost use Rattle.rx_plain.specs.Formed.{Forms};
ghost use Rattle.rx_match.specs.Equations.{only_one, pass, pass_times, set_by_equation, set_by_row, set_to_value, unset_in};

use crate::settings::set_to;
use crate::unset::{only_one, unset_in};
use rx_cert::solve;
use rx_plain::Items;
use rx_poly::{Poly, PolyEnd};
use rx_row::Row;
use std::alloc::Global;

/// The settings with the variable set to the instance of the value. Large exactly where the
/// instance passes the limits.
fn set_to_instance(
    alloc: Global,
    settings: Items<(u32, Poly)>,
    variable: u32,
    value: &Poly,
) -> Result<Items<(u32, Poly)>, PolyEnd>
    ensures forms { Forms PolyEnd.Large result (set_to_value settings variable (Some value.now)) }
{
    let instance = value.subst(alloc, settings.as_slice())?;
    Ok(set_to(settings, variable, instance)?)
}

/// The settings with the variable set to what the equation says, where it says a value of it. Large
/// exactly where the value or its instance passes the limits.
fn set_by_solving(
    alloc: Global,
    settings: Items<(u32, Poly)>,
    poly: &Poly,
    variable: u32,
) -> Result<Items<(u32, Poly)>, PolyEnd>
    ensures forms { Forms PolyEnd.Large result (set_by_equation settings poly.now (Some variable)) }
{
    match solve(alloc, poly, variable)? {
        Some(value) => set_to_instance(alloc, settings, variable, &value),
        None => Ok(settings),
    }
}

/// The settings with the only unset variable of the equation set, where it has one and says a value
/// of it.
fn set_by_equation(
    alloc: Global,
    settings: Items<(u32, Poly)>,
    poly: &Poly,
) -> Result<Items<(u32, Poly)>, PolyEnd>
    ensures forms { Forms PolyEnd.Large result
        (set_by_equation settings poly.now (only_one (unset_in settings poly.now))) }
{
    let unset = unset_in(alloc, settings.as_slice(), poly)?;
    match only_one(unset.as_slice()) {
        Some(variable) => set_by_solving(alloc, settings, poly, variable),
        None => Ok(settings),
    }
}

/// The settings with what the row sets.
fn set_by_row(
    alloc: Global,
    settings: Items<(u32, Poly)>,
    row: &Row,
) -> Result<Items<(u32, Poly)>, PolyEnd>
    ensures forms { Forms PolyEnd.Large result (set_by_row settings row.now) }
{
    match row {
        Row::Eq(poly) => set_by_equation(alloc, settings, poly),
        Row::Ge(_) | Row::Ne(_) => Ok(settings),
    }
}

/// The settings with what the rows set, in order.
fn pass(
    alloc: Global,
    settings: Items<(u32, Poly)>,
    rows: &[Row],
) -> Result<Items<(u32, Poly)>, PolyEnd>
    ensures forms { Forms PolyEnd.Large result (pass rows.now settings) }
{
    let mut settings = settings;
    for row in rows {
        settings = set_by_row(alloc, settings, row)?;
    }
    Ok(settings)
}

/// The settings with what the rows set in as many passes as there are rows. A pass that sets
/// nothing is the last.
pub(crate) fn pass_often(
    alloc: Global,
    settings: Items<(u32, Poly)>,
    rows: &[Row],
) -> Result<Items<(u32, Poly)>, PolyEnd>
    ensures forms { Forms PolyEnd.Large result (pass_times (length rows.now) rows.now settings) }
{
    let mut settings = settings;
    for _ in 0..rows.len() {
        let before = settings.len();
        settings = pass(alloc, settings, rows)?;
        if settings.len() == before {
            return Ok(settings);
        }
    }
    Ok(settings)
}
