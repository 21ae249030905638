//! The rows that are offered at an occurrence of a symbol.
ghost use Rattle.std.specs.Prelude.{◌≡◌, ◌≤◌, ◌^◌, length, OnOk};
ghost use Rattle.std.specs.List.{flat_map};
ghost use Rattle.rx_plain.specs.Formed.{Forms};
ghost use Rattle.rx_pairs.specs.Pairs.{part};
ghost use Rattle.rx_wider_domains.specs.Groups.{taken};
ghost use Rattle.rx_wider_domains.specs.Offers.{at_least, at_most, equation, equation_rows, equations_from, handed_row, is_number, number_rows, numbers_from, offers};
ghost use Rattle.rx_wider_domains.specs.Places.{places};
ghost use Rattle.rx_row.specs.declared.row.Row.{Row};

use crate::group_lists::take_formed;
use crate::offering::Offering;
use crate::places::{find_places, is_placed};
use rx_find_domains::in_one_group;
use rx_plain::NoMemory;
use rx_poly::{Poly, PolyEnd};
use rx_row::{Constraint, Row};
use rx_term::Sym;
use std::alloc::Global;

/// Whether the polynomial is a number.
fn is_number(poly: &Poly) -> bool
    ensures { result ≡ is_number poly.now }
{
    poly.is_constant().is_some()
}

/// The row that the argument of that place is at least the number.
fn at_least(alloc: Global, place: u32, number: &Poly) -> Result<Row, PolyEnd>
    ensures { Forms PolyEnd.Large result (at_least place number.now) }
{
    let own = Poly::variable(alloc, place)?;
    Ok(Row::Ge(own.sub(alloc, number)?))
}

/// The row that it is at most the number.
fn at_most(alloc: Global, place: u32, number: &Poly) -> Result<Row, PolyEnd>
    ensures { Forms PolyEnd.Large result (at_most place number.now) }
{
    let own = Poly::variable(alloc, place)?;
    Ok(Row::Ge(number.sub(alloc, &own)?))
}

/// Adds both where the argument is a number.
fn take_number(rows: &mut Constraint, alloc: Global, place: u32, arg: &Poly) -> Result<(), NoMemory>
    ensures { OnOk result (rows.new ≡ taken rows.old (number_rows place arg.now)) }
{
    if !is_number(arg) {
        return Ok(());
    }
    take_formed(rows, at_least(alloc, place, arg))?;
    take_formed(rows, at_most(alloc, place, arg))
}

/// Adds those of each argument that is a number.
fn take_numbers(rows: &mut Constraint, alloc: Global, args: &[Poly]) -> Result<(), NoMemory>
    requires { length args.now ≤ 2 ^ 32 }
    ensures { OnOk result (rows.new ≡ taken rows.old (numbers_from 0 args.now)) }
{
    for (place, arg) in args.iter().enumerate() {
        take_number(rows, alloc, place as u32, arg)?;
    }
    Ok(())
}

/// The row that the argument of that place is what it is, said of the places of its variables.
fn equation(alloc: Global, places: &[(u32, Poly)], place: u32, arg: &Poly) -> Result<Row, PolyEnd>
    ensures { Forms PolyEnd.Large result (equation places.now place arg.now) }
{
    let said = arg.subst(alloc, places)?;
    let own = Poly::variable(alloc, place)?;
    Ok(Row::Eq(own.sub(alloc, &said)?))
}

/// Adds that row where the argument is no number, and each of its variables has a place.
fn take_equation(
    rows: &mut Constraint,
    alloc: Global,
    places: &[(u32, Poly)],
    place: u32,
    arg: &Poly,
) -> Result<(), NoMemory>
    ensures { OnOk result (rows.new ≡ taken rows.old (equation_rows places.now place arg.now)) }
{
    if is_number(arg) {
        return Ok(());
    }
    if !is_placed(alloc, places, arg)? {
        return Ok(());
    }
    take_formed(rows, equation(alloc, places, place, arg))
}

/// Adds those of each argument.
fn take_equations(
    rows: &mut Constraint,
    alloc: Global,
    places: &[(u32, Poly)],
    args: &[Poly],
) -> Result<(), NoMemory>
    requires { length args.now ≤ 2 ^ 32 }
    ensures { OnOk result (rows.new ≡ taken rows.old (equations_from places.now 0 args.now)) }
{
    for (place, arg) in args.iter().enumerate() {
        take_equation(rows, alloc, places, place as u32, arg)?;
    }
    Ok(())
}

/// Adds the row, said of the places of its variables, where each of them has one.
fn take_handed_row(
    rows: &mut Constraint,
    alloc: Global,
    places: &[(u32, Poly)],
    row: &Row,
) -> Result<(), NoMemory>
    ensures { OnOk result (rows.new ≡ taken rows.old (handed_row places.now row.now)) }
{
    if !is_placed(alloc, places, row.poly())? {
        return Ok(());
    }
    take_formed(rows, row.subst(alloc, places))
}

/// Adds these rows so.
fn take_handed_rows(
    rows: &mut Constraint,
    alloc: Global,
    places: &[(u32, Poly)],
    handed: &[Row],
) -> Result<(), NoMemory>
    ensures { OnOk result (rows.new ≡
        taken rows.old (flat_map (handed_row places.now) handed.now)) }
{
    for row in handed {
        take_handed_row(rows, alloc, places, row)?;
    }
    Ok(())
}

/// Adds what is offered at the symbol with these arguments.
pub(crate) fn take_offers(
    rows: &mut Constraint,
    alloc: Global,
    names: &[u32],
    offering: &Offering,
    sym: Sym,
    args: &[Poly],
) -> Result<(), NoMemory>
    requires { length args.now ≤ 2 ^ 32 }
    ensures { OnOk result (rows.new ≡
        taken rows.old (offers names.now offering.now (part sym args.now))) }
{
    match offering {
        Offering::Numbers => take_numbers(rows, alloc, args),
        Offering::Equations => {
            let places = find_places(alloc, args)?;
            take_equations(rows, alloc, places.as_slice(), args)
        }
        Offering::Handed(from, handed) => {
            if in_one_group(names, from.0 as usize, sym) {
                return Ok(());
            }
            let places = find_places(alloc, args)?;
            take_handed_rows(rows, alloc, places.as_slice(), handed.rows())
        }
    }
}
