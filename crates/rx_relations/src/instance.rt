//! The values at the places of a goal, and the equations that are left of its rows.
ghost use Rattle.std.specs.Prelude.{◌≡◌, ◌++◌, map, ℕ, ℤ, IfOk, IfSome};
ghost use Rattle.std.specs.List.{filter_map};
ghost use Rattle.std.specs.Option.{option_copied};
ghost use Rattle.rx_plain.specs.Formed.{Forms, FormsAs};
ghost use Rattle.rx_row.specs.Holds.{AllHold};
ghost use Rattle.rx_row.specs.Parts.{poly_of};
ghost use Rattle.rx_solve.specs.Pivots.{first_pivot};
ghost use Rattle.rx_relations.specs.Applying.{form_within};
ghost use Rattle.rx_relations.specs.Holding.{Describes};
ghost use Rattle.rx_relations.specs.Values.{equation_of, instance_of, replaced, values_formed, with_facts, with_pivot, with_places};

use crate::applying::form_within;
use crate::divisions::facts;
use rx_cert::{polynomial_at_zero, solve};
use rx_plain::{Items, NoMemory};
use rx_poly::{Poly, PolyEnd};
use rx_row::Row;
use rx_solve::{Pivot, first_pivot, replaced_rows};
use std::alloc::{AllocError, Global};

/// The most variables that are replaced.
const MOST_REPLACED: u32 = 100;

/// What is known of the places of one goal.
#[derive(Debug, Drop)]
pub struct Instance {
    /// The polynomial at each place, with each variable that the rows say the value of replaced.
    pub values: Items<Poly>,
    /// The polynomials, none of them 0, that the equations left of the rows say to be 0, and after
    /// them what is 0 of the divisions in the values.
    pub equations: Items<Poly>,
}

/// The rows with the value that a pivot's rows say in place of its variable; Large exactly where a
/// polynomial on the way passes the limits.
fn with_pivot(alloc: Global, rows: Vec<Row>, pivot: &Pivot) -> Result<Vec<Row>, PolyEnd>
    ensures { FormsAs (λ v. v.items) PolyEnd.Large result (with_pivot rows.items pivot.now) }
{
    let Some(poly) = polynomial_at_zero(rows.as_slice(), pivot.first, pivot.second) else {
        return Ok(rows);
    };
    let Some(value) = solve(alloc, poly, pivot.variable)? else {
        return Ok(rows);
    };
    replaced_rows(alloc, rows.as_slice(), pivot.variable, value)
}

/// Which of the rows say the value of a variable, and of which.
fn next_pivot(alloc: Global, rows: &Vec<Row>) -> Result<Option<Pivot>, AllocError>
    ensures { IfOk result (λ o. o ≡ first_pivot rows.now.items) }
{
    first_pivot(alloc, rows.as_slice())
}

/// The rows once variables that they say the value of are replaced, at most so many; Large exactly
/// where a polynomial on the way passes the limits.
fn replaced(alloc: Global, rows: Vec<Row>, most: u32) -> Result<Vec<Row>, PolyEnd>
    ensures { FormsAs (λ v. v.items) PolyEnd.Large result (replaced most rows.items) }
{
    let mut rows = rows;
    let mut left = most;
    while left > 0 {
        let found = next_pivot(alloc, &rows)?;
        let Some(pivot) = found else {
            return Ok(rows);
        };
        rows = with_pivot(alloc, rows, &pivot)?;
        left -= 1;
    }
    Ok(rows)
}

/// The rows, and after them a disequality for each polynomial.
fn with_places(alloc: Global, rows: &[Row], places: &[Poly]) -> Result<Vec<Row>, AllocError>
    ensures { IfOk result (λ v. v.items ≡ with_places rows.now places.now) }
{
    let mut made = Vec::new(alloc);
    for row in rows {
        made.push(row.try_clone(alloc)?)?;
    }
    for place in places {
        made.push(Row::Ne(place.try_clone(alloc)?))?;
    }
    Ok(made)
}

/// The polynomials of the rows.
fn polys_of(alloc: Global, rows: &[Row]) -> Result<Items<Poly>, AllocError>
    ensures { IfOk result (λ ps. ps ≡ map poly_of rows.now) }
{
    let mut polys = Items::with_capacity(alloc, rows.len())?;
    for row in rows {
        polys.push(row.poly().try_clone(alloc)?)?;
    }
    Ok(polys)
}

/// The polynomial that the row says to be 0, unless it is 0.
fn equation_of(row: &Row) -> Option<&Poly>
    ensures { option_copied result ≡ equation_of row.now }
{
    match row {
        Row::Eq(poly) if !poly.body().terms.is_empty() => Some(poly),
        _ => None,
    }
}

/// The polynomials that the rows say to be 0, unless they are 0.
fn equations_of(alloc: Global, rows: &[Row]) -> Result<Items<Poly>, AllocError>
    ensures { IfOk result (λ ps. ps ≡ filter_map equation_of rows.now) }
{
    let mut equations = Items::new(alloc);
    for row in rows {
        if let Some(poly) = equation_of(row) {
            equations.push(poly.try_clone(alloc)?)?;
        }
    }
    Ok(equations)
}

/// What is known where the first rows, so many, are those of the goal, and the others have the
/// values.
fn instance_of(alloc: Global, rows: &[Row], count: usize) -> Result<Instance, AllocError>
    ensures { IfOk result (λ i. i ≡ instance_of count rows.now) }
{
    let (given, others) = rows.split_at(count.min(rows.len()));
    let values = polys_of(alloc, others)?;
    let equations = equations_of(alloc, given)?;
    Ok(Instance { values, equations })
}

/// The same with equations of the divisions in the values; Large exactly where one of these, or a
/// polynomial on the way to it, passes the limits.
fn with_facts(alloc: Global, goal: Instance) -> Result<Instance, PolyEnd>
    ensures { Forms PolyEnd.Large result (with_facts goal) }
{
    let facts = facts(alloc, goal.values.as_slice())?;
    let mut goal = goal;
    goal.equations.append(facts)?;
    Ok(goal)
}

/// What is known of the places; Large exactly where a polynomial on the way passes the limits.
fn formed_values(alloc: Global, rows: &[Row], places: &[Poly]) -> Result<Instance, PolyEnd>
    ensures { Forms PolyEnd.Large result (values_formed rows.now places.now) }
{
    let given = with_places(alloc, rows, places)?;
    let left = replaced(alloc, given, MOST_REPLACED)?;
    let goal = instance_of(alloc, left.as_slice(), rows.len())?;
    with_facts(alloc, goal)
}

/// What the rows of a goal leave of the polynomials at its places, and the equations that are left:
/// a disequality of each polynomial is put after the rows, and in all of these each variable that a
/// row says the value of is replaced, at most 100 times, as in the first phase of the refuter. After
/// the equations stands what is 0 of each division by a number in the values: the divisor times the
/// quotient, and the remainder, less the dividend. None exactly where a polynomial on the way passes
/// the limits.
pub fn values(alloc: Global, rows: &[Row], places: &[Poly]) -> Result<Option<Instance>, NoMemory>
    ensures exact { IfOk result (λ i. i ≡ form_within (values_formed rows.now places.now)) }
    ensures describes { IfOk result (λ i. IfSome i (λ goal. (a : ℕ → ℤ) → AllHold a rows.now →
        Describes a places.now goal)) }
{
    form_within(formed_values(alloc, rows, places))
}
