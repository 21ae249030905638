//! The relations of goals, as rows.
ghost use Rattle.std.specs.Prelude.{◌≡◌, All, map, IfOk, IfSome};
ghost use Rattle.rx_plain.specs.Formed.{Forms};
ghost use Rattle.rx_row.specs.declared.row.Row.TheVariants.{Eq};
ghost use Rattle.rx_relations.specs.Applying.{form_within};
ghost use Rattle.rx_relations.specs.Holding.{HoldAt};
ghost use Rattle.rx_relations.specs.Relations.{relations_formed};

use crate::applying::form_within;
use crate::instance::Instance;
use crate::linear::linear;
use crate::products::{free_places, products};
use rx_plain::{Items, NoMemory};
use rx_poly::{Poly, PolyEnd};
use rx_row::Row;
use std::alloc::{AllocError, Global};

/// The equations that say that each of these is 0.
fn equations(alloc: Global, polys: Items<Poly>) -> Result<Items<Row>, AllocError>
    ensures { IfOk result (λ rows. rows ≡ map Eq polys) }
{
    let mut rows = Items::with_capacity(alloc, polys.len())?;
    for poly in polys.into_vec() {
        rows.push(Row::Eq(poly))?;
    }
    Ok(rows)
}

/// The relations of goals with as many places; Large exactly where a polynomial on the way passes
/// the limits.
fn formed_relations(alloc: Global, count: u32, goals: &[Instance]) -> Result<Items<Row>, PolyEnd>
    ensures { Forms PolyEnd.Large result (relations_formed count goals.now) }
{
    let solved = linear(alloc, count, goals)?;
    let free = free_places(alloc, count, solved.given.as_slice())?;
    let products = products(alloc, free.as_slice(), goals)?;
    let mut all = solved.relations;
    all.append(products)?;
    Ok(equations(alloc, all)?)
}

/// The relations of goals with as many places, in order: equations between the polynomials at the
/// places, variable i for that at place i, that hold at each of the goals. First the linear ones,
/// solved for places of coefficient 1 or -1; then, where at most 9 places are not given by these,
/// those between such places and products of two of them in which some place stands alone and in no
/// product. None exactly where a polynomial on the way passes the limits.
pub fn relations(
    alloc: Global,
    count: u32,
    goals: &[Instance],
) -> Result<Option<Items<Row>>, NoMemory>
    ensures exact { IfOk result (λ rows. rows ≡ form_within (relations_formed count goals.now)) }
    ensures hold { IfOk result (λ o. IfSome o (λ rows. All (HoldAt rows) goals.now)) }
{
    form_within(formed_relations(alloc, count, goals))
}
