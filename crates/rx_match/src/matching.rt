//! The match of a hypothesis with a part.
ghost use Rattle.rx_plain.specs.Formed.{Forms};
ghost use Rattle.rx_match.specs.Matching.{matching};

use crate::arguments::set_by_arguments;
use crate::equations::pass_often;
use rx_plain::Items;
use rx_poly::{Poly, PolyEnd};
use rx_term::{Rule, Term};
use std::alloc::Global;

/// What the variables of the hypothesis are set to at the part: first by the part's arguments, then
/// by the hypothesis's equations. Large exactly where a value or its instance passes the limits.
pub(crate) fn match_part(
    alloc: Global,
    hypothesis: &Rule,
    part: &Term,
) -> Result<Items<(u32, Poly)>, PolyEnd>
    ensures forms { Forms PolyEnd.Large result (matching hypothesis.now part.now) }
{
    let settings = set_by_arguments(alloc, &hypothesis.left, part)?;
    pass_often(alloc, settings, hypothesis.rows.rows())
}
