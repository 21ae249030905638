//! Lines of a whole log: copies of its parts.
ghost use Rattle.std.specs.Prelude.{◌≡◌, IfOk};

use rx_cert::{Cert, copied_certs};
use rx_cover::CoverTree;
use rx_log::Line;
use rx_pairs::PairCert;
use rx_plain::{Items, NoMemory};
use rx_poly::{Poly, copied_polys};
use rx_row::Constraint;
use rx_steps::Step;
use std::alloc::Global;

/// The line that gives a symbol this domain.
pub(crate) fn domain_line(alloc: Global, rows: &Constraint) -> Result<Line, NoMemory>
    ensures { IfOk result (λ line. line ≡ Line.Domain rows.now) }
{
    Ok(Line::Domain(rows.try_clone(alloc)?))
}

/// The line that says why a part keeps the domains.
pub(crate) fn keep_line(alloc: Global, certs: &[Cert]) -> Result<Line, NoMemory>
    ensures { IfOk result (λ line. line ≡ Line.Keep certs.now) }
{
    Ok(Line::Keep(copied_certs(alloc, certs)?))
}

/// The line that gives a symbol these trees.
pub(crate) fn cover_line(alloc: Global, trees: &[CoverTree]) -> Result<Line, NoMemory>
    ensures { IfOk result (λ line. line ≡ Line.Cover trees.now) }
{
    let mut copies = Items::new(alloc);
    for tree in trees {
        copies.push(tree.try_clone(alloc)?)?;
    }
    Ok(Line::Cover(copies))
}

/// The line of the step.
pub(crate) fn step_line(alloc: Global, step: &Step) -> Result<Line, NoMemory>
    ensures { IfOk result (λ line. line ≡ Line.Step step.now) }
{
    Ok(Line::Step(step.try_clone(alloc)?))
}

/// The line that gives a symbol this rank.
pub(crate) fn rank_line(alloc: Global, rank: &[Poly]) -> Result<Line, NoMemory>
    ensures { IfOk result (λ line. line ≡ Line.Rank rank.now) }
{
    Ok(Line::Rank(copied_polys(alloc, rank)?))
}

/// The line that says why a pair is lower.
pub(crate) fn pair_line(alloc: Global, pair: &PairCert) -> Result<Line, NoMemory>
    ensures { IfOk result (λ line. line ≡ Line.Pair pair.now) }
{
    let certs = copied_certs(alloc, pair.certs.as_slice())?;
    Ok(Line::Pair(PairCert {
        column: pair.column,
        certs,
    }))
}
