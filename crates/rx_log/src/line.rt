//! The lines of a log.

use rx_cert::Cert;
use rx_cover::CoverTree;
use rx_inference::Step;
use rx_pairs::PairCert;
use rx_plain::Items;
use rx_poly::Poly;
use rx_row::Constraint;

/// A line of a log, without the symbols whose numbers are in it.
#[derive(Drop)]
pub enum Line {
    /// The first line of version 1, which names the format.
    Header,
    /// The first line of version 2.
    Header2,
    /// The domain of a symbol: rows over its arguments.
    Domain(Constraint),
    /// Why the goal is inside the domains, or why a rule keeps them.
    Keep(Items<Cert>),
    /// The trees that are to cover a symbol.
    Cover(Items<CoverTree>),
    /// A step.
    Step(Step),
    /// How many columns the ranks have, 1 to 15.
    Ranks(u32),
    /// The rank of a symbol: a polynomial for each column.
    Rank(Items<Poly>),
    /// Why a pair is lower.
    Pair(PairCert),
    /// The last line, which says what was shown.
    End,
}
