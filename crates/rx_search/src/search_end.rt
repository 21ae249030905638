//! How a search ends without a log.
ghost use Rattle.std.specs.Prelude.{◌≡◌};

use rx_plain::{Items, NoMemory};
use rx_row::Row;
use thiserror::Error;

/// Why a search made no log, or why that isn't known.
#[derive(Debug, Drop, Error)]
pub enum SearchEnd {
    /// The rules alone have no ranks, inside the domains that are found they have none or no cover,
    /// and there are no wider domains.
    #[error("no ranks are found")]
    NoRanks,
    /// The rules alone have no ranks, inside the domains that are found they have none or no cover,
    /// and a polynomial passes the limits on the way to the ranks. Wider domains aren't looked for.
    #[error("a polynomial of the ranks is too large")]
    LargeRanks {
        /// The rows of the goal.
        rows: Items<Row>,
    },
    /// No proof with at most that many choices is found.
    #[error("no proof with at most {depth} choices")]
    NoPlan {
        /// How many choices.
        depth: u32,
    },
    /// No proof is found in that many visits of nodes, and there are more.
    #[error("no proof in {visits} visits")]
    Spent {
        /// How many visits.
        visits: u32,
    },
    /// No proof is found, and a polynomial passes the limits.
    #[error("a polynomial is too large")]
    Large {
        /// The numbers of the choices on the path to the node where it does so first.
        path: Items<u8>,
        /// The rows of the first goal there.
        rows: Items<Row>,
    },
    /// There was no memory.
    #[error("out of memory")]
    NoMemory,
}

impl From<NoMemory> for SearchEnd {
    ghost use Rattle.std.specs.Prelude.{◌≡◌};
    ghost use Rattle.rx_search.specs.declared.search_end.SearchEnd.TheVariants.{NoMemory};

    ghost from_gives = { λ _ e. e ≡ NoMemory };

    fn from(_e: NoMemory) -> SearchEnd {
        SearchEnd::NoMemory
    }
}
