//! What rankings found out, from one to the next.
ghost use Rattle.std.specs.Prelude.{◌≡◌};

use crate::components_memo::ComponentsMemo;
use rx_rank::PairMemo;
use std::alloc::Global;

/// What was found out of pairs and of their graphs. It may be used with any rules and any solver.
#[derive(Drop)]
pub struct RankMemo {
    /// The components of graphs of pairs.
    pub(crate) components: ComponentsMemo,
    /// The tests of pairs.
    pub pairs: PairMemo,
}

impl RankMemo {
    /// Nothing is found out yet. Takes no memory.
    pub fn new(alloc: Global) -> RankMemo
        ensures pairs { result.pairs ≡ 0 }
    {
        RankMemo {
            components: ComponentsMemo::new(alloc),
            pairs: PairMemo::new(alloc),
        }
    }
}
