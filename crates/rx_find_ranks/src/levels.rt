//! The components of the graph of open pairs, and their heights.
ghost use Rattle.std.specs.Prelude.{◌≡◌, ◌<◌, ◌≤◌, ◌^◌, IfOk, ℕ, length, slice_index};
ghost use Rattle.rx_graph.specs.Components.{AreComponents};
ghost use Rattle.rx_graph.specs.Graph.{IsOver};
ghost use Rattle.rx_graph.specs.Heights.{AreHeights};
ghost use Rattle.rx_pairs.specs.Graph.{edges_of};
ghost use Rattle.rx_rank.specs.Components.{representatives_of};
ghost use Rattle.rx_find_ranks.specs.Tables.{pairs_open};

use crate::lending::pairs_of;
use crate::open_pair::OpenPair;
use rx_plain::NoMemory;
use rx_rank::graph_of;
use std::alloc::Global;

/// The components, and how high each is over those that its pairs lead to.
#[derive(Drop)]
pub(crate) struct Levels {
    /// By symbol the least symbol of its component.
    pub(crate) names: Vec<u32>,
    /// By symbol the height of its component.
    pub(crate) heights: Vec<u32>,
}

/// The components of the graph of the open pairs, with their heights.
pub(crate) fn find_levels(
    alloc: Global,
    symbols: usize,
    entries: &[OpenPair],
) -> Result<Levels, NoMemory>
    requires over { IsOver symbols (edges_of (pairs_open entries.now)) }
    requires few { symbols ≤ 2 ^ 32 }
    ensures names { IfOk result (λ found. found.names.items ≡
        representatives_of symbols (pairs_open entries.now)) }
    ensures heights { IfOk result (λ found. AreHeights symbols (edges_of (pairs_open entries.now))
        found.heights.items) }
    ensures components { IfOk result (λ found.
        AreComponents symbols (edges_of (pairs_open entries.now)) found.names.items) }
    ensures count { IfOk result (λ found. length found.heights.items ≡ symbols) }
    ensures below { IfOk result (λ found. (a : ℕ) → a < symbols →
        slice_index found.heights.items a < symbols) }
{
    let pairs = pairs_of(alloc, entries)?;
    let graph = graph_of(alloc, symbols, pairs.as_slice())?;
    let names = graph.components(alloc)?;
    let heights = graph.heights(alloc, names.as_slice())?;
    Ok(Levels { names, heights })
}
