//! The components of the graph of borrowed pairs, each with its least symbol as representative.
ghost use Rattle.std.specs.Prelude.{◌≡◌, ◌≤◌, ◌^◌, IfOk};
ghost use Rattle.rx_graph.specs.Graph.{IsClosed, IsGraphOf, IsOver, rows_of};
ghost use Rattle.rx_pairs.specs.Graph.{edges_of};
ghost use Rattle.rx_rank.specs.Answers.{pairs_at};
ghost use Rattle.rx_rank.specs.Components.{is_inside, representatives_of};

use rx_anchors::is_member;
use rx_graph::Graph;
use rx_pairs::Pair;
use rx_plain::NoMemory;
use std::alloc::Global;

/// The graph of the pairs, which are borrowed; fails only where there is no memory.
pub fn graph_of(alloc: Global, symbols: usize, pairs: &[&Pair]) -> Result<Graph, NoMemory>
    requires { IsOver symbols (edges_of (pairs_at pairs.now)) }
    ensures edges { IfOk result (λ graph. IsGraphOf symbols (edges_of (pairs_at pairs.now))
        (rows_of graph.rows.items)) }
    ensures closed { IfOk result (λ graph. IsClosed (rows_of graph.rows.items)) }
{
    let mut graph = Graph::new(alloc, symbols)?;
    for pair in pairs {
        graph.add(pair.left.0, pair.right.0)?;
    }
    Ok(graph)
}

/// By symbol the representative of its component in the graph of the pairs, which is the least
/// symbol of the component; fails only where there is no memory.
pub fn find_representatives(
    alloc: Global,
    symbols: usize,
    pairs: &[&Pair],
) -> Result<Vec<u32>, NoMemory>
    requires over { IsOver symbols (edges_of (pairs_at pairs.now)) }
    requires few { symbols ≤ 2 ^ 32 }
    ensures { IfOk result (λ names. names.items ≡ representatives_of symbols (pairs_at pairs.now)) }
{
    let graph = graph_of(alloc, symbols, pairs)?;
    let names = graph.components(alloc)?;
    Ok(names)
}

/// Whether both symbols of the pair are of one component.
pub fn is_inside(names: &[u32], pair: &Pair) -> bool
    ensures { result ≡ is_inside names.now pair.now }
{
    match names.get(pair.left.0 as usize) {
        Some(name) => is_member(names, *name, pair.right.0),
        None => false,
    }
}
