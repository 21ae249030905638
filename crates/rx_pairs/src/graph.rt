//! The graph of pairs: an edge goes from the left symbol of a pair to its right one.
ghost use Rattle.std.specs.Prelude.{◌≡◌, ◌↔◌, ℕ, List, length};
ghost use Rattle.std.specs.Prelude.{IfOk, IsTrue};
ghost use Rattle.rx_graph.specs.Graph.{IsClosed, IsGraphOf, IsOver, rows_of};
ghost use Rattle.rx_pairs.specs.Graph.{IsLoopPoint, edges_of, may_loop};

use crate::pair::Pair;
use rx_graph::Graph;
use rx_plain::NoMemory;
use rx_term::SymInfo;
use std::alloc::Global;

/// Whether the symbol is the entry of a function or the head of a loop, and no frame.
fn may_loop(info: &SymInfo) -> bool
    ensures { result ≡ may_loop info.now }
{
    (info.entry || info.head) && !info.frame
}

/// The graph of the pairs, over as many symbols; fails only where there is no memory.
pub fn graph_of(alloc: Global, symbols: usize, pairs: &[Pair]) -> Result<Graph, NoMemory>
    requires { IsOver symbols (edges_of pairs.now) }
    ensures edges { IfOk result (λ graph.
        IsGraphOf symbols (edges_of pairs.now) (rows_of graph.rows.items)) }
    ensures closed { IfOk result (λ graph. IsClosed (rows_of graph.rows.items)) }
{
    let mut graph = Graph::new(alloc, symbols)?;
    for pair in pairs {
        graph.add(pair.left.0, pair.right.0)?;
    }
    Ok(graph)
}

/// Whether unfolding at the symbol may go on for ever: it is the entry of a function or the head of
/// a loop, no frame, and some path of the graph of pairs leads from it to itself. Fails only where
/// there is no memory.
pub fn is_loop_point(
    alloc: Global,
    graph: &Graph,
    symbols: &[SymInfo],
    symbol: u32,
) -> Result<bool, NoMemory>
    requires closed { IsClosed (rows_of graph.now.rows.items) }
    requires all { length symbols.now ≡ length graph.now.rows.items }
    ensures { IfOk result (λ yes. (edges : List (ℕ × ℕ)) →
        IsGraphOf (length graph.now.rows.items) edges (rows_of graph.now.rows.items) →
        IsTrue yes ↔ IsLoopPoint symbols.now edges symbol) }
{
    let Some(info) = symbols.get(symbol as usize) else {
        return Ok(false);
    };
    if !may_loop(info) {
        return Ok(false);
    }
    let marks = graph.reached_from(alloc, symbol)?;
    Ok(marks[symbol as usize])
}
