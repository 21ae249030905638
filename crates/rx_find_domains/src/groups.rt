//! The groups of symbols that links between them make.
ghost use Rattle.std.specs.Prelude.{◌≡◌, ◌<◌, ◌≤◌, ◌++◌, ◌^◌, ℕ, List, length, IfOk, OnOk};
ghost use Rattle.std.specs.List.{flat_map};
ghost use Rattle.rx_graph.specs.Graph.{IsClosed, IsGraphOf, IsOver, rows_of};
ghost use Rattle.rx_pairs.specs.Graph.{edges_of};
ghost use Rattle.rx_term.specs.WellMade.{IsWellMade};
ghost use Rattle.rx_find_domains.specs.Groups.{groups, in_one_group, is_entry, links};

use rx_graph::Graph;
use rx_pairs::{Pair, all_pairs};
use rx_plain::NoMemory;
use rx_term::{RuleParts, Sym, SymInfo};
use std::alloc::Global;

/// Whether the symbol is the entry of a function.
fn is_entry(symbols: &[SymInfo], sym: Sym) -> bool
    ensures { result ≡ is_entry symbols.now sym.0 }
{
    match symbols.get(sym.0 as usize) {
        Some(info) => info.entry,
        None => false,
    }
}

/// The edges of the pair in both directions, unless its right symbol is an entry.
fn add_links(graph: &mut Graph, symbols: &[SymInfo], pair: &Pair) -> Result<(), NoMemory>
    requires left { pair.now.left.0 < length graph.old.rows.items }
    requires right { pair.now.right.0 < length graph.old.rows.items }
    ensures { OnOk result ((n : ℕ) (edges : List (ℕ × ℕ)) →
        IsGraphOf n edges (rows_of graph.old.rows.items) →
        IsGraphOf n (edges ++ links symbols.now pair.now) (rows_of graph.new.rows.items)) }
{
    if is_entry(symbols, pair.right) {
        return Ok(());
    }
    graph.add(pair.left.0, pair.right.0)?;
    graph.add(pair.right.0, pair.left.0)?;
    Ok(())
}

/// The graph of the links of the pairs.
fn link_graph(alloc: Global, symbols: &[SymInfo], pairs: &[Pair]) -> Result<Graph, NoMemory>
    requires { IsOver (length symbols.now) (edges_of pairs.now) }
    ensures edges { IfOk result (λ graph. IsGraphOf (length symbols.now)
        (flat_map (links symbols.now) pairs.now) (rows_of graph.rows.items)) }
    ensures closed { IfOk result (λ graph. IsClosed (rows_of graph.rows.items)) }
{
    let mut graph = Graph::new(alloc, symbols.len())?;
    for pair in pairs {
        add_links(&mut graph, symbols, pair)?;
    }
    Ok(graph)
}

/// By symbol the least symbol of its group. Fails only where there is no memory.
pub fn find_groups(alloc: Global, parts: &RuleParts) -> Result<Vec<u32>, NoMemory>
    requires made { IsWellMade parts.now }
    requires few { length parts.now.symbols ≤ 2 ^ 32 }
    ensures { IfOk result (λ names. names.items ≡ groups parts.now) }
{
    let rules = parts.rules.as_slice();
    let symbols = parts.symbols.as_slice();
    let pairs = all_pairs(alloc, rules, &[])?;
    let graph = link_graph(alloc, symbols, pairs.as_slice())?;
    let names = graph.components(alloc)?;
    Ok(names)
}

/// Whether two symbols are there, and in one group by these names.
pub fn in_one_group(names: &[u32], first: usize, second: Sym) -> bool
    ensures { result ≡ in_one_group names.now first second.0 }
{
    let Some(left) = names.get(first) else {
        return false;
    };
    match names.get(second.0 as usize) {
        Some(right) => *left == *right,
        None => false,
    }
}
