//! The points of a rule set at which unfolding may go on for ever, and the components of its graph
//! of pairs, found once.
ghost use Rattle.std.specs.Prelude.{◌≡◌, ◌<◌, ◌≤◌, ◌↔◌, ◌^◌, ℕ, true, false, List, length, slice_index_or};
ghost use Rattle.std.specs.Prelude.{IfOk};
ghost use Rattle.rx_graph.specs.Graph.{IsClosed, IsGraphOf, rows_of};
ghost use Rattle.rx_pairs.specs.Graph.{IsLoopPoint};
ghost use Rattle.rx_pairs.specs.Loops as spec;
ghost use Rattle.rx_term.specs.WellMade.{IsWellMade};
ghost use Rattle.rx_term.specs.declared.rule_set.RuleParts.{RuleParts};

use crate::graph::{graph_of, is_loop_point};
use crate::pairs::rule_pairs;
use rx_graph::Graph;
use rx_plain::NoMemory;
use rx_term::{RuleParts, SymInfo};
use std::alloc::Global;

/// Which symbols are loop points, and the component of each.
#[derive(Debug, Drop)]
pub struct Loops {
    /// By symbol whether unfolding at it may go on for ever.
    pub points: Vec<bool>,
    /// By symbol the least symbol of its component.
    pub components: Vec<u32>,
}

/// By symbol whether it is a loop point.
fn points_of(alloc: Global, graph: &Graph, symbols: &[SymInfo]) -> Result<Vec<bool>, NoMemory>
    requires closed { IsClosed (rows_of graph.now.rows.items) }
    requires all { length symbols.now ≡ length graph.now.rows.items }
    requires few { length symbols.now ≤ 2 ^ 32 }
    ensures count { IfOk result (λ points. length points.items ≡ length symbols.now) }
    ensures points { IfOk result (λ points. (edges : List (ℕ × ℕ)) →
        IsGraphOf (length graph.now.rows.items) edges (rows_of graph.now.rows.items) →
        (f : ℕ) → f < length symbols.now →
        (slice_index_or points.items f false ≡ true) ↔ IsLoopPoint symbols.now edges f) }
{
    let mut points = Vec::new(alloc);
    for symbol in 0..symbols.len() {
        points.push(is_loop_point(alloc, graph, symbols, symbol as u32)?)?;
    }
    Ok(points)
}

/// The loop points and components of a well made rule set. Fails only where there is no memory.
pub fn loops_of(alloc: Global, parts: &RuleParts) -> Result<Loops, NoMemory>
    requires made { IsWellMade parts.now }
    requires few { length parts.now.symbols ≤ 2 ^ 32 }
    ensures { IfOk result (λ loops. spec.AreLoopsOf parts.now loops) }
{
    let symbols = parts.symbols.as_slice();
    let pairs = rule_pairs(alloc, parts.rules.as_slice())?;
    let graph = graph_of(alloc, symbols.len(), pairs.as_slice())?;
    let points = points_of(alloc, &graph, symbols)?;
    let components = graph.components(alloc)?;
    Ok(Loops { points, components })
}

impl Loops {
    /// Whether unfolding at the symbol may go on for ever. Takes no memory.
    pub fn is_loop_point(&self, symbol: u32) -> bool
        ensures { (parts : RuleParts) → spec.AreLoopsOf parts self.now →
            result ≡ spec.is_loop_point parts symbol }
    {
        match self.points.get(symbol as usize) {
            Some(point) => *point,
            None => false,
        }
    }

    /// The least symbol of the symbol's component; itself where there is no such symbol.
    fn component_of(&self, symbol: u32) -> u32
        ensures { result ≡ slice_index_or self.now.components.items symbol symbol }
    {
        match self.components.get(symbol as usize) {
            Some(least) => *least,
            None => symbol,
        }
    }

    /// Whether the two symbols are one, or reach each other. Takes no memory.
    pub fn in_one_component(&self, first: u32, second: u32) -> bool
        ensures { (parts : RuleParts) → spec.AreLoopsOf parts self.now →
            result ≡ spec.in_one_component parts first second }
    {
        self.component_of(first) == self.component_of(second)
    }
}
