//! Graphs in memory, made edge by edge.
ghost use Rattle.std.specs.Prelude.{◌≡◌, ◌<◌, ◌≤◌, ◌++◌, ◌∷◌, ◌^◌, ℕ, List, [], Contains, length};
ghost use Rattle.std.specs.Prelude.{IfOk, OnOk};
ghost use Rattle.rx_graph.specs.Graph.{IsClosed, IsGraphOf, reversed_edges, rows_of};
ghost use Rattle.rx_graph.specs.Rows.{HasAllFrom, HasOneMore};

use rx_plain::NoMemory;
use std::alloc::Global;

/// For each vertex the vertices that edges lead to, once for each edge.
#[derive(Debug, Drop)]
pub struct Graph {
    /// The vertices that are led to, by the number of the vertex.
    pub rows: Vec<Vec<u32>>,
}

/// As many empty rows.
fn empty_rows(alloc: Global, vertices: usize) -> Result<Vec<Vec<u32>>, NoMemory>
    ensures { IfOk result (λ rows. IsGraphOf vertices [] (rows_of rows.items)) }
{
    let mut rows = Vec::with_capacity(alloc, vertices)?;
    for _row in 0..vertices {
        rows.push(Vec::new(alloc))?;
    }
    Ok(rows)
}

impl Graph {
    /// A graph of as many vertices, without edges; fails only where there is no memory.
    pub fn new(alloc: Global, vertices: usize) -> Result<Graph, NoMemory>
        ensures edges { IfOk result (λ graph. IsGraphOf vertices [] (rows_of graph.rows.items)) }
        ensures closed { IfOk result (λ graph. IsClosed (rows_of graph.rows.items)) }
    {
        Ok(Graph {
            rows: empty_rows(alloc, vertices)?,
        })
    }

    /// One edge more, from a vertex of the graph to another; fails only where there is no memory.
    pub fn add(&mut self, from: u32, to: u32) -> Result<(), NoMemory>
        requires from { from < length self.old.rows.items }
        requires to { to < length self.old.rows.items }
        ensures count { length self.new.rows.items ≡ length self.old.rows.items }
        ensures edge { OnOk result ((n : ℕ) (edges : List (ℕ × ℕ)) →
            IsGraphOf n edges (rows_of self.old.rows.items) →
            IsGraphOf n (edges ++ (from, to) ∷ []) (rows_of self.new.rows.items)) }
        ensures row { OnOk result (
            HasOneMore (rows_of self.old.rows.items) from to (rows_of self.new.rows.items)) }
    {
        self.rows[from as usize].push(to)?;
        Ok(())
    }

    /// One edge more from each of the sources to the vertex.
    fn add_from_all(&mut self, sources: &[u32], to: u32) -> Result<(), NoMemory>
        requires sources { (a : ℕ) → Contains sources.now a → a < length self.old.rows.items }
        requires to { to < length self.old.rows.items }
        ensures { OnOk result (HasAllFrom (rows_of self.old.rows.items) sources.now to
            (rows_of self.new.rows.items)) }
    {
        for source in sources {
            self.add(*source, to)?;
        }
        Ok(())
    }

    /// The graph with each edge reversed; fails only where there is no memory.
    pub fn reversed(&self, alloc: Global) -> Result<Graph, NoMemory>
        requires closed { IsClosed (rows_of self.now.rows.items) }
        requires few { length self.now.rows.items ≤ 2 ^ 32 }
        ensures count { IfOk result (λ back. length back.rows.items ≡ length self.now.rows.items) }
        ensures edges { IfOk result (λ back. (edges : List (ℕ × ℕ)) →
            IsGraphOf (length self.now.rows.items) edges (rows_of self.now.rows.items) →
            IsGraphOf (length self.now.rows.items) (reversed_edges edges) (rows_of back.rows.items)) }
        ensures closed { IfOk result (λ back. IsClosed (rows_of back.rows.items)) }
    {
        let mut back = Graph::new(alloc, self.rows.len())?;
        for vertex in 0..self.rows.len() {
            back.add_from_all(self.rows[vertex].as_slice(), vertex as u32)?;
        }
        Ok(back)
    }
}
