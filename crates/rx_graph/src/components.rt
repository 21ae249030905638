//! Strongly connected components, each named by its least vertex.
ghost use Rattle.std.specs.Prelude.{◌≡◌, ◌<◌, ◌≤◌, ◌^◌, ℕ, List, length, slice_index};
ghost use Rattle.std.specs.Prelude.{IfOk, OnOk, [], slice_index_or};
ghost use Rattle.std.specs.Bool.{OnTrue};
ghost use Rattle.rx_graph.specs.Components.{AreComponents};
ghost use Rattle.rx_graph.specs.Graph.{IsClosed, IsGraphOf, reversed_edges, rows_of};
ghost use Rattle.rx_graph.specs.Marks.{Labelled, Named};

use crate::graph::Graph;
use rx_plain::NoMemory;
use std::alloc::Global;

/// For each vertex itself.
fn own_labels(alloc: Global, vertices: usize) -> Result<Vec<u32>, NoMemory>
    requires { vertices ≤ 2 ^ 32 }
    ensures count { IfOk result (λ labels. length labels.items ≡ vertices) }
    ensures own { IfOk result (λ labels. (a : ℕ) → a < vertices → slice_index labels.items a ≡ a) }
{
    let mut labels = Vec::with_capacity(alloc, vertices)?;
    for vertex in 0..vertices {
        labels.push(vertex as u32)?;
    }
    Ok(labels)
}

/// Gives the label to the vertices that have both marks.
fn label_both(labels: &mut [u32], forwards: &[bool], backwards: &[bool], label: u32)
    requires forwards { length forwards.now ≡ length labels.old }
    requires backwards { length backwards.now ≡ length labels.old }
    ensures { Labelled forwards.now backwards.now label labels.old labels.new }
{
    for vertex in 0..labels.len() {
        if forwards[vertex] && backwards[vertex] {
            labels[vertex] = label;
        }
    }
}

impl Graph {
    /// Whether no edge leaves the vertex.
    pub(crate) fn is_end(&self, vertex: u32) -> bool
        requires vertex { vertex < length self.now.rows.items }
        ensures { OnTrue result (slice_index_or (rows_of self.now.rows.items) vertex [] ≡ []) }
    {
        self.rows[vertex as usize].as_slice().is_empty()
    }

    /// Names all of the vertex's component by the vertex, unless a lesser one did.
    fn label_component(
        &self,
        alloc: Global,
        back: &Graph,
        labels: &mut Vec<u32>,
        vertex: u32,
    ) -> Result<(), NoMemory>
        requires closed { IsClosed (rows_of self.now.rows.items) }
        requires vertex { vertex < length self.now.rows.items }
        requires turned { IsClosed (rows_of back.now.rows.items) }
        requires count { length back.now.rows.items ≡ length self.now.rows.items }
        requires labels { length labels.old.items ≡ length self.now.rows.items }
        ensures count { length labels.new.items ≡ length labels.old.items }
        ensures named { OnOk result ((edges : List (ℕ × ℕ)) →
            IsGraphOf (length self.now.rows.items) edges (rows_of self.now.rows.items) →
            IsGraphOf (length self.now.rows.items) (reversed_edges edges)
            (rows_of back.now.rows.items) →
            Named edges vertex labels.old.items labels.new.items) }
    {
        if labels[vertex as usize] != vertex {
            return Ok(());
        }
        if self.is_end(vertex) || back.is_end(vertex) {
            return Ok(());
        }
        let forwards = self.reached_from(alloc, vertex)?;
        if !forwards[vertex as usize] {
            return Ok(());
        }
        let backwards = back.reached_from(alloc, vertex)?;
        label_both(
            labels.as_mut_slice(),
            forwards.as_slice(),
            backwards.as_slice(),
            vertex,
        );
        Ok(())
    }

    /// For each vertex the least vertex of its component: of those that it reaches and that reach
    /// it, and itself. Fails only where there is no memory.
    pub fn components(&self, alloc: Global) -> Result<Vec<u32>, NoMemory>
        requires closed { IsClosed (rows_of self.now.rows.items) }
        requires few { length self.now.rows.items ≤ 2 ^ 32 }
        ensures count { IfOk result (λ labels. length labels.items ≡ length self.now.rows.items) }
        ensures least { IfOk result (λ labels. (edges : List (ℕ × ℕ)) →
            IsGraphOf (length self.now.rows.items) edges (rows_of self.now.rows.items) →
            AreComponents (length self.now.rows.items) edges labels.items) }
    {
        let back = self.reversed(alloc)?;
        let mut labels = own_labels(alloc, self.rows.len())?;
        for vertex in 0..self.rows.len() {
            self.label_component(alloc, &back, &mut labels, vertex as u32)?;
        }
        Ok(labels)
    }
}
