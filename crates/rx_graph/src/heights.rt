//! Heights over components: how many components the longest way out passes.
ghost use Rattle.std.specs.Prelude.{◌≡◌, ◌<◌, ◌≤◌, ◌+◌, ◌^◌, ℕ, List, Contains, count_by, length, slice_index};
ghost use Rattle.std.specs.Prelude.{IfOk};
ghost use Rattle.rx_graph.specs.Components.{AreComponents};
ghost use Rattle.rx_graph.specs.Graph.{IsClosed, IsGraphOf, rows_of};
ghost use Rattle.rx_graph.specs.Heights.{AreHeights};
ghost use Rattle.rx_graph.specs.Ranked.{AreRanks, HeightsTo, IsReachCount, Raised};

use crate::graph::Graph;
use rx_plain::NoMemory;
use std::alloc::Global;

/// How many are marked.
fn count_marked(marks: &[bool]) -> usize
    ensures { result ≡ count_by (λ m. m) marks.now }
{
    marks.iter().filter(|mark| **mark).count()
}

/// Raises the height of the label above the heights of the targets that have another label.
fn raise(targets: &[u32], labels: &[u32], own: u32, heights: &mut [u32])
    requires targets { (t : ℕ) → Contains targets.now t → t < length labels.now }
    requires names { (t : ℕ) → t < length labels.now → slice_index labels.now t <
        length heights.old }
    requires own { own < length heights.old }
    requires room { (t : ℕ) → Contains targets.now t → (slice_index labels.now t ≡ own → ⊥) →
        slice_index heights.old (slice_index labels.now t) + 1 < 2 ^ 32 }
    ensures { Raised targets.now labels.now own heights.old heights.new }
{
    for target in targets {
        let other = labels[*target as usize];
        if other != own && heights[other as usize] >= heights[own as usize] {
            heights[own as usize] = heights[other as usize] + 1;
        }
    }
}

/// For each vertex the height of its component, which is that of its label.
fn component_heights(alloc: Global, labels: &[u32], heights: &[u32]) -> Result<Vec<u32>, NoMemory>
    requires { (a : ℕ) → a < length labels.now → slice_index labels.now a < length heights.now }
    ensures count { IfOk result (λ named. length named.items ≡ length labels.now) }
    ensures named { IfOk result (λ named. (a : ℕ) → a < length labels.now →
        slice_index named.items a ≡ slice_index heights.now (slice_index labels.now a)) }
{
    let mut named = Vec::with_capacity(alloc, labels.len())?;
    for label in labels {
        named.push(heights[*label as usize])?;
    }
    Ok(named)
}

impl Graph {
    /// How many vertices a path from the vertex leads to, and the vertex itself.
    fn reach_count(&self, alloc: Global, vertex: u32) -> Result<usize, NoMemory>
        requires closed { IsClosed (rows_of self.now.rows.items) }
        requires vertex { vertex < length self.now.rows.items }
        ensures { IfOk result (λ count. (edges : List (ℕ × ℕ)) →
            IsGraphOf (length self.now.rows.items) edges (rows_of self.now.rows.items) →
            IsReachCount (length self.now.rows.items) edges vertex count) }
    {
        if self.is_end(vertex) {
            return Ok(1);
        }
        let mut marks = self.reached_from(alloc, vertex)?;
        marks[vertex as usize] = true;
        Ok(count_marked(marks.as_slice()))
    }

    /// For each vertex: how many vertices a path from it leads to, and the vertex itself.
    fn reach_counts(&self, alloc: Global) -> Result<Vec<usize>, NoMemory>
        requires closed { IsClosed (rows_of self.now.rows.items) }
        requires few { length self.now.rows.items ≤ 2 ^ 32 }
        ensures count { IfOk result (λ counts. length counts.items ≡ length self.now.rows.items) }
        ensures counts { IfOk result (λ counts. (edges : List (ℕ × ℕ)) →
            IsGraphOf (length self.now.rows.items) edges (rows_of self.now.rows.items) →
            (a : ℕ) → a < length self.now.rows.items →
            IsReachCount (length self.now.rows.items) edges a (slice_index counts.items a)) }
    {
        let mut counts = Vec::with_capacity(alloc, self.rows.len())?;
        for vertex in 0..self.rows.len() {
            counts.push(self.reach_count(alloc, vertex as u32)?)?;
        }
        Ok(counts)
    }

    /// Raises the heights at the vertices that have the count.
    fn raise_counted(&self, labels: &[u32], counts: &[usize], count: usize, heights: &mut [u32])
        requires closed { IsClosed (rows_of self.now.rows.items) }
        requires few { length self.now.rows.items ≤ 2 ^ 32 }
        requires labels { length labels.now ≡ length self.now.rows.items }
        requires counts { length counts.now ≡ length self.now.rows.items }
        requires ranks { AreRanks (rows_of self.now.rows.items) labels.now counts.now }
        requires before { HeightsTo (rows_of self.now.rows.items) labels.now counts.now count 0
            heights.old }
        ensures { HeightsTo (rows_of self.now.rows.items) labels.now counts.now (count + 1) 0
            heights.new }
    {
        for vertex in 0..self.rows.len() {
            if counts[vertex] == count {
                raise(
                    self.rows[vertex].as_slice(),
                    labels,
                    labels[vertex],
                    heights,
                );
            }
        }
    }

    /// Raises the heights at all vertices, those of a lesser count first.
    fn raise_all(&self, labels: &[u32], counts: &[usize], heights: &mut [u32])
        requires closed { IsClosed (rows_of self.now.rows.items) }
        requires few { length self.now.rows.items ≤ 2 ^ 32 }
        requires labels { length labels.now ≡ length self.now.rows.items }
        requires counts { length counts.now ≡ length self.now.rows.items }
        requires ranks { AreRanks (rows_of self.now.rows.items) labels.now counts.now }
        requires before { HeightsTo (rows_of self.now.rows.items) labels.now counts.now 0 0
            heights.old }
        ensures { HeightsTo (rows_of self.now.rows.items) labels.now counts.now
            (length self.now.rows.items + 1) 0 heights.new }
    {
        self.raise_counted(labels, counts, 0, heights);
        for done in 0..self.rows.len() {
            self.raise_counted(labels, counts, done + 1, heights);
        }
    }

    /// For each vertex the height of its component: 0 where no edge leaves the component, else 1
    /// plus the greatest height of a component that its edges lead to. Fails only where there is no
    /// memory.
    ///
    /// The labels must be those of the components.
    pub fn heights(&self, alloc: Global, labels: &[u32]) -> Result<Vec<u32>, NoMemory>
        requires closed { IsClosed (rows_of self.now.rows.items) }
        requires few { length self.now.rows.items ≤ 2 ^ 32 }
        requires count { length labels.now ≡ length self.now.rows.items }
        requires labels { (edges : List (ℕ × ℕ)) →
            IsGraphOf (length self.now.rows.items) edges (rows_of self.now.rows.items) →
            AreComponents (length self.now.rows.items) edges labels.now }
        ensures count { IfOk result (λ heights. length heights.items ≡ length self.now.rows.items) }
        ensures below { IfOk result (λ heights. (a : ℕ) → a < length self.now.rows.items →
            slice_index heights.items a < length self.now.rows.items) }
        ensures heights { IfOk result (λ heights. (edges : List (ℕ × ℕ)) →
            IsGraphOf (length self.now.rows.items) edges (rows_of self.now.rows.items) →
            AreHeights (length self.now.rows.items) edges heights.items) }
    {
        let counts = self.reach_counts(alloc)?;
        let mut raised = vec![in alloc; 0; self.rows.len()]?;
        self.raise_all(labels, counts.as_slice(), raised.as_mut_slice());
        component_heights(alloc, labels, raised.as_slice())
    }
}
