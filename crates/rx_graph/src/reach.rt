//! Walks that mark what is reached.
ghost use Rattle.std.specs.Prelude.{◌≡◌, ◌<◌, ℕ, List, Contains, length};
ghost use Rattle.std.specs.Prelude.{IfOk, OnOk};
ghost use Rattle.rx_graph.specs.Graph.{IsClosed, IsGraphOf, MarksReached, rows_of};
ghost use Rattle.rx_graph.specs.Marks.{Marked};

use crate::graph::Graph;
use rx_plain::NoMemory;
use std::alloc::Global;

/// Marks the targets that aren't marked, and adds them after those that were marked before.
fn mark(marks: &mut Vec<bool>, reached: &mut Vec<u32>, targets: &[u32]) -> Result<(), NoMemory>
    requires { (b : ℕ) → Contains targets.now b → b < length marks.old.items }
    ensures { OnOk result (
        Marked marks.old.items reached.old.items targets.now marks.new.items reached.new.items) }
{
    for target in targets {
        let number = *target;
        if !marks[number as usize] {
            marks[number as usize] = true;
            reached.push(number)?;
        }
    }
    Ok(())
}

impl Graph {
    /// For each vertex whether some path of one edge or more leads to it from `start`. Each edge is
    /// walked at most twice. Fails only where there is no memory.
    pub fn reached_from(&self, alloc: Global, start: u32) -> Result<Vec<bool>, NoMemory>
        requires closed { IsClosed (rows_of self.now.rows.items) }
        requires start { start < length self.now.rows.items }
        ensures count { IfOk result (λ marks. length marks.items ≡ length self.now.rows.items) }
        ensures exact { IfOk result (λ marks. (edges : List (ℕ × ℕ)) →
            IsGraphOf (length self.now.rows.items) edges (rows_of self.now.rows.items) →
            MarksReached edges start marks.items) }
    {
        let mut marks = vec![in alloc; false; self.rows.len()]?;
        let mut reached = Vec::with_capacity(alloc, self.rows.len())?;
        mark(
            &mut marks,
            &mut reached,
            self.rows[start as usize].as_slice(),
        )?;
        let mut next = 0;
        while next < reached.len() {
            let vertex = reached[next] as usize;
            mark(&mut marks, &mut reached, self.rows[vertex].as_slice())?;
            next += 1;
        }
        Ok(marks)
    }
}
