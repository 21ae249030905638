//! Finite graphs: which vertices a path leads to, the strongly connected components, and their
//! heights.
//!
//! What a reader may rely on: a graph is what it says of a list of edges (`IsGraphOf`), and each
//! answer is exact for any list of which that holds. Each call fails only where there is no memory.
#![tactic(auto)]

mod components;
mod graph;
mod heights;
mod laws;
mod reach;

pub use graph::Graph;
pub use laws::{
    components_are_computed, heights_are_determined, one_label_is_one_component,
    reaching_is_having_a_path,
};
pub use rx_plain::NoMemory;
