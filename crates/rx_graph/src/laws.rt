//! Laws of paths, components and heights, each a function with an empty body.
ghost use Rattle.std.specs.Prelude.{◌≡◌, ◌<◌, ◌↔◌, ℕ, true, List, length, slice_index};
ghost use Rattle.rx_graph.specs.Components.{AreComponents, components_of};
ghost use Rattle.rx_graph.specs.Graph.{IsOver, Path, below, reaches, together};
ghost use Rattle.rx_graph.specs.Heights.{AreHeights};

/// Over all numbers below a bound, the recursion over the vertices that a path may go through finds
/// exactly the paths.
pub fn reaching_is_having_a_path()
    ensures { (n : ℕ) (edges : List (ℕ × ℕ)) → IsOver n edges → (a b : ℕ) →
        (reaches edges (below n) a b ≡ true) ↔ Path edges a b }
{}

/// Two vertices have one label exactly where they are in one component.
pub fn one_label_is_one_component()
    ensures { (n : ℕ) (edges : List (ℕ × ℕ)) → IsOver n edges → (labels : List ℕ) →
        AreComponents n edges labels →
        (a b : ℕ) → a < n → b < n →
        (slice_index labels a ≡ slice_index labels b) ↔ (together edges (below n) a b ≡ true) }
{}

/// A graph has one list of labels, which is what is computed.
pub fn components_are_computed()
    ensures { (n : ℕ) (edges : List (ℕ × ℕ)) → IsOver n edges → (labels : List ℕ) → length labels ≡
        n →
        AreComponents n edges labels → labels ≡ components_of n edges }
{}

/// A graph has one list of heights.
pub fn heights_are_determined()
    ensures { (n : ℕ) (edges : List (ℕ × ℕ)) → IsOver n edges → (heights others : List ℕ) →
        AreHeights n edges heights → AreHeights n edges others →
        (a : ℕ) → a < n → slice_index heights a ≡ slice_index others a }
{}
