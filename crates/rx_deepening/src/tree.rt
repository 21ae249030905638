//! Trees, as their nodes are settled.

use rx_plain::{Items, NoMemory};

/// A node once it is settled.
#[derive(Debug, Drop)]
pub struct Settled<N, R> {
    /// What it is then.
    pub node: N,
    /// Whether it is closed.
    pub closed: bool,
    /// What was noted on the way to it.
    pub note: Option<R>,
}

/// A choice at a node.
#[derive(Debug, Drop)]
pub struct Choice<N> {
    /// Which.
    pub number: u8,
    /// The node that it leads to.
    pub node: N,
}

/// The choices at a node.
#[derive(Debug, Drop)]
pub struct Menu<N, R> {
    /// In order.
    pub choices: Items<Choice<N>>,
    /// What was noted on the way to them.
    pub note: Option<R>,
}

/// A tree: it settles nodes, and finds the choices at them. What comes of both is a function of
/// what is seen of the node.
pub trait Tree {
    ghost use Rattle.std.specs.Prelude.{◌≡◌, All, IfOk};
    ghost use Rattle.rx_deepening.specs.Views.{seen_menu, seen_settled};
    ghost use Rattle.rx_deepening.specs.declared.tree.Menu.{Menu};
    ghost use Rattle.rx_deepening.specs.declared.tree.Settled.{Settled};

    /// The nodes.
    type Node: Drop;

    /// What may be noted.
    type Note: Drop;

    // What a tree is made from: it stays the same.
    ghost World: { Type 0 };

    ghost world: { Self → World };

    // What has to hold of the tree for a call, and holds after it again.
    ghost ready: { Self → Type 0 };

    // What is seen of a node.
    ghost View: { Type 0 };

    ghost view: { Self.Node → View };

    // What holds of the nodes that calls come to, if it holds of the first.
    ghost valid: { World → Self.Node → Type 0 };

    // The settled node.
    ghost settled: { World → View → Settled View Self.Note };

    // The choices at a settled node.
    ghost menu: { World → View → Menu View Self.Note };

    /// Settles a node, which it takes over.
    fn settle(&mut self, node: Self::Node) -> Result<Settled<Self::Node, Self::Note>, NoMemory>
        requires ready { ready self.old }
        requires valid { valid (world self.old) node }
        ensures ready { ready self.new }
        ensures world { world self.new ≡ world self.old }
        ensures settled { IfOk result (λ s. seen_settled view s ≡
            settled (world self.old) (view node)) }
        ensures valid { IfOk result (λ s. valid (world self.old) s.node) };

    /// Finds the choices at a settled node that isn't closed.
    fn choices(&mut self, node: &Self::Node) -> Result<Menu<Self::Node, Self::Note>, NoMemory>
        requires ready { ready self.old }
        requires valid { valid (world self.old) node.now }
        ensures ready { ready self.new }
        ensures world { world self.new ≡ world self.old }
        ensures menu { IfOk result (λ m. seen_menu view m ≡ menu (world self.old) (view node.now)) }
        ensures valid { IfOk result (λ m. All (λ c. valid (world self.old) c.node) m.choices) };
}
