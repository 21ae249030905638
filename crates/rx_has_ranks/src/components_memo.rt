//! The representatives of components, from one ranking to the next: the graphs of open pairs have
//! the same edges often, as the hypotheses' pairs fall by heights.
ghost use Rattle.std.specs.Prelude.{◌≡◌, ◌+◌, ◌≤◌, ◌^◌, All, IfOk, IfSome, option_copied};
ghost use Rattle.rx_graph.specs.Graph.{IsOver};
ghost use Rattle.rx_pairs.specs.Graph.{edges_of};
ghost use Rattle.rx_rank.specs.Answers.{pairs_at};
ghost use Rattle.rx_rank.specs.Components.{representatives_of};
ghost use Rattle.rx_has_ranks.specs.KnownComponents.{AreRepresentatives, same_edges};

use rx_pairs::Pair;
use rx_plain::NoMemory;
use rx_rank::find_representatives;
use std::alloc::Global;
use std::marker::Model;

/// Of how many graphs the components are kept at most.
const MOST_GRAPHS: usize = 256;

/// A graph that was met, with the representatives of its components.
#[derive(Drop)]
pub(crate) struct KnownComponents {
    /// How many symbols there are.
    pub(crate) symbols: usize,
    /// Its edges, one for each pair.
    pub(crate) edges: Vec<(u32, u32)>,
    /// By symbol the representative of its component, which is its least symbol.
    pub(crate) representatives: Vec<u32>,
}

/// The components that were found, of at most 256 graphs. They may be used with any rules;
/// contracts see the number of the graphs.
#[derive(Drop)]
pub(crate) struct ComponentsMemo {
    known: Vec<KnownComponents>,
}

impl Model for ComponentsMemo {
    ghost use Rattle.std.specs.Prelude.{All, ℕ, length};
    ghost use Rattle.std.specs.Coded.{coded_ℕ};
    ghost use Rattle.rx_has_ranks.specs.KnownComponents.{AreRepresentatives};

    ghost Value = { ℕ };

    ghost coded = { coded_ℕ };

    ghost view = { λ m. length m.known.items };

    ghost invariant = { λ m. All AreRepresentatives m.known.items };
}

/// Whether these are the edges of the pairs, in order.
fn are_edges(edges: &[(u32, u32)], pairs: &[&Pair]) -> bool
    ensures { result ≡ same_edges edges.now (pairs_at pairs.now) }
{
    if edges.len() != pairs.len() {
        return false;
    }
    for (at, pair) in pairs.iter().enumerate() {
        let edge = edges[at];
        if edge.0 != pair.left.0 || edge.1 != pair.right.0 {
            return false;
        }
    }
    true
}

/// The edges of the pairs.
fn edges_of(alloc: Global, pairs: &[&Pair]) -> Result<Vec<(u32, u32)>, NoMemory>
    ensures { IfOk result (λ edges. edges.items ≡ edges_of (pairs_at pairs.now)) }
{
    let mut edges = Vec::with_capacity(alloc, pairs.len())?;
    for pair in pairs {
        edges.push((pair.left.0, pair.right.0))?;
    }
    Ok(edges)
}

/// The components that are kept of the graph of the pairs, if it was met.
fn find_known<'a>(
    known: &'a [KnownComponents],
    symbols: usize,
    pairs: &[&Pair],
) -> Option<&'a KnownComponents>
    ensures { All AreRepresentatives known.now → IfSome (option_copied result) (λ one.
        one.representatives.items ≡ representatives_of symbols (pairs_at pairs.now)) }
{
    for one in known {
        if one.symbols == symbols && are_edges(one.edges.as_slice(), pairs) {
            return Some(one);
        }
    }
    None
}

/// Keeps the representatives of the components of the graph of the pairs, where there is room for
/// them.
fn keep_representatives(
    memo: &mut ComponentsMemo,
    alloc: Global,
    symbols: usize,
    pairs: &[&Pair],
    names: &[u32],
) -> Result<(), NoMemory>
    requires { names.now ≡ representatives_of symbols (pairs_at pairs.now) }
    ensures { memo.new ≤ memo.old + 1 }
{
    if memo.known.len() >= MOST_GRAPHS {
        return Ok(());
    }
    let edges = edges_of(alloc, pairs)?;
    let representatives = Vec::from_slice(alloc, names)?;
    memo.known.push(KnownComponents {
        symbols,
        edges,
        representatives,
    })?;
    Ok(())
}

impl ComponentsMemo {
    /// Nothing is found out yet. Takes no memory.
    pub(crate) fn new(alloc: Global) -> ComponentsMemo
        ensures { result ≡ 0 }
    {
        ComponentsMemo {
            known: Vec::new(alloc),
        }
    }

    /// By symbol the representative of its component; they are kept where they are new.
    pub(crate) fn representatives(
        &mut self,
        alloc: Global,
        symbols: usize,
        pairs: &[&Pair],
    ) -> Result<Vec<u32>, NoMemory>
        requires over { IsOver symbols (edges_of (pairs_at pairs.now)) }
        requires few { symbols ≤ 2 ^ 32 }
        ensures names { IfOk result (λ names. names.items ≡ representatives_of symbols (pairs_at pairs.now)) }
    {
        if let Some(one) = find_known(self.known.as_slice(), symbols, pairs) {
            return Ok(Vec::from_slice(alloc, one.representatives.as_slice())?);
        }
        let names = find_representatives(alloc, symbols, pairs)?;
        keep_representatives(self, alloc, symbols, pairs, names.as_slice())?;
        Ok(names)
    }
}
