//! What is kept of the tree from one round of visits to the next: its frontier.
ghost use Rattle.std.specs.Prelude.{◌≡◌, ◌++◌, ◌∷◌, [], ◌<◌, ◌+◌, ◌-◌, true, false, Ok, IfOk};
ghost use Rattle.rx_deepening.specs.Counters.{begin, stopped, visited, visited_open};
ghost use Rattle.rx_deepening.specs.Visits.{alone};
ghost use Rattle.rx_deepening.specs.declared.kept.Kept.TheVariants.{Expanded, Frontier};

use crate::counter::{Counter, begin, count, count_open, stop};
use crate::tree::Settled;
use rx_plain::{Items, NoMemory};
use std::alloc::Global;

/// A node that is settled and isn't closed, and below which nothing is kept.
#[derive(Drop)]
pub(crate) struct Leaf<N> {
    /// The numbers of the choices on the path to it.
    pub path: Items<u8>,
    /// The node as it is settled.
    pub node: N,
    /// With at most how many choices nodes below it were visited so far: 0 where none was.
    pub below: u32,
}

/// One of the nodes that were visited, in preorder.
#[derive(Drop)]
pub(crate) enum Kept<N> {
    /// Its choices were found, and the nodes that they lead to come next. Its state isn't kept.
    Expanded,
    /// It is a leaf of what is kept.
    Frontier(Leaf<N>),
}

/// The visits so far, and what is kept of the nodes of this round.
#[derive(Drop)]
pub(crate) struct Progress<N, R> {
    /// The visits so far.
    pub counter: Counter<N, R>,
    /// What is kept, in preorder.
    pub kept: Items<Kept<N>>,
    /// How many more nodes may be kept.
    pub room: usize,
}

/// No visit is made yet, and nothing is kept.
pub(crate) fn start_keeping<N, R>(alloc: Global, budget: u32, most_kept: usize) -> Progress<N, R>
    ensures { result ≡ record { counter = begin budget; kept = []; room = most_kept } }
{
    Progress {
        counter: begin(budget),
        kept: Items::new(alloc),
        room: most_kept,
    }
}

/// The visits where another one isn't made. What is kept stays.
pub(crate) fn stop_visits<N, R>(progress: Progress<N, R>) -> Progress<N, R>
    ensures counter { result.counter ≡ stopped progress.counter.ended progress.counter }
    ensures kept { result.kept ≡ progress.kept }
{
    Progress {
        counter: stop(progress.counter),
        kept: progress.kept,
        room: progress.room,
    }
}

/// One node more is kept.
pub(crate) fn push_kept<N: Drop, R: Drop>(
    progress: Progress<N, R>,
    node: Kept<N>,
) -> Result<Progress<N, R>, NoMemory>
    ensures counter { IfOk result (λ p. p.counter ≡ progress.counter) }
    ensures kept { IfOk result (λ p. p.kept ≡ progress.kept ++ node ∷ []) }
{
    let mut longer = progress;
    longer.kept.push(node)?;
    Ok(longer)
}

/// The visit of a node that isn't closed, which takes so much room.
fn count_kept<N: Drop, R: Drop>(
    path: Items<u8>,
    note: Option<R>,
    taken: usize,
    progress: Progress<N, R>,
) -> Progress<N, R>
    requires { 0 < progress.counter.left }
    ensures counter { result.counter ≡ visited_open (progress.counter.left - 1) progress.counter path note }
    ensures kept { result.kept ≡ progress.kept }
{
    Progress {
        counter: count_open(progress.counter, path, note),
        kept: progress.kept,
        room: progress.room.saturating_sub(taken),
    }
}

/// The visit of a node that isn't closed, which is kept as an expanded one, and takes so much room
/// for the nodes that its choices lead to.
pub(crate) fn keep_expanded<N: Drop, R: Drop>(
    path: Items<u8>,
    note: Option<R>,
    taken: usize,
    progress: Progress<N, R>,
) -> Result<Progress<N, R>, NoMemory>
    requires { 0 < progress.counter.left }
    ensures counter { IfOk result (λ p. p.counter ≡
        visited_open (progress.counter.left - 1) progress.counter path note) }
    ensures kept { IfOk result (λ p. p.kept ≡ progress.kept ++ Expanded ∷ []) }
{
    push_kept(count_kept(path, note, taken, progress), Kept::Expanded)
}

/// The visit of a leaf that is expanded: the same, with a copy of its path.
pub(crate) fn keep_expanded_leaf<N: Drop, R: Drop>(
    alloc: Global,
    path: &[u8],
    note: Option<R>,
    taken: usize,
    progress: Progress<N, R>,
) -> Result<Progress<N, R>, NoMemory>
    requires { 0 < progress.counter.left }
    ensures counter { IfOk result (λ p. p.counter ≡
        visited_open (progress.counter.left - 1) progress.counter path.now note) }
    ensures kept { IfOk result (λ p. p.kept ≡ progress.kept ++ Expanded ∷ []) }
{
    let at = Items::from_slice(alloc, path)?;
    keep_expanded(at, note, taken, progress)
}

/// The visit of a settled node that isn't closed, which is kept as a leaf.
fn keep_leaf<N: Drop, R: Drop>(
    alloc: Global,
    path: Items<u8>,
    node: N,
    note: Option<R>,
    progress: Progress<N, R>,
) -> Result<Progress<N, R>, NoMemory>
    requires { 0 < progress.counter.left }
    ensures counter { IfOk result (λ p. p.counter ≡
        visited_open (progress.counter.left - 1) progress.counter path note) }
    ensures kept { IfOk result (λ p. p.kept ≡ progress.kept ++
        Frontier (record { path = path; node = node; below = 0 }) ∷ []) }
{
    let at = Items::from_slice(alloc, path.as_slice())?;
    let leaf = Leaf {
        path,
        node,
        below: 0,
    };
    push_kept(count_kept(at, note, 0, progress), Kept::Frontier(leaf))
}

/// The only visit of a settled node in its first round. It is kept as a leaf unless it is closed.
pub(crate) fn keep_settled<N: Drop, R: Drop>(
    alloc: Global,
    path: Items<u8>,
    settled: Settled<N, R>,
    progress: Progress<N, R>,
) -> Result<Progress<N, R>, NoMemory>
    requires { 0 < progress.counter.left }
    ensures counter { IfOk result (λ p. p.counter ≡
        visited (progress.counter.left - 1) progress.counter (alone path settled)) }
    ensures closed { settled.closed ≡ true → IfOk result (λ p. p.kept ≡ progress.kept) }
    ensures unclosed { settled.closed ≡ false → IfOk result (λ p. p.kept ≡ progress.kept ++
        Frontier (record { path = path; node = settled.node; below = 0 }) ∷ []) }
{
    let Settled { node, closed, note } = settled;
    if closed {
        Ok(Progress {
            counter: count(progress.counter, path, node, true, note),
            kept: progress.kept,
            room: progress.room,
        })
    } else {
        keep_leaf(alloc, path, node, note, progress)
    }
}

/// The leaf with one more choice below it, where the nodes there could be walked over.
pub(crate) fn keep_walked<N: Drop, R: Drop>(
    leaf: Leaf<N>,
    kept: Items<Kept<N>>,
    room: usize,
    walked: Result<Counter<N, R>, NoMemory>,
) -> Result<Progress<N, R>, NoMemory>
    requires { leaf.below < u32.MAX }
    ensures counter { IfOk result (λ p. walked ≡ Ok p.counter) }
    ensures kept { IfOk result (λ p. p.kept ≡ kept ++ Frontier (record {
      path = leaf.path;
      node = leaf.node;
      below = leaf.below + 1;
    }) ∷ []) }
{
    let counter = walked?;
    let Leaf { path, node, below } = leaf;
    let leaf = Leaf {
        path,
        node,
        below: below + 1,
    };
    push_kept(
        Progress {
            counter,
            kept,
            room,
        },
        Kept::Frontier(leaf),
    )
}
