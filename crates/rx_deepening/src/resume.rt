//! Visits from kept nodes on: each of these is settled once, and its choices are found once, where
//! there is room to keep the nodes that they lead to.
ghost use Rattle.std.specs.Prelude.{◌≡◌, ◌+◌, ◌-◌, ◌<◌, ◌++◌, ◌∷◌, [], All, ℕ, false, IfOk, List, map};
ghost use Rattle.rx_deepening.specs.Keeping.{IsAfterNote, IsLeaf, IsVisited, OfLeaf, StandsForVisits, visits_from};
ghost use Rattle.rx_deepening.specs.Counters.{GoesOn, visited_open};
ghost use Rattle.rx_deepening.specs.Views.{IfFound, seen_choice, seen_menu};
ghost use Rattle.rx_deepening.specs.Visits.{Visit, alone, visits, visits_of};
ghost use Rattle.rx_deepening.specs.declared.kept.Kept.TheVariants.{Expanded};
ghost use Rattle.rx_deepening.specs.declared.tree.Settled.{Settled};

use crate::counter::may_visit;
use crate::kept::{
    Kept, Leaf, Progress, keep_expanded, keep_expanded_leaf, keep_settled, keep_walked, stop_visits,
};
use crate::tree::{Choice, Menu, Tree};
use crate::walk::{longer, walk_leaf};
use rx_plain::{Items, NoMemory};
use std::alloc::Global;

/// The only visit of a node in its first round: it is settled, and kept unless it is closed.
pub(crate) fn visit_new<T: Tree>(
    alloc: Global,
    tree: &mut T,
    path: Items<u8>,
    node: T::Node,
    progress: Progress<T::Node, T::Note>,
) -> Result<Progress<T::Node, T::Note>, NoMemory>
    requires ready { T.ready tree.old }
    requires valid { T.valid (T.world tree.old) node }
    ensures ready { T.ready tree.new }
    ensures world { T.world tree.new ≡ T.world tree.old }
    ensures visited { IfOk result (IsVisited T.view (T.settled (T.world tree.old))
        (T.menu (T.world tree.old)) progress (λ n.
        visits (T.settled (T.world tree.old)) (T.menu (T.world tree.old)) n path (T.view node))) }
    ensures valid { IfFound (T.valid (T.world tree.old)) progress.counter.ended →
        IfOk result (λ p. IfFound (T.valid (T.world tree.old)) p.counter.ended) }
    ensures leaves { (most : ℕ) → 0 < most → All (OfLeaf (T.valid (T.world tree.old)) most)
        progress.kept → IfOk result (λ p. All (OfLeaf (T.valid (T.world tree.old)) most) p.kept) }
{
    if !may_visit(&progress.counter) {
        return Ok(stop_visits(progress));
    }
    let settled = tree.settle(node)?;
    keep_settled(alloc, path, settled, progress)
}

/// The visits of the nodes that the choices lead to, in order, in their first round.
fn visit_each<T: Tree>(
    alloc: Global,
    tree: &mut T,
    path: &[u8],
    choices: Items<Choice<T::Node>>,
    progress: Progress<T::Node, T::Note>,
) -> Result<Progress<T::Node, T::Note>, NoMemory>
    requires ready { T.ready tree.old }
    requires valid { All (λ c. T.valid (T.world tree.old) c.node) choices }
    ensures ready { T.ready tree.new }
    ensures world { T.world tree.new ≡ T.world tree.old }
    ensures visited { IfOk result (IsVisited T.view (T.settled (T.world tree.old))
        (T.menu (T.world tree.old)) progress (λ n.
        visits_of (T.settled (T.world tree.old)) (T.menu (T.world tree.old)) n path.now
        (map (seen_choice T.view) choices))) }
    ensures valid { IfFound (T.valid (T.world tree.old)) progress.counter.ended →
        IfOk result (λ p. IfFound (T.valid (T.world tree.old)) p.counter.ended) }
    ensures leaves { (most : ℕ) → 0 < most → All (OfLeaf (T.valid (T.world tree.old)) most)
        progress.kept → IfOk result (λ p. All (OfLeaf (T.valid (T.world tree.old)) most) p.kept) }
{
    let mut progress = progress;
    for choice in choices.into_vec() {
        let Choice { number, node } = choice;
        let at = longer(alloc, path, number)?;
        progress = visit_new(alloc, tree, at, node, progress)?;
    }
    Ok(progress)
}

/// The visits from a leaf on, by its choices; the nodes that they lead to are kept in its place.
fn expand<T: Tree>(
    alloc: Global,
    tree: &mut T,
    path: &[u8],
    menu: Menu<T::Node, T::Note>,
    progress: Progress<T::Node, T::Note>,
) -> Result<Progress<T::Node, T::Note>, NoMemory>
    requires ready { T.ready tree.old }
    requires valid { All (λ c. T.valid (T.world tree.old) c.node) menu.choices }
    requires goes { GoesOn progress.counter }
    ensures ready { T.ready tree.new }
    ensures world { T.world tree.new ≡ T.world tree.old }
    ensures visited { (s : Settled T.View T.Note) → s.closed ≡ false →
        IsAfterNote progress.counter.note (alone path.now s) → seen_menu T.view menu ≡
        T.menu (T.world tree.old) s.node → IfOk result
        (IsVisited T.view (T.settled (T.world tree.old)) (T.menu (T.world tree.old)) progress
        (λ n. visits_from (T.settled (T.world tree.old)) (T.menu (T.world tree.old)) n path.now s)) }
    ensures valid { IfOk result (λ p. IfFound (T.valid (T.world tree.old)) p.counter.ended) }
    ensures leaves { (most : ℕ) → 0 < most → All (OfLeaf (T.valid (T.world tree.old)) most)
        progress.kept → IfOk result (λ p. All (OfLeaf (T.valid (T.world tree.old)) most) p.kept) }
{
    let Menu { choices, note } = menu;
    let progress = keep_expanded_leaf(alloc, path, note, choices.len(), progress)?;
    visit_each(alloc, tree, path, choices, progress)
}

/// The visits from a leaf on, by its choices; it stays a leaf.
fn walk_below<T: Tree>(
    alloc: Global,
    tree: &mut T,
    leaf: Leaf<T::Node>,
    menu: Menu<T::Node, T::Note>,
    progress: Progress<T::Node, T::Note>,
) -> Result<Progress<T::Node, T::Note>, NoMemory>
    requires ready { T.ready tree.old }
    requires leaf { T.valid (T.world tree.old) leaf.node }
    requires below { leaf.below < u32.MAX }
    requires valid { All (λ c. T.valid (T.world tree.old) c.node) menu.choices }
    requires goes { GoesOn progress.counter }
    ensures ready { T.ready tree.new }
    ensures world { T.world tree.new ≡ T.world tree.old }
    ensures visited { (s : Settled T.View T.Note) → IsLeaf T.view progress.counter.note leaf s →
        seen_menu T.view menu ≡ T.menu (T.world tree.old) s.node →
        IfOk result (IsVisited T.view (T.settled (T.world tree.old)) (T.menu (T.world tree.old))
        progress (λ n. visits_from (T.settled (T.world tree.old)) (T.menu (T.world tree.old))
        (n + leaf.below) leaf.path s)) }
    ensures valid { IfOk result (λ p. IfFound (T.valid (T.world tree.old)) p.counter.ended) }
    ensures leaves { (most : ℕ) → leaf.below < most →
        All (OfLeaf (T.valid (T.world tree.old)) (most + 1)) progress.kept →
        IfOk result (λ p. All (OfLeaf (T.valid (T.world tree.old)) (most + 1)) p.kept) }
{
    let Progress {
        counter,
        kept,
        room,
    } = progress;
    let walked = walk_leaf(alloc, tree, leaf.below, leaf.path.as_slice(), menu, counter);
    keep_walked(leaf, kept, room, walked)
}

/// The visits from a leaf on: its choices are found, and the nodes that they lead to are kept where
/// there is room.
fn visit_leaf<T: Tree>(
    alloc: Global,
    tree: &mut T,
    leaf: Leaf<T::Node>,
    progress: Progress<T::Node, T::Note>,
) -> Result<Progress<T::Node, T::Note>, NoMemory>
    requires ready { T.ready tree.old }
    requires leaf { T.valid (T.world tree.old) leaf.node }
    requires below { leaf.below < u32.MAX }
    requires goes { GoesOn progress.counter }
    ensures ready { T.ready tree.new }
    ensures world { T.world tree.new ≡ T.world tree.old }
    ensures visited { (s : Settled T.View T.Note) → IsLeaf T.view progress.counter.note leaf s →
        IfOk result (IsVisited T.view (T.settled (T.world tree.old)) (T.menu (T.world tree.old))
        progress (λ n. visits_from (T.settled (T.world tree.old)) (T.menu (T.world tree.old))
        (n + leaf.below) leaf.path s)) }
    ensures valid { IfOk result (λ p. IfFound (T.valid (T.world tree.old)) p.counter.ended) }
    ensures leaves { (most : ℕ) → leaf.below < most →
        All (OfLeaf (T.valid (T.world tree.old)) (most + 1)) progress.kept →
        IfOk result (λ p. All (OfLeaf (T.valid (T.world tree.old)) (most + 1)) p.kept) }
{
    let menu = tree.choices(&leaf.node)?;
    if leaf.below == 0 && menu.choices.len() <= progress.room {
        expand(alloc, tree, leaf.path.as_slice(), menu, progress)
    } else {
        walk_below(alloc, tree, leaf, menu, progress)
    }
}

/// The visit of an expanded node: whatever was noted there isn't the first note any more.
fn visit_expanded<N: Drop, R: Drop>(
    alloc: Global,
    progress: Progress<N, R>,
) -> Result<Progress<N, R>, NoMemory>
    requires { 0 < progress.counter.left }
    ensures counter { IfOk result (λ p. p.counter ≡
        visited_open (progress.counter.left - 1) progress.counter [] None) }
    ensures kept { IfOk result (λ p. p.kept ≡ progress.kept ++ Expanded ∷ []) }
{
    keep_expanded(Items::new(alloc), None, 0, progress)
}

/// The visits from a kept node on, up to the next one.
pub(crate) fn visit_kept<T: Tree>(
    alloc: Global,
    tree: &mut T,
    node: Kept<T::Node>,
    progress: Progress<T::Node, T::Note>,
) -> Result<Progress<T::Node, T::Note>, NoMemory>
    requires ready { T.ready tree.old }
    requires leaf { OfLeaf (T.valid (T.world tree.old)) u32.MAX node }
    ensures ready { T.ready tree.new }
    ensures world { T.world tree.new ≡ T.world tree.old }
    ensures visited { (lists : ℕ → List (Visit T.View T.Note)) →
        StandsForVisits T.view (T.settled (T.world tree.old)) (T.menu (T.world tree.old))
        progress.counter.note node lists → IfOk result
        (IsVisited T.view (T.settled (T.world tree.old)) (T.menu (T.world tree.old)) progress lists) }
    ensures valid { IfFound (T.valid (T.world tree.old)) progress.counter.ended →
        IfOk result (λ p. IfFound (T.valid (T.world tree.old)) p.counter.ended) }
    ensures leaves { (most : ℕ) → OfLeaf (T.valid (T.world tree.old)) most node →
        All (OfLeaf (T.valid (T.world tree.old)) (most + 1)) progress.kept →
        IfOk result (λ p. All (OfLeaf (T.valid (T.world tree.old)) (most + 1)) p.kept) }
{
    if !may_visit(&progress.counter) {
        return Ok(stop_visits(progress));
    }
    match node {
        Kept::Expanded => visit_expanded(alloc, progress),
        Kept::Frontier(leaf) => visit_leaf(alloc, tree, leaf, progress),
    }
}
