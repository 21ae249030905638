//! The rounds of visits, one after the other, each from what the round before it kept.
ghost use Rattle.std.specs.Prelude.{◌≡◌, ◌+◌, All, ℕ, IfOk, List};
ghost use Rattle.rx_deepening.specs.Keeping.{IsVisited, OfLeaf, StandsForLists};
ghost use Rattle.rx_deepening.specs.Outcomes.{outcome};
ghost use Rattle.rx_deepening.specs.Counters.{counted};
ghost use Rattle.rx_deepening.specs.Views.{IfClosed, IfFound, seen_outcome, seen_counter};
ghost use Rattle.rx_deepening.specs.Visits.{Visit, all_visits};
ghost use Rattle.rx_deepening.specs.declared.counter.Ended.TheVariants.{Going};

use crate::counter::{is_going, outcome_of};
use crate::kept::{Kept, Progress, start_keeping};
use crate::outcome::Outcome;
use crate::resume::{visit_kept, visit_new};
use crate::tree::Tree;
use rx_plain::{Items, NoMemory};
use std::alloc::Global;

/// The visits of one round, from the nodes that the round before it kept.
fn visit_list<T: Tree>(
    alloc: Global,
    tree: &mut T,
    nodes: Items<Kept<T::Node>>,
    progress: Progress<T::Node, T::Note>,
) -> Result<Progress<T::Node, T::Note>, NoMemory>
    requires ready { T.ready tree.old }
    requires leaves { All (OfLeaf (T.valid (T.world tree.old)) u32.MAX) nodes }
    ensures ready { T.ready tree.new }
    ensures world { T.world tree.new ≡ T.world tree.old }
    ensures visited { (lists : ℕ → List (Visit T.View T.Note)) →
        StandsForLists T.view (T.settled (T.world tree.old)) (T.menu (T.world tree.old))
        progress.counter.note nodes lists → IfOk result
        (IsVisited T.view (T.settled (T.world tree.old)) (T.menu (T.world tree.old)) progress lists) }
    ensures valid { IfFound (T.valid (T.world tree.old)) progress.counter.ended →
        IfOk result (λ p. IfFound (T.valid (T.world tree.old)) p.counter.ended) }
    ensures leaves { (most : ℕ) → All (OfLeaf (T.valid (T.world tree.old)) most) nodes →
        All (OfLeaf (T.valid (T.world tree.old)) (most + 1)) progress.kept →
        IfOk result (λ p. All (OfLeaf (T.valid (T.world tree.old)) (most + 1)) p.kept) }
{
    let mut progress = progress;
    for node in nodes.into_vec() {
        progress = visit_kept(alloc, tree, node, progress)?;
    }
    Ok(progress)
}

/// The visits of the next round, where visits go on.
fn next_list<T: Tree>(
    alloc: Global,
    tree: &mut T,
    progress: Progress<T::Node, T::Note>,
) -> Result<Progress<T::Node, T::Note>, NoMemory>
    requires ready { T.ready tree.old }
    requires leaves { All (OfLeaf (T.valid (T.world tree.old)) u32.MAX) progress.kept }
    ensures ready { T.ready tree.new }
    ensures world { T.world tree.new ≡ T.world tree.old }
    ensures counted { (lists : ℕ → List (Visit T.View T.Note)) →
        (progress.counter.ended ≡ Going → StandsForLists T.view (T.settled (T.world tree.old))
        (T.menu (T.world tree.old)) progress.counter.note progress.kept lists) →
        IfOk result (λ p. seen_counter T.view p.counter ≡
        counted (seen_counter T.view progress.counter) (lists 0)) }
    ensures stands { (lists : ℕ → List (Visit T.View T.Note)) →
        (progress.counter.ended ≡ Going → StandsForLists T.view (T.settled (T.world tree.old))
        (T.menu (T.world tree.old)) progress.counter.note progress.kept lists) →
        IfOk result (λ p. p.counter.ended ≡ Going →
        StandsForLists T.view (T.settled (T.world tree.old)) (T.menu (T.world tree.old))
        p.counter.note p.kept (λ n. lists (n + 1))) }
    ensures valid { IfFound (T.valid (T.world tree.old)) progress.counter.ended →
        IfOk result (λ p. IfFound (T.valid (T.world tree.old)) p.counter.ended) }
    ensures leaves { (most : ℕ) → All (OfLeaf (T.valid (T.world tree.old)) most) progress.kept →
        IfOk result (λ p. All (OfLeaf (T.valid (T.world tree.old)) (most + 1)) p.kept) }
{
    let Progress {
        counter,
        kept,
        room,
    } = progress;
    let fresh = Progress {
        counter,
        kept: Items::new(alloc),
        room,
    };
    if is_going(&fresh.counter.ended) {
        visit_list(alloc, tree, kept, fresh)
    } else {
        Ok(fresh)
    }
}

/// What the visits of the tree from the start node on come to, with at most `depth` choices on a
/// path and at most `budget` visits: rounds 0, 1, .., `depth` one after the other, where round k is
/// the tree cut at k choices, in preorder. The first closed node among the first `budget` visits;
/// else the first note among them, with the path to it; else whether there are more visits than
/// that. A visit settles its node, and where more choices may come and the node isn't closed, it
/// finds the choices there, before any of the nodes after them is visited. No more is settled than
/// that.
///
/// Of the nodes that were visited up to `most_kept` are kept, but always the start, so that each of
/// them is settled once for all rounds, and its choices are found once. The nodes below these are
/// settled anew in each round.
pub fn search<T: Tree>(
    alloc: Global,
    tree: &mut T,
    start: T::Node,
    depth: u32,
    budget: u32,
    most_kept: usize,
) -> Result<Outcome<T::Node, T::Note>, NoMemory>
    requires ready { T.ready tree.old }
    requires valid { T.valid (T.world tree.old) start }
    ensures ready { T.ready tree.new }
    ensures world { T.world tree.new ≡ T.world tree.old }
    ensures outcome { IfOk result (λ o. seen_outcome T.view o ≡
        outcome budget (all_visits (T.settled (T.world tree.old)) (T.menu (T.world tree.old)) depth
        (T.view start))) }
    ensures valid { IfOk result (λ o. IfClosed (T.valid (T.world tree.old)) o) }
{
    let begun = start_keeping(alloc, budget, most_kept.saturating_sub(1));
    let mut progress = visit_new(alloc, tree, Items::new(alloc), start, begun)?;
    for _list in 0..depth {
        progress = next_list(alloc, tree, progress)?;
    }
    Ok(outcome_of(progress.counter))
}
