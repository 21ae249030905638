//! The walk over visits where nothing is kept: each node is settled as it is visited, and then let
//! go.
ghost use Rattle.std.specs.Prelude.{◌≡◌, ◌++◌, ◌∷◌, ◌<◌, ◌-◌, [], All, IfOk, map};
ghost use Rattle.std.specs.Option.{option_or};
ghost use Rattle.rx_deepening.specs.Counters.{counted, visited, visited_open};
ghost use Rattle.rx_deepening.specs.Views.{IfFound, seen_choice, seen_settled, seen_counter};
ghost use Rattle.rx_deepening.specs.Visits.{choosing, visits, visits_of};

use crate::counter::{Counter, count, count_open, may_visit, stop};
use crate::tree::{Choice, Menu, Settled, Tree};
use rx_plain::{Items, NoMemory};
use std::alloc::Global;

/// What the choices at a visited node lead to, and the visits so far.
#[derive(Drop)]
struct Chosen<N, R> {
    /// The choices, in order.
    choices: Items<Choice<N>>,
    /// The visits so far.
    counter: Counter<N, R>,
}

/// The path with one more choice.
pub(crate) fn longer(alloc: Global, path: &[u8], number: u8) -> Result<Items<u8>, NoMemory>
    ensures { IfOk result (λ longer. longer ≡ path.now ++ number ∷ []) }
{
    let mut made = Items::from_slice(alloc, path)?;
    made.push(number)?;
    Ok(made)
}

/// The visits from the nodes on that the choices lead to, in order.
#[cycle(walking)]
pub(crate) fn walk_all<T: Tree>(
    alloc: Global,
    tree: &mut T,
    more: u32,
    path: &[u8],
    choices: Items<Choice<T::Node>>,
    counter: Counter<T::Node, T::Note>,
) -> Result<Counter<T::Node, T::Note>, NoMemory>
    requires ready { T.ready tree.old }
    requires valid { All (λ c. T.valid (T.world tree.old) c.node) choices }
    ensures ready { T.ready tree.new }
    ensures world { T.world tree.new ≡ T.world tree.old }
    ensures counted { IfOk result (λ t. seen_counter T.view t ≡
        counted (seen_counter T.view counter) (visits_of (T.settled (T.world tree.old))
        (T.menu (T.world tree.old)) more path.now (map (seen_choice T.view) choices))) }
    ensures valid { IfFound (T.valid (T.world tree.old)) counter.ended →
        IfOk result (λ t. IfFound (T.valid (T.world tree.old)) t.ended) }
{
    let mut counter = counter;
    for choice in choices.into_vec() {
        let Choice { number, node } = choice;
        let at = longer(alloc, path, number)?;
        counter = walk(alloc, tree, more, at.as_slice(), node, counter)?;
    }
    Ok(counter)
}

/// The visit of a settled node, with what was noted there or else at its choices.
fn count_settled<N: Drop, R: Drop>(
    alloc: Global,
    path: &[u8],
    settled: Settled<N, R>,
    note: Option<R>,
    counter: Counter<N, R>,
) -> Result<Counter<N, R>, NoMemory>
    requires { 0 < counter.left }
    ensures { IfOk result (λ t. t ≡ visited (counter.left - 1) counter
        (record {
          path = path.now;
          node = settled.node;
          closed = settled.closed;
          note = option_or settled.note note;
        })) }
{
    let at = Items::from_slice(alloc, path)?;
    let Settled {
        node,
        closed,
        note: first,
    } = settled;
    Ok(count(counter, at, node, closed, first.or(note)))
}

/// The visit of a settled node that isn't closed, whose choices are found.
fn choose<T: Tree>(
    alloc: Global,
    tree: &mut T,
    path: &[u8],
    settled: Settled<T::Node, T::Note>,
    counter: Counter<T::Node, T::Note>,
) -> Result<Chosen<T::Node, T::Note>, NoMemory>
    requires ready { T.ready tree.old }
    requires valid { T.valid (T.world tree.old) settled.node }
    requires left { 0 < counter.left }
    ensures ready { T.ready tree.new }
    ensures world { T.world tree.new ≡ T.world tree.old }
    ensures counted { IfOk result (λ c. seen_counter T.view c.counter ≡
        visited (counter.left - 1) (seen_counter T.view counter)
        (choosing path.now (seen_settled T.view settled)
        (T.menu (T.world tree.old) (T.view settled.node)))) }
    ensures choices { IfOk result (λ c. map (seen_choice T.view) c.choices ≡
        (T.menu (T.world tree.old) (T.view settled.node)).choices) }
    ensures valid { IfOk result (λ c. All (λ c. T.valid (T.world tree.old) c.node) c.choices) }
    ensures found { IfOk result (λ c. IfFound (T.valid (T.world tree.old)) c.counter.ended) }
{
    let menu = tree.choices(&settled.node)?;
    let Menu { choices, note } = menu;
    let counter = count_settled(alloc, path, settled, note, counter)?;
    Ok(Chosen { choices, counter })
}

/// The visits from a node on, with at most n choices to come.
#[cycle(walking)]
fn walk<T: Tree>(
    alloc: Global,
    tree: &mut T,
    more: u32,
    path: &[u8],
    node: T::Node,
    counter: Counter<T::Node, T::Note>,
) -> Result<Counter<T::Node, T::Note>, NoMemory>
    requires ready { T.ready tree.old }
    requires valid { T.valid (T.world tree.old) node }
    ensures ready { T.ready tree.new }
    ensures world { T.world tree.new ≡ T.world tree.old }
    ensures counted { IfOk result (λ t. seen_counter T.view t ≡
        counted (seen_counter T.view counter) (visits (T.settled (T.world tree.old))
        (T.menu (T.world tree.old)) more path.now (T.view node))) }
    ensures valid { IfFound (T.valid (T.world tree.old)) counter.ended →
        IfOk result (λ t. IfFound (T.valid (T.world tree.old)) t.ended) }
{
    if !may_visit(&counter) {
        return Ok(stop(counter));
    }
    let settled = tree.settle(node)?;
    if more == 0 || settled.closed {
        return count_settled(alloc, path, settled, None, counter);
    }
    let chosen = choose(alloc, tree, path, settled, counter)?;
    walk_all(alloc, tree, more - 1, path, chosen.choices, chosen.counter)
}

/// The visits of a leaf and of the nodes below it, where whatever was noted at the leaf isn't the
/// first note any more.
pub(crate) fn walk_leaf<T: Tree>(
    alloc: Global,
    tree: &mut T,
    more: u32,
    path: &[u8],
    menu: Menu<T::Node, T::Note>,
    counter: Counter<T::Node, T::Note>,
) -> Result<Counter<T::Node, T::Note>, NoMemory>
    requires ready { T.ready tree.old }
    requires valid { All (λ c. T.valid (T.world tree.old) c.node) menu.choices }
    requires left { 0 < counter.left }
    ensures ready { T.ready tree.new }
    ensures world { T.world tree.new ≡ T.world tree.old }
    ensures counted { IfOk result (λ t. seen_counter T.view t ≡ counted
        (visited_open (counter.left - 1) (seen_counter T.view counter) path.now menu.note)
        (visits_of (T.settled (T.world tree.old)) (T.menu (T.world tree.old)) more path.now
        (map (seen_choice T.view) menu.choices))) }
    ensures valid { IfOk result (λ t. IfFound (T.valid (T.world tree.old)) t.ended) }
{
    let at = Items::from_slice(alloc, path)?;
    let Menu { choices, note } = menu;
    walk_all(
        alloc,
        tree,
        more,
        path,
        choices,
        count_open(counter, at, note),
    )
}
