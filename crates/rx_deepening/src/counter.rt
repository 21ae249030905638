//! How far visits have come.
ghost use Rattle.std.specs.Prelude.{◌≡◌, ◌↔◌, ◌<◌, ◌-◌, IsTrue};
ghost use Rattle.std.specs.Option.{option_map};
ghost use Rattle.rx_deepening.specs.Counters.{GoesOn, begin, outcome_by, stopped};
ghost use Rattle.rx_deepening.specs.Counters.{visited, visited_open};
ghost use Rattle.rx_deepening.specs.declared.counter.Ended.TheVariants.{Going};

use crate::outcome::{Note, Outcome};
use rx_plain::Items;

/// Whether the visits go on.
#[derive(Drop)]
pub(crate) enum Ended<N> {
    /// They do.
    Going,
    /// A closed node was visited.
    Found(N),
    /// There are more visits than the budget.
    Over,
}

/// The visits so far.
#[derive(Drop)]
pub(crate) struct Counter<N, R> {
    /// How many more the budget has.
    pub left: u32,
    /// The first note.
    pub note: Option<Note<R>>,
    /// Whether they go on.
    pub ended: Ended<N>,
}

/// Whether the visits go on.
pub(crate) fn is_going<N>(ended: &Ended<N>) -> bool
    ensures { IsTrue result ↔ (ended.now ≡ Going) }
{
    match ended {
        Ended::Going => true,
        Ended::Found(_) => false,
        Ended::Over => false,
    }
}

/// No visit is made yet.
pub(crate) fn begin<N, R>(budget: u32) -> Counter<N, R>
    ensures { result ≡ begin budget }
{
    Counter {
        left: budget,
        note: None,
        ended: Ended::Going,
    }
}

/// Whether another visit is made: the visits go on, and the budget has one more.
pub(crate) fn may_visit<N, R>(counter: &Counter<N, R>) -> bool
    ensures { IsTrue result ↔ GoesOn counter.now }
{
    is_going(&counter.ended) && counter.left > 0
}

/// The visits where another one isn't made: there are more than the budget, unless they had ended.
pub(crate) fn stop<N, R>(counter: Counter<N, R>) -> Counter<N, R>
    ensures { result ≡ stopped counter.ended counter }
{
    let Counter { left, note, ended } = counter;
    match ended {
        Ended::Going => Counter {
            left: 0,
            note,
            ended: Ended::Over,
        },
        ended => Counter { left, note, ended },
    }
}

/// What was noted, with the path to where.
fn with_path<R>(path: Items<u8>, note: Option<R>) -> Option<Note<R>>
    ensures { result ≡ option_map (λ r. record { path = path; noted = r }) note }
{
    match note {
        Some(noted) => Some(Note { path, noted }),
        None => None,
    }
}

/// One more visit within the budget, of a node that isn't closed.
pub(crate) fn count_open<N: Drop, R: Drop>(
    counter: Counter<N, R>,
    path: Items<u8>,
    note: Option<R>,
) -> Counter<N, R>
    requires { 0 < counter.left }
    ensures { result ≡ visited_open (counter.left - 1) counter path note }
{
    Counter {
        left: counter.left - 1,
        note: counter.note.or(with_path(path, note)),
        ended: Ended::Going,
    }
}

/// One more visit, within the budget.
pub(crate) fn count<N: Drop, R: Drop>(
    counter: Counter<N, R>,
    path: Items<u8>,
    node: N,
    closed: bool,
    note: Option<R>,
) -> Counter<N, R>
    requires { 0 < counter.left }
    ensures { result ≡ visited (counter.left - 1) counter
        (record { path = path; node = node; closed = closed; note = note }) }
{
    let ended = if closed {
        Ended::Found(node)
    } else {
        Ended::Going
    };
    let Counter { left, note, .. } = count_open(counter, path, note);
    Counter { left, note, ended }
}

/// What the visits come to.
pub(crate) fn outcome_of<N: Drop, R: Drop>(counter: Counter<N, R>) -> Outcome<N, R>
    ensures { result ≡ outcome_by counter.ended counter.note }
{
    match (counter.ended, counter.note) {
        (Ended::Found(node), _) => Outcome::Closed(node),
        (_, Some(note)) => Outcome::Noted(note),
        (Ended::Going, None) => Outcome::Through,
        (Ended::Over, None) => Outcome::Spent,
    }
}
