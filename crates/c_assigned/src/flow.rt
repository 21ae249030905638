//! What comes of a statement, and how two of them join.
ghost use Rattle.std.specs.Prelude.{◌≡◌, []};
ghost use Rattle.std.specs.Option.{option_or};
ghost use Rattle.c_assigned.specs.Flows as spec;

use crate::sets::{meet, restrict};
use rx_plain::Items;

/// The sets of definitely assigned slots after a statement, at its `break`s and at its `continue`s,
/// where none is what no way reaches, and the token of the first variable that is read where it may
/// have no value.
#[derive(Debug, Drop)]
pub struct Flow {
    /// After the statement.
    pub behind: Option<Items<bool>>,
    /// At its `break`s.
    pub breaks: Option<Items<bool>>,
    /// At its `continue`s.
    pub continues: Option<Items<bool>>,
    /// The first variable that may be unset where it is read.
    pub unset: Option<u32>,
}

/// What passes to the next statement alone.
pub fn fall_through(behind: Option<Items<bool>>, unset: Option<u32>) -> Flow
    ensures { result ≡ (spec.fall_through [] behind unset).flow }
{
    Flow {
        behind,
        breaks: None,
        continues: None,
        unset,
    }
}

/// The first of the two.
pub fn first_of(first: Option<u32>, second: Option<u32>) -> Option<u32>
    ensures { result ≡ option_or first second }
{
    match first {
        Some(token) => Some(token),
        None => second,
    }
}

/// A flow that goes on with another after it.
pub fn sequence(first: Flow, rest: Flow) -> Flow
    ensures { result ≡ spec.sequence first rest }
{
    Flow {
        behind: rest.behind,
        breaks: meet(first.breaks, rest.breaks),
        continues: meet(first.continues, rest.continues),
        unset: first_of(first.unset, rest.unset),
    }
}

/// At the end of a scope.
pub fn leave(slots: usize, flow: Flow) -> Flow
    ensures { result ≡ spec.leave slots flow }
{
    Flow {
        behind: restrict(slots, flow.behind),
        breaks: restrict(slots, flow.breaks),
        continues: restrict(slots, flow.continues),
        unset: flow.unset,
    }
}

/// Two branches, after a test.
pub fn after_branches(tested: Option<u32>, holds: Flow, fails: Flow) -> Flow
    ensures { result ≡ spec.branch tested holds fails }
{
    Flow {
        behind: meet(holds.behind, fails.behind),
        breaks: meet(holds.breaks, fails.breaks),
        continues: meet(holds.continues, fails.continues),
        unset: first_of(tested, first_of(holds.unset, fails.unset)),
    }
}
