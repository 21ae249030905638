//! What is known of the choices at goals. A search meets the same goals often.
ghost use Rattle.std.specs.Prelude.{◌≡◌, IfOk};
ghost use Rattle.rx_pairs.specs.Loops.{AreLoopsOf};
ghost use Rattle.rx_wider.specs.Menu.{candidates};
ghost use Rattle.rx_wider.specs.Reached.{AreChoices};

use crate::candidates::Candidate;
use crate::keeping::find_candidates;
use rx_memo::GoalMemo;
use rx_pairs::Loops;
use rx_plain::{Items, NoMemory, Shared};
use rx_shapes::Explores;
use rx_term::{Equation, RuleSet};
use std::alloc::Global;

/// What is known of the choices at goals, in order. It serves the one rule set and the lemmas that
/// it is first used with.
pub(crate) type CandidateMemo = GoalMemo<Items<Candidate>>;

/// The choices at the goal, before they are tried. Where nothing is kept of it, they are found, and
/// kept if there is room.
pub(crate) fn known_candidates<E: Explores>(
    alloc: Global,
    rules: &RuleSet,
    loops: &Loops,
    memo: &mut CandidateMemo,
    explorer: &mut E,
    goal: Shared<Equation>,
) -> Result<Shared<Items<Candidate>>, NoMemory>
    requires ready { E.ready explorer.old }
    requires loops { AreLoopsOf rules.now loops.now }
    requires known { AreChoices rules.now (E.found (E.world explorer.old)) memo.old }
    ensures ready { E.ready explorer.new }
    ensures world { E.world explorer.new ≡ E.world explorer.old }
    ensures known { AreChoices rules.now (E.found (E.world explorer.old)) memo.new }
    ensures found { IfOk result (λ all. all ≡
        candidates rules.now (E.found (E.world explorer.old)) goal) }
{
    if let Some(known) = memo.find(goal.get()) {
        return Ok(known.try_clone()?);
    }
    let found = find_candidates(alloc, rules, loops, explorer, goal.get())?;
    let known = Shared::new(alloc, found)?;
    memo.keep(goal, known.try_clone()?)?;
    Ok(known)
}
