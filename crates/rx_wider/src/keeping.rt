//! The choices at a goal: to keep an equation by each of the plans, and to unfold a side.
ghost use Rattle.std.specs.Prelude.{◌≡◌, ◌++◌, None, Some, IfOk, OnOk};
ghost use Rattle.rx_pairs.specs.Loops.{AreLoopsOf};
ghost use Rattle.rx_wider.specs.Menu as spec;

use crate::candidates::{Candidate, Plan, have_redexes, keeping, sides_of, unfolding_only};
use rx_inference::Side;
use rx_pairs::Loops;
use rx_plain::{Items, NoMemory};
use rx_shapes::{Explores, kept_equation};
use rx_term::{Equation, RuleSet};
use std::alloc::Global;

/// A goal over rules, for which equations to keep are looked for.
#[derive(Drop)]
struct KeptGoal<'a> {
    /// The rules.
    rules: &'a RuleSet,
    /// The loops of the rules.
    loops: &'a Loops,
    /// The goal.
    goal: &'a Equation,
}

/// The equation that is kept by unfolding these sides, where they have redexes.
fn find_kept<E: Explores>(
    alloc: Global,
    kept: &KeptGoal<'_>,
    explorer: &mut E,
    sides: &[Side],
) -> Result<Option<Equation>, NoMemory>
    requires ready { E.ready explorer.old }
    requires loops { AreLoopsOf kept.now.rules.now kept.now.loops.now }
    ensures ready { E.ready explorer.new }
    ensures world { E.world explorer.new ≡ E.world explorer.old }
    ensures kept { IfOk result (λ o. o ≡ spec.kept_equation kept.now.rules.now
        (E.found (E.world explorer.old)) kept.now.goal.now sides.now) }
{
    if !have_redexes(kept.goal, sides) {
        return Ok(None);
    }
    kept_equation(alloc, kept.rules, kept.loops, explorer, sides, kept.goal)
}

/// The choice by the plan, added where there is one.
fn add_kept<E: Explores>(
    alloc: Global,
    kept: &KeptGoal<'_>,
    explorer: &mut E,
    plan: Plan,
    all: &mut Items<Candidate>,
) -> Result<(), NoMemory>
    requires ready { E.ready explorer.old }
    requires loops { AreLoopsOf kept.now.rules.now kept.now.loops.now }
    ensures ready { E.ready explorer.new }
    ensures world { E.world explorer.new ≡ E.world explorer.old }
    ensures added { OnOk result (all.new ≡ all.old ++ spec.kept_by kept.now.rules.now
        (E.found (E.world explorer.old)) kept.now.goal.now plan) }
{
    let sides = sides_of(alloc, plan)?;
    match find_kept(alloc, kept, explorer, sides.as_slice())? {
        Some(equation) => Ok(all.push(keeping(alloc, kept.goal, plan, equation)?)?),
        None => Ok(()),
    }
}

/// The choices to keep an equation that begin with one side: the other is unfolded after it.
fn add_both<E: Explores>(
    alloc: Global,
    kept: &KeptGoal<'_>,
    explorer: &mut E,
    all: &mut Items<Candidate>,
) -> Result<(), NoMemory>
    requires ready { E.ready explorer.old }
    requires loops { AreLoopsOf kept.now.rules.now kept.now.loops.now }
    ensures ready { E.ready explorer.new }
    ensures world { E.world explorer.new ≡ E.world explorer.old }
    ensures added { OnOk result (all.new ≡ all.old
        ++ spec.kept_by kept.now.rules.now (E.found (E.world explorer.old)) kept.now.goal.now
        (record { number = 1; first = Side.Left; second = Some Side.Right })
        ++ spec.kept_by kept.now.rules.now (E.found (E.world explorer.old)) kept.now.goal.now
        (record { number = 2; first = Side.Right; second = Some Side.Left })) }
{
    let left_first = Plan {
        number: 1,
        first: Side::Left,
        second: Some(Side::Right),
    };
    let right_first = Plan {
        number: 2,
        first: Side::Right,
        second: Some(Side::Left),
    };
    add_kept(alloc, kept, explorer, left_first, all)?;
    add_kept(alloc, kept, explorer, right_first, all)
}

/// The choices to keep an equation by unfolding one side.
fn add_single<E: Explores>(
    alloc: Global,
    kept: &KeptGoal<'_>,
    explorer: &mut E,
    all: &mut Items<Candidate>,
) -> Result<(), NoMemory>
    requires ready { E.ready explorer.old }
    requires loops { AreLoopsOf kept.now.rules.now kept.now.loops.now }
    ensures ready { E.ready explorer.new }
    ensures world { E.world explorer.new ≡ E.world explorer.old }
    ensures added { OnOk result (all.new ≡ all.old
        ++ spec.kept_by kept.now.rules.now (E.found (E.world explorer.old)) kept.now.goal.now
        (record { number = 3; first = Side.Left; second = None })
        ++ spec.kept_by kept.now.rules.now (E.found (E.world explorer.old)) kept.now.goal.now
        (record { number = 4; first = Side.Right; second = None })) }
{
    let left = Plan {
        number: 3,
        first: Side::Left,
        second: None,
    };
    let right = Plan {
        number: 4,
        first: Side::Right,
        second: None,
    };
    add_kept(alloc, kept, explorer, left, all)?;
    add_kept(alloc, kept, explorer, right, all)
}

/// The choices at the goal by their numbers, before they are tried: to keep an equation by each of
/// the four plans, and to unfold either side. Fails only where there is no memory.
pub(crate) fn find_candidates<E: Explores>(
    alloc: Global,
    rules: &RuleSet,
    loops: &Loops,
    explorer: &mut E,
    goal: &Equation,
) -> Result<Items<Candidate>, NoMemory>
    requires ready { E.ready explorer.old }
    requires loops { AreLoopsOf rules.now loops.now }
    ensures ready { E.ready explorer.new }
    ensures world { E.world explorer.new ≡ E.world explorer.old }
    ensures found { IfOk result (λ all. all ≡ spec.candidates rules.now
        (E.found (E.world explorer.old)) goal.now) }
{
    let kept = KeptGoal { rules, loops, goal };
    let mut all = Items::new(alloc);
    add_both(alloc, &kept, explorer, &mut all)?;
    add_single(alloc, &kept, explorer, &mut all)?;
    all.push(unfolding_only(alloc, 5, Side::Left)?)?;
    all.push(unfolding_only(alloc, 6, Side::Right)?)?;
    Ok(all)
}
