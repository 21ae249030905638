//! What is kept of goals, in buckets.
ghost use Rattle.std.specs.Prelude.{◌≡◌, ◌⊎◌, [], All, IfOk, IfSome};
ghost use Rattle.std.specs.Option.{option_copied};
ghost use Rattle.rx_memo.specs.Buckets.{HasAny, IsEmpty};
ghost use Rattle.rx_memo.specs.Kept.{IsKept, IsThat};
ghost use Rattle.rx_term.specs.declared.rule.Equation.{Equation};

use crate::digest::digest_of;
use rx_plain::{NoMemory, Shared};
use rx_term::Equation;
use std::alloc::Global;
use std::marker::Model;

/// The number of buckets in which the goals are kept.
const BUCKETS: usize = 256;

/// The greatest number of goals in a bucket, and so of goals that a look-up compares.
const MOST_IN_BUCKET: usize = 64;

/// What is kept of a goal.
#[derive(Drop)]
pub struct Kept<V> {
    /// The goal.
    pub goal: Shared<Equation>,
    /// What is kept of it.
    pub value: Shared<V>,
}

/// What is kept of at most 16,384 goals. Nothing is taken out again. Contracts see the list of all
/// that is kept.
#[derive(Drop)]
pub struct GoalMemo<V> {
    // Each goal is in the bucket that its digest chooses; a bucket has the first 64.
    buckets: Vec<Vec<Kept<V>>>,
}

impl<V> Model for GoalMemo<V> {
    ghost use Rattle.std.specs.Prelude.{List};
    ghost use Rattle.std.specs.Coded.{codes};
    ghost use Rattle.rx_memo.specs.Buckets.{all_kept};
    ghost use Rattle.rx_term.specs.contracts.rule.Equation as equation_row;
    ghost use Rattle.rx_memo.specs.declared.goal_memo.Kept.{Kept};

    ghost Value = { List (Kept V) };

    ghost coded = { Prim.hlevel (codes, equation_row.the_row.coded, V.code) };

    ghost view = { λ m. all_kept m.buckets.items };
}

/// The number of a goal's bucket.
fn bucket_of(goal: &Equation) -> usize {
    ((digest_of(goal) >> 64) % BUCKETS as u128) as usize
}

/// What the bucket has of the goal, borrowed, if there is something.
fn find_in<'a, V>(bucket: &'a [Kept<V>], goal: &Equation) -> Option<&'a Shared<V>>
    ensures { IfSome (option_copied result) (IsKept bucket.now goal.now) }
{
    for one in bucket {
        if one.goal.get().is_same(goal) {
            return Some(&one.value);
        }
    }
    None
}

/// Adds to the bucket, where there is room in it.
fn push_in<V: Drop>(
    bucket: &mut Vec<Kept<V>>,
    goal: Shared<Equation>,
    value: Shared<V>,
) -> Result<(), NoMemory>
    ensures only { (g : Equation) (v : V) → IsKept bucket.new.items g v →
        IsKept bucket.old.items g v ⊎ IsThat goal value g v }
    ensures stays { (g : Equation) (v : V) → IsKept bucket.old.items g v →
        IsKept bucket.new.items g v }
{
    if bucket.len() < MOST_IN_BUCKET {
        bucket.push(Kept { goal, value })?;
    }
    Ok(())
}

/// Adds to the bucket of that number, if there is one and it has room.
fn push_at<V: Drop>(
    buckets: &mut Vec<Vec<Kept<V>>>,
    at: usize,
    goal: Shared<Equation>,
    value: Shared<V>,
) -> Result<(), NoMemory>
    ensures only { (g : Equation) (v : V) → HasAny buckets.new.items g v →
        HasAny buckets.old.items g v ⊎ IsThat goal value g v }
    ensures stays { (g : Equation) (v : V) → HasAny buckets.old.items g v →
        HasAny buckets.new.items g v }
{
    if at < buckets.len() {
        push_in(&mut buckets[at], goal, value)
    } else {
        Ok(())
    }
}

/// Empty buckets.
fn empty_buckets<V: Drop>(alloc: Global) -> Result<Vec<Vec<Kept<V>>>, NoMemory>
    ensures { IfOk result (λ buckets. All IsEmpty buckets.items) }
{
    let mut buckets = Vec::with_capacity(alloc, BUCKETS)?;
    for _bucket in 0..BUCKETS {
        buckets.push(Vec::new(alloc))?;
    }
    Ok(buckets)
}

impl<V: Drop> GoalMemo<V> {
    /// Nothing is kept yet. Fails only where there is no memory.
    pub fn new(alloc: Global) -> Result<GoalMemo<V>, NoMemory>
        ensures { IfOk result (λ memo. memo ≡ []) }
    {
        Ok(GoalMemo {
            buckets: empty_buckets(alloc)?,
        })
    }

    /// What is kept of the goal, borrowed; None where nothing is found. Takes no memory.
    pub fn find(&self, goal: &Equation) -> Option<&Shared<V>>
        ensures { IfSome (option_copied result) (IsKept self.now goal.now) }
    {
        let bucket = self.buckets.get(bucket_of(goal))?;
        find_in(bucket.as_slice(), goal)
    }

    /// Keeps that of the goal, where there is room for it. What was kept before stays; where there
    /// is no memory nothing else is kept.
    pub fn keep(&mut self, goal: Shared<Equation>, value: Shared<V>) -> Result<(), NoMemory>
        ensures only { (g : Equation) (v : V) → IsKept self.new g v →
            IsKept self.old g v ⊎ IsThat goal value g v }
        ensures stays { (g : Equation) (v : V) → IsKept self.old g v → IsKept self.new g v }
    {
        let at = bucket_of(goal.get());
        push_at(&mut self.buckets, at, goal, value)
    }
}
