//! The goals that are to be shown, and the hypotheses that may be used for them.
ghost use Rattle.std.specs.Prelude.{◌≡◌, ◌+◌, ◌≤◌, ◌<◌, ◌^◌, nat_lt, ◌∷◌, [], ◌++◌, drop, length, reverse, slice_get, vec_capacity, vec_len, IfOk, OnOk, OnErr};
ghost use Rattle.std.specs.Option.{option_copied};
ghost use Rattle.rx_inference.specs.States.{taken};
ghost use Rattle.rx_steps.specs.Alone.{alone, onto, put_before};

use rx_inference::FormedStep;
use rx_plain::{NoMemory, Shared};
use rx_term::{Equation, Rule};
use std::alloc::Global;
use std::marker::Model;

/// A proof state: goals in order, and hypotheses in order. A copy of a state shares its goals.
#[derive(Drop)]
pub struct State {
    // The first goal is the last here, so that a step moves no others.
    goals: Vec<Shared<Equation>>,
    hypotheses: Vec<Rule>,
}

impl Model for State {
    ghost use Rattle.std.specs.Prelude.{◌<◌, ◌^◌, length, reverse};
    ghost use Rattle.std.specs.Coded.{codes, coded_list};
    ghost use Rattle.rx_term.specs.contracts.rule.Equation as equation_row;
    ghost use Rattle.rx_term.specs.contracts.rule.Rule as rule_row;
    ghost use Rattle.rx_inference.specs.States as states;

    ghost Value = { states.State };

    ghost coded = { Prim.hlevel (
      codes,
      coded_list equation_row.the_row.coded,
      coded_list rule_row.the_row.coded,
    ) };

    ghost view = { λ s. record { goals = reverse s.goals.items; hypotheses = s.hypotheses.items } };

    ghost invariant = { λ s. (length s.goals.items < 2 ^ 32) ×
        (length s.hypotheses.items < 2 ^ 32) };
}

/// There are fewer goals than this, and fewer hypotheses.
const LIMIT: usize = 1 << 32;

/// Whether with that many more there are still fewer than the limit.
fn is_room(count: usize, more: usize) -> bool
    ensures { result ≡ nat_lt (count + more) (2 ^ 32) }
{
    count < LIMIT && more < LIMIT - count
}

/// Inserts the goals before those that are there, for which there is room.
fn put_first(onto: &mut Vec<Shared<Equation>>, goals: Vec<Shared<Equation>>)
    requires { vec_len onto.old + vec_len goals ≤ vec_capacity onto.old }
    ensures { reverse onto.new.items ≡ goals.items ++ reverse onto.old.items }
{
    let mut goals = goals;
    while let Some(goal) = goals.pop() {
        onto.push_reserved(goal);
    }
}

/// Replaces the first goal, if there is one, by those, for which there is room.
#[tactic(auto, using(crate::proofs::Reversed::popped, crate::proofs::Reversed::count))]
fn replace_first(onto: &mut Vec<Shared<Equation>>, goals: Vec<Shared<Equation>>)
    requires { vec_len onto.old + vec_len goals ≤ vec_capacity onto.old }
    ensures goals { reverse onto.new.items ≡ goals.items ++ drop 1 (reverse onto.old.items) }
    ensures count { length onto.new.items ≤ length goals.items + length onto.old.items }
{
    onto.pop();
    put_first(onto, goals);
}

/// Adds the items after those that are there, for which there is room.
fn put_last<T: Drop>(onto: &mut Vec<T>, items: Vec<T>)
    requires { vec_len onto.old + vec_len items ≤ vec_capacity onto.old }
    ensures { onto.new.items ≡ onto.old.items ++ items.items }
{
    let mut items = items;
    match onto.append(&mut items) {
        Ok(()) => {}
        Err(_) => unreachable!(),
    }
}

/// Replaces the first goal, if there is one, by those, which are given from the last to the first,
/// as a state keeps them; there is room for them.
#[tactic(auto, using(crate::proofs::Reversed::popped_for, crate::proofs::Reversed::popped_count))]
fn replace_first_reversed(onto: &mut Vec<Shared<Equation>>, goals: Vec<Shared<Equation>>)
    requires { vec_len onto.old + vec_len goals ≤ vec_capacity onto.old }
    ensures goals { reverse onto.new.items ≡
        reverse goals.items ++ drop 1 (reverse onto.old.items) }
    ensures count { length onto.new.items ≤ length goals.items + length onto.old.items }
{
    onto.pop();
    put_last(onto, goals);
}

/// The same goals once more, shared with those that are given.
fn copied_goals(
    alloc: Global,
    goals: &[Shared<Equation>],
) -> Result<Vec<Shared<Equation>>, NoMemory>
    ensures { IfOk result (λ made. made.items ≡ goals.now) }
{
    let mut made = Vec::with_capacity(alloc, goals.len())?;
    for goal in goals {
        made.push(goal.try_clone()?)?;
    }
    Ok(made)
}

/// The same goals, which may be shared from then on.
fn shared_goals(alloc: Global, goals: Vec<Equation>) -> Result<Vec<Shared<Equation>>, NoMemory>
    ensures { IfOk result (λ made. made.items ≡ goals.items) }
{
    let mut made = Vec::with_capacity(alloc, goals.len())?;
    for goal in goals {
        made.push(Shared::new(alloc, goal)?)?;
    }
    Ok(made)
}

/// The same rules once more.
fn copied_rules(alloc: Global, rules: &[Rule]) -> Result<Vec<Rule>, NoMemory>
    ensures { IfOk result (λ made. made.items ≡ rules.now) }
{
    let mut made = Vec::new(alloc);
    for rule in rules {
        made.push(rule.try_clone(alloc)?)?;
    }
    Ok(made)
}

impl State {
    /// The state with that goal alone, and no hypotheses.
    pub fn start(alloc: Global, goal: Equation) -> Result<State, NoMemory>
        ensures { IfOk result (λ s. s ≡ record { goals = goal ∷ []; hypotheses = [] }) }
    {
        State::alone(alloc, Shared::new(alloc, goal)?)
    }

    /// The state with just these goals and hypotheses, in order; fails only when out of memory.
    ///
    /// There must be fewer than 2^32 of either.
    pub fn from_parts(
        alloc: Global,
        goals: Vec<Equation>,
        hypotheses: Vec<Rule>,
    ) -> Result<State, NoMemory>
        requires goals { vec_len goals < 2 ^ 32 }
        requires hypotheses { vec_len hypotheses < 2 ^ 32 }
        ensures { IfOk result (λ s. s ≡ record {
          goals = goals.items;
          hypotheses = hypotheses.items;
        }) }
    {
        let mut goals = shared_goals(alloc, goals)?;
        goals.reverse();
        Ok(State { goals, hypotheses })
    }

    /// The state with that goal alone, which is shared already, and no hypotheses; fails only when
    /// out of memory.
    pub fn alone(alloc: Global, goal: Shared<Equation>) -> Result<State, NoMemory>
        ensures { IfOk result (λ s. s ≡ alone goal) }
    {
        let mut goals = Vec::new(alloc);
        goals.push(goal)?;
        Ok(State {
            goals,
            hypotheses: Vec::new(alloc),
        })
    }

    /// The same state once more; fails only when out of memory.
    pub fn try_clone(&self, alloc: Global) -> Result<State, NoMemory>
        ensures { IfOk result (λ s. s ≡ self.now) }
    {
        Ok(State {
            goals: copied_goals(alloc, self.goals.as_slice())?,
            hypotheses: copied_rules(alloc, self.hypotheses.as_slice())?,
        })
    }

    /// The first goal, borrowed, if there is one.
    #[tactic(auto, using(crate::proofs::Reversed::last_is_first))]
    pub fn first(&self) -> Option<&Equation>
        ensures { option_copied result ≡ slice_get self.now.goals 0 }
    {
        Some(self.goals.last()?.get())
    }

    /// The first goal, shared, if there is one; fails only where no more owners of it can be
    /// counted.
    #[tactic(auto, using(crate::proofs::Reversed::last_is_first))]
    pub fn share_first(&self) -> Result<Option<Shared<Equation>>, NoMemory>
        ensures { IfOk result (λ goal. goal ≡ slice_get self.now.goals 0) }
    {
        match self.goals.last() {
            Some(goal) => Ok(Some(goal.try_clone()?)),
            None => Ok(None),
        }
    }

    /// The goal with that number, counted from 0, borrowed; None exactly where there are no more
    /// goals than that.
    #[tactic(auto, using(crate::proofs::Reversed::from_the_end, crate::proofs::Reversed::past_the_end))]
    pub fn goal(&self, at: u32) -> Option<&Equation>
        ensures { option_copied result ≡ slice_get self.now.goals at }
    {
        let count = self.goals.len();
        let at = at as usize;
        if at < count {
            Some(self.goals.get(count - 1 - at)?.get())
        } else {
            None
        }
    }

    /// The hypotheses in order, borrowed.
    pub fn hypotheses(&self) -> &[Rule]
        ensures { result.now ≡ self.now.hypotheses }
    {
        self.hypotheses.as_slice()
    }

    /// How many goals there are; always fewer than 2^32, as of hypotheses.
    pub fn goals(&self) -> u32
        ensures { result ≡ length self.now.goals }
    {
        self.goals.len() as u32
    }

    /// Lets go of the first goal, if there is one.
    #[tactic(auto, using(crate::proofs::Reversed::popped))]
    pub fn drop_first(&mut self)
        ensures goals { self.new.goals ≡ drop 1 self.old.goals }
        ensures hypotheses { self.new.hypotheses ≡ self.old.hypotheses }
    {
        self.goals.pop();
    }

    /// Adds a goal before the others. Where there is no memory, or there would be too many goals,
    /// the state stays as it was.
    #[tactic(auto, using(crate::proofs::Reversed::pushed))]
    pub fn put_before(&mut self, alloc: Global, goal: Equation) -> Result<(), NoMemory>
        ensures ok { OnOk result (self.new ≡ put_before self.old goal) }
        ensures err { OnErr result (self.new ≡ self.old) }
    {
        if !is_room(self.goals.len(), 1) {
            return Err(NoMemory);
        }
        Ok(self.goals.push(Shared::new(alloc, goal)?)?)
    }

    /// Replaces the first goal with what a formed step makes, and adds its hypothesis after the
    /// others; whether it is shown isn't looked at. Where there is no memory, or there would be too
    /// many of either, the state stays as it was.
    pub fn take(&mut self, alloc: Global, formed: FormedStep) -> Result<(), NoMemory>
        ensures ok { OnOk result (self.new ≡ taken self.old formed) }
        ensures err { OnErr result (self.new ≡ self.old) }
    {
        let FormedStep { goals, kept, .. } = formed;
        let goals = shared_goals(alloc, goals.into_vec())?;
        let kept = kept.into_vec();
        if !is_room(self.goals.len(), goals.len()) || !is_room(self.hypotheses.len(), kept.len()) {
            return Err(NoMemory);
        }
        self.goals.reserve(goals.len())?;
        self.hypotheses.reserve(kept.len())?;
        replace_first(&mut self.goals, goals);
        put_last(&mut self.hypotheses, kept);
        Ok(())
    }

    /// Replaces the first goal, if there is one, by the goals that came of it where it was alone,
    /// which are shared from then on, and adds the hypotheses that came with them after the others.
    /// Where there is no memory, or there would be too many of either, the state stays as it was.
    pub fn go_on(&mut self, alloc: Global, after: &State) -> Result<(), NoMemory>
        ensures ok { OnOk result (self.new ≡ onto self.old after.now) }
        ensures err { OnErr result (self.new ≡ self.old) }
    {
        let goals = copied_goals(alloc, after.goals.as_slice())?;
        let kept = copied_rules(alloc, after.hypotheses.as_slice())?;
        if !is_room(self.goals.len(), goals.len()) || !is_room(self.hypotheses.len(), kept.len()) {
            return Err(NoMemory);
        }
        self.goals.reserve(goals.len())?;
        self.hypotheses.reserve(kept.len())?;
        replace_first_reversed(&mut self.goals, goals);
        put_last(&mut self.hypotheses, kept);
        Ok(())
    }
}
