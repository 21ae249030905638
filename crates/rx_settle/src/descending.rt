//! The goals at which settling sticks.
ghost use Rattle.std.specs.Prelude.{◌≡◌, ◌<◌, [], ◌∷◌, ◌++◌, false, take, IfOk, OnOk};
ghost use Rattle.rx_moves.specs.LoopPoints.{AreLoopPoints};
ghost use Rattle.rx_settle.specs.Known.{AreKnown};
ghost use Rattle.rx_settle.specs.Settling.{most_moves};
ghost use Rattle.rx_settle.specs.TaskAnswers.{found_at_end, found_from, is_over};
ghost use Rattle.rx_settle.specs.Tasks as spec;
ghost use Rattle.rx_settle.specs.Tasks.{each_with, without_first};
ghost use Rattle.rx_solve.specs.Answers.{IsSolver};

use crate::settle_memo::SettleMemo;
use crate::settled::MOST_MOVES;
use crate::task_moves::make_move;
use crate::tasked::Tasked;
use rx_cert::Cert;
use rx_fm::FmEnd;
use rx_inference::Side;
use rx_moves::LoopPoints;
use rx_plain::{Items, NoMemory};
use rx_row::Constraint;
use rx_steps::State;
use rx_term::{Equation, Rule, RuleSet};
use std::alloc::Global;

/// There are fewer hypotheses than this in a state.
const FEWER_HYPOTHESES: usize = 1 << 32;

/// How many descendants a goal has at most.
const MOST_DESCENDANTS: usize = 24;

/// What is done of finding the descendants of a goal.
#[derive(Drop)]
struct Descent {
    /// The goals that are left, with their tasks.
    at: Tasked,
    /// The goals that were taken away, in order.
    stuck: Items<Equation>,
    /// How many more turns may be taken.
    left: u32,
}

/// The same rules once more; 2^32 and more fit no memory.
fn copied_rules(alloc: Global, rules: &[Rule]) -> Result<Vec<Rule>, NoMemory>
    ensures { IfOk result (λ made. made.items ≡ rules.now) }
{
    let mut made = Vec::new(alloc);
    for rule in rules {
        made.push(rule.try_clone(alloc)?)?;
    }
    Ok(made)
}

/// The goal alone, under these hypotheses.
fn alone_under(alloc: Global, hypotheses: &[Rule], goal: &Equation) -> Result<State, NoMemory>
    ensures { IfOk result (λ state. state ≡
        record { goals = goal.now ∷ []; hypotheses = hypotheses.now }) }
{
    if hypotheses.len() >= FEWER_HYPOTHESES {
        return Err(NoMemory);
    }
    let mut goals = Vec::new(alloc);
    goals.push(goal.try_clone(alloc)?)?;
    State::from_parts(alloc, goals, copied_rules(alloc, hypotheses)?)
}

/// The goals, unless there are too many.
fn if_few(goals: Items<Equation>) -> Option<Items<Equation>>
    ensures { result ≡ spec.if_few goals }
{
    if goals.len() <= MOST_DESCENDANTS {
        Some(goals)
    } else {
        None
    }
}

impl Descent {
    /// Nothing is done: the goal is alone with the task, under these hypotheses.
    fn begin(
        alloc: Global,
        hypotheses: &[Rule],
        task: &[Side],
        goal: &Equation,
    ) -> Result<Descent, NoMemory>
        ensures { IfOk result (λ descent. descent ≡ record {
          at = each_with task.now
              (record { goals = goal.now ∷ []; hypotheses = hypotheses.now });
          stuck = [];
          left = most_moves;
        }) }
    {
        let state = alone_under(alloc, hypotheses, goal)?;
        Ok(Descent {
            at: Tasked::each_with(alloc, state, task)?,
            stuck: Items::new(alloc),
            left: MOST_MOVES,
        })
    }

    /// Whether no turn is left, or no goal, or there are too many descendants already.
    fn is_over(&self) -> bool
        ensures { result ≡ is_over self.now }
    {
        self.left == 0 || self.at.state.goals() == 0 || self.stuck.len() > MOST_DESCENDANTS
    }

    /// Takes the first goal away, if there is one: it is a descendant.
    fn put_aside(&mut self, alloc: Global) -> Result<(), NoMemory>
        ensures { OnOk result (self.new ≡ record {
          at = without_first self.old.at;
          stuck = self.old.stuck ++ take 1 self.old.at.state.goals;
          left = self.old.left;
        }) }
    {
        if let Some(goal) = self.at.state.first() {
            self.stuck.push(goal.try_clone(alloc)?)?;
        }
        self.at.drop_first(alloc);
        Ok(())
    }

    /// The descendants, unless a goal is left or there are too many.
    fn end(self) -> Option<Items<Equation>>
        ensures { result ≡ found_at_end self }
    {
        if self.at.state.goals() > 0 {
            return None;
        }
        if_few(self.stuck)
    }
}

/// Makes the first move that applies, or else takes the first goal away.
fn take_turn<S: FnMut(&Constraint) -> Result<Option<Cert>, FmEnd>>(
    alloc: Global,
    rules: &RuleSet,
    points: &LoopPoints,
    memo: &mut SettleMemo,
    descent: &mut Descent,
    solve: &mut S,
) -> Result<(), NoMemory>
    requires points { AreLoopPoints rules.now points.now }
    requires known { AreKnown rules.now memo.old }
    requires solver { IsSolver S.FnMut solve.old }
    requires goes_on { is_over descent.old ≡ false }
    ensures known { AreKnown rules.now memo.new }
    ensures solver { IsSolver S.FnMut solve.new }
    ensures found { OnOk result
        (found_from rules.now descent.new ≡ found_from rules.now descent.old) }
    ensures left { OnOk result (descent.new.left < descent.old.left) }
{
    descent.left -= 1;
    match make_move(alloc, rules, points, memo, &mut descent.at, solve)? {
        Some(step) => {
            drop(step);
            Ok(())
        }
        None => descent.put_aside(alloc),
    }
}

/// The descendants of a goal: it is alone with a task under these hypotheses, and is settled as by
/// `settle_tasks`; wherever no move applies, the first goal is taken away. The goals that are taken
/// away are the descendants, in order. There are none where a goal is left after 200 turns, each of
/// which is a move or a taking away, or where there would be more than 24.
///
/// What is known of goals is taken from the memo, and what is found out is kept there. Fails only
/// where there is no memory; 2^32 hypotheses and more fit none.
pub fn descendants<S: FnMut(&Constraint) -> Result<Option<Cert>, FmEnd>>(
    alloc: Global,
    rules: &RuleSet,
    points: &LoopPoints,
    memo: &mut SettleMemo,
    hypotheses: &[Rule],
    task: &[Side],
    goal: &Equation,
    solve: &mut S,
) -> Result<Option<Items<Equation>>, NoMemory>
    requires points { AreLoopPoints rules.now points.now }
    requires known { AreKnown rules.now memo.old }
    requires solver { IsSolver S.FnMut solve.old }
    ensures known { AreKnown rules.now memo.new }
    ensures solver { IsSolver S.FnMut solve.new }
    ensures exact { IfOk result (λ found.
        found ≡ spec.descendants rules.now hypotheses.now task.now goal.now) }
{
    let mut descent = Descent::begin(alloc, hypotheses, task, goal)?;
    while !descent.is_over() {
        take_turn(alloc, rules, points, memo, &mut descent, solve)?;
    }
    Ok(descent.end())
}
