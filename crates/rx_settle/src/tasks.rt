//! Settling a state whose goals have tasks.
ghost use Rattle.std.specs.Prelude.{◌≡◌, ◌<◌, [], IfOk, OnOk};
ghost use Rattle.rx_moves.specs.LoopPoints.{AreLoopPoints};
ghost use Rattle.rx_settle.specs.Known.{AreKnown};
ghost use Rattle.rx_settle.specs.Settling.{most_moves};
ghost use Rattle.rx_settle.specs.TaskAnswers.{AreTaskedSteps, with_one_more};
ghost use Rattle.rx_settle.specs.Tasks.{AllHaveTasks, settle_tasked};
ghost use Rattle.rx_solve.specs.Answers.{IsSolver};

use crate::settle_memo::SettleMemo;
use crate::settled::MOST_MOVES;
use crate::task_moves::make_move;
use crate::tasked::Tasked;
use rx_cert::Cert;
use rx_fm::FmEnd;
use rx_inference::Step;
use rx_moves::LoopPoints;
use rx_plain::{Items, NoMemory};
use rx_row::Constraint;
use rx_term::RuleSet;
use std::alloc::Global;

/// How a state whose goals have tasks was settled.
#[derive(Drop)]
pub struct TaskedSteps {
    /// The steps, each with its certificates.
    pub steps: Items<Step>,
    /// How many more steps might have been taken; 0 where settling ended for that.
    pub left: u32,
}

impl TaskedSteps {
    /// No step is taken.
    fn begin(alloc: Global) -> TaskedSteps
        ensures { result ≡ record { steps = []; left = most_moves } }
    {
        TaskedSteps {
            steps: Items::new(alloc),
            left: MOST_MOVES,
        }
    }

    /// Adds a step, of those that are left.
    fn add_step(&mut self, step: Step) -> Result<(), NoMemory>
        requires { 0 < self.old.left }
        ensures { OnOk result (self.new ≡ with_one_more self.old step) }
    {
        self.steps.push(step)?;
        self.left -= 1;
        Ok(())
    }
}

/// Settles the first goals of a state, one after the other, by 200 moves at most: again and again
/// by the first that applies. Where none of those that settling makes without tasks does, a
/// hypothesis is used whose variables the other side of the goal may set too. Where there is none,
/// the first side of the goal's task that has a redex is expanded, without keeping the goal, and
/// what comes of that has the sides after it as its task. What comes of any other move has the
/// goal's task.
///
/// What is known of goals is taken from the memo, and what is found out is kept there.
///
/// Each step has certificates for what it asks, which are at most 174 deep. Fails only where there
/// is no memory; the state and the tasks are then no longer of use.
pub fn settle_tasks<S: FnMut(&Constraint) -> Result<Option<Cert>, FmEnd>>(
    alloc: Global,
    rules: &RuleSet,
    points: &LoopPoints,
    memo: &mut SettleMemo,
    at: &mut Tasked,
    solve: &mut S,
) -> Result<TaskedSteps, NoMemory>
    requires points { AreLoopPoints rules.now points.now }
    requires known { AreKnown rules.now memo.old }
    requires solver { IsSolver S.FnMut solve.old }
    ensures known { AreKnown rules.now memo.new }
    ensures solver { IsSolver S.FnMut solve.new }
    ensures settled { IfOk result (AreTaskedSteps rules.now at.old at.new
        (settle_tasked rules.now most_moves at.old)) }
    ensures hypotheses { IfOk result (λ _.
        at.new.state.hypotheses ≡ at.old.state.hypotheses) }
    ensures tasks { AllHaveTasks at.old → IfOk result (λ _. AllHaveTasks at.new) }
{
    let mut settled = TaskedSteps::begin(alloc);
    while settled.left > 0 {
        match make_move(alloc, rules, points, memo, at, solve)? {
            Some(step) => settled.add_step(step)?,
            None => return Ok(settled),
        }
    }
    Ok(settled)
}
