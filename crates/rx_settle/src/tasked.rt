//! States whose goals have tasks.
ghost use Rattle.std.specs.Prelude.{◌≡◌, ◌-◌, ◌<◌, ◌^◌, drop, length, replicate, IfOk, OnOk};
ghost use Rattle.rx_settle.specs.Tasks.{each_with, first_task, tasks_after, without_first};

use rx_inference::Side;
use rx_plain::{Items, NoMemory};
use rx_steps::State;
use std::alloc::Global;

/// A state with tasks: a task is a list of sides that are still to be unfolded at a goal.
#[derive(Drop)]
pub struct Tasked {
    /// The goals and the hypotheses.
    pub state: State,
    /// The task of each goal, in the order of the goals.
    pub tasks: Items<Items<Side>>,
}

/// How many goals came of the first of `before` goals, where there are `now` after the step.
fn new_goals(before: u32, now: u32) -> u32
    ensures { result ≡ now - (before - 1) }
{
    now.saturating_sub(before.saturating_sub(1))
}

/// That task so many times.
fn same_tasks(alloc: Global, task: &[Side], count: u32) -> Result<Items<Items<Side>>, NoMemory>
    ensures { IfOk result (λ made. made ≡ replicate count task.now) }
{
    let mut made = Items::new(alloc);
    for _task in 0..count {
        made.push(Items::from_slice(alloc, task)?)?;
    }
    Ok(made)
}

/// The same tasks once more.
fn copied_tasks(alloc: Global, tasks: &[Items<Side>]) -> Result<Items<Items<Side>>, NoMemory>
    ensures { IfOk result (λ made. made ≡ tasks.now) }
{
    let mut made = Items::with_capacity(alloc, tasks.len())?;
    for task in tasks {
        made.push(Items::from_slice(alloc, task.as_slice())?)?;
    }
    Ok(made)
}

/// The tasks after the first.
fn later_tasks(tasks: Items<Items<Side>>) -> Items<Items<Side>>
    ensures { result ≡ drop 1 tasks }
{
    let mut tasks = tasks.into_vec();
    if !tasks.is_empty() {
        drop(tasks.remove(0));
    }
    Items::from_vec(tasks)
}

impl Tasked {
    /// The state, each goal of which has that task; fails only where there is no memory.
    pub fn each_with(alloc: Global, state: State, task: &[Side]) -> Result<Tasked, NoMemory>
        ensures { IfOk result (λ at. at ≡ each_with task.now state) }
    {
        let tasks = same_tasks(alloc, task, state.goals())?;
        Ok(Tasked { state, tasks })
    }

    /// The same state and tasks once more; fails only where there is no memory.
    pub fn try_clone(&self, alloc: Global) -> Result<Tasked, NoMemory>
        ensures { IfOk result (λ at. at ≡ self.now) }
    {
        Ok(Tasked {
            state: self.state.try_clone(alloc)?,
            tasks: copied_tasks(alloc, self.tasks.as_slice())?,
        })
    }

    /// The task of the first goal, copied; none where no goal has one.
    pub(crate) fn first_task(&self, alloc: Global) -> Result<Items<Side>, NoMemory>
        ensures { IfOk result (λ task. task ≡ first_task self.now) }
    {
        match self.tasks.as_slice().first() {
            Some(task) => Ok(Items::from_slice(alloc, task.as_slice())?),
            None => Ok(Items::new(alloc)),
        }
    }

    /// After a step on the first of `before` goals, whose tasks are still those before it: gives
    /// each goal that came of the first one that task. The other goals keep theirs. Fails only
    /// where there is no memory.
    pub fn give_task(&mut self, alloc: Global, task: &[Side], before: u32) -> Result<(), NoMemory>
        ensures { OnOk result (self.new ≡ record self.old {
          tasks = tasks_after task.now self.old.tasks before (length self.old.state.goals);
        }) }
    {
        let mut tasks = same_tasks(alloc, task, new_goals(before, self.state.goals()))?;
        let old = std::mem::replace(&mut self.tasks, Items::new(alloc));
        tasks.append(later_tasks(old))?;
        self.tasks = tasks;
        Ok(())
    }

    /// Lets go of the first goal, if there is one, and of its task.
    pub(crate) fn drop_first(&mut self, alloc: Global)
        ensures { self.new ≡ without_first self.old }
    {
        self.state.drop_first();
        let old = std::mem::replace(&mut self.tasks, Items::new(alloc));
        self.tasks = later_tasks(old);
    }
}
