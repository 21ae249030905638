//! Nodes of the wider search.
ghost use Rattle.std.specs.Prelude.{◌≡◌, ◌++◌, IfOk};
ghost use Rattle.rx_inference.specs.States as states;
ghost use Rattle.rx_wider.specs.Calls.{node_of, with_steps};
ghost use Rattle.rx_wider.specs.Wider.{open_goal};

use rx_inference::{Side, Step};
use rx_plain::{Items, NoMemory, Shared};
use rx_settle::{Tasked, append_steps, copied_steps};
use rx_term::Equation;
use std::alloc::Global;

/// A node: where steps lead from the goal.
#[derive(Drop)]
pub struct Node {
    /// The steps, each with its certificates, which it shares with the nodes after it.
    pub steps: Items<Shared<Step>>,
    /// The state after them, and the tasks of its goals.
    pub at: Tasked,
    /// How many more steps its settling might have taken; 0 where it ended for that.
    pub left: u32,
}

/// How many steps settle a node at most.
pub(crate) const MOST_STEPS: u32 = 200;

/// Those steps, and more of them.
pub(crate) fn steps_after(
    alloc: Global,
    steps: &[Shared<Step>],
    more: Items<Step>,
) -> Result<Items<Shared<Step>>, NoMemory>
    ensures { IfOk result (λ all. all ≡ steps.now ++ more) }
{
    let mut all = copied_steps(alloc, steps)?;
    append_steps(alloc, &mut all, more)?;
    Ok(all)
}

impl Node {
    /// The node after steps, by the state that they made, which still has the tasks before them:
    /// goals that came of the first one have this task.
    pub(crate) fn after(
        &self,
        alloc: Global,
        steps: Items<Step>,
        at: Tasked,
        task: &[Side],
    ) -> Result<Node, NoMemory>
        requires { at.tasks ≡ self.now.at.tasks }
        ensures { IfOk result (λ n. n ≡ with_steps self.now steps task.now at.state) }
    {
        let mut at = at;
        at.give_task(alloc, task, self.at.state.goals())?;
        Ok(Node {
            steps: steps_after(alloc, self.steps.as_slice(), steps)?,
            at,
            left: MOST_STEPS,
        })
    }

    /// The goal at which there are choices: the first, unless settling took all steps. Fails only
    /// where no more owners of it can be counted.
    pub(crate) fn open_goal(&self) -> Result<Option<Shared<Equation>>, NoMemory>
        ensures { IfOk result (λ goal. goal ≡ open_goal (node_of self.now)) }
    {
        if self.left == 0 {
            Ok(None)
        } else {
            self.at.state.share_first()
        }
    }
}
