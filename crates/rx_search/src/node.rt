//! Nodes of the search.
ghost use Rattle.std.specs.Prelude.{◌≡◌, ◌∷◌, ◌++◌, [], IfOk};
ghost use Rattle.rx_search.specs.NodeNodes.{is_closed, start};
ghost use Rattle.rx_search.specs.Calls.{node_of, open_goal, started, with_step};
ghost use Rattle.rx_steps.specs.Alone.{onto};

use rx_inference::Step;
use rx_plain::{Items, NoMemory, Shared};
use rx_row::Row;
use rx_settle::copied_steps;
use rx_steps::State;
use rx_term::Equation;
use std::alloc::Global;

/// A node: where steps lead from the goal alone.
#[derive(Drop)]
pub struct Node {
    /// The steps, each with its certificates, which it shares with the nodes after it.
    pub steps: Items<Shared<Step>>,
    /// The state after them.
    pub state: State,
    /// How many more steps its settling might have taken; 0 where it ended for that.
    pub left: u32,
}

/// Whether no goal is left.
#[tactic(auto, using(crate::proofs::Left::none_left))]
pub fn is_closed(state: &State) -> bool
    ensures { result ≡ is_closed state.now.goals }
{
    state.goals() == 0
}

/// The same steps and one more, shared with those that are given.
fn steps_with(
    alloc: Global,
    steps: &[Shared<Step>],
    step: &Shared<Step>,
) -> Result<Items<Shared<Step>>, NoMemory>
    ensures { IfOk result (λ made. made ≡ steps.now ++ step.now ∷ []) }
{
    let mut made = copied_steps(alloc, steps)?;
    made.push(step.try_clone()?)?;
    Ok(made)
}

/// The state with what came of its first goal, where that was alone, in the goal's place.
fn state_with(alloc: Global, state: &State, after: &State) -> Result<State, NoMemory>
    ensures { IfOk result (λ made. made ≡ onto state.now after.now) }
{
    let mut made = state.try_clone(alloc)?;
    made.go_on(alloc, after)?;
    Ok(made)
}

/// The same rows once more; fails only where there is no memory.
pub fn copied_rows(alloc: Global, rows: &[Row]) -> Result<Items<Row>, NoMemory>
    ensures { IfOk result (λ made. made ≡ rows.now) }
{
    let mut made = Items::new(alloc);
    for row in rows {
        made.push(row.try_clone(alloc)?)?;
    }
    Ok(made)
}

impl Node {
    /// The node with no steps, whose settling may take `left`; fails only where there is no memory.
    pub fn start(alloc: Global, goal: &Equation, left: u32) -> Result<Node, NoMemory>
        ensures start { IfOk result (λ n. node_of n ≡ start goal.now left) }
        ensures node { IfOk result (λ n. n ≡ started goal.now left) }
    {
        Ok(Node {
            steps: Items::new(alloc),
            state: State::start(alloc, goal.try_clone(alloc)?)?,
            left,
        })
    }

    /// The node that one more step leads to, by the state that it makes of the first goal alone;
    /// its settling may take `left` steps. Fails only where there is no memory.
    pub fn after(
        &self,
        alloc: Global,
        step: &Shared<Step>,
        after: &State,
        left: u32,
    ) -> Result<Node, NoMemory>
        ensures { IfOk result (λ n. n ≡
            with_step left self.now step.now (onto self.now.state after.now)) }
    {
        Ok(Node {
            steps: steps_with(alloc, self.steps.as_slice(), step)?,
            state: state_with(alloc, &self.state, after)?,
            left,
        })
    }

    /// The goal at which there are choices: the first, unless settling took all steps. Fails only
    /// where no more owners of it can be counted.
    pub fn open_goal(&self) -> Result<Option<Shared<Equation>>, NoMemory>
        ensures { IfOk result (λ goal. goal ≡ open_goal self.now) }
    {
        if self.left == 0 {
            Ok(None)
        } else {
            self.state.share_first()
        }
    }
}
