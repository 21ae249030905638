//! What is known of a choice at a goal, and what comes of it at a node.
ghost use Rattle.std.specs.Prelude.{◌≡◌, [], IfOk, OnOk, false};
ghost use Rattle.rx_search.specs.Calls.{led, with_choice};
ghost use Rattle.rx_steps.specs.Alone.{onto};

use crate::node::Node;
use rx_deepening::Choice;
use rx_inference::Step;
use rx_plain::{Items, NoMemory, Shared};
use rx_rank::Attempt;
use rx_steps::State;
use std::alloc::Global;

/// What is known of a choice at a goal: what comes of its step where the goal is alone.
#[derive(Drop)]
pub struct KnownChoice {
    /// Its number.
    pub number: u8,
    /// Whether ranks are to be found with the hypothesis that it keeps.
    pub keeps: bool,
    /// The step with its certificates, if it applies.
    pub step: Option<Shared<Step>>,
    /// Whether something on the way passed the limits.
    pub noted: bool,
    /// The state after the step; the goal alone, if it doesn't apply.
    pub after: State,
}

/// The choices that apply, so far.
#[derive(Drop)]
pub struct Choices {
    /// In order.
    pub choices: Items<Choice<Node>>,
    /// Whether something on the way passed the limits.
    pub noted: bool,
}

/// The same step, if there is one, which may be shared from then on.
fn shared_step(alloc: Global, step: Option<Step>) -> Result<Option<Shared<Step>>, NoMemory>
    ensures { IfOk result (λ made. made ≡ step) }
{
    match step {
        Some(step) => Ok(Some(Shared::new(alloc, step)?)),
        None => Ok(None),
    }
}

impl KnownChoice {
    /// What is known of a choice whose step came to that, where it applied; its step may be shared
    /// from then on. Fails only where there is no memory.
    pub fn new(
        alloc: Global,
        number: u8,
        keeps: bool,
        step: Option<Step>,
        noted: bool,
        after: State,
    ) -> Result<KnownChoice, NoMemory>
        ensures { IfOk result (λ k. k ≡ record {
          number = number;
          keeps = keeps;
          step = step;
          noted = noted;
          after = after;
        }) }
    {
        Ok(KnownChoice {
            number,
            keeps,
            step: shared_step(alloc, step)?,
            noted,
            after,
        })
    }

    /// What comes of the choice at a node that begins with the goal, before ranks are found; the
    /// settling of the node that it leads to may take `left` steps. Fails only where there is no
    /// memory.
    pub fn lead(&self, alloc: Global, node: &Node, left: u32) -> Result<Attempt<Node>, NoMemory>
        ensures { IfOk result (λ t. t ≡ led left node.now self.now.step self.now.noted
            (onto node.now.state self.now.after)) }
    {
        let found = match &self.step {
            Some(step) => Some(node.after(alloc, step, &self.after, left)?),
            None => None,
        };
        Ok(Attempt {
            made: found,
            noted: self.noted,
        })
    }
}

impl Choices {
    /// None yet.
    pub fn new(alloc: Global) -> Choices
        ensures { result ≡ record { choices = []; noted = false } }
    {
        Choices {
            choices: Items::new(alloc),
            noted: false,
        }
    }

    /// One more, where it applies; fails only where there is no memory.
    pub fn add(&mut self, number: u8, trial: Attempt<Node>) -> Result<(), NoMemory>
        ensures { OnOk result (self.new ≡ with_choice self.old number trial) }
    {
        let Attempt { made, noted } = trial;
        self.noted = self.noted || noted;
        match made {
            Some(node) => Ok(self.choices.push(Choice { number, node })?),
            None => Ok(()),
        }
    }
}
