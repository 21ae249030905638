//! What stands before the visits of a search.
ghost use Rattle.std.specs.Prelude.{◌≡◌, ◌∷◌, [], IfOk};
ghost use Rattle.rx_settle.specs.Settling.{most_moves};
ghost use Rattle.rx_steps.specs.Alone.{alone};

use crate::node::{MOST_STEPS, Node};
use rx_inference::Step;
use rx_moves::LoopPoints;
use rx_pairs::Listing;
use rx_plain::{Items, NoMemory, Shared};
use rx_rank::RankingKind;
use rx_settle::Tasked;
use rx_steps::State;
use rx_term::{Equation, RuleSet};
use std::alloc::Global;

/// What a search stands on, and doesn't change.
#[derive(Drop)]
pub(crate) struct Setting<'a> {
    /// The allocator.
    pub(crate) alloc: Global,
    /// The rules.
    pub(crate) rules: &'a RuleSet,
    /// The loop points of the rules.
    pub(crate) points: &'a LoopPoints,
    /// The pairs of the rules inside the domains.
    pub(crate) pairs: &'a Listing,
    /// The kind of all rankings of these rules, with and without hypotheses.
    pub(crate) kind: RankingKind,
}

/// Where steps lead before the visits: to a goal alone, under the hypotheses that lemmas are.
#[derive(Drop)]
pub struct Begun {
    /// The steps, each with its certificates.
    pub steps: Items<Shared<Step>>,
    /// The state after them.
    pub state: State,
}

impl Begun {
    /// No step is made yet.
    pub(crate) fn new(alloc: Global, goal: &Equation) -> Result<Begun, NoMemory>
        ensures { IfOk result (λ b. b ≡ record { steps = []; state = alone goal.now }) }
    {
        Ok(Begun {
            steps: Items::new(alloc),
            state: State::start(alloc, goal.try_clone(alloc)?)?,
        })
    }

    /// The node from which the visits start; its goal has no task.
    pub(crate) fn into_node(self, alloc: Global) -> Result<Node, NoMemory>
        ensures { IfOk result (λ n. n ≡ record {
          steps = self.steps;
          at = record { state = self.state; tasks = [] ∷ [] };
          left = most_moves;
        }) }
    {
        let mut tasks = Items::new(alloc);
        tasks.push(Items::new(alloc))?;
        let Begun { steps, state } = self;
        Ok(Node {
            steps,
            at: Tasked { state, tasks },
            left: MOST_STEPS,
        })
    }
}
