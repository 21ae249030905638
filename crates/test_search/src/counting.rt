//! A tree that counts its own calls: how often nodes are settled and their choices are found, by
//! how many nodes a search keeps. The nodes and the order of the visits are proved in rx_deepening;
//! that a kept node is settled once, and that its choices are found once, is seen here.

use crate::ends::counts;
use rx_deepening::{Choice, Menu, Settled, Tree, search};
use rx_plain::{Items, NoMemory};
use std::alloc::Global;

// A tree without closed nodes and without notes: either a single node, or two choices at each.
#[derive(Drop)]
struct CountingTree {
    alloc: Global,
    branches: bool,
    settled: usize,
    chosen: usize,
}

impl Tree for CountingTree {
    ghost use Rattle.std.specs.Prelude.{◌∷◌, ℕ, Bool, None, [], false, if◌then◌else◌};

    type Node = u8;

    type Note = u8;

    ghost World = { Bool };

    ghost world = { λ t. t.branches };

    ghost ready = { λ t. Unit {0} };

    ghost View = { ℕ };

    ghost view = { λ n. n };

    ghost valid = { λ w n. Unit {0} };

    ghost settled = { λ w v. record { node = v; closed = false; note = None } };

    ghost menu = { λ w v. record {
      choices = if w then record { number = 1; node = v } ∷ record { number = 2; node = v } ∷ []
          else [];
      note = None;
    } };

    fn settle(&mut self, node: u8) -> Result<Settled<u8, u8>, NoMemory> {
        self.settled = self.settled.saturating_add(1);
        Ok(Settled {
            node,
            closed: false,
            note: None,
        })
    }

    fn choices(&mut self, node: &u8) -> Result<Menu<u8, u8>, NoMemory> {
        self.chosen = self.chosen.saturating_add(1);
        let mut choices = Items::new(self.alloc);
        if self.branches {
            choices.push(Choice {
                number: 1,
                node: *node,
            })?;
            choices.push(Choice {
                number: 2,
                node: *node,
            })?;
        }
        Ok(Menu {
            choices,
            note: None,
        })
    }
}

// How far a search over a tree goes, and how many nodes it keeps.
struct Effort {
    depth: u32,
    budget: u32,
    most_kept: usize,
}

// The numbers of a depth, a budget and of kept nodes, with spaces between them.
fn effort_of(text: &str) -> Option<Effort> {
    let (depth, rest) = text.split_once(' ')?;
    let (budget, most_kept) = rest.split_once(' ')?;
    Some(Effort {
        depth: depth.parse().ok()?,
        budget: budget.parse().ok()?,
        most_kept: most_kept.parse().ok()?,
    })
}

/// How often a search settles nodes and how often it finds choices, over the tree of that name, to
/// a depth, within a budget and with at most so many nodes kept; none where that can't be read or
/// memory ran out.
pub fn counted(alloc: Global, given: &str) -> Option<Vec<u8>> {
    let (name, rest) = given.split_once(' ')?;
    let branches = match name {
        "single" => false,
        "binary" => true,
        _ => return None,
    };
    let effort = effort_of(rest)?;
    let mut tree = CountingTree {
        alloc,
        branches,
        settled: 0,
        chosen: 0,
    };
    let Effort {
        depth,
        budget,
        most_kept,
    } = effort;
    search(alloc, &mut tree, 0, depth, budget, most_kept).ok()?;
    counts(alloc, tree.settled, tree.chosen)
}
