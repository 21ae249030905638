//! How a state was settled.
ghost use Rattle.std.specs.Prelude.{◌≡◌, ◌<◌, [], None, OnOk};
ghost use Rattle.rx_settle.specs.Advances.{rows_where, with_note, with_step};
ghost use Rattle.rx_settle.specs.Settling.{most_moves};

use rx_inference::Step;
use rx_plain::{Items, NoMemory};
use rx_row::Row;
use std::alloc::Global;

/// A state is settled by n moves at most.
pub(crate) const MOST_MOVES: u32 = 200;

/// How a state was settled.
#[derive(Drop)]
pub struct Settled {
    /// The steps, each with its certificates.
    pub steps: Items<Step>,
    /// How many more steps might have been taken; 0 where settling ended for that.
    pub left: u32,
    /// The rows of the first goal at which something passed the limits.
    pub note: Option<Items<Row>>,
}

impl Settled {
    /// No step is taken, and nothing noted.
    pub(crate) fn begin(alloc: Global) -> Settled
        ensures { result ≡ record { steps = []; left = most_moves; note = None } }
    {
        Settled {
            steps: Items::new(alloc),
            left: MOST_MOVES,
            note: None,
        }
    }

    /// Notes the rows where something passed the limits, unless some were noted before.
    pub(crate) fn note_where(&mut self, noted: bool, rows: Option<Items<Row>>)
        ensures { self.new ≡ with_note self.old (rows_where noted rows) }
    {
        if noted && self.note.is_none() {
            self.note = rows;
        }
    }

    /// Adds a step, of those that are left.
    pub(crate) fn add_step(&mut self, step: Step) -> Result<(), NoMemory>
        requires { 0 < self.old.left }
        ensures { OnOk result (self.new ≡ with_step self.old step) }
    {
        self.steps.push(step)?;
        self.left -= 1;
        Ok(())
    }
}
