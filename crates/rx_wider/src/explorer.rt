//! What comes of goals behind the lemmas, and what is shown.
ghost use Rattle.std.specs.Prelude.{◌≡◌, IfOk};
ghost use Rattle.rx_shapes.specs.Shown.{is_shown};
ghost use Rattle.rx_solve.specs.Answers.{IsSolver};

use crate::opening::Setting;
use rx_cert::Cert;
use rx_fm::FmEnd;
use rx_inference::Side;
use rx_plain::{Items, NoMemory};
use rx_row::{Constraint, Row};
use rx_settle::{SettleMemo, descendants};
use rx_shapes::Explores;
use rx_solve::{AllShown, show_all};
use rx_term::{Equation, Rule};
use std::alloc::Global;

/// Whether the solver shows the row under the given ones.
fn shows_row<S: FnMut(&Constraint) -> Result<Option<Cert>, FmEnd>>(
    alloc: Global,
    given: &Constraint,
    row: &Row,
    solve: &mut S,
) -> Result<bool, NoMemory>
    requires solver { IsSolver S.FnMut solve.old }
    ensures solver { IsSolver S.FnMut solve.new }
    ensures shown { IfOk result (λ b. b ≡ is_shown given.now row.now) }
{
    let rows = [row.try_clone(alloc)?];
    match show_all(alloc, given, rows.as_slice(), solve)? {
        AllShown::Shown(_) => Ok(true),
        AllShown::NotShown => Ok(false),
        AllShown::TooLarge => Ok(false),
    }
}

/// What is asked while an equation to keep is looked for, over rules and behind lemmas.
#[derive(Drop)]
pub(crate) struct Explorer<'a, S> {
    /// What the search stands on.
    pub(crate) setting: &'a Setting<'a>,
    /// The lemmas.
    pub(crate) tails: &'a [Rule],
    /// What settling knows of goals.
    pub(crate) memo: &'a mut SettleMemo,
    /// What refutes rows.
    pub(crate) solve: &'a mut S,
}

impl<'a, S: FnMut(&Constraint) -> Result<Option<Cert>, FmEnd>> Explores for Explorer<'a, S> {
    ghost use Rattle.std.specs.Prelude.{◌≡◌, IfOk};
    ghost use Rattle.rx_moves.specs.LoopPoints.{AreLoopPoints};
    ghost use Rattle.rx_settle.specs.Known.{AreKnown};
    ghost use Rattle.rx_settle.specs.Tasks as tasks;
    ghost use Rattle.rx_shapes.specs.Shown.{is_shown};
    ghost use Rattle.rx_solve.specs.Answers.{IsSolver};
    ghost use Rattle.rx_wider.specs.Reached.{Explored};

    ghost World = { Explored };

    ghost world = { λ e. record {
      kind = e.setting.now.kind;
      parts = e.setting.now.rules.now;
      pairs = e.setting.now.pairs.now;
      tails = e.tails.now;
      solver = e.solve.ghost_name;
    } };

    ghost ready = { λ e. IsSolver S.FnMut e.solve.now ×
        AreLoopPoints e.setting.now.rules.now e.setting.now.points.now ×
        AreKnown e.setting.now.rules.now e.memo.now };

    ghost found = { λ w task goal. tasks.descendants w.parts w.tails task goal };

    fn descendants(
        &mut self,
        task: &[Side],
        goal: &Equation,
    ) -> Result<Option<Items<Equation>>, NoMemory> {
        descendants(
            self.setting.alloc,
            self.setting.rules,
            self.setting.points,
            self.memo,
            self.tails,
            task,
            goal,
            self.solve,
        )
    }

    fn shows(&mut self, given: &Constraint, row: &Row) -> Result<bool, NoMemory> {
        shows_row(self.setting.alloc, given, row, self.solve)
    }
}
