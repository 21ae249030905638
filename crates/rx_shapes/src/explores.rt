//! What is asked while shapes are followed.

use rx_inference::Side;
use rx_plain::{Items, NoMemory};
use rx_row::{Constraint, Row};
use rx_term::Equation;

/// Says what comes of a goal whose sides are unfolded, and which rows follow from others.
pub trait Explores {
    ghost use Rattle.std.specs.Prelude.{◌≡◌, List, Option, IfOk};
    ghost use Rattle.rx_inference.specs.declared.step.Side.{Side};
    ghost use Rattle.rx_term.specs.declared.rule.Equation.{Equation};
    ghost use Rattle.rx_shapes.specs.Shown.{is_shown};

    // What it answers by: it stays the same.
    ghost World: { Type 0 };

    ghost world: { Self → World };

    // What has to hold for a call, and holds after it again.
    ghost ready: { Self → Type 0 };

    // What comes of a goal whose sides are unfolded as the task says; None where this isn't known.
    ghost found: { World → List Side → Equation → Option (List Equation) };

    /// What comes of the goal whose sides are unfolded as the task says: the goals at which nothing
    /// applies any more, in order. None where there are too many of these, or it takes too long.
    fn descendants(
        &mut self,
        task: &[Side],
        goal: &Equation,
    ) -> Result<Option<Items<Equation>>, NoMemory>
        requires ready { ready self.old }
        ensures ready { ready self.new }
        ensures world { world self.new ≡ world self.old }
        ensures exact { IfOk result (λ o. o ≡ found (world self.old) task.now goal.now) };

    /// Whether the refuter shows the row under the given ones.
    fn shows(&mut self, given: &Constraint, row: &Row) -> Result<bool, NoMemory>
        requires ready { ready self.old }
        ensures ready { ready self.new }
        ensures world { world self.new ≡ world self.old }
        ensures exact { IfOk result (λ b. b ≡ is_shown given.now row.now) };
}
