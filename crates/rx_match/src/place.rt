//! Where a hypothesis may be used.
ghost use Rattle.std.specs.Prelude.{◌≡◌, ◌↔◌, ◌<◌, ◌^◌, ℕ, true, Some};
ghost use Rattle.rx_inference.specs.Pieces.{have_one_shape, side_of};
ghost use Rattle.rx_match.specs.Matching.{is_place};
ghost use Rattle.rx_term.specs.Stacks.{depth_of};

use rx_inference::{Side, side_of};
use rx_term::{Equation, Rule, Term};

/// Whether the part has the shape of the hypothesis's left side.
pub(crate) fn has_left_shape(part: &Term, hypothesis: &Rule) -> bool
    ensures { result ≡ have_one_shape part.now hypothesis.now.left }
{
    part.has_shape_of(&hypothesis.left)
}

/// The only place of that side at which the hypothesis may be used: how many frames are over the
/// part that has the shape of its left side. None exactly where no part has it. Takes no memory.
pub fn place_of(goal: &Equation, hypothesis: &Rule, side: Side) -> Option<u32>
    requires goal { depth_of (side_of side goal.now) < 2 ^ 32 }
    requires hypothesis { depth_of hypothesis.now.left < 2 ^ 32 }
    ensures { (place : ℕ) → (result ≡ Some place) ↔
        (is_place goal.now hypothesis.now side place ≡ true) }
{
    let term = side_of(goal, side);
    let whole = term.depth();
    let left = hypothesis.left.depth();
    if whole < left {
        return None;
    }
    let place = whole - left;
    let part = term.suffix(place)?;
    if has_left_shape(part, hypothesis) {
        Some(place)
    } else {
        None
    }
}
