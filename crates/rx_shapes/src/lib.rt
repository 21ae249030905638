//! What goals of one shape have in common before anything is known of them: the polynomials at
//! their places, the general sides with a variable of its own at each place, and the rows that may
//! hold at all of them. And what the two sides of a goal keep while they are unfolded side by side:
//! shapes are followed with their goals, up to an equation that all that comes of it shows again.
//!
//! What a reader may rely on: each call answers exactly what its definition in `specs/` says, except
//! when out of memory. That a row holds at a goal isn't said: it is a candidate, to be shown there.
//! What comes of goals is asked of an implementation of the trait `Explores`.
#![tactic(auto)]

mod aim;
mod applying;
mod bounds;
mod explores;
mod followed;
mod following;
mod gathering;
mod general;
mod generalising;
mod goals;
mod held;
mod inside;
mod kept;
mod numbers;
mod offering;
mod places;
mod remaining;
mod shown;
mod turning;

pub use bounds::{candidate_rows, rule_bounds};
pub use explores::Explores;
pub use general::{GeneralSides, general_sides, variables_from};
pub use held::goal_bounds;
pub use kept::kept_equation;
pub use places::{have_one_shape, places_of};
pub use remaining::remainders_of;
pub use rx_plain::NoMemory;
pub use rx_poly::PolyEnd;
