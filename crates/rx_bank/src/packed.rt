//! Packed states.
ghost use Rattle.std.specs.Prelude.{◌<◌, ◌^◌, length};

use crate::parts::PackedEquation;
use rx_plain::Items;

/// A proof state, each polynomial of which is its number in a bank.
#[derive(Drop)]
pub struct Packed {
    pub(crate) goals: Items<PackedEquation>,
    pub(crate) hypotheses: Items<PackedEquation>,
    ghost goals_fit: { length goals < 2 ^ 32 },
    ghost hypotheses_fit: { length hypotheses < 2 ^ 32 },
}
