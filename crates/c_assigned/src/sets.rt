//! Sets of slots that are definitely assigned: a flag for each slot in scope, or none after a place
//! that is never reached.
ghost use Rattle.std.specs.Prelude.{◌≡◌, ◌&&◌, IfOk};
ghost use Rattle.c_assigned.specs.Sets as spec;

use rx_plain::{Items, NoMemory};
use std::alloc::Global;

// Whether both hold.
fn both_hold(left: bool, right: bool) -> bool
    ensures { result ≡ (left && right) }
{
    left && right
}

// The slots that are in both.
fn intersection(left: Items<bool>, right: &Items<bool>) -> Items<bool>
    ensures { result ≡ spec.intersection left right.now }
{
    let mut flags = left.into_vec();
    let others = right.as_slice();
    flags.truncate(others.len());
    let mut slot: usize = 0;
    while slot < flags.len() {
        flags[slot] = both_hold(flags[slot], others[slot]);
        slot += 1;
    }
    Items::from_vec(flags)
}

/// What is assigned on either of two ways.
pub fn meet(left: Option<Items<bool>>, right: Option<Items<bool>>) -> Option<Items<bool>>
    ensures { result ≡ spec.meet left right }
{
    match left {
        None => right,
        Some(left) => match right {
            None => Some(left),
            Some(right) => Some(intersection(left, &right)),
        },
    }
}

/// The set of the first n slots.
pub fn restrict(slots: usize, set: Option<Items<bool>>) -> Option<Items<bool>>
    ensures { result ≡ spec.restrict slots set }
{
    match set {
        None => None,
        Some(set) => {
            let mut flags = set.into_vec();
            flags.truncate(slots);
            Some(Items::from_vec(flags))
        }
    }
}

/// The set with one slot more after the others.
pub fn with_slot(is_set: bool, set: Option<Items<bool>>) -> Result<Option<Items<bool>>, NoMemory>
    ensures { IfOk result (λ s. s ≡ spec.with_slot is_set set) }
{
    match set {
        None => Ok(None),
        Some(mut set) => {
            set.push(is_set)?;
            Ok(Some(set))
        }
    }
}

/// The set with this slot assigned.
pub fn with_assigned(slot: u32, set: Option<Items<bool>>) -> Option<Items<bool>>
    ensures { result ≡ spec.with_assigned slot set }
{
    match set {
        None => None,
        Some(set) => {
            let mut flags = set.into_vec();
            if (slot as usize) < flags.len() {
                flags[slot as usize] = true;
            }
            Some(Items::from_vec(flags))
        }
    }
}

/// Whether the slot is in the set.
pub fn is_assigned(set: &Option<Items<bool>>, slot: u32) -> bool
    ensures { result ≡ spec.is_assigned set.now slot }
{
    match set {
        None => true,
        Some(set) => match set.as_slice().get(slot as usize) {
            Some(flag) => *flag,
            None => false,
        },
    }
}

/// The same set once more; fails only when out of memory.
pub fn copy(alloc: Global, set: &Option<Items<bool>>) -> Result<Option<Items<bool>>, NoMemory>
    ensures { IfOk result (λ s. s ≡ set.now) }
{
    match set {
        None => Ok(None),
        Some(set) => Ok(Some(Items::from_slice(alloc, set.as_slice())?)),
    }
}
