//! The points: the lists of arguments from -side to side, walked in place in lexicographic order.
ghost use Rattle.std.specs.Prelude.{◌≡◌, ◌≤◌, ◌+◌, ◌*◌, ◌^◌, length, IfOk, pos, neg_ℤ};
ghost use Rattle.std.specs.Bool.{OnTrue, OnFalse};
ghost use Rattle.std.specs.Option.{SomeIff};
ghost use Rattle.c_refute.specs.Walk.{lowest, next_integer, stepped};

use rx_plain::NoMemory;
use std::alloc::Global;

/// The greatest number of points.
pub const MAX_POINTS: u64 = 1_000_000;

/// The number of points, and None where there are more than `MAX_POINTS`.
pub(crate) fn number_of_points(side: u32, arity: usize) -> Option<u64>
    ensures { SomeIff result ((2 * side + 1) ^ arity ≤ MAX_POINTS) ((2 * side + 1) ^ arity) }
{
    let width = 2 * u64::from(side) + 1;
    let mut number = 1;
    for _ in 0..arity {
        number *= width;
        if number > MAX_POINTS {
            return None;
        }
    }
    Some(number)
}

/// The first point; fails only when out of memory.
pub(crate) fn first_point(alloc: Global, side: u32, arity: usize) -> Result<Vec<i128>, NoMemory>
    ensures { IfOk result (λ p. p.items ≡ lowest side arity) }
{
    Ok(vec![in alloc; least(side); arity]?)
}

// The least argument.
fn least(side: u32) -> i128
    ensures { result ≡ neg_ℤ (pos side) }
{
    -i128::from(side)
}

// Raises an argument by 1; one that is at side is set to the least, and the answer is false.
fn raise(x: &mut i128, side: u32) -> bool
    ensures raised { OnTrue result (next_integer side x.old ≡ Some x.new) }
    ensures ended { OnFalse result (next_integer side x.old ≡ None) }
    ensures least { OnFalse result (x.new ≡ neg_ℤ (pos side)) }
{
    if *x < i128::from(side) {
        *x += 1;
        true
    } else {
        *x = least(side);
        false
    }
}

/// Goes to the next point, and from the last one to the first.
pub(crate) fn advance(point: &mut [i128], side: u32)
    ensures { point.new ≡ stepped side point.old }
{
    for i in (0..point.len()).rev() {
        if raise(&mut point[i], side) {
            return;
        }
    }
}
