//! Marks of numbers.
ghost use Rattle.std.specs.Prelude.{◌≡◌, ◌<◌, ◌^◌, ℕ, IfOk, map, replicate, slice_set};
ghost use Rattle.std.specs.Prelude.{false, true};
ghost use Rattle.rx_translate.specs.Marks as spec;
ghost use Rattle.rx_translate.specs.Marks.{IsMarked, marked_from};

use rx_plain::Items;
use std::alloc::{AllocError, Global};

/// `count` numbers without a mark; fails only when out of memory.
pub(crate) fn no_marks(alloc: Global, count: usize) -> Result<Vec<bool>, AllocError>
    ensures { IfOk result (λ marks. marks.items ≡ replicate count false) }
{
    vec![in alloc; false; count]
}

/// Gives a number its mark, where it is one of those that may have one.
pub(crate) fn mark(marks: &mut Vec<bool>, number: u32)
    ensures { marks.new.items ≡ slice_set marks.old.items number true }
{
    if (number as usize) < marks.len() {
        marks[number as usize] = true;
    }
}

/// `count` marks, those of these numbers; fails only when out of memory.
pub(crate) fn marks_of(
    alloc: Global,
    count: usize,
    numbers: &[u32],
) -> Result<Vec<bool>, AllocError>
    ensures { IfOk result (λ marks. marks.items ≡ spec.marks_of count numbers.now) }
{
    let mut marks = no_marks(alloc, count)?;
    for number in numbers {
        mark(&mut marks, *number);
    }
    Ok(marks)
}

/// `count` marks, those of the second numbers of these pairs; fails only when out of memory.
pub(crate) fn marks_of_second(
    alloc: Global,
    count: usize,
    pairs: &[(u32, u32)],
) -> Result<Vec<bool>, AllocError>
    ensures { IfOk result (λ marks.
        marks.items ≡ spec.marks_of count (map (λ (e : ℕ × ℕ). e.1) pairs.now)) }
{
    let mut marks = no_marks(alloc, count)?;
    for (_, number) in pairs {
        mark(&mut marks, *number);
    }
    Ok(marks)
}

/// The numbers that have marks, in order; fails only when out of memory.
pub(crate) fn marked(alloc: Global, marks: &[bool]) -> Result<Items<u32>, AllocError>
    requires { (h : ℕ) → IsMarked marks.now h → h < 2 ^ 32 }
    ensures { IfOk result (λ numbers. numbers ≡ marked_from 0 marks.now) }
{
    let mut numbers = Items::new(alloc);
    for i in 0..marks.len() {
        if marks[i] {
            numbers.push(i as u32)?;
        }
    }
    Ok(numbers)
}
