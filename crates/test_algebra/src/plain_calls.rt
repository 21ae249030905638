//! The containers, at numbers.
use rx_plain::{Boxed, Graded, Items, NoMemory};
use std::alloc::Global;
use test_lines::{Answer, integer, integers, numbers_of, ordered, parted, perhaps, told};

// The numbers that stand after the first word, which says how many there are.
fn numbers(alloc: Global, text: &str) -> Option<Vec<i128>> {
    let (_, words) = parted(text, " ");
    numbers_of(alloc, words)
}

fn append_copy(alloc: Global, items: &mut Items<i128>, more: &Items<i128>) -> Option<()> {
    items
        .append(Items::from_slice(alloc, more.as_slice()).ok()?)
        .ok()
}

fn copied(alloc: Global, more: &Items<i128>) -> Option<Answer> {
    let copy = Items::from_slice(alloc, more.as_slice()).ok()?;
    integers(alloc, copy.into_vec().as_slice())
}

// The numbers, added where there is room for them alone.
fn with_capacity(alloc: Global, more: &Items<i128>) -> Option<Answer> {
    let mut items = Items::with_capacity(alloc, more.len()).ok()?;
    append_copy(alloc, &mut items, more)?;
    integers(alloc, items.as_slice())
}

// Adds the last number, or all of them, for which there is room first where the call says so.
fn add(alloc: Global, name: &str, items: &mut Items<i128>, more: &Items<i128>) -> Option<()> {
    match name {
        "push" => return items.push(*more.as_slice().last()?).ok(),
        "reserve" => items.reserve(more.len()).ok()?,
        _ => {}
    }
    append_copy(alloc, items, more)
}

// The items, to which others are added.
fn added(alloc: Global, name: &str, items: &mut Items<i128>, more: &Items<i128>) -> Option<Answer> {
    add(alloc, name, items, more)?;
    integers(alloc, items.as_slice())
}

// What is read from two lists of items.
fn read_items(name: &str, items: &Items<i128>, more: &Items<i128>) -> Option<Answer> {
    match name {
        "len" => Some(Answer::Number(items.len() as i128)),
        "empty" => told(items.is_empty()),
        "compare" => ordered(items.cmp(more)),
        "partial" => ordered(items.partial_cmp(more)?),
        "same" => told(*items == *more),
        _ => None,
    }
}

fn of_two_items(
    alloc: Global,
    name: &str,
    items: &mut Items<i128>,
    more: &Items<i128>,
) -> Option<Answer> {
    match name {
        "pop" => perhaps(items.pop()),
        "copy" => copied(alloc, more),
        "with_capacity" => with_capacity(alloc, more),
        "append" | "reserve" | "push" => added(alloc, name, items, more),
        _ => read_items(name, items, more),
    }
}

/// What two lists of items answer.
pub fn of_items(alloc: Global, name: &str, first: &str, second: &str) -> Option<Answer> {
    let mut items = Items::from_vec(numbers(alloc, first)?);
    let more = Items::from_vec(numbers(alloc, second)?);
    of_two_items(alloc, name, &mut items, &more)
}

// Adds the number at the end, or at the beginning.
fn add_graded(name: &str, graded: &mut Graded<i128>, number: i128) -> Option<()> {
    if name == "push" {
        graded.push(number).ok()
    } else {
        graded.insert(0, number).ok()
    }
}

// The graded list, to which the last number of the other is added.
fn added_graded(
    alloc: Global,
    name: &str,
    graded: &mut Graded<i128>,
    more: &Graded<i128>,
) -> Option<Answer> {
    add_graded(name, graded, *more.as_slice().last()?)?;
    integers(alloc, graded.as_slice())
}

// What is read from two graded lists.
fn read_graded(name: &str, graded: &Graded<i128>, more: &Graded<i128>) -> Option<Answer> {
    match name {
        "len" => Some(Answer::Number(graded.len() as i128)),
        "empty" => told(graded.is_empty()),
        "compare" => ordered(graded.cmp(more)),
        "partial" => ordered(graded.partial_cmp(more)?),
        "same" => told(*graded == *more),
        _ => None,
    }
}

fn of_two_graded(
    alloc: Global,
    name: &str,
    graded: &mut Graded<i128>,
    more: &Graded<i128>,
) -> Option<Answer> {
    match name {
        "pop" => perhaps(graded.pop()),
        "push" | "insert" => added_graded(alloc, name, graded, more),
        _ => read_graded(name, graded, more),
    }
}

/// What two graded lists answer.
pub fn of_graded(alloc: Global, name: &str, first: &str, second: &str) -> Option<Answer> {
    let mut graded = Graded::from_vec(numbers(alloc, first)?);
    let more = Graded::from_vec(numbers(alloc, second)?);
    of_two_graded(alloc, name, &mut graded, &more)
}

// What a box holds, what is stored in it, and which of the two is read.
fn replaced(alloc: Global, name: &str, first: i128, second: i128) -> Option<Answer> {
    let mut boxed = Boxed::new(alloc, first).ok()?;
    let old = boxed.replace(second);
    match name {
        "old" => Some(Answer::Number(old)),
        "new" => Some(Answer::Number(*boxed.get())),
        "inner" => Some(Answer::Number(boxed.into_inner())),
        _ => None,
    }
}

/// What a box answers, in which a number is stored in place of another.
pub fn of_box(alloc: Global, name: &str, first: &str, second: &str) -> Option<Answer> {
    replaced(alloc, name, integer(first)?, integer(second)?)
}

/// Whether the text is what is said where there is no memory.
pub fn is_text_of_no_memory(alloc: Global, given: &str) -> Option<Answer> {
    let text = format!(in alloc; "{NoMemory}").ok()?;
    told(text.as_str() == given)
}
