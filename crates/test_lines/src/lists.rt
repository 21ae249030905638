//! Values by themselves and in lists, read and written by calls that are handed in. A list is its
//! number of values, and then each after a space.
use crate::answers::Answer;
use rx_plain::{Items, NoMemory};
use rx_text::{push_word, skip_word};
use rx_words::{push_count, read_number};
use std::alloc::Global;

/// The value that the whole text is.
pub fn whole<T: Drop, F: FnOnce(Global, &[u8], usize) -> Result<Option<(T, usize)>, NoMemory>>(
    alloc: Global,
    text: &str,
    read: F,
) -> Option<T>
    requires { F.IsAlwaysCallable read }
{
    let (value, end) = read(alloc, text.as_bytes(), 0).ok()??;
    if end == text.len() { Some(value) } else { None }
}

// The value at the place, after a space, and the place after it.
fn spaced<T: Drop, F: Fn(Global, &[u8], usize) -> Result<Option<(T, usize)>, NoMemory>>(
    alloc: Global,
    text: &[u8],
    at: usize,
    read: &F,
) -> Result<Option<(T, usize)>, NoMemory>
    requires { F.IsAlwaysCallable read.now }
{
    match skip_word(text, at, b" ") {
        Some(first) => read(alloc, text, first),
        None => Ok(None),
    }
}

/// As many values as are counted, from the place on, each after a space, and the place after them.
pub fn several<T: Drop, F: Fn(Global, &[u8], usize) -> Result<Option<(T, usize)>, NoMemory>>(
    alloc: Global,
    text: &[u8],
    from: usize,
    count: u32,
    read: &F,
) -> Result<Option<(Items<T>, usize)>, NoMemory>
    requires { F.IsAlwaysCallable read.now }
{
    let mut made = Items::new(alloc);
    let mut at = from;
    for _ in 0..count {
        let Some((value, end)) = spaced(alloc, text, at, read)? else {
            return Ok(None);
        };
        made.push(value)?;
        at = end;
    }
    Ok(Some((made, at)))
}

/// The list at the place, and the place after it.
pub fn list_at<T: Drop, F: Fn(Global, &[u8], usize) -> Result<Option<(T, usize)>, NoMemory>>(
    alloc: Global,
    text: &[u8],
    at: usize,
    read: &F,
) -> Result<Option<(Items<T>, usize)>, NoMemory>
    requires { F.IsAlwaysCallable read.now }
{
    match read_number(text, at) {
        Some((count, from)) => several(alloc, text, from, count, read),
        None => Ok(None),
    }
}

/// The list that the whole text is.
pub fn list<T: Drop, F: Fn(Global, &[u8], usize) -> Result<Option<(T, usize)>, NoMemory>>(
    alloc: Global,
    text: &str,
    read: F,
) -> Option<Items<T>>
where
    F: Drop,
    requires { F.IsAlwaysCallable read }
{
    let (values, end) = list_at(alloc, text.as_bytes(), 0, &read).ok()??;
    if end == text.len() {
        Some(values)
    } else {
        None
    }
}

/// Writes each value after a space.
pub fn push_each<T, F: Fn(&T, &mut Vec<u8>) -> Result<(), NoMemory>>(
    values: &[T],
    out: &mut Vec<u8>,
    push: F,
) -> Result<(), NoMemory>
where
    F: Drop,
    requires { F.IsAlwaysCallable push }
{
    for value in values {
        push_word(out, b" ")?;
        push(value, out)?;
    }
    Ok(())
}

/// Writes how many values there are, and then each after a space.
pub fn push_list<T, F: Fn(&T, &mut Vec<u8>) -> Result<(), NoMemory>>(
    values: &[T],
    out: &mut Vec<u8>,
    push: F,
) -> Result<(), NoMemory>
where
    F: Drop,
    requires { F.IsAlwaysCallable push }
{
    push_count(out, values.len())?;
    push_each(values, out, push)
}

/// The bytes that are written.
pub fn bytes_written<F: FnOnce(&mut Vec<u8>) -> Result<(), NoMemory>>(
    alloc: Global,
    push: F,
) -> Option<Vec<u8>>
    requires { F.IsAlwaysCallable push }
{
    let mut out = Vec::new(alloc);
    push(&mut out).ok()?;
    Some(out)
}

/// The text that is written, as an answer.
pub fn written<F: FnOnce(&mut Vec<u8>) -> Result<(), NoMemory>>(
    alloc: Global,
    push: F,
) -> Option<Answer>
    requires { F.IsAlwaysCallable push }
{
    Some(Answer::Text(bytes_written(alloc, push)?))
}
