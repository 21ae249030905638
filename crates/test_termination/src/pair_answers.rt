//! One happy path, and a refusal or two, of the calls that check covers and ranks, and make pairs,
//! with ample memory.
use crate::{cover_calls, pair_calls, rank_calls};
use std::alloc::Global;
use test_lines::{Answer, SEMICOLON, parted};

/// What the call answers; none where the line can't be read, or there is no memory.
pub fn answer_to(alloc: Global, call: &str, given: &str) -> Option<Answer> {
    let (of, name) = call.split_once('.')?;
    let (first, second) = parted(given, SEMICOLON);
    match of {
        "cover" => cover_calls::answer_to(alloc, name, first, second),
        "rank" => rank_calls::answer_to(alloc, name, first, second),
        "pair" => pair_calls::answer_to(alloc, name, first),
        _ => None,
    }
}
