//! Whole runs over memory, with the statuses, reports and messages that are wanted.
use crate::{messages, running};
use std::alloc::Global;

/// What the call answers to what it is given; none where the line is no case.
pub fn answer(alloc: Global, call: &str, given: &str) -> Option<String> {
    match call {
        "run" | "spaces" | "whole" | "memory" => running::answer(alloc, call, given),
        "message" | "long message" | "unwritten message" | "unheard message" | "other message" => {
            messages::answer(alloc, call, given)
        }
        _ => None,
    }
}
