//! The rule set of two functions, and of one alone.
use crate::programs::division;
use c_ast::Integers;
use rx_translate::{Translation, rules_of};
use std::alloc::Global;

// How many symbols and rules there are, and the first symbols of both functions.
fn sizes(t: &Translation) -> (usize, usize, u32, u32) {
    let symbols = t.rules.symbols().len();
    (symbols, t.rules.rules().len(), t.first.0, t.second.0)
}

// A division that may fail: five symbols, six rules.
#[tactic(auto, using(crate::proofs::Samples::division_scoped, crate::proofs::Samples::division_count))]
fn failing(alloc: Global) -> Option<bool> {
    let program = division(alloc)?;
    let made = rules_of(alloc, Integers::Unbounded, &program, 0, 1).ok()?;
    Some(sizes(&made) == (5, 6, 0, 3))
}

// The second function calls nothing: its entry, its end, and a rule of each.
#[tactic(auto, using(crate::proofs::Samples::division_scoped, crate::proofs::Samples::division_count))]
fn alone(alloc: Global) -> Option<bool> {
    let program = division(alloc)?;
    let made = rules_of(alloc, Integers::Unbounded, &program, 1, 1).ok()?;
    Some(sizes(&made) == (2, 2, 0, 0))
}

/// Whether the case is as it is to be.
pub fn holds(alloc: Global, name: &str) -> Option<bool> {
    match name {
        "two" => failing(alloc),
        "alone" => alone(alloc),
        _ => None,
    }
}
