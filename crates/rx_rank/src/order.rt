//! In which order the symbols that are no anchors get their polynomials.
ghost use Rattle.std.specs.Prelude.{◌≡◌, ◌==◌, IfOk};
ghost use Rattle.std.specs.List.{find, list_any};
ghost use Rattle.std.specs.Option.{option_map};
ghost use Rattle.rx_rank.specs.Answers.{pairs_at};
ghost use Rattle.rx_rank.specs.Choices.{is_ready, order_of, without};

use rx_pairs::Pair;
use rx_plain::NoMemory;
use std::alloc::Global;

/// Whether the symbol is one of them.
fn is_among(symbols: &[u32], symbol: u32) -> bool
    ensures { result ≡ list_any (λ g. g == symbol) symbols.now }
{
    for other in symbols {
        if *other == symbol {
            return true;
        }
    }
    false
}

/// Whether none of the symbol's pairs leads to one that waits.
fn is_ready(pairs: &[&Pair], waiting: &[u32], symbol: u32) -> bool
    ensures { result ≡ is_ready (pairs_at pairs.now) waiting.now symbol }
{
    for pair in pairs {
        if pair.left.0 == symbol && is_among(waiting, pair.right.0) {
            return false;
        }
    }
    true
}

/// The first of those that wait that is ready.
fn first_ready(pairs: &[&Pair], waiting: &[u32]) -> Option<u32>
    ensures { result ≡ find (is_ready (pairs_at pairs.now) waiting.now) waiting.now }
{
    for symbol in waiting {
        if is_ready(pairs, waiting, *symbol) {
            return Some(*symbol);
        }
    }
    None
}

/// The symbols but that one.
fn without(alloc: Global, symbols: &[u32], symbol: u32) -> Result<Vec<u32>, NoMemory>
    ensures { IfOk result (λ v. v.items ≡ without symbol symbols.now) }
{
    let mut others = Vec::new(alloc);
    for other in symbols {
        if *other != symbol {
            others.push(*other)?;
        }
    }
    Ok(others)
}

/// The symbols, each after those that its pairs lead to, otherwise by number. None where there is
/// no such order, as one reaches itself.
pub(crate) fn order_of(
    alloc: Global,
    pairs: &[&Pair],
    symbols: &[u32],
) -> Result<Option<Vec<u32>>, NoMemory>
    ensures { IfOk result (λ o. option_map (λ v. v.items) o ≡
        order_of (pairs_at pairs.now) symbols.now) }
{
    let mut waiting = Vec::from_slice(alloc, symbols)?;
    let mut order = Vec::new(alloc);
    for _turn in 0..symbols.len() {
        match first_ready(pairs, waiting.as_slice()) {
            Some(next) => {
                order.push(next)?;
                waiting = without(alloc, waiting.as_slice(), next)?;
            }
            None => return Ok(None),
        }
    }
    Ok(Some(order))
}
