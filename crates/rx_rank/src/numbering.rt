//! Which polynomials get numbers: the candidates of the anchors, one list behind the other, and then
//! what the other symbols may take from these in turn, with at most one of them raised. Nothing is
//! proved of that: where a polynomial has no number, a choice is tried as without numbers.
ghost use Rattle.std.specs.Prelude.{◌≡◌};

use crate::choice_problem::ChoiceProblem;
use crate::numbered::NumberedPairs;
use rx_plain::NoMemory;
use rx_poly::Poly;
use std::alloc::Global;

/// How many pairs a component has at most whose polynomials get numbers.
const MOST_PAIRS: usize = 64;

/// How many candidates its anchors have at most.
const MOST_CANDIDATES: usize = 128;

/// The numbers of the polynomials that a symbol may get.
#[derive(Drop)]
struct Reachable {
    /// Where no symbol is raised.
    plain: Vec<u32>,
    /// Where one is.
    raised: Vec<u32>,
}

/// No numbers for any of that many symbols.
fn unreachable_symbols(alloc: Global, symbols: usize) -> Result<Vec<Reachable>, NoMemory> {
    let mut all = Vec::with_capacity(alloc, symbols)?;
    for _symbol in 0..symbols {
        all.push(Reachable {
            plain: Vec::new(alloc),
            raised: Vec::new(alloc),
        })?;
    }
    Ok(all)
}

/// Puts the numbers of the symbol in their place.
fn put_reachable(all: &mut Vec<Reachable>, symbol: u32, numbers: Reachable) {
    let at = symbol as usize;
    if at < all.len() {
        all[at] = numbers;
    }
}

/// Puts the numbers of the symbol, where one is raised, in their place.
fn put_raised(all: &mut Vec<Reachable>, symbol: u32, raised: Vec<u32>) {
    let at = symbol as usize;
    if at < all.len() {
        all[at].raised = raised;
    }
}

/// Numbers the polynomials of a list.
fn number_list(
    alloc: Global,
    numbered: &mut NumberedPairs,
    list: &[Poly],
) -> Result<Vec<u32>, NoMemory>
    ensures { numbered.new.pairs ≡ numbered.old.pairs }
{
    let mut numbers = Vec::new(alloc);
    for poly in list {
        if let Some(number) = numbered.number(poly.try_clone(alloc)?)? {
            numbers.push(number)?;
        }
    }
    Ok(numbers)
}

/// Numbers the candidates of the anchors.
fn number_anchors(
    alloc: Global,
    numbered: &mut NumberedPairs,
    problem: &ChoiceProblem,
    all: &mut Vec<Reachable>,
) -> Result<(), NoMemory>
    ensures { numbered.new.pairs ≡ numbered.old.pairs }
{
    for (at, anchor) in problem.anchors.iter().enumerate() {
        let Some(list) = problem.lists.get(at) else {
            return Ok(());
        };
        let plain = number_list(alloc, numbered, list.as_slice())?;
        let raised = Vec::new(alloc);
        put_reachable(all, *anchor, Reachable { plain, raised });
    }
    Ok(())
}

/// Numbers what the left symbol of the pair takes from these; those that are new come to `into`.
fn number_takings(
    alloc: Global,
    numbered: &mut NumberedPairs,
    at: usize,
    raised: bool,
    from: &[u32],
    into: &mut Vec<u32>,
) -> Result<(), NoMemory>
    ensures { numbered.new.pairs ≡ numbered.old.pairs }
{
    for number in from {
        if numbered.is_full() {
            return Ok(());
        }
        if let Some(made) = numbered.keep_take(alloc, at, raised, *number, into.as_slice())? {
            into.push(made)?;
        }
    }
    Ok(())
}

/// Numbers what the left symbol of the pair may take from what its right one may get: with no symbol
/// raised, or else with one.
fn number_pair(
    alloc: Global,
    numbered: &mut NumberedPairs,
    at: usize,
    with_raised: bool,
    right: &Reachable,
    into: &mut Vec<u32>,
) -> Result<(), NoMemory>
    ensures { numbered.new.pairs ≡ numbered.old.pairs }
{
    let plain = right.plain.as_slice();
    if !with_raised {
        return number_takings(alloc, numbered, at, false, plain, into);
    }
    number_takings(alloc, numbered, at, false, right.raised.as_slice(), into)?;
    number_takings(alloc, numbered, at, true, plain, into)
}

/// Numbers what the symbol may take over its pairs.
fn number_symbol(
    alloc: Global,
    numbered: &mut NumberedPairs,
    symbol: u32,
    with_raised: bool,
    all: &[Reachable],
) -> Result<Vec<u32>, NoMemory>
    ensures { numbered.new.pairs ≡ numbered.old.pairs }
{
    let mut found = Vec::new(alloc);
    for at in 0..numbered.count() {
        let Some(pair) = numbered.pair_at(at) else {
            return Ok(found);
        };
        if pair.left.0 != symbol {
            continue;
        }
        if let Some(right) = all.get(pair.right.0 as usize) {
            number_pair(alloc, numbered, at, with_raised, right, &mut found)?;
        }
    }
    Ok(found)
}

/// Numbers what the other symbols may take in their order, with no symbol raised.
fn number_plain(
    alloc: Global,
    numbered: &mut NumberedPairs,
    order: &[u32],
    all: &mut Vec<Reachable>,
) -> Result<(), NoMemory>
    ensures { numbered.new.pairs ≡ numbered.old.pairs }
{
    for symbol in order {
        let plain = number_symbol(alloc, numbered, *symbol, false, all.as_slice())?;
        let raised = Vec::new(alloc);
        put_reachable(all, *symbol, Reachable { plain, raised });
    }
    Ok(())
}

/// Numbers what they may take where one is raised.
fn number_raised(
    alloc: Global,
    numbered: &mut NumberedPairs,
    order: &[u32],
    all: &mut Vec<Reachable>,
) -> Result<(), NoMemory>
    ensures { numbered.new.pairs ≡ numbered.old.pairs }
{
    for symbol in order {
        let raised = number_symbol(alloc, numbered, *symbol, true, all.as_slice())?;
        put_raised(all, *symbol, raised);
    }
    Ok(())
}

/// Numbers all that the symbols of the component may get, as far as there are numbers.
pub(crate) fn number_all(
    alloc: Global,
    numbered: &mut NumberedPairs,
    problem: &ChoiceProblem,
) -> Result<(), NoMemory>
    ensures { numbered.new.pairs ≡ numbered.old.pairs }
{
    if numbered.is_open()
        || numbered.count() > MOST_PAIRS
        || total(problem.lists) > MOST_CANDIDATES
    {
        return Ok(());
    }
    numbered.open_takings(alloc)?;
    let mut all = unreachable_symbols(alloc, problem.infos.len())?;
    number_anchors(alloc, numbered, problem, &mut all)?;
    number_plain(alloc, numbered, problem.order, &mut all)?;
    if !problem.raisable.is_empty() {
        number_raised(alloc, numbered, problem.order, &mut all)?;
    }
    numbered.open_tests(alloc)
}

/// The numbers that the candidates of the choice with that number have, where all candidates are
/// numbered, one list behind the other: its digits, each behind the lists before.
pub(crate) fn candidate_numbers(
    alloc: Global,
    lists: &[Vec<Poly>],
    number: usize,
) -> Result<Vec<u32>, NoMemory> {
    let mut numbers = Vec::with_capacity(alloc, lists.len())?;
    let mut left = number;
    let mut end = total(lists);
    for at in (0..lists.len()).rev() {
        let count = lists[at].len();
        if count == 0 {
            return Ok(numbers);
        }
        end = end.wrapping_sub(count);
        let place = end.wrapping_add(left % count);
        numbers.push((place & 0xffff_ffff) as u32)?;
        left /= count;
    }
    numbers.reverse();
    Ok(numbers)
}

/// How many candidates there are.
fn total(lists: &[Vec<Poly>]) -> usize {
    let mut count: usize = 0;
    for list in lists {
        count = count.wrapping_add(list.len());
    }
    count
}
