//! What comes of a choice, looked up by the numbers of polynomials: where it is known that nothing
//! comes of it, with what is noted on the way. The tests are those of a choice, in the same order. Where
//! something isn't known, nothing is said.
ghost use Rattle.std.specs.Prelude.{◌≡◌, ◌==◌, ◌<◌, IfOk, IfSome, List, None, Some, if◌then◌else◌, length, map};
ghost use Rattle.std.specs.Prelude.{option_and_then, slice_get, slice_set};
ghost use Rattle.std.specs.Option.{option_map};
ghost use Rattle.rx_rank.specs.Choices.{fitting};
ghost use Rattle.rx_rank.specs.Tries.{and_then};
ghost use Rattle.rx_poly.specs.declared.body.Body.{Body};
ghost use Rattle.rx_cert.specs.Findings.{Yes};
ghost use Rattle.rx_anchors.specs.Members.{arity_of};
ghost use Rattle.rx_anchors.specs.Values.{polynomial_of, polys_at, with_choice, without_polynomials};
ghost use Rattle.rx_pairs.specs.declared.pair.Pair.{Pair};
ghost use Rattle.rx_rank.specs.Answers.{found};
ghost use Rattle.rx_rank.specs.Choices.{all_hold, filled, first_serving, from_target, hold_with};
ghost use Rattle.rx_rank.specs.Choices.{holds_by, is_raised, pairs_from, serving, tested};
ghost use Rattle.rx_rank.specs.Numbers.{HasPoly, by_number, by_numbers, holds_at, tried_number};
ghost use Rattle.rx_rank.specs.PairTests.{holds};
ghost use Rattle.rx_solve.specs.Answers.{IsSolver};

use crate::attempt::{Attempt, Finding, noted_before};
use crate::choice_problem::ChoiceProblem;
use crate::filling::is_raised;
use crate::numbered::NumberedPairs;
use rx_anchors::arity_of;
use rx_cert::Cert;
use rx_fm::FmEnd;
use rx_plain::NoMemory;
use rx_poly::{Poly, uses_below};
use rx_row::Constraint;
use rx_term::SymInfo;
use std::alloc::Global;

/// A symbol that is no anchor, as it gets its polynomial.
#[derive(Drop)]
pub(crate) struct Turn<'a> {
    /// Whether it is raised.
    pub(crate) raised: bool,
    /// How many arguments it has.
    pub(crate) arity: u32,
    /// The symbol.
    pub(crate) symbol: u32,
    /// By symbol the number of its polynomial, where it has one.
    pub(crate) values: &'a [Option<u32>],
}

/// The number of the symbol's polynomial, if it has one.
fn number_of(values: &[Option<u32>], symbol: u32) -> Option<u32>
    ensures { result ≡ option_and_then (λ value. value) (slice_get values.now symbol) }
{
    match values.get(symbol as usize) {
        Some(number) => *number,
        None => None,
    }
}

/// Whether a column holds at the pair, with the polynomial of that number for the symbol, where it is
/// the pair's left one; at pairs of other symbols nothing is asked.
fn holds_with<S: FnMut(&Constraint) -> Result<Option<Cert>, FmEnd>>(
    alloc: Global,
    numbered: &mut NumberedPairs,
    turn: &Turn,
    number: u32,
    at: usize,
    solve: &mut S,
) -> Result<Finding, NoMemory>
    requires solver { IsSolver S.FnMut solve.old }
    ensures solver { IsSolver S.FnMut solve.new }
    ensures same { numbered.new ≡ numbered.old }
    ensures found { (pair : Pair) (p : Body) → slice_get numbered.old.pairs at ≡ Some pair →
        slice_get numbered.old.polys number ≡ Some p → IfOk result (λ f. found f ≡
        (if pair.left.0 == turn.now.symbol then tested (holds pair) (Some p)
        (polynomial_of (by_numbers numbered.old.polys turn.now.values.now) pair.right.0)
        else Yes)) }
{
    let Some(pair) = numbered.pair_at(at) else {
        return Ok(Finding::Shown);
    };
    if pair.left.0 != turn.symbol {
        return Ok(Finding::Shown);
    }
    let Some(right) = number_of(turn.values, pair.right.0) else {
        return Ok(Finding::NotShown);
    };
    numbered.holds_at(alloc, at, number, right, solve)
}

/// Whether a column holds at all pairs of the symbol, with the polynomial of that number for it.
fn all_hold_with<S: FnMut(&Constraint) -> Result<Option<Cert>, FmEnd>>(
    alloc: Global,
    numbered: &mut NumberedPairs,
    turn: &Turn,
    number: u32,
    solve: &mut S,
) -> Result<Finding, NoMemory>
    requires solver { IsSolver S.FnMut solve.old }
    ensures solver { IsSolver S.FnMut solve.new }
    ensures same { numbered.new ≡ numbered.old }
    ensures found { (p : Body) → slice_get numbered.old.polys number ≡ Some p →
        IfOk result (λ f. found f ≡
        hold_with (by_numbers numbered.old.polys turn.now.values.now) p
        (pairs_from turn.now.symbol numbered.old.pairs)) }
{
    for at in 0..numbered.count() {
        let finding = holds_with(alloc, numbered, turn, number, at, solve)?;
        if !finding.is_shown() {
            return Ok(finding);
        }
    }
    Ok(Finding::Shown)
}

/// The number, where its polynomial serves the symbol: it is over the symbol's arguments, and a
/// column holds at all pairs of the symbol with it. None where there is no such polynomial.
fn serving<S: FnMut(&Constraint) -> Result<Option<Cert>, FmEnd>>(
    alloc: Global,
    numbered: &mut NumberedPairs,
    turn: &Turn,
    number: u32,
    solve: &mut S,
) -> Result<Attempt<u32>, NoMemory>
    requires solver { IsSolver S.FnMut solve.old }
    ensures solver { IsSolver S.FnMut solve.new }
    ensures same { numbered.new ≡ numbered.old }
    ensures tried { (p : Body) → slice_get numbered.old.polys number ≡ Some p →
        IfOk result (λ t. tried_number numbered.old.polys t ≡
        serving turn.now.arity (by_numbers numbered.old.polys turn.now.values.now)
        (pairs_from turn.now.symbol numbered.old.pairs) p) }
    ensures made { IfOk result (λ t. IfSome t.made (λ k. k ≡ number)) }
{
    let is_over = match numbered.poly_at(number) {
        Some(poly) => uses_below(poly, turn.arity),
        None => false,
    };
    if !is_over {
        return Ok(Attempt {
            made: None,
            noted: false,
        });
    }
    match all_hold_with(alloc, numbered, turn, number, solve)? {
        Finding::Shown => Ok(Attempt {
            made: Some(number),
            noted: false,
        }),
        Finding::NotShown => Ok(Attempt {
            made: None,
            noted: false,
        }),
        Finding::TooLarge => Ok(Attempt {
            made: None,
            noted: true,
        }),
    }
}

/// What the symbol gets from the polynomial that its pair at that place leads to. None where that
/// isn't known.
fn from_target<S: FnMut(&Constraint) -> Result<Option<Cert>, FmEnd>>(
    alloc: Global,
    numbered: &mut NumberedPairs,
    turn: &Turn,
    at: usize,
    solve: &mut S,
) -> Result<Option<Attempt<u32>>, NoMemory>
    requires solver { IsSolver S.FnMut solve.old }
    ensures solver { IsSolver S.FnMut solve.new }
    ensures same { numbered.new ≡ numbered.old }
    ensures tried { (pair : Pair) → slice_get numbered.old.pairs at ≡ Some pair →
        IfOk result (λ o. IfSome o (λ t. tried_number numbered.old.polys t ≡
        from_target turn.now.raised turn.now.arity
        (by_numbers numbered.old.polys turn.now.values.now)
        (pairs_from turn.now.symbol numbered.old.pairs) pair)) }
    ensures made { IfOk result (λ o. IfSome o (λ t. HasPoly numbered.old.polys t.made)) }
{
    let Some(pair) = numbered.pair_at(at) else {
        return Ok(None);
    };
    let Some(right) = number_of(turn.values, pair.right.0) else {
        return Ok(Some(Attempt {
            made: None,
            noted: false,
        }));
    };
    let Some(taking) = numbered.take_at(at, turn.raised, right) else {
        return Ok(None);
    };
    let noted = taking.noted;
    let Some(number) = taking.made else {
        return Ok(Some(Attempt { made: None, noted }));
    };
    let attempt = serving(alloc, numbered, turn, number, solve)?;
    Ok(Some(noted_before(noted, attempt)))
}

/// The first number whose polynomial serves the symbol, in the order of the symbol's pairs. None where
/// that isn't known.
pub(crate) fn first_serving<S: FnMut(&Constraint) -> Result<Option<Cert>, FmEnd>>(
    alloc: Global,
    numbered: &mut NumberedPairs,
    turn: &Turn,
    solve: &mut S,
) -> Result<Option<Attempt<u32>>, NoMemory>
    requires solver { IsSolver S.FnMut solve.old }
    ensures solver { IsSolver S.FnMut solve.new }
    ensures same { numbered.new ≡ numbered.old }
    ensures tried { IfOk result (λ o. IfSome o (λ t. tried_number numbered.old.polys t ≡
        first_serving turn.now.raised turn.now.arity
        (by_numbers numbered.old.polys turn.now.values.now)
        (pairs_from turn.now.symbol numbered.old.pairs))) }
    ensures made { IfOk result (λ o. IfSome o (λ t. HasPoly numbered.old.polys t.made)) }
{
    let mut noted = false;
    for at in 0..numbered.count() {
        let Some(pair) = numbered.pair_at(at) else {
            return Ok(None);
        };
        if pair.left.0 != turn.symbol {
            continue;
        }
        let Some(attempt) = from_target(alloc, numbered, turn, at, solve)? else {
            return Ok(None);
        };
        noted |= attempt.noted;
        if attempt.made.is_some() {
            return Ok(Some(Attempt {
                made: attempt.made,
                noted,
            }));
        }
    }
    Ok(Some(Attempt { made: None, noted }))
}

/// Whether a column holds at the pair, with the polynomials of its symbols' numbers.
fn is_held<S: FnMut(&Constraint) -> Result<Option<Cert>, FmEnd>>(
    alloc: Global,
    numbered: &mut NumberedPairs,
    values: &[Option<u32>],
    at: usize,
    solve: &mut S,
) -> Result<Finding, NoMemory>
    requires solver { IsSolver S.FnMut solve.old }
    ensures solver { IsSolver S.FnMut solve.new }
    ensures same { numbered.new ≡ numbered.old }
    ensures found { (pair : Pair) → slice_get numbered.old.pairs at ≡ Some pair →
        IfOk result (λ f. found f ≡ holds_by (by_numbers numbered.old.polys values.now) pair) }
{
    let Some(pair) = numbered.pair_at(at) else {
        return Ok(Finding::NotShown);
    };
    let Some(left) = number_of(values, pair.left.0) else {
        return Ok(Finding::NotShown);
    };
    let Some(right) = number_of(values, pair.right.0) else {
        return Ok(Finding::NotShown);
    };
    numbered.holds_at(alloc, at, left, right, solve)
}

/// Whether all pairs hold.
fn are_held<S: FnMut(&Constraint) -> Result<Option<Cert>, FmEnd>>(
    alloc: Global,
    numbered: &mut NumberedPairs,
    values: &[Option<u32>],
    solve: &mut S,
) -> Result<Finding, NoMemory>
    requires solver { IsSolver S.FnMut solve.old }
    ensures solver { IsSolver S.FnMut solve.new }
    ensures same { numbered.new ≡ numbered.old }
    ensures found { IfOk result (λ f. found f ≡
        all_hold (by_numbers numbered.old.polys values.now) numbered.old.pairs) }
{
    for at in 0..numbered.count() {
        let finding = is_held(alloc, numbered, values, at, solve)?;
        if !finding.is_shown() {
            return Ok(finding);
        }
    }
    Ok(Finding::Shown)
}

/// Gives the symbol the polynomial of that number, where there is such a symbol.
fn put_number(values: &mut Vec<Option<u32>>, symbol: u32, number: u32)
    ensures { values.new.items ≡ slice_set values.old.items symbol (Some number) }
{
    let at = symbol as usize;
    if at < values.len() {
        values[at] = Some(number);
    }
}

/// The numbers with those of the symbols in order, up to the first without one. None where that isn't
/// known.
fn filled<S: FnMut(&Constraint) -> Result<Option<Cert>, FmEnd>>(
    alloc: Global,
    infos: &[SymInfo],
    numbered: &mut NumberedPairs,
    raised: Option<u32>,
    start: Vec<Option<u32>>,
    order: &[u32],
    solve: &mut S,
) -> Result<Option<Attempt<Vec<Option<u32>>>>, NoMemory>
    requires solver { IsSolver S.FnMut solve.old }
    ensures solver { IsSolver S.FnMut solve.new }
    ensures same { numbered.new ≡ numbered.old }
    ensures tried { IfOk result (λ o. IfSome o (λ t.
        record {
          made = option_map (λ v. by_numbers numbered.old.polys v.items) t.made;
          noted = t.noted;
        } ≡
        filled infos.now numbered.old.pairs raised (by_numbers numbered.old.polys start.items)
        order.now)) }
{
    let mut values = start;
    let mut noted = false;
    for symbol in order {
        let turn = Turn {
            raised: is_raised(raised, *symbol),
            arity: arity_of(infos, *symbol),
            symbol: *symbol,
            values: values.as_slice(),
        };
        let Some(attempt) = first_serving(alloc, numbered, &turn, solve)? else {
            return Ok(None);
        };
        noted |= attempt.noted;
        let Some(number) = attempt.made else {
            return Ok(Some(Attempt { made: None, noted }));
        };
        put_number(&mut values, *symbol, number);
    }
    Ok(Some(Attempt {
        made: Some(values),
        noted,
    }))
}

/// Whether something was noted on the way, where nothing comes of the choice whose polynomials have
/// these numbers, with that symbol raised if there is one. None where that isn't known.
pub(crate) fn find_nothing<S: FnMut(&Constraint) -> Result<Option<Cert>, FmEnd>>(
    alloc: Global,
    infos: &[SymInfo],
    numbered: &mut NumberedPairs,
    raised: Option<u32>,
    start: Vec<Option<u32>>,
    order: &[u32],
    solve: &mut S,
) -> Result<Option<bool>, NoMemory>
    requires solver { IsSolver S.FnMut solve.old }
    ensures solver { IsSolver S.FnMut solve.new }
    ensures same { numbered.new ≡ numbered.old }
    ensures nothing { IfOk result (λ o. IfSome o (λ noted.
        and_then (filled infos.now numbered.old.pairs raised
        (by_numbers numbered.old.polys start.items) order.now) (fitting numbered.old.pairs) ≡
        record { made = None; noted = noted })) }
{
    let Some(attempt) = filled(alloc, infos, numbered, raised, start, order, solve)? else {
        return Ok(None);
    };
    let noted = attempt.noted;
    let Some(values) = attempt.made else {
        return Ok(Some(noted));
    };
    match are_held(alloc, numbered, values.as_slice(), solve)? {
        Finding::Shown => Ok(None),
        Finding::NotShown => Ok(Some(noted)),
        Finding::TooLarge => Ok(Some(true)),
    }
}

/// No number for any of that many symbols.
fn without_numbers(alloc: Global, symbols: usize) -> Result<Vec<Option<u32>>, NoMemory>
    ensures { (polys : List Body) → IfOk result (λ v. by_numbers polys v.items ≡
        without_polynomials symbols) }
{
    let mut values = Vec::with_capacity(alloc, symbols)?;
    for _symbol in 0..symbols {
        values.push(None)?;
    }
    Ok(values)
}

/// By symbol the numbers of the polynomials of a choice, which are looked for at these numbers; None
/// where one isn't there.
pub(crate) fn choice_numbers(
    alloc: Global,
    numbered: &NumberedPairs,
    problem: &ChoiceProblem,
    choice: &[&Poly],
    numbers: &[u32],
) -> Result<Option<Vec<Option<u32>>>, NoMemory>
    ensures { IfOk result (λ o. IfSome o (λ v. by_numbers numbered.now.polys v.items ≡
        with_choice (without_polynomials (length problem.now.infos.now)) problem.now.anchors.now
        (polys_at choice.now))) }
{
    let mut values = without_numbers(alloc, problem.infos.len())?;
    for (at, anchor) in problem.anchors.iter().enumerate() {
        let poly = match choice.get(at) {
            Some(poly) => poly,
            None => return Ok(Some(values)),
        };
        let Some(number) = numbers.get(at) else {
            return Ok(None);
        };
        if !numbered.is_number_of(*number, *poly) {
            return Ok(None);
        }
        put_number(&mut values, *anchor, *number);
    }
    Ok(Some(values))
}
