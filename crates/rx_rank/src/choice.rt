//! What comes of the choices, in order, at most so many of them: each is formed when it is tried.
//! First no symbol is raised, and then each symbol that may be.
ghost use Rattle.std.specs.Prelude.{◌≡◌, List, Option, length, map, take, IfOk, IfSome, Some};
ghost use Rattle.std.specs.List.{flat_map};
ghost use Rattle.rx_anchors.specs.Choices.{lists_in, products};
ghost use Rattle.rx_anchors.specs.Values.{polys_at, with_choice, without_polynomials};
ghost use Rattle.rx_rank.specs.Answers.{IsChosen, IsFirstFit, still_open, tried_as};
ghost use Rattle.rx_rank.specs.Choices.{all_choices, choosing, plain_choice, raised_choices};
ghost use Rattle.rx_poly.specs.declared.body.Body.{Body};
ghost use Rattle.rx_rank.specs.Numbers.{by_numbers};
ghost use Rattle.rx_rank.specs.Ranking.{first_fit};
ghost use Rattle.rx_solve.specs.Answers.{IsSolver};
ghost use Rattle.rx_solve.specs.Attempts.{first_applying};

use crate::attempt::{Attempt, noted_before};
use crate::choice_problem::ChoiceProblem;
use crate::filling::filled;
use crate::fitting::{Fit, fitting};
use crate::known_pair::KnownPair;
use crate::numbered::NumberedPairs;
use crate::numbering::{candidate_numbers, number_all};
use crate::quick::{choice_numbers, find_nothing};
use rx_anchors::{choice_at, choice_values};
use rx_cert::Cert;
use rx_fm::FmEnd;
use rx_plain::NoMemory;
use rx_poly::Poly;
use rx_row::Constraint;
use std::alloc::Global;

/// How many choices are tried with no symbol raised, or with one, before polynomials get numbers.
const CHOICES_BEFORE: usize = 16;

/// What comes of a choice of candidates, with that symbol raised if there is one.
pub(crate) fn choose<S: FnMut(&Constraint) -> Result<Option<Cert>, FmEnd>>(
    alloc: Global,
    problem: &ChoiceProblem,
    pairs: &mut [KnownPair],
    raised: Option<u32>,
    choice: &[&Poly],
    solve: &mut S,
) -> Result<Attempt<Fit>, NoMemory>
    requires solver { IsSolver S.FnMut solve.old }
    ensures solver { IsSolver S.FnMut solve.new }
    ensures pairs { pairs.new ≡ pairs.old }
    ensures tried { IfOk result (λ t. tried_as
        (λ fit. still_open pairs.old fit.falls.items) t ≡
        choosing problem.now.infos.now pairs.old problem.now.anchors.now problem.now.order.now
        (record { raised = raised; polys = polys_at choice.now })) }
    ensures fit { IfOk result (λ t. IfSome t.made
        (IsChosen problem.now.infos.now pairs.old problem.now.anchors.now problem.now.order.now
        (record { raised = raised; polys = polys_at choice.now }))) }
{
    let infos = problem.infos;
    let start = choice_values(alloc, infos.len(), problem.anchors, choice)?;
    let attempt = filled(alloc, infos, pairs, raised, start, problem.order, solve)?;
    let noted = attempt.noted;
    let Some(values) = attempt.made else {
        return Ok(Attempt { made: None, noted });
    };
    let fit = fitting(alloc, values, pairs, solve)?;
    Ok(noted_before(noted, fit))
}

/// Whether something was noted on the way, where it is known by numbers that nothing comes of the
/// choice; None where that isn't known, or the choice has no numbers.
fn known_nothing<S: FnMut(&Constraint) -> Result<Option<Cert>, FmEnd>>(
    alloc: Global,
    problem: &ChoiceProblem,
    numbered: &mut NumberedPairs,
    raised: Option<u32>,
    numbers: &Option<Vec<Option<u32>>>,
    solve: &mut S,
) -> Result<Option<bool>, NoMemory>
    requires solver { IsSolver S.FnMut solve.old }
    ensures solver { IsSolver S.FnMut solve.new }
    ensures same { numbered.new ≡ numbered.old }
    ensures nothing { (polys : List Body) → IfSome numbers.now (λ v.
        by_numbers numbered.old.polys v.items ≡ with_choice
        (without_polynomials (length problem.now.infos.now)) problem.now.anchors.now polys) →
        IfOk result (λ o. IfSome o (λ noted.
        choosing problem.now.infos.now numbered.old.pairs problem.now.anchors.now
        problem.now.order.now (record { raised = raised; polys = polys }) ≡
        record { made = None; noted = noted })) }
{
    let Some(values) = numbers else {
        return Ok(None);
    };
    let start = Vec::from_slice(alloc, values.as_slice())?;
    let order = problem.order;
    find_nothing(alloc, problem.infos, numbered, raised, start, order, solve)
}

/// What comes of a choice of candidates, with that symbol raised if there is one; its numbers may be
/// given.
fn choosing<S: FnMut(&Constraint) -> Result<Option<Cert>, FmEnd>>(
    alloc: Global,
    problem: &ChoiceProblem,
    numbered: &mut NumberedPairs,
    raised: Option<u32>,
    choice: &[&Poly],
    numbers: &Option<Vec<Option<u32>>>,
    solve: &mut S,
) -> Result<Attempt<Fit>, NoMemory>
    requires solver { IsSolver S.FnMut solve.old }
    requires numbers { IfSome numbers.now (λ v.
        by_numbers numbered.old.polys v.items ≡ with_choice
        (without_polynomials (length problem.now.infos.now)) problem.now.anchors.now
        (polys_at choice.now)) }
    ensures solver { IsSolver S.FnMut solve.new }
    ensures same { numbered.new ≡ numbered.old }
    ensures tried { IfOk result (λ t. tried_as
        (λ fit. still_open numbered.old.pairs fit.falls.items) t ≡
        choosing problem.now.infos.now numbered.old.pairs problem.now.anchors.now
        problem.now.order.now (record { raised = raised; polys = polys_at choice.now })) }
    ensures fit { IfOk result (λ t. IfSome t.made
        (IsChosen problem.now.infos.now numbered.old.pairs problem.now.anchors.now
        problem.now.order.now (record { raised = raised; polys = polys_at choice.now }))) }
{
    if let Some(noted) = known_nothing(alloc, problem, numbered, raised, numbers, solve)? {
        return Ok(Attempt { made: None, noted });
    }
    numbered.choose(alloc, problem, raised, choice, solve)
}

/// Gives polynomials numbers, where so many choices were tried and they have none.
fn number_after(
    alloc: Global,
    problem: &ChoiceProblem,
    numbered: &mut NumberedPairs,
    tried: usize,
) -> Result<(), NoMemory>
    ensures { numbered.new.pairs ≡ numbered.old.pairs }
{
    if tried >= CHOICES_BEFORE {
        return number_all(alloc, numbered, problem);
    }
    Ok(())
}

/// The numbers of the choice with that number, where its candidates have numbers.
fn numbers_at(
    alloc: Global,
    problem: &ChoiceProblem,
    numbered: &NumberedPairs,
    at: usize,
    choice: &[&Poly],
) -> Result<Option<Vec<Option<u32>>>, NoMemory>
    ensures { IfOk result (λ o. IfSome o (λ v. by_numbers numbered.now.polys v.items ≡
        with_choice (without_polynomials (length problem.now.infos.now)) problem.now.anchors.now
        (polys_at choice.now))) }
{
    if !numbered.is_open() {
        return Ok(None);
    }
    let numbers = candidate_numbers(alloc, problem.lists, at)?;
    choice_numbers(alloc, numbered, problem, choice, numbers.as_slice())
}

/// The first choice of candidates that is fit with no symbol raised.
fn first_plain<S: FnMut(&Constraint) -> Result<Option<Cert>, FmEnd>>(
    alloc: Global,
    most: usize,
    problem: &ChoiceProblem,
    numbered: &mut NumberedPairs,
    solve: &mut S,
) -> Result<Attempt<Fit>, NoMemory>
    requires solver { IsSolver S.FnMut solve.old }
    ensures solver { IsSolver S.FnMut solve.new }
    ensures pairs { numbered.new.pairs ≡ numbered.old.pairs }
    ensures tried { IfOk result (λ t. tried_as
        (λ fit. still_open numbered.old.pairs fit.falls.items) t ≡
        first_applying (map (choosing problem.now.infos.now numbered.old.pairs
        problem.now.anchors.now problem.now.order.now)
        (map plain_choice (take most (products (lists_in problem.now.lists.now)))))) }
    ensures fit { IfOk result (λ t. IfSome t.made
        (IsFirstFit problem.now.infos.now numbered.old.pairs problem.now.anchors.now
        problem.now.order.now
        (map plain_choice (take most (products (lists_in problem.now.lists.now)))))) }
{
    let mut noted = false;
    for at in 0..most {
        let choice = match choice_at(alloc, problem.lists, at)? {
            Some(choice) => choice,
            None => return Ok(Attempt { made: None, noted }),
        };
        let chosen = choice.as_slice();
        number_after(alloc, problem, numbered, at)?;
        let numbers = numbers_at(alloc, problem, numbered, at, chosen)?;
        let attempt = choosing(alloc, problem, numbered, None, chosen, &numbers, solve)?;
        noted |= attempt.noted;
        if attempt.made.is_some() {
            return Ok(Attempt {
                made: attempt.made,
                noted,
            });
        }
    }
    Ok(Attempt { made: None, noted })
}

/// What comes of a choice of candidates with the first of the symbols that may be raised with which it
/// is fit; its numbers may be given.
fn first_raised_of<S: FnMut(&Constraint) -> Result<Option<Cert>, FmEnd>>(
    alloc: Global,
    problem: &ChoiceProblem,
    numbered: &mut NumberedPairs,
    choice: &[&Poly],
    numbers: &Option<Vec<Option<u32>>>,
    solve: &mut S,
) -> Result<Attempt<Fit>, NoMemory>
    requires solver { IsSolver S.FnMut solve.old }
    requires numbers { IfSome numbers.now (λ v.
        by_numbers numbered.old.polys v.items ≡ with_choice
        (without_polynomials (length problem.now.infos.now)) problem.now.anchors.now
        (polys_at choice.now)) }
    ensures solver { IsSolver S.FnMut solve.new }
    ensures same { numbered.new ≡ numbered.old }
    ensures tried { IfOk result (λ t. tried_as
        (λ fit. still_open numbered.old.pairs fit.falls.items) t ≡
        first_applying (map (choosing problem.now.infos.now numbered.old.pairs
        problem.now.anchors.now problem.now.order.now)
        (raised_choices problem.now.raisable.now (polys_at choice.now)))) }
    ensures fit { IfOk result (λ t. IfSome t.made
        (IsFirstFit problem.now.infos.now numbered.old.pairs problem.now.anchors.now
        problem.now.order.now
        (raised_choices problem.now.raisable.now (polys_at choice.now)))) }
{
    let mut noted = false;
    for symbol in problem.raisable {
        let raised = Some(*symbol);
        let attempt = choosing(alloc, problem, numbered, raised, choice, numbers, solve)?;
        noted |= attempt.noted;
        if attempt.made.is_some() {
            return Ok(Attempt {
                made: attempt.made,
                noted,
            });
        }
    }
    Ok(Attempt { made: None, noted })
}

/// The first choice of candidates, and in it the first of the symbols that may be raised, with which
/// raised the choice is fit.
fn first_raised<S: FnMut(&Constraint) -> Result<Option<Cert>, FmEnd>>(
    alloc: Global,
    most: usize,
    problem: &ChoiceProblem,
    numbered: &mut NumberedPairs,
    solve: &mut S,
) -> Result<Attempt<Fit>, NoMemory>
    requires solver { IsSolver S.FnMut solve.old }
    ensures solver { IsSolver S.FnMut solve.new }
    ensures pairs { numbered.new.pairs ≡ numbered.old.pairs }
    ensures tried { IfOk result (λ t. tried_as
        (λ fit. still_open numbered.old.pairs fit.falls.items) t ≡
        first_applying (map (choosing problem.now.infos.now numbered.old.pairs
        problem.now.anchors.now problem.now.order.now)
        (flat_map (raised_choices problem.now.raisable.now)
        (take most (products (lists_in problem.now.lists.now)))))) }
    ensures fit { IfOk result (λ t. IfSome t.made
        (IsFirstFit problem.now.infos.now numbered.old.pairs problem.now.anchors.now
        problem.now.order.now
        (flat_map (raised_choices problem.now.raisable.now)
        (take most (products (lists_in problem.now.lists.now)))))) }
{
    let mut noted = false;
    for at in 0..most {
        let choice = match choice_at(alloc, problem.lists, at)? {
            Some(choice) => choice,
            None => return Ok(Attempt { made: None, noted }),
        };
        let chosen = choice.as_slice();
        number_after(
            alloc,
            problem,
            numbered,
            at.wrapping_mul(problem.raisable.len()),
        )?;
        let numbers = numbers_at(alloc, problem, numbered, at, chosen)?;
        let attempt = first_raised_of(alloc, problem, numbered, chosen, &numbers, solve)?;
        noted |= attempt.noted;
        if attempt.made.is_some() {
            return Ok(Attempt {
                made: attempt.made,
                noted,
            });
        }
    }
    Ok(Attempt { made: None, noted })
}

/// The first of at most so many choices of candidates that is fit, first with no symbol raised and
/// then with one of those that may be; none is tried where the other symbols have no order.
pub(crate) fn first_fit<S: FnMut(&Constraint) -> Result<Option<Cert>, FmEnd>>(
    alloc: Global,
    most: usize,
    problem: &ChoiceProblem,
    numbered: &mut NumberedPairs,
    solve: &mut S,
) -> Result<Attempt<Fit>, NoMemory>
    requires solver { IsSolver S.FnMut solve.old }
    ensures solver { IsSolver S.FnMut solve.new }
    ensures pairs { numbered.new.pairs ≡ numbered.old.pairs }
    ensures tried { IfOk result (λ t. tried_as
        (λ fit. still_open numbered.old.pairs fit.falls.items) t ≡
        first_fit most problem.now.infos.now numbered.old.pairs problem.now.anchors.now
        problem.now.raisable.now (lists_in problem.now.lists.now) (Some problem.now.order.now)) }
    ensures fit { IfOk result (λ t. IfSome t.made
        (IsFirstFit problem.now.infos.now numbered.old.pairs problem.now.anchors.now
        problem.now.order.now (all_choices problem.now.raisable.now
        (take most (products (lists_in problem.now.lists.now)))))) }
{
    let plain = first_plain(alloc, most, problem, numbered, solve)?;
    if plain.made.is_some() {
        return Ok(plain);
    }
    if problem.raisable.is_empty() {
        return Ok(plain);
    }
    let noted = plain.noted;
    let raised = first_raised(alloc, most, problem, numbered, solve)?;
    Ok(noted_before(noted, raised))
}
