//! The pairs of a component with polynomials that have numbers, and by these numbers what was found
//! out of the pairs: a test, or what a left symbol takes, is looked up by one index. All that is kept
//! is right; where nothing is kept of a taking, nothing is said.
ghost use Rattle.std.specs.Prelude.{◌≡◌, ◌<◌, ℕ, [], All, IfOk, IfSome, None, Some, length, slice_get};
ghost use Rattle.std.specs.Prelude.{IsTrue, option_copied};
ghost use Rattle.rx_anchors.specs.Values.{polys_at};
ghost use Rattle.rx_rank.specs.Answers.{IsChosen, found, still_open, tried, tried_as};
ghost use Rattle.rx_rank.specs.Choices.{choosing};
ghost use Rattle.rx_rank.specs.Numbers.{IsRightTaking, IsRightTest, Numbered, by_number, holds_at};
ghost use Rattle.rx_rank.specs.Numbers.{HasPoly, taken_at};
ghost use Rattle.rx_solve.specs.Answers.{IsSolver};

use crate::attempt::{Attempt, Finding};
use crate::choice::choose;
use crate::choice_problem::ChoiceProblem;
use crate::fitting::Fit;
use crate::known_pair::KnownPair;
use rx_cert::Cert;
use rx_fm::FmEnd;
use rx_pairs::Pair;
use rx_plain::NoMemory;
use rx_poly::Poly;
use rx_row::Constraint;
use std::alloc::Global;
use std::marker::Model;

/// How many polynomials have numbers at most.
pub(crate) const MOST_POLYS: usize = 256;

/// How many tests are kept at most.
const MOST_TESTS: usize = 4096;

/// Whether a column holds at a pair with two polynomials.
#[derive(Clone, Copy)]
pub(crate) struct NumberedTest {
    /// The place of the pair.
    pub(crate) pair: usize,
    /// The number of the left symbol's polynomial.
    pub(crate) left: u32,
    /// The number of the right symbol's.
    pub(crate) right: u32,
    /// What is found.
    pub(crate) finding: Finding,
}

/// What the left symbol of a pair takes from a polynomial of the right one.
#[derive(Clone, Copy)]
pub(crate) struct NumberedTaking {
    /// The place of the pair.
    pub(crate) pair: usize,
    /// Whether the left symbol is raised.
    pub(crate) raised: bool,
    /// The number of the right symbol's polynomial.
    pub(crate) right: u32,
    /// The number of what is taken, where something is.
    pub(crate) made: Option<u32>,
    /// Whether something passed the limits.
    pub(crate) noted: bool,
}

/// Pairs with polynomials by number; contracts see both.
#[derive(Drop)]
pub(crate) struct NumberedPairs {
    pairs: Vec<KnownPair>,
    polys: Vec<Poly>,
    takings: Vec<Option<NumberedTaking>>,
    tests: Vec<Option<NumberedTest>>,
}

impl Model for NumberedPairs {
    ghost use Rattle.std.specs.Coded.{codes};
    ghost use Rattle.rx_poly.specs.contracts.body.Body as body_row;
    ghost use Rattle.rx_pairs.specs.contracts.pair.Pair as pair_row;
    ghost use Rattle.rx_rank.specs.Numbers.{AreRightNumbers, Numbered};

    ghost Value = { Numbered };

    ghost coded = { Prim.hlevel (codes, pair_row.the_row.coded, body_row.the_row.coded) };

    ghost view = { λ n. record { pairs = n.pairs.items; polys = n.polys.items } };

    ghost invariant = { λ n. AreRightNumbers
        (record { pairs = n.pairs.items; polys = n.polys.items }) n.takings.items n.tests.items };
}

/// Where a test is kept.
fn test_slot(pair: usize, left: u32, right: u32) -> usize {
    let row = pair.wrapping_mul(1031).wrapping_add(left as usize);
    row.wrapping_mul(61).wrapping_add(right as usize) % MOST_TESTS
}

/// Where a taking is kept.
fn taking_slot(pair: usize, raised: bool, right: u32) -> usize {
    let side: usize = if raised { 1 } else { 0 };
    let row = pair.wrapping_mul(2).wrapping_add(side);
    row.wrapping_mul(MOST_POLYS).wrapping_add(right as usize)
}

/// What is kept of the test, if something is.
fn find_test(tests: &[Option<NumberedTest>], pair: usize, left: u32, right: u32) -> Option<Finding>
    ensures { (n : Numbered) → All (λ o. IfSome o (IsRightTest n)) tests.now →
        IfSome result (λ f. found f ≡ holds_at (slice_get n.pairs pair) (slice_get n.polys left)
        (slice_get n.polys right)) }
{
    let Some(Some(one)) = tests.get(test_slot(pair, left, right)) else {
        return None;
    };
    if one.pair == pair && one.left == left && one.right == right {
        return Some(one.finding);
    }
    None
}

/// What is kept of the taking, if something is.
fn find_taking(
    takings: &[Option<NumberedTaking>],
    pair: usize,
    raised: bool,
    right: u32,
) -> Option<NumberedTaking>
    ensures { (n : Numbered) → All (λ o. IfSome o (IsRightTaking n)) takings.now →
        IfSome result (λ k. HasPoly n.polys k.made ×
        (taken_at (slice_get n.pairs pair) raised (slice_get n.polys right) ≡
        record { made = by_number n.polys k.made; noted = k.noted })) }
{
    let Some(Some(one)) = takings.get(taking_slot(pair, raised, right)) else {
        return None;
    };
    if one.pair == pair && one.raised == raised && one.right == right {
        return Some(*one);
    }
    None
}

/// Keeps the test in the place of another one.
fn keep_test(numbered: &mut NumberedPairs, test: NumberedTest)
    requires { IsRightTest numbered.old test }
    ensures { numbered.new ≡ numbered.old }
{
    let slot = test_slot(test.pair, test.left, test.right);
    if slot < numbered.tests.len() {
        numbered.tests[slot] = Some(test);
    }
}

/// Keeps the taking, where there is a place for it.
fn keep_taking(numbered: &mut NumberedPairs, taking: NumberedTaking)
    requires { IsRightTaking numbered.old taking }
    ensures { numbered.new ≡ numbered.old }
{
    let slot = taking_slot(taking.pair, taking.raised, taking.right);
    if slot < numbered.takings.len() {
        numbered.takings[slot] = Some(taking);
    }
}

/// So many places with nothing in them.
fn empty_places<T: Drop>(alloc: Global, count: usize) -> Result<Vec<Option<T>>, NoMemory>
    ensures { IfOk result (λ v. All (λ o. o ≡ None) v.items) }
{
    let mut places = Vec::with_capacity(alloc, count)?;
    for _place in 0..count {
        places.push(None)?;
    }
    Ok(places)
}

/// Gives the polynomial the next number; None where no number is left.
fn add_poly(numbered: &mut NumberedPairs, poly: Poly) -> Result<Option<u32>, NoMemory>
    ensures pairs { numbered.new.pairs ≡ numbered.old.pairs }
    ensures number { IfOk result (λ o. IfSome o (λ k. slice_get numbered.new.polys k ≡ Some poly)) }
    ensures others { (k : ℕ) → k < length numbered.old.polys →
        slice_get numbered.new.polys k ≡ slice_get numbered.old.polys k }
{
    let count = numbered.polys.len();
    if count >= MOST_POLYS {
        return Ok(None);
    }
    numbered.tests.clear();
    numbered.polys.push(poly)?;
    Ok(Some(count as u32))
}

/// What the left symbol of the pair takes from the polynomial with that number, asked of the pair;
/// None where there is no such pair or polynomial.
fn take_from(
    alloc: Global,
    pairs: &mut [KnownPair],
    polys: &[Poly],
    at: usize,
    raised: bool,
    right: u32,
) -> Result<Option<Attempt<Poly>>, NoMemory>
    ensures pairs { pairs.new ≡ pairs.old }
    ensures within { IfOk result (λ o. IfSome o (λ t. right < length polys.now)) }
    ensures tried { IfOk result (λ o. IfSome o (λ t. tried t ≡
        taken_at (slice_get pairs.old at) raised (slice_get polys.now right))) }
{
    if at >= pairs.len() {
        return Ok(None);
    }
    let known = &mut pairs[at];
    let Some(poly) = polys.get(right as usize) else {
        return Ok(None);
    };
    let attempt = known.take(alloc, raised, poly)?;
    Ok(Some(attempt))
}

/// One of these numbers that is that of the polynomial, if one is.
fn find_same(numbered: &NumberedPairs, others: &[u32], poly: &Poly) -> Option<u32>
    ensures { IfSome result (λ k. slice_get numbered.now.polys k ≡ Some poly.now) }
{
    for number in others {
        if numbered.is_number_of(*number, poly) {
            return Some(*number);
        }
    }
    None
}

/// Keeps what is taken, by its number.
fn keep_made(
    numbered: &mut NumberedPairs,
    pair: usize,
    raised: bool,
    right: u32,
    made: Option<u32>,
    noted: bool,
)
    requires within { right < length numbered.old.polys }
    requires has { HasPoly numbered.old.polys made }
    requires is { taken_at (slice_get numbered.old.pairs pair) raised
        (slice_get numbered.old.polys right) ≡
        record { made = by_number numbered.old.polys made; noted = noted } }
    ensures { numbered.new ≡ numbered.old }
{
    let taking = NumberedTaking {
        pair,
        raised,
        right,
        made,
        noted,
    };
    keep_taking(numbered, taking);
}

impl NumberedPairs {
    /// The pairs, where no polynomial has a number.
    pub(crate) fn new(alloc: Global, pairs: Vec<KnownPair>) -> NumberedPairs
        ensures { result ≡ record { pairs = pairs.items; polys = [] } }
    {
        NumberedPairs {
            pairs,
            polys: Vec::new(alloc),
            takings: Vec::new(alloc),
            tests: Vec::new(alloc),
        }
    }

    /// The pairs alone.
    pub(crate) fn into_pairs(self) -> Vec<KnownPair>
        ensures { result.items ≡ self.pairs }
    {
        self.pairs
    }

    /// How many pairs there are.
    pub(crate) fn count(&self) -> usize
        ensures { result ≡ length self.now.pairs }
    {
        self.pairs.len()
    }

    /// The pair at that place.
    pub(crate) fn pair_at(&self, at: usize) -> Option<&Pair>
        ensures { option_copied result ≡ slice_get self.now.pairs at }
    {
        match self.pairs.get(at) {
            Some(known) => Some(known.pair()),
            None => None,
        }
    }

    /// The polynomial with that number.
    pub(crate) fn poly_at(&self, number: u32) -> Option<&Poly>
        ensures { option_copied result ≡ slice_get self.now.polys number }
    {
        self.polys.get(number as usize)
    }

    /// Whether polynomials have numbers.
    pub(crate) fn is_open(&self) -> bool {
        !self.tests.is_empty()
    }

    /// Whether the number is that of this polynomial.
    pub(crate) fn is_number_of(&self, number: u32, poly: &Poly) -> bool
        ensures { IsTrue result → slice_get self.now.polys number ≡ Some poly.now }
    {
        match self.poly_at(number) {
            Some(other) => other.is_same(poly),
            None => false,
        }
    }

    /// Makes room for what is kept of tests.
    pub(crate) fn open_tests(&mut self, alloc: Global) -> Result<(), NoMemory>
        ensures { self.new ≡ self.old }
    {
        self.tests = empty_places(alloc, MOST_TESTS)?;
        Ok(())
    }

    /// Makes room for what left symbols take.
    pub(crate) fn open_takings(&mut self, alloc: Global) -> Result<(), NoMemory>
        ensures { self.new ≡ self.old }
    {
        let rows = self.pairs.len().wrapping_mul(2);
        self.takings = empty_places(alloc, rows.wrapping_mul(MOST_POLYS))?;
        Ok(())
    }

    /// Gives the polynomial a number; None where no number is left.
    pub(crate) fn number(&mut self, poly: Poly) -> Result<Option<u32>, NoMemory>
        ensures { self.new.pairs ≡ self.old.pairs }
    {
        add_poly(self, poly)
    }

    /// Whether no number is left.
    pub(crate) fn is_full(&self) -> bool {
        self.polys.len() >= MOST_POLYS
    }

    /// Keeps what the left symbol of the pair takes from the polynomial with that number. Answers its
    /// number where it is a new one: where the polynomial is none of those with these numbers; None
    /// too where nothing is taken, or no number is left.
    pub(crate) fn keep_take(
        &mut self,
        alloc: Global,
        at: usize,
        raised: bool,
        right: u32,
        others: &[u32],
    ) -> Result<Option<u32>, NoMemory>
        ensures { self.new.pairs ≡ self.old.pairs }
    {
        let pairs = self.pairs.as_mut_slice();
        let Some(attempt) = take_from(alloc, pairs, self.polys.as_slice(), at, raised, right)?
        else {
            return Ok(None);
        };
        let noted = attempt.noted;
        let Some(poly) = attempt.made else {
            keep_made(self, at, raised, right, None, noted);
            return Ok(None);
        };
        if let Some(number) = find_same(self, others, &poly) {
            keep_made(self, at, raised, right, Some(number), noted);
            return Ok(None);
        }
        let Some(number) = add_poly(self, poly)? else {
            return Ok(None);
        };
        keep_made(self, at, raised, right, Some(number), noted);
        Ok(Some(number))
    }

    /// What the left symbol of the pair takes from the polynomial with that number; None where
    /// nothing is known of it.
    pub(crate) fn take_at(&self, at: usize, raised: bool, right: u32) -> Option<NumberedTaking>
        ensures { IfSome result (λ k. HasPoly self.now.polys k.made ×
            (taken_at (slice_get self.now.pairs at) raised (slice_get self.now.polys right) ≡
            record { made = by_number self.now.polys k.made; noted = k.noted })) }
    {
        find_taking(self.takings.as_slice(), at, raised, right)
    }

    /// What comes of a choice of candidates, with that symbol raised if there is one.
    pub(crate) fn choose<S: FnMut(&Constraint) -> Result<Option<Cert>, FmEnd>>(
        &mut self,
        alloc: Global,
        problem: &ChoiceProblem,
        raised: Option<u32>,
        choice: &[&Poly],
        solve: &mut S,
    ) -> Result<Attempt<Fit>, NoMemory>
        requires solver { IsSolver S.FnMut solve.old }
        ensures solver { IsSolver S.FnMut solve.new }
        ensures same { self.new ≡ self.old }
        ensures tried { IfOk result (λ t. tried_as
            (λ fit. still_open self.old.pairs fit.falls.items) t ≡
            choosing problem.now.infos.now self.old.pairs problem.now.anchors.now
            problem.now.order.now (record { raised = raised; polys = polys_at choice.now })) }
        ensures fit { IfOk result (λ t. IfSome t.made
            (IsChosen problem.now.infos.now self.old.pairs problem.now.anchors.now
            problem.now.order.now (record { raised = raised; polys = polys_at choice.now }))) }
    {
        choose(
            alloc,
            problem,
            self.pairs.as_mut_slice(),
            raised,
            choice,
            solve,
        )
    }

    /// Whether a column holds at the pair, with the polynomials of these numbers.
    pub(crate) fn holds_at<S: FnMut(&Constraint) -> Result<Option<Cert>, FmEnd>>(
        &mut self,
        alloc: Global,
        at: usize,
        left: u32,
        right: u32,
        solve: &mut S,
    ) -> Result<Finding, NoMemory>
        requires solver { IsSolver S.FnMut solve.old }
        ensures solver { IsSolver S.FnMut solve.new }
        ensures same { self.new ≡ self.old }
        ensures found { IfOk result (λ f. found f ≡ holds_at (slice_get self.old.pairs at)
            (slice_get self.old.polys left) (slice_get self.old.polys right)) }
    {
        if let Some(finding) = find_test(self.tests.as_slice(), at, left, right) {
            return Ok(finding);
        }
        let finding = ask(
            alloc,
            self.pairs.as_mut_slice(),
            self.polys.as_slice(),
            at,
            left,
            right,
            solve,
        )?;
        let test = NumberedTest {
            pair: at,
            left,
            right,
            finding,
        };
        keep_test(self, test);
        Ok(finding)
    }
}

/// The same, asked of the pair.
fn ask<S: FnMut(&Constraint) -> Result<Option<Cert>, FmEnd>>(
    alloc: Global,
    pairs: &mut [KnownPair],
    polys: &[Poly],
    at: usize,
    left: u32,
    right: u32,
    solve: &mut S,
) -> Result<Finding, NoMemory>
    requires solver { IsSolver S.FnMut solve.old }
    ensures solver { IsSolver S.FnMut solve.new }
    ensures pairs { pairs.new ≡ pairs.old }
    ensures found { IfOk result (λ f. found f ≡ holds_at (slice_get pairs.old at)
        (slice_get polys.now left) (slice_get polys.now right)) }
{
    if at >= pairs.len() {
        return Ok(Finding::NotShown);
    }
    let known = &mut pairs[at];
    let Some(first) = polys.get(left as usize) else {
        return Ok(Finding::NotShown);
    };
    let Some(second) = polys.get(right as usize) else {
        return Ok(Finding::NotShown);
    };
    known.is_held(alloc, first, second, solve)
}
