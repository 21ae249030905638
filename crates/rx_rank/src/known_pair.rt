//! A pair with what was found out of it: a test of the pair by two polynomials is made once, and
//! where it is asked for again its answer is copied; so it is with the polynomials that its left
//! symbol takes from its right one. Each answer that is kept is right, whichever solver gave it,
//! since what is said of a test doesn't depend on the solver.
ghost use Rattle.std.specs.Prelude.{◌≡◌, IfOk, IfSome, option_copied};
ghost use Rattle.rx_rank.specs.Answers.{IsTold, found, tried};
ghost use Rattle.rx_rank.specs.Memo.{AreRight, AreTaken, Tells, said_of, taken};
ghost use Rattle.rx_rank.specs.PairTests.{falls, holds};
ghost use Rattle.rx_pairs.specs.Columns.{falls_rows, holds_rows};
ghost use Rattle.rx_pairs.specs.declared.pair.Pair.{Pair};
ghost use Rattle.rx_solve.specs.Answers.{IsSolver};

use crate::attempt::{Attempt, Finding};
use crate::last_places::LastPlaces;
use crate::pair_tests::{show_fall, show_hold};
use crate::taking::{copied_attempt, take_from};
use rx_cert::{Cert, copied_certs};
use rx_fm::FmEnd;
use rx_pairs::Pair;
use rx_plain::NoMemory;
use rx_poly::{Atom, Mono, Poly, copied_polys};
use rx_row::Constraint;
use rx_solve::AllShown;
use std::alloc::Global;
use std::marker::Model;

/// How many answers are kept of a pair at most, and how many polynomials that its left symbol
/// takes.
const MOST_ANSWERS: usize = 256;

/// What is asked of a pair.
#[derive(Clone, Copy, PartialEq, Eq)]
pub(crate) enum PairTest {
    /// Whether a column holds at it.
    Holds,
    /// Whether a column falls at it.
    Falls,
}

/// A test by two polynomials.
#[derive(Clone, Copy)]
struct Question<'a> {
    /// What is asked.
    test: PairTest,
    /// The polynomial of the left symbol.
    left: &'a Poly,
    /// The polynomial of the right symbol.
    right: &'a Poly,
    /// One number made of all three.
    hash: u32,
}

/// An answer that is kept.
#[derive(Drop)]
pub(crate) struct KnownAnswer {
    /// What was asked.
    pub(crate) test: PairTest,
    /// The polynomial of the left symbol.
    pub(crate) left: Poly,
    /// The polynomial of the right symbol.
    pub(crate) right: Poly,
    /// The answer.
    pub(crate) answer: AllShown,
    /// One number made of what was asked.
    pub(crate) hash: u32,
    /// Where the one before it in its chain is.
    pub(crate) before: Option<u32>,
}

/// A polynomial that is kept: what the left symbol takes from the right one.
#[derive(Drop)]
pub(crate) struct KnownTaking {
    /// Whether the left symbol is raised.
    pub(crate) raised: bool,
    /// The polynomial of the right symbol.
    pub(crate) right: Poly,
    /// What comes of that.
    pub(crate) attempt: Attempt<Poly>,
    /// One number made of the first two.
    pub(crate) hash: u32,
    /// Where the one before it in its chain is.
    pub(crate) before: Option<u32>,
}

/// A pair with the answers that are kept of it, the first 256, and as many polynomials that its
/// left symbol takes; contracts see the pair.
#[derive(Drop)]
pub(crate) struct KnownPair {
    pair: Pair,
    answers: Vec<KnownAnswer>,
    answer_places: LastPlaces,
    takings: Vec<KnownTaking>,
    taking_places: LastPlaces,
}

impl Model for KnownPair {
    ghost use Rattle.rx_pairs.specs.contracts.pair.Pair as pair_row;
    ghost use Rattle.rx_pairs.specs.declared.pair.Pair.{Pair};

    ghost Value = { Pair };

    ghost coded = { pair_row.the_row.coded };

    ghost use Rattle.rx_rank.specs.Memo.{IsRightMemo};

    ghost view = { λ k. k.pair };

    ghost invariant = { λ k. IsRightMemo k.pair k.answers.items k.takings.items };
}

/// The same pair once more.
fn copied_pair(alloc: Global, pair: &Pair) -> Result<Pair, NoMemory>
    ensures { IfOk result (λ made. made ≡ pair.now) }
{
    Ok(Pair {
        phi: pair.phi.try_clone(alloc)?,
        left: pair.left,
        left_args: copied_polys(alloc, pair.left_args.as_slice())?,
        right: pair.right,
        right_args: copied_polys(alloc, pair.right_args.as_slice())?,
    })
}

/// The same answer once more.
fn copied_answer(alloc: Global, answer: &AllShown) -> Result<AllShown, NoMemory>
    ensures { IfOk result (λ made. made ≡ answer.now) }
{
    match answer {
        AllShown::Shown(certs) => {
            let copies = copied_certs(alloc, certs.as_slice())?;
            Ok(AllShown::Shown(copies))
        }
        AllShown::NotShown => Ok(AllShown::NotShown),
        AllShown::TooLarge => Ok(AllShown::TooLarge),
    }
}

/// What the answer says, without certificates.
fn finding_of(answer: &AllShown) -> Finding
    ensures { (test : PairTest) (pair : Pair) (p q : _) → Tells test pair p q answer.now →
        found result ≡ said_of test pair p q }
{
    match answer {
        AllShown::Shown(_) => Finding::Shown,
        AllShown::NotShown => Finding::NotShown,
        AllShown::TooLarge => Finding::TooLarge,
    }
}

/// What was there, and then the next number: one number made of both.
fn mixed(before: u32, next: u32) -> u32 {
    before.wrapping_mul(0x9e37_79b1).wrapping_add(next)
}

/// The lowest bits of a number.
fn lowest(number: i128) -> u32 {
    (number.cast_unsigned() & 0xffff_ffff) as u32
}

/// One number made of a term: of its coefficient and of the kind of its first atom, or its variable.
fn sketch_of_term(term: &(Mono, i128)) -> u32 {
    let coefficient = lowest(term.1);
    match term.0.atoms.as_slice().first() {
        Some(Atom::Var(at)) => mixed(coefficient, at.wrapping_add(1)),
        Some(Atom::Div(_, _)) => mixed(coefficient, 77),
        Some(Atom::Mod(_, _)) => mixed(coefficient, 99),
        None => coefficient,
    }
}

/// One number made of a polynomial, cheaper than its digest: for looking it up.
fn sketch(poly: &Poly) -> u32 {
    let mut number = 0;
    for term in poly.body().terms.as_slice() {
        number = mixed(number, sketch_of_term(term));
    }
    number
}

/// The test by these polynomials.
fn test_by<'a>(test: PairTest, left: &'a Poly, right: &'a Poly) -> Question<'a>
    ensures test { result.test ≡ test }
    ensures left { result.left.now ≡ left.now }
    ensures right { result.right.now ≡ right.now }
{
    let number = match test {
        PairTest::Holds => 0,
        PairTest::Falls => 1,
    };
    let hash = mixed(mixed(number, sketch(left)), sketch(right));
    Question {
        test,
        left,
        right,
        hash,
    }
}

/// The answer that is kept of the test, if there is one; it is looked for in the chain that ends at
/// that place.
fn find_answer<'a>(
    answers: &'a [KnownAnswer],
    last: Option<u32>,
    question: &Question,
) -> Option<&'a AllShown>
    ensures { (pair : Pair) → AreRight pair answers.now → IfSome (option_copied result)
        (Tells question.now.test pair question.now.left.now question.now.right.now) }
{
    let mut next = last;
    for _turn in 0..answers.len() {
        let Some(place) = next else {
            return None;
        };
        let at = place as usize;
        if at >= answers.len() {
            return None;
        }
        let one = &answers[at];
        if one.hash == question.hash
            && one.test == question.test
            && one.left.is_same(question.left)
            && one.right.is_same(question.right)
        {
            return Some(&one.answer);
        }
        next = one.before;
    }
    None
}

/// Makes the test.
fn run_test<S: FnMut(&Constraint) -> Result<Option<Cert>, FmEnd>>(
    alloc: Global,
    pair: &Pair,
    question: &Question,
    solve: &mut S,
) -> Result<AllShown, NoMemory>
    requires solver { IsSolver S.FnMut solve.old }
    ensures solver { IsSolver S.FnMut solve.new }
    ensures answer { IfOk result (Tells question.now.test pair.now question.now.left.now
        question.now.right.now) }
{
    match question.test {
        PairTest::Holds => show_hold(alloc, pair, question.left, question.right, solve),
        PairTest::Falls => show_fall(alloc, pair, question.left, question.right, solve),
    }
}

/// Keeps the answer, where there is room for it.
fn keep_answer(
    known: &mut KnownPair,
    alloc: Global,
    question: &Question,
    answer: AllShown,
) -> Result<(), NoMemory>
    requires { Tells question.now.test known.old question.now.left.now question.now.right.now
        answer }
    ensures { known.new ≡ known.old }
{
    let count = known.answers.len();
    if count >= MOST_ANSWERS {
        return Ok(());
    }
    let left = question.left.try_clone(alloc)?;
    let right = question.right.try_clone(alloc)?;
    let before = known.answer_places.put(question.hash, count as u32);
    known.answers.push(KnownAnswer {
        test: question.test,
        left,
        right,
        answer,
        hash: question.hash,
        before,
    })?;
    Ok(())
}

/// The answer of the test; it is kept where it is new.
fn recall_answer<S: FnMut(&Constraint) -> Result<Option<Cert>, FmEnd>>(
    known: &mut KnownPair,
    alloc: Global,
    question: &Question,
    solve: &mut S,
) -> Result<AllShown, NoMemory>
    requires solver { IsSolver S.FnMut solve.old }
    ensures solver { IsSolver S.FnMut solve.new }
    ensures pair { known.new ≡ known.old }
    ensures answer { IfOk result (Tells question.now.test known.old question.now.left.now
        question.now.right.now) }
{
    let last = known.answer_places.last(question.hash);
    if let Some(answer) = find_answer(known.answers.as_slice(), last, question) {
        return copied_answer(alloc, answer);
    }
    let answer = run_test(alloc, &known.pair, question, solve)?;
    let copy = copied_answer(alloc, &answer)?;
    keep_answer(known, alloc, question, copy)?;
    Ok(answer)
}

/// What the answer of the test says; it is kept where it is new.
fn recall_finding<S: FnMut(&Constraint) -> Result<Option<Cert>, FmEnd>>(
    known: &mut KnownPair,
    alloc: Global,
    question: &Question,
    solve: &mut S,
) -> Result<Finding, NoMemory>
    requires solver { IsSolver S.FnMut solve.old }
    ensures solver { IsSolver S.FnMut solve.new }
    ensures pair { known.new ≡ known.old }
    ensures finding { IfOk result (λ f. found f ≡ said_of question.now.test known.old
        question.now.left.now question.now.right.now) }
{
    let last = known.answer_places.last(question.hash);
    if let Some(answer) = find_answer(known.answers.as_slice(), last, question) {
        return Ok(finding_of(answer));
    }
    let answer = run_test(alloc, &known.pair, question, solve)?;
    let finding = finding_of(&answer);
    keep_answer(known, alloc, question, answer)?;
    Ok(finding)
}

/// One number made of a polynomial and of whether it is raised.
fn taking_hash(raised: bool, right: &Poly) -> u32 {
    let number = if raised { 1 } else { 0 };
    mixed(number, sketch(right))
}

/// What is kept of that the left symbol takes, if there is something; it is looked for in the chain
/// that ends at that place.
fn find_taking<'a>(
    takings: &'a [KnownTaking],
    last: Option<u32>,
    hash: u32,
    raised: bool,
    right: &Poly,
) -> Option<&'a Attempt<Poly>>
    ensures { (pair : Pair) → AreTaken pair takings.now → IfSome (option_copied result)
        (λ t. tried t ≡ taken raised pair right.now) }
{
    let mut next = last;
    for _turn in 0..takings.len() {
        let Some(place) = next else {
            return None;
        };
        let at = place as usize;
        if at >= takings.len() {
            return None;
        }
        let one = &takings[at];
        if one.hash == hash && one.raised == raised && one.right.is_same(right) {
            return Some(&one.attempt);
        }
        next = one.before;
    }
    None
}

/// Keeps it, where there is room for it.
fn keep_taking(
    known: &mut KnownPair,
    alloc: Global,
    hash: u32,
    raised: bool,
    right: &Poly,
    attempt: Attempt<Poly>,
) -> Result<(), NoMemory>
    requires { tried attempt ≡ taken raised known.old right.now }
    ensures { known.new ≡ known.old }
{
    let count = known.takings.len();
    if count >= MOST_ANSWERS {
        return Ok(());
    }
    let right = right.try_clone(alloc)?;
    let before = known.taking_places.put(hash, count as u32);
    known.takings.push(KnownTaking {
        raised,
        right,
        attempt,
        hash,
        before,
    })?;
    Ok(())
}

impl KnownPair {
    /// The pair, of which nothing is found out yet.
    pub(crate) fn new(alloc: Global, pair: &Pair) -> Result<KnownPair, NoMemory>
        ensures { IfOk result (λ known. known ≡ pair.now) }
    {
        Ok(KnownPair {
            pair: copied_pair(alloc, pair)?,
            answers: Vec::new(alloc),
            answer_places: LastPlaces::new(alloc)?,
            takings: Vec::new(alloc),
            taking_places: LastPlaces::new(alloc)?,
        })
    }

    /// The pair itself.
    pub(crate) fn pair(&self) -> &Pair
        ensures { result.now ≡ self.now }
    {
        &self.pair
    }

    /// Whether a column with these polynomials for the left and the right symbol holds at it.
    pub(crate) fn holds<S: FnMut(&Constraint) -> Result<Option<Cert>, FmEnd>>(
        &mut self,
        alloc: Global,
        left: &Poly,
        right: &Poly,
        solve: &mut S,
    ) -> Result<AllShown, NoMemory>
        requires solver { IsSolver S.FnMut solve.old }
        ensures solver { IsSolver S.FnMut solve.new }
        ensures pair { self.new ≡ self.old }
        ensures answer { IfOk result (IsTold (holds self.old left.now right.now) self.old
            (holds_rows self.old left.now right.now)) }
    {
        recall_answer(self, alloc, &test_by(PairTest::Holds, left, right), solve)
    }

    /// Whether a column with these polynomials for the left and the right symbol falls at it.
    pub(crate) fn falls<S: FnMut(&Constraint) -> Result<Option<Cert>, FmEnd>>(
        &mut self,
        alloc: Global,
        left: &Poly,
        right: &Poly,
        solve: &mut S,
    ) -> Result<AllShown, NoMemory>
        requires solver { IsSolver S.FnMut solve.old }
        ensures solver { IsSolver S.FnMut solve.new }
        ensures pair { self.new ≡ self.old }
        ensures answer { IfOk result (IsTold (falls self.old left.now right.now) self.old
            (falls_rows self.old left.now right.now)) }
    {
        recall_answer(self, alloc, &test_by(PairTest::Falls, left, right), solve)
    }

    /// Only what is said of it: whether a column holds at it. No certificate is copied.
    pub(crate) fn is_held<S: FnMut(&Constraint) -> Result<Option<Cert>, FmEnd>>(
        &mut self,
        alloc: Global,
        left: &Poly,
        right: &Poly,
        solve: &mut S,
    ) -> Result<Finding, NoMemory>
        requires solver { IsSolver S.FnMut solve.old }
        ensures solver { IsSolver S.FnMut solve.new }
        ensures pair { self.new ≡ self.old }
        ensures found { IfOk result (λ f. found f ≡ holds self.old left.now right.now) }
    {
        recall_finding(self, alloc, &test_by(PairTest::Holds, left, right), solve)
    }

    /// What the left symbol takes from the polynomial of the right one: its instance, and 1 more
    /// where the left symbol is raised.
    pub(crate) fn take(
        &mut self,
        alloc: Global,
        raised: bool,
        right: &Poly,
    ) -> Result<Attempt<Poly>, NoMemory>
        ensures pair { self.new ≡ self.old }
        ensures tried { IfOk result (λ t. tried t ≡ taken raised self.old right.now) }
    {
        let hash = taking_hash(raised, right);
        let last = self.taking_places.last(hash);
        if let Some(attempt) = find_taking(self.takings.as_slice(), last, hash, raised, right) {
            return copied_attempt(alloc, attempt);
        }
        let attempt = take_from(alloc, raised, &self.pair, right)?;
        let copy = copied_attempt(alloc, &attempt)?;
        keep_taking(self, alloc, hash, raised, right, copy)?;
        Ok(attempt)
    }
}
