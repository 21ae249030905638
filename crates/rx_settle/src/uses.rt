//! Uses of hypotheses at the first goal.
ghost use Rattle.std.specs.Prelude.{◌≡◌, ◌↔◌, ◌<◌, ◌^◌, ℕ, true, false, List, Some, IfOk, OnErr};
ghost use Rattle.rx_inference.specs.declared.step.Side.{Side};
ghost use Rattle.rx_match.specs.Matching.{is_place};
ghost use Rattle.rx_settle.specs.Answers.{IsTrial};
ghost use Rattle.rx_settle.specs.AtFirst.{at_first, using_all, using_number, using_sides};
ghost use Rattle.rx_match.specs.Uses.{UseAnswers};
ghost use Rattle.rx_poly.specs.declared.body.Body.{Body};
ghost use Rattle.rx_settle.specs.Candidates.{IsCandidate, IsCandidateAt, IsCandidateOf, IsCandidateFor};
ghost use Rattle.rx_solve.specs.Answers.{IsSolver};
ghost use Rattle.rx_solve.specs.Attempts.{Tried};
ghost use Rattle.rx_term.specs.Stacks.{depth_of};

use crate::number::to_u32;
use crate::trial::Trial;
use crate::trying::try_step;
use rx_cert::Cert;
use rx_fm::FmEnd;
use rx_inference::{Side, Step, side_of};
use rx_match::{Use, find_use, find_use_beside, place_of};
use rx_plain::{Items, NoMemory};
use rx_poly::Poly;
use rx_row::Constraint;
use rx_steps::State;
use rx_term::{Equation, Rule, RuleSet, Term};
use std::alloc::Global;

/// What sets the variables of a hypothesis, beside its own equations.
#[derive(Clone, Copy, Debug, PartialEq, Eq)]
pub(crate) enum Matching {
    /// The part that it replaces.
    PartAlone,
    /// That part, and then the other side of the goal.
    BothSides,
}

/// How hypotheses are matched.
#[derive(Drop)]
pub(crate) struct Matcher<'a> {
    /// The rules.
    pub(crate) rules: &'a RuleSet,
    /// What sets the variables.
    pub(crate) how: Matching,
}

/// What is to be tried with a hypothesis on a side.
#[derive(Drop)]
pub(crate) enum Candidate {
    /// The step that uses it at the place, with what its variables are replaced by.
    Use {
        /// How many frames are over that part of the side.
        place: u32,
        /// What replaces the variables.
        subst: Items<(u32, Poly)>,
    },
    /// Nothing.
    Fails,
    /// Nothing, as something passes the limits.
    TooLarge,
}

/// Whether the term has so many frames that their number may pass a `u32`.
fn is_deep(term: &Term) -> bool
    ensures { result ≡ false → depth_of term.now < 2 ^ 32 }
{
    term.suffix(u32::MAX).is_some()
}

/// The only place at which the hypothesis may be used. Terms of 2^32 frames fit no memory.
fn use_place(goal: &Equation, hypothesis: &Rule, side: Side) -> Result<Option<u32>, NoMemory>
    ensures { IfOk result (λ found. (place : ℕ) →
        (found ≡ Some place) ↔ (is_place goal.now hypothesis.now side place ≡ true)) }
{
    if is_deep(side_of(goal, side)) || is_deep(&hypothesis.left) {
        return Err(NoMemory);
    }
    Ok(place_of(goal, hypothesis, side))
}

/// What is to be tried where no use is found for that reason.
fn candidate_after(end: FmEnd) -> Result<Candidate, NoMemory>
    ensures large { IfOk result (λ candidate. end ≡ FmEnd.Large) }
    ensures candidate { IfOk result (λ candidate. candidate ≡ Candidate.TooLarge) }
{
    match end {
        FmEnd::Large => Ok(Candidate::TooLarge),
        FmEnd::NoMemory => Err(NoMemory),
    }
}

/// What is to be tried by what was found of uses at the place.
fn candidate_of(place: u32, found: Result<Option<Use>, FmEnd>) -> Result<Candidate, NoMemory>
    ensures { (tried : Tried (List (ℕ × Body))) → UseAnswers tried found →
        IfOk result (IsCandidateFor tried place) }
{
    match found {
        Ok(Some(Use { subst, .. })) => Ok(Candidate::Use { place, subst }),
        Ok(None) => Ok(Candidate::Fails),
        Err(end) => candidate_after(end),
    }
}

/// What is to be tried with the hypothesis at the place.
fn find_at<S: FnMut(&Constraint) -> Result<Option<Cert>, FmEnd>>(
    alloc: Global,
    by: &Matcher<'_>,
    goal: &Equation,
    hypothesis: &Rule,
    side: Side,
    place: u32,
    solve: &mut S,
) -> Result<Candidate, NoMemory>
    requires solver { IsSolver S.FnMut solve.old }
    ensures solver { IsSolver S.FnMut solve.new }
    ensures candidate { IfOk result (IsCandidateAt by.now goal.now hypothesis.now side place) }
{
    match by.how {
        Matching::PartAlone => {
            candidate_of(place, find_use(alloc, goal, hypothesis, side, place, solve))
        }
        Matching::BothSides => {
            let found = find_use_beside(alloc, by.rules, goal, hypothesis, side, place, solve);
            candidate_of(place, found)
        }
    }
}

/// What is to be tried with the hypothesis on the side.
fn find_in<S: FnMut(&Constraint) -> Result<Option<Cert>, FmEnd>>(
    alloc: Global,
    by: &Matcher<'_>,
    goal: &Equation,
    hypothesis: &Rule,
    side: Side,
    solve: &mut S,
) -> Result<Candidate, NoMemory>
    requires solver { IsSolver S.FnMut solve.old }
    ensures solver { IsSolver S.FnMut solve.new }
    ensures candidate { IfOk result (IsCandidate by.now goal.now hypothesis.now side) }
{
    match use_place(goal, hypothesis, side)? {
        Some(place) => find_at(alloc, by, goal, hypothesis, side, place, solve),
        None => Ok(Candidate::Fails),
    }
}

/// What is to be tried with the hypothesis of that number on a side of the first goal.
fn find_candidate<S: FnMut(&Constraint) -> Result<Option<Cert>, FmEnd>>(
    alloc: Global,
    by: &Matcher<'_>,
    state: &State,
    number: u32,
    side: Side,
    solve: &mut S,
) -> Result<Candidate, NoMemory>
    requires solver { IsSolver S.FnMut solve.old }
    ensures solver { IsSolver S.FnMut solve.new }
    ensures candidate { IfOk result (IsCandidateOf by.now state.now number side) }
{
    let Some(goal) = state.first() else {
        return Ok(Candidate::Fails);
    };
    match state.hypotheses().get(number as usize) {
        Some(hypothesis) => find_in(alloc, by, goal, hypothesis, side, solve),
        None => Ok(Candidate::Fails),
    }
}

/// The hypothesis of that number on a side of the first goal.
fn try_use<S: FnMut(&Constraint) -> Result<Option<Cert>, FmEnd>>(
    alloc: Global,
    by: &Matcher<'_>,
    state: &mut State,
    number: u32,
    side: Side,
    solve: &mut S,
) -> Result<Trial, NoMemory>
    requires solver { IsSolver S.FnMut solve.old }
    ensures solver { IsSolver S.FnMut solve.new }
    ensures trial { IfOk result (IsTrial by.now.rules.now state.old state.new
        (at_first (using_number by.now.rules.now state.old by.now.how number side)
        state.old.goals)) }
    ensures kept { OnErr result (state.new ≡ state.old) }
{
    match find_candidate(alloc, by, state, number, side, solve)? {
        Candidate::Use { place, subst } => {
            let step = Step::Hyp {
                side,
                place,
                hyp: number,
                subst,
                certs: Items::new(alloc),
            };
            try_step(alloc, by.rules, state, step, solve)
        }
        Candidate::Fails => Ok(Trial::failed()),
        Candidate::TooLarge => Ok(Trial::too_large()),
    }
}

/// The hypothesis of that number on the left side, and then on the right one.
fn try_use_sides<S: FnMut(&Constraint) -> Result<Option<Cert>, FmEnd>>(
    alloc: Global,
    by: &Matcher<'_>,
    state: &mut State,
    number: u32,
    solve: &mut S,
) -> Result<Trial, NoMemory>
    requires solver { IsSolver S.FnMut solve.old }
    ensures solver { IsSolver S.FnMut solve.new }
    ensures trial { IfOk result (IsTrial by.now.rules.now state.old state.new
        (at_first (using_sides by.now.rules.now state.old by.now.how number) state.old.goals)) }
    ensures kept { OnErr result (state.new ≡ state.old) }
{
    let left = try_use(alloc, by, state, number, Side::Left, solve)?;
    let noted = match left.untaken() {
        Ok(noted) => noted,
        Err(taken) => return Ok(taken),
    };
    let right = try_use(alloc, by, state, number, Side::Right, solve)?;
    Ok(right.after(noted))
}

/// The hypotheses in order, each on the left side and then on the right one, on a side from outside
/// in.
pub(crate) fn try_uses<S: FnMut(&Constraint) -> Result<Option<Cert>, FmEnd>>(
    alloc: Global,
    by: &Matcher<'_>,
    state: &mut State,
    solve: &mut S,
) -> Result<Trial, NoMemory>
    requires solver { IsSolver S.FnMut solve.old }
    ensures solver { IsSolver S.FnMut solve.new }
    ensures trial { IfOk result (IsTrial by.now.rules.now state.old state.new
        (at_first (using_all by.now.rules.now state.old by.now.how) state.old.goals)) }
    ensures kept { OnErr result (state.new ≡ state.old) }
{
    let count = to_u32(state.hypotheses().len())?;
    let mut noted = false;
    for number in 0..count {
        let tried = try_use_sides(alloc, by, state, number, solve)?.after(noted);
        noted = match tried.untaken() {
            Ok(noted) => noted,
            Err(taken) => return Ok(taken),
        };
    }
    Ok(Trial { taken: None, noted })
}
