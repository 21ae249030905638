//! What is known of a goal: what comes of each choice where it is alone. A search meets the same
//! goals often.
ghost use Rattle.std.specs.Prelude.{◌≡◌, ◌∷◌, ◌++◌, [], All, IfOk, OnOk, List, None, false, map};
ghost use Rattle.rx_find_lemmas.specs.Finders.{FindsLemmas, IsLemmaFinder};
ghost use Rattle.rx_find_lemmas.specs.Finding.{lemmas_at};
ghost use Rattle.rx_fm.specs.declared.fm_end.FmEnd.TheVariants.{Large};
ghost use Rattle.rx_search.specs.Candidates.{expansions};
ghost use Rattle.rx_search.specs.Known.{AreOf, AreRight, CanBeTried, IsKnownAt, IsRight, IsRightChoice, known_lemma, seen_known};
ghost use Rattle.rx_search.specs.Menu.{Attempted, attempted, attempted_by};
ghost use Rattle.rx_solve.specs.Answers.{IsSolver};
ghost use Rattle.rx_solve.specs.Attempts.{beyond};
ghost use Rattle.rx_steps.specs.Alone.{alone};
ghost use Rattle.rx_term.specs.declared.rule_set.RuleParts.{RuleParts};

use crate::candidates::{Candidate, expansions, number_of};
use crate::dropping::dropped;
use crate::node::Node;
use crate::node_choices::KnownChoice;
use rx_cert::Cert;
use rx_find_lemmas::{Lemma, ask_lemmas};
use rx_fm::FmEnd;
use rx_inference::Step;
use rx_memo::GoalMemo;
use rx_plain::{Items, NoMemory, Shared};
use rx_row::Constraint;
use rx_settle::try_step;
use rx_steps::State;
use rx_term::{Equation, RuleSet};
use std::alloc::Global;

/// What is known of the choices at goals, in order. It serves the one rule set that it is first
/// used with.
pub(crate) type ChoiceMemo = GoalMemo<Items<KnownChoice>>;

/// The goal alone.
fn goal_alone(alloc: Global, goal: &Shared<Equation>) -> Result<State, NoMemory>
    ensures { IfOk result (λ state. state ≡ alone goal.now) }
{
    State::alone(alloc, goal.try_clone()?)
}

/// What comes of a choice at this state, in which the goal is alone.
fn try_at<S: FnMut(&Constraint) -> Result<Option<Cert>, FmEnd>>(
    alloc: Global,
    rules: &RuleSet,
    goal: &Shared<Equation>,
    state: State,
    candidate: Candidate,
    solve: &mut S,
) -> Result<KnownChoice, NoMemory>
    requires state { state ≡ alone goal.now }
    requires can { CanBeTried candidate }
    requires solver { IsSolver S.FnMut solve.old }
    ensures solver { IsSolver S.FnMut solve.new }
    ensures seen { IfOk result (λ k. seen_known k ≡
        attempted_by rules.now (alone goal.now) candidate) }
    ensures right { IfOk result (IsRightChoice rules.now goal.now) }
{
    let Candidate {
        number,
        keeps,
        step,
    } = candidate;
    let mut after = state;
    match try_step(alloc, rules, &mut after, step, solve) {
        Ok(trial) => KnownChoice::new(alloc, number, keeps, trial.taken, trial.noted, after),
        Err(NoMemory) => Err(dropped(after, NoMemory)),
    }
}

/// What comes of a choice where the goal is alone.
fn try_alone<S: FnMut(&Constraint) -> Result<Option<Cert>, FmEnd>>(
    alloc: Global,
    rules: &RuleSet,
    goal: &Shared<Equation>,
    candidate: Candidate,
    solve: &mut S,
) -> Result<KnownChoice, NoMemory>
    requires can { CanBeTried candidate }
    requires solver { IsSolver S.FnMut solve.old }
    ensures solver { IsSolver S.FnMut solve.new }
    ensures seen { IfOk result (λ k. seen_known k ≡
        attempted_by rules.now (alone goal.now) candidate) }
    ensures right { IfOk result (IsRightChoice rules.now goal.now) }
{
    match goal_alone(alloc, goal) {
        Ok(state) => try_at(alloc, rules, goal, state, candidate, solve),
        Err(NoMemory) => Err(dropped(candidate, NoMemory)),
    }
}

/// What comes of each of these choices, in order.
fn try_each<S: FnMut(&Constraint) -> Result<Option<Cert>, FmEnd>>(
    alloc: Global,
    rules: &RuleSet,
    goal: &Shared<Equation>,
    candidates: Items<Candidate>,
    solve: &mut S,
) -> Result<Items<KnownChoice>, NoMemory>
    requires can { All CanBeTried candidates }
    requires solver { IsSolver S.FnMut solve.old }
    ensures solver { IsSolver S.FnMut solve.new }
    ensures known { IfOk result (AreOf rules.now goal.now
        (map (attempted_by rules.now (alone goal.now)) candidates)) }
{
    let mut known = Items::new(alloc);
    for candidate in candidates.into_vec() {
        known.push(try_alone(alloc, rules, goal, candidate, solve)?)?;
    }
    Ok(known)
}

/// A choice that doesn't apply, as something passes the limits.
fn push_noted(
    alloc: Global,
    goal: &Shared<Equation>,
    known: &mut Items<KnownChoice>,
) -> Result<(), NoMemory>
    ensures { (parts : RuleParts) (cs : List Attempted) → AreOf parts goal.now cs known.old →
        OnOk result (AreOf parts goal.now (cs ++ attempted 6 false beyond ∷ []) known.new) }
{
    let after = goal_alone(alloc, goal)?;
    Ok(known.push(KnownChoice {
        number: 6,
        keeps: false,
        step: None,
        noted: true,
        after,
    })?)
}

/// What is known of a choice by a lemma: its step applies, by its own certificates.
fn known_lemma(alloc: Global, lemma: Lemma) -> Result<KnownChoice, NoMemory>
    ensures { IfOk result (λ k. k ≡ known_lemma lemma) }
{
    let Lemma {
        kind,
        goal,
        subst,
        certs,
    } = lemma;
    let after = State::start(alloc, goal.try_clone(alloc)?)?;
    let Equation { left, right, rows } = goal;
    let step = Step::Generalise {
        left,
        right,
        rows,
        subst,
        certs,
    };
    KnownChoice::new(alloc, number_of(kind), false, Some(step), false, after)
}

/// One more choice for each lemma, in order.
fn push_lemmas(
    alloc: Global,
    known: &mut Items<KnownChoice>,
    lemmas: Items<Lemma>,
) -> Result<(), NoMemory>
    ensures { OnOk result (known.new ≡ known.old ++ map known_lemma lemmas) }
{
    for lemma in lemmas.into_vec() {
        known.push(known_lemma(alloc, lemma)?)?;
    }
    Ok(())
}

/// That the lemmas pass the limits, after the other choices, where they end so.
fn note_end(
    alloc: Global,
    goal: &Shared<Equation>,
    known: &mut Items<KnownChoice>,
    end: FmEnd,
) -> Result<(), NoMemory>
    ensures { (parts : RuleParts) → (end ≡ Large → lemmas_at parts goal.now ≡ None) →
        AreOf parts goal.now (map (attempted_by parts (alone goal.now)) expansions) known.old →
        OnOk result (IsRight parts goal.now known.new) }
{
    match end {
        FmEnd::Large => push_noted(alloc, goal, known),
        FmEnd::NoMemory => Err(NoMemory),
    }
}

/// The choices by lemmas after the others.
fn add_lemmas(
    alloc: Global,
    goal: &Shared<Equation>,
    known: &mut Items<KnownChoice>,
    found: Result<Items<Lemma>, FmEnd>,
) -> Result<(), NoMemory>
    ensures { (parts : RuleParts) → FindsLemmas parts goal.now found →
        AreOf parts goal.now (map (attempted_by parts (alone goal.now)) expansions) known.old →
        OnOk result (IsRight parts goal.now known.new) }
{
    match found {
        Ok(lemmas) => push_lemmas(alloc, known, lemmas),
        Err(end) => note_end(alloc, goal, known, end),
    }
}

/// What comes of each choice where the goal is alone.
fn find_alone<
    S: FnMut(&Constraint) -> Result<Option<Cert>, FmEnd>,
    L: FnMut(&Equation, &RuleSet, &mut S) -> Result<Items<Lemma>, FmEnd>,
>(
    alloc: Global,
    rules: &RuleSet,
    goal: &Shared<Equation>,
    solve: &mut S,
    lemma: &mut L,
) -> Result<Items<KnownChoice>, NoMemory>
    requires solver { IsSolver S.FnMut solve.old }
    requires lemma { IsLemmaFinder S.FnMut L.FnMut lemma.old }
    ensures solver { IsSolver S.FnMut solve.new }
    ensures lemma { IsLemmaFinder S.FnMut L.FnMut lemma.new }
    ensures right { IfOk result (IsRight rules.now goal.now) }
{
    let mut known = try_each(alloc, rules, goal, expansions(alloc)?, solve)?;
    let found = ask_lemmas(goal.get(), rules, solve, lemma);
    match add_lemmas(alloc, goal, &mut known, found) {
        Ok(()) => Ok(known),
        Err(NoMemory) => Err(dropped(known, NoMemory)),
    }
}

/// What is known of the choices at the goal. Where nothing is kept of it, it is found, and kept if
/// there is room.
fn known_choices<
    S: FnMut(&Constraint) -> Result<Option<Cert>, FmEnd>,
    L: FnMut(&Equation, &RuleSet, &mut S) -> Result<Items<Lemma>, FmEnd>,
>(
    alloc: Global,
    rules: &RuleSet,
    memo: &mut ChoiceMemo,
    goal: Shared<Equation>,
    solve: &mut S,
    lemma: &mut L,
) -> Result<Shared<Items<KnownChoice>>, NoMemory>
    requires known { AreRight rules.now memo.old }
    requires solver { IsSolver S.FnMut solve.old }
    requires lemma { IsLemmaFinder S.FnMut L.FnMut lemma.old }
    ensures known { AreRight rules.now memo.new }
    ensures solver { IsSolver S.FnMut solve.new }
    ensures lemma { IsLemmaFinder S.FnMut L.FnMut lemma.new }
    ensures right { IfOk result (IsRight rules.now goal) }
{
    if let Some(known) = memo.find(goal.get()) {
        return Ok(known.try_clone()?);
    }
    let known = Shared::new(alloc, find_alone(alloc, rules, &goal, solve, lemma)?)?;
    memo.keep(goal, known.try_clone()?)?;
    Ok(known)
}

/// What is known of the choices at a node; None where there are none, as settling took all steps or
/// no goal is left.
pub(crate) fn known_at<
    S: FnMut(&Constraint) -> Result<Option<Cert>, FmEnd>,
    L: FnMut(&Equation, &RuleSet, &mut S) -> Result<Items<Lemma>, FmEnd>,
>(
    alloc: Global,
    rules: &RuleSet,
    node: &Node,
    memo: &mut ChoiceMemo,
    solve: &mut S,
    lemma: &mut L,
) -> Result<Option<Shared<Items<KnownChoice>>>, NoMemory>
    requires known { AreRight rules.now memo.old }
    requires solver { IsSolver S.FnMut solve.old }
    requires lemma { IsLemmaFinder S.FnMut L.FnMut lemma.old }
    ensures known { AreRight rules.now memo.new }
    ensures solver { IsSolver S.FnMut solve.new }
    ensures lemma { IsLemmaFinder S.FnMut L.FnMut lemma.new }
    ensures found { IfOk result (IsKnownAt rules.now node.now) }
{
    let Some(goal) = node.open_goal()? else {
        return Ok(None);
    };
    let known = known_choices(alloc, rules, memo, goal, solve, lemma)?;
    Ok(Some(known))
}
