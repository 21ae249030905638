//! The lemmas of a goal.
ghost use Rattle.std.specs.Prelude.{◌≡◌, [], IfOk, map};
ghost use Rattle.rx_find_lemmas.specs.Finders.{FindsLemmas};
ghost use Rattle.rx_find_lemmas.specs.Lemmas.{bare_step};
ghost use Rattle.rx_find_lemmas.specs.Trials.{AreTried, IsTriedAlone};
ghost use Rattle.rx_lemma.specs.Lemmas.{found_as};
ghost use Rattle.rx_moves.specs.Moves.{move_of};
ghost use Rattle.rx_solve.specs.Answers.{IsSolver};

use crate::lemma::{Found, Lemma, dropped};
use rx_cert::Cert;
use rx_fm::FmEnd;
use rx_inference::Step;
use rx_lemma::{Generalised, lemmas};
use rx_plain::{Items, NoMemory};
use rx_row::Constraint;
use rx_settle::{Trial, try_step};
use rx_steps::State;
use rx_term::{Equation, RuleSet};
use std::alloc::Global;

/// The step to a generalisation of a goal, without certificates.
fn bare_step(alloc: Global, general: Generalised) -> Step
    ensures { result ≡ bare_step (found_as general) }
{
    let Generalised { goal, subst, .. } = general;
    let Equation { left, right, rows } = goal;
    Step::Generalise {
        left,
        right,
        rows,
        subst,
        certs: Items::new(alloc),
    }
}

/// What comes of the step to a generalisation where the goal is alone.
fn try_general<S: FnMut(&Constraint) -> Result<Option<Cert>, FmEnd>>(
    alloc: Global,
    rules: &RuleSet,
    goal: &Equation,
    general: Generalised,
    solve: &mut S,
) -> Result<Trial, NoMemory>
    requires solver { IsSolver S.FnMut solve.old }
    ensures solver { IsSolver S.FnMut solve.new }
    ensures trial { IfOk result (IsTriedAlone rules.now goal.now (found_as general)) }
{
    let copy = goal.try_clone(alloc)?;
    let mut state = State::start(alloc, copy)?;
    try_step(alloc, rules, &mut state, bare_step(alloc, general), solve)
}

/// What comes of the step to each of these generalisations, in order.
fn try_each<S: FnMut(&Constraint) -> Result<Option<Cert>, FmEnd>>(
    alloc: Global,
    rules: &RuleSet,
    goal: &Equation,
    all: Items<Generalised>,
    solve: &mut S,
) -> Result<Found, NoMemory>
    requires solver { IsSolver S.FnMut solve.old }
    ensures solver { IsSolver S.FnMut solve.new }
    ensures tried { IfOk result (AreTried rules.now goal.now (map found_as all)) }
{
    let mut found = Found::new(alloc);
    for general in all.into_vec() {
        let kind = general.kind;
        let trial = try_general(alloc, rules, goal, general, solve)?;
        found.add(kind, trial)?;
    }
    Ok(found)
}

/// The lemmas of the goal, in order: of its generalisations, those whose step applies where the
/// goal is alone, each with the certificates of that step. The solver is asked in place of the
/// refuter.
///
/// Large exactly where something that is tried for the generalisations passes the limits, or for
/// the step to one of them.
pub fn find_lemmas<S: FnMut(&Constraint) -> Result<Option<Cert>, FmEnd>>(
    alloc: Global,
    goal: &Equation,
    rules: &RuleSet,
    solve: &mut S,
) -> Result<Items<Lemma>, FmEnd>
    requires solver { IsSolver S.FnMut solve.old }
    ensures solver { IsSolver S.FnMut solve.new }
    ensures answer { FindsLemmas rules.now goal.now result }
{
    let all = lemmas(alloc, goal, rules, solve)?;
    match try_each(alloc, rules, goal, all, solve) {
        Ok(found) if found.noted => Err(dropped(found, FmEnd::Large)),
        Ok(found) => Ok(found.lemmas),
        Err(NoMemory) => Err(FmEnd::NoMemory),
    }
}
