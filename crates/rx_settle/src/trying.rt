//! Trying a step: it is formed, a solver shows what it asks, and it is taken.
ghost use Rattle.std.specs.Prelude.{◌≡◌, true, false, Some, IfOk, OnOk, OnErr};
ghost use Rattle.std.specs.Result.{result_map_both};
ghost use Rattle.rx_inference.specs.States.{taken};
ghost use Rattle.rx_settle.specs.Answers.{IsTrial};
ghost use Rattle.rx_settle.specs.Certified.{asks_rows, certified};
ghost use Rattle.rx_solve.specs.Answers.{IsSolver};
ghost use Rattle.rx_moves.specs.Moves.{move_of};
ghost use Rattle.rx_moves.specs.Outcomes.{Follows, IsOutcome};
ghost use Rattle.rx_moves.specs.Trying.{attempt};

use crate::showing::show_made;
use crate::trial::Trial;
use rx_cert::Cert;
use rx_fm::FmEnd;
use rx_inference::{Delete, FormedStep, Step};
use rx_moves::{Formation, Outcome, form_step};
use rx_plain::{Items, NoMemory};
use rx_row::Constraint;
use rx_solve::AllShown;
use rx_steps::State;
use rx_term::RuleSet;
use std::alloc::Global;

/// The answer, once the value is let go of.
fn dropped<T: Drop, A>(value: T, answer: A) -> A
    ensures { result ≡ answer }
{
    drop(value);
    answer
}

/// The step with those certificates for the rows that it asks, in place of those that it has.
fn with_certificates(step: Step, certs: Items<Cert>) -> Step
    ensures { result ≡ certified step certs }
{
    match step {
        Step::Simplify {
            side,
            rule,
            certs: open,
        } => Step::Simplify {
            side,
            rule,
            certs: dropped(open, certs),
        },
        Step::Hyp {
            side,
            place,
            hyp,
            subst,
            certs: open,
        } => Step::Hyp {
            side,
            place,
            hyp,
            subst,
            certs: dropped(open, certs),
        },
        Step::Delete(Delete::Equal(open)) => Step::Delete(Delete::Equal(dropped(open, certs))),
        Step::Generalise {
            left,
            right,
            rows,
            subst,
            certs: open,
        } => Step::Generalise {
            left,
            right,
            rows,
            subst,
            certs: dropped(open, certs),
        },
        Step::Postulate {
            left,
            right,
            rows,
            certs: open,
        } => Step::Postulate {
            left,
            right,
            rows,
            certs: dropped(open, certs),
        },
        Step::Decompose { certs: open } => Step::Decompose {
            certs: dropped(open, certs),
        },
        Step::Results {
            left,
            right,
            certs: open,
        } => Step::Results {
            left,
            right,
            certs: dropped(open, certs),
        },
        other => dropped(certs, other),
    }
}

/// What comes of a step that is formed so.
fn show_formed<S: FnMut(&Constraint) -> Result<Option<Cert>, FmEnd>>(
    alloc: Global,
    state: &State,
    made: FormedStep,
    solve: &mut S,
) -> Result<Outcome, NoMemory>
    requires solver { IsSolver S.FnMut solve.old }
    ensures solver { IsSolver S.FnMut solve.new }
    ensures outcome { IfOk result (Follows state.now made) }
{
    let Some(goal) = state.first() else {
        return Ok(dropped(made, Outcome::Fails));
    };
    match show_made(alloc, &goal.rows, &made, solve) {
        Ok(AllShown::Shown(certs)) => Ok(Outcome::Shown { made, certs }),
        Ok(AllShown::NotShown) => Ok(dropped(made, Outcome::Fails)),
        Ok(AllShown::TooLarge) => Ok(dropped(made, Outcome::TooLarge)),
        Err(NoMemory) => Err(dropped(made, NoMemory)),
    }
}

/// What comes of a step before it is taken.
fn show_step<S: FnMut(&Constraint) -> Result<Option<Cert>, FmEnd>>(
    alloc: Global,
    rules: &RuleSet,
    state: &State,
    step: &Step,
    solve: &mut S,
) -> Result<Outcome, NoMemory>
    requires solver { IsSolver S.FnMut solve.old }
    ensures solver { IsSolver S.FnMut solve.new }
    ensures outcome { IfOk result (IsOutcome rules.now state.now step.now) }
{
    match form_step(alloc, rules, state.first(), state.hypotheses(), step)? {
        Formation::Formed(made) => show_formed(alloc, state, made, solve),
        Formation::Refused => Ok(Outcome::Fails),
        Formation::TooLarge => Ok(Outcome::TooLarge),
    }
}

/// The value, where that was done.
fn where_done<T: Drop>(done: Result<(), NoMemory>, value: T) -> Result<T, NoMemory>
    ensures { result ≡ result_map_both (λ _. value) (λ fault. fault) done }
{
    match done {
        Ok(()) => Ok(value),
        Err(fault) => Err(fault),
    }
}

/// Takes a step, which is formed so, and which has the certificates of what it asks.
pub(crate) fn take_shown(
    alloc: Global,
    state: &mut State,
    made: FormedStep,
    step: Step,
) -> Result<Trial, NoMemory>
    ensures ok { OnOk result (state.new ≡ taken state.old made) }
    ensures trial { IfOk result (λ t. t ≡ record { taken = Some step; noted = false }) }
    ensures err { OnErr result (state.new ≡ state.old) }
{
    where_done(state.take(alloc, made), Trial::of(step))
}

/// Tries a step on the first goal, which asks rows and not that rows are refuted: it is taken where
/// it is formed and the solver shows what it asks. Its certificates aren't looked at; the step that
/// is taken has those that were found. Otherwise the state stays as it was.
pub fn try_step<S: FnMut(&Constraint) -> Result<Option<Cert>, FmEnd>>(
    alloc: Global,
    rules: &RuleSet,
    state: &mut State,
    step: Step,
    solve: &mut S,
) -> Result<Trial, NoMemory>
    requires rows { asks_rows step ≡ true }
    requires solver { IsSolver S.FnMut solve.old }
    ensures solver { IsSolver S.FnMut solve.new }
    ensures trial { IfOk result (IsTrial rules.now state.old state.new
        (attempt rules.now state.old (move_of step))) }
    ensures kept { OnErr result (state.new ≡ state.old) }
{
    match show_step(alloc, rules, state, &step, solve) {
        Ok(Outcome::Shown { made, certs }) => {
            take_shown(alloc, state, made, with_certificates(step, certs))
        }
        Ok(Outcome::Fails) => Ok(dropped(step, Trial::failed())),
        Ok(Outcome::TooLarge) => Ok(dropped(step, Trial::too_large())),
        Err(NoMemory) => Err(dropped(step, NoMemory)),
    }
}
