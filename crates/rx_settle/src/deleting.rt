//! Goals that need not be shown.
ghost use Rattle.std.specs.Prelude.{◌≡◌, ◌∷◌, [], IfOk, OnErr};
ghost use Rattle.rx_inference.specs.declared.formed_step.Asked.TheVariants.{Refuted};
ghost use Rattle.rx_settle.specs.Answers.{IsTrial};
ghost use Rattle.rx_solve.specs.Answers.{IsSolver};
ghost use Rattle.rx_solve.specs.Attempts.{first_applying};
ghost use Rattle.rx_term.specs.declared.rule_set.RuleParts.{RuleParts};
ghost use Rattle.rx_moves.specs.Moves.{Absurd, Equal};
ghost use Rattle.rx_moves.specs.Trying.{attempt};

use crate::trial::Trial;
use crate::trying::{take_shown, try_step};
use rx_cert::Cert;
use rx_fm::FmEnd;
use rx_inference::{Asked, Delete, FormedStep, Step};
use rx_plain::{Items, NoMemory};
use rx_row::Constraint;
use rx_solve::ask;
use rx_steps::State;
use rx_term::RuleSet;
use std::alloc::Global;

/// What a step makes that drops the goal, as its rows are refuted.
fn make_nothing(alloc: Global) -> FormedStep
    ensures { result ≡ record { asked = Refuted; goals = []; kept = [] } }
{
    FormedStep {
        asked: Asked::Refuted,
        goals: Items::new(alloc),
        kept: Items::new(alloc),
    }
}

/// Drops the goal where the solver refutes its rows.
fn try_absurd<S: FnMut(&Constraint) -> Result<Option<Cert>, FmEnd>>(
    alloc: Global,
    state: &mut State,
    solve: &mut S,
) -> Result<Trial, NoMemory>
    requires solver { IsSolver S.FnMut solve.old }
    ensures solver { IsSolver S.FnMut solve.new }
    ensures trial { IfOk result (λ t. (parts : RuleParts) →
        IsTrial parts state.old state.new (attempt parts state.old Absurd) t) }
    ensures kept { OnErr result (state.new ≡ state.old) }
{
    let Some(goal) = state.first() else {
        return Ok(Trial::failed());
    };
    match ask(&goal.rows, solve) {
        Ok(Some(cert)) => take_shown(
            alloc,
            state,
            make_nothing(alloc),
            Step::Delete(Delete::Absurd(cert)),
        ),
        Ok(None) => Ok(Trial::failed()),
        Err(FmEnd::Large) => Ok(Trial::too_large()),
        Err(FmEnd::NoMemory) => Err(NoMemory),
    }
}

/// Drops the goal where both sides are shown equal.
fn try_equal<S: FnMut(&Constraint) -> Result<Option<Cert>, FmEnd>>(
    alloc: Global,
    rules: &RuleSet,
    state: &mut State,
    solve: &mut S,
) -> Result<Trial, NoMemory>
    requires solver { IsSolver S.FnMut solve.old }
    ensures solver { IsSolver S.FnMut solve.new }
    ensures trial { IfOk result (IsTrial rules.now state.old state.new
        (attempt rules.now state.old Equal)) }
    ensures kept { OnErr result (state.new ≡ state.old) }
{
    let step = Step::Delete(Delete::Equal(Items::new(alloc)));
    try_step(alloc, rules, state, step, solve)
}

/// Drops the goal where its rows are refuted, or else where both sides are shown equal.
pub(crate) fn try_deleting<S: FnMut(&Constraint) -> Result<Option<Cert>, FmEnd>>(
    alloc: Global,
    rules: &RuleSet,
    state: &mut State,
    solve: &mut S,
) -> Result<Trial, NoMemory>
    requires solver { IsSolver S.FnMut solve.old }
    ensures solver { IsSolver S.FnMut solve.new }
    ensures trial { IfOk result (IsTrial rules.now state.old state.new
        (first_applying (
        attempt rules.now state.old Absurd ∷ attempt rules.now state.old Equal ∷ []))) }
    ensures kept { OnErr result (state.new ≡ state.old) }
{
    let noted = match try_absurd(alloc, state, solve)?.untaken() {
        Ok(noted) => noted,
        Err(taken) => return Ok(taken),
    };
    let equal = try_equal(alloc, rules, state, solve)?;
    Ok(equal.after(noted))
}
