//! The first goal with its constants named.
ghost use Rattle.std.specs.Prelude.{◌≡◌, true, IfOk, OnErr};
ghost use Rattle.rx_settle.specs.Answers.{IsTrial};
ghost use Rattle.rx_settle.specs.AtFirst.{at_first};
ghost use Rattle.rx_settle.specs.Certified.{asks_rows};
ghost use Rattle.rx_settle.specs.Settling as settling;
ghost use Rattle.rx_solve.specs.Answers.{IsSolver};
ghost use Rattle.rx_moves.specs.LoopPoints.{AreLoopPoints};
ghost use Rattle.rx_moves.specs.Moves.{Generalise, move_of};

use crate::trial::Trial;
use crate::trying::try_step;
use rx_cert::Cert;
use rx_fm::FmEnd;
use rx_inference::Step;
use rx_lemma::{Generalised, named};
use rx_moves::LoopPoints;
use rx_plain::{Items, NoMemory};
use rx_poly::PolyEnd;
use rx_row::Constraint;
use rx_steps::State;
use rx_term::{Equation, RuleSet};
use std::alloc::Global;

/// The step to an equation of which the goal is an instance. Its certificates are open.
fn step_to(alloc: Global, found: Generalised) -> Step
    ensures rows { asks_rows result ≡ true }
    ensures step { move_of result ≡ Generalise found.goal found.subst }
{
    let Generalised { goal, subst, .. } = found;
    let Equation { left, right, rows } = goal;
    Step::Generalise {
        left,
        right,
        rows,
        subst,
        certs: Items::new(alloc),
    }
}

/// The first goal with the constants in its calls of loop heads named.
pub(crate) fn try_naming<S: FnMut(&Constraint) -> Result<Option<Cert>, FmEnd>>(
    alloc: Global,
    rules: &RuleSet,
    points: &LoopPoints,
    state: &mut State,
    solve: &mut S,
) -> Result<Trial, NoMemory>
    requires points { AreLoopPoints rules.now points.now }
    requires solver { IsSolver S.FnMut solve.old }
    ensures solver { IsSolver S.FnMut solve.new }
    ensures trial { IfOk result (IsTrial rules.now state.old state.new
        (at_first (settling.named rules.now state.old) state.old.goals)) }
    ensures kept { OnErr result (state.new ≡ state.old) }
{
    let Some(goal) = state.first() else {
        return Ok(Trial::failed());
    };
    match named(alloc, goal, rules, points.loops()) {
        Ok(Some(found)) => try_step(alloc, rules, state, step_to(alloc, found), solve),
        Ok(None) => Ok(Trial::failed()),
        Err(PolyEnd::Large) => Ok(Trial::too_large()),
        Err(PolyEnd::NoMemory) => Err(NoMemory),
    }
}
