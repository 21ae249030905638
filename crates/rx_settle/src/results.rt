//! Results in place of a common suffix.
ghost use Rattle.std.specs.Prelude.{◌≡◌, ◌==◌, if◌then◌else◌, nat_lt, IfOk, OnErr};
ghost use Rattle.rx_settle.specs.Answers.{IsTrial};
ghost use Rattle.rx_settle.specs.AtFirst.{at_first};
ghost use Rattle.rx_lemma.specs.Lemmas.{variables_end};
ghost use Rattle.rx_settle.specs.Settling.{by_results, resulting_at};
ghost use Rattle.rx_solve.specs.Answers.{IsSolver};
ghost use Rattle.rx_solve.specs.Attempts.{fails};
ghost use Rattle.rx_term.specs.Bounds.{equation_bound};

use crate::number::to_u32;
use crate::trial::Trial;
use crate::trying::try_step;
use rx_cert::Cert;
use rx_fm::FmEnd;
use rx_inference::Step;
use rx_lemma::VARIABLES_END;
use rx_moves::{Suffix, find_suffix};
use rx_plain::{Items, NoMemory};
use rx_row::Constraint;
use rx_steps::State;
use rx_term::{Equation, RuleSet};
use std::alloc::Global;

/// Whether the least variable above all of the goal may be used.
fn has_fresh_variable(goal: &Equation) -> bool
    ensures { result ≡ nat_lt (equation_bound goal.now) variables_end }
{
    goal.variable_bound() < VARIABLES_END
}

/// Results at two places, unless both sides are taken whole.
fn try_places<S: FnMut(&Constraint) -> Result<Option<Cert>, FmEnd>>(
    alloc: Global,
    rules: &RuleSet,
    state: &mut State,
    left: usize,
    right: usize,
    solve: &mut S,
) -> Result<Trial, NoMemory>
    requires solver { IsSolver S.FnMut solve.old }
    ensures solver { IsSolver S.FnMut solve.new }
    ensures trial { IfOk result (IsTrial rules.now state.old state.new
        (resulting_at rules.now state.old left right)) }
    ensures kept { OnErr result (state.new ≡ state.old) }
{
    if left == 0 && right == 0 {
        return Ok(Trial::failed());
    }
    let step = Step::Results {
        left: to_u32(left)?,
        right: to_u32(right)?,
        certs: Items::new(alloc),
    };
    try_step(alloc, rules, state, step, solve)
}

/// Results at a common suffix, if it has a part.
fn try_suffix<S: FnMut(&Constraint) -> Result<Option<Cert>, FmEnd>>(
    alloc: Global,
    rules: &RuleSet,
    state: &mut State,
    suffix: Suffix,
    solve: &mut S,
) -> Result<Trial, NoMemory>
    requires solver { IsSolver S.FnMut solve.old }
    ensures solver { IsSolver S.FnMut solve.new }
    ensures trial { IfOk result (IsTrial rules.now state.old state.new
        (if suffix.common.parts == 0 then fails
        else resulting_at rules.now state.old suffix.left suffix.right)) }
    ensures kept { OnErr result (state.new ≡ state.old) }
{
    if suffix.common.parts == 0 {
        Ok(Trial::failed())
    } else {
        try_places(alloc, rules, state, suffix.left, suffix.right, solve)
    }
}

/// Results at the longest common suffix of both sides of the first goal.
pub(crate) fn try_results<S: FnMut(&Constraint) -> Result<Option<Cert>, FmEnd>>(
    alloc: Global,
    rules: &RuleSet,
    state: &mut State,
    solve: &mut S,
) -> Result<Trial, NoMemory>
    requires solver { IsSolver S.FnMut solve.old }
    ensures solver { IsSolver S.FnMut solve.new }
    ensures trial { IfOk result (IsTrial rules.now state.old state.new
        (at_first (by_results rules.now state.old) state.old.goals)) }
    ensures kept { OnErr result (state.new ≡ state.old) }
{
    let Some(goal) = state.first() else {
        return Ok(Trial::failed());
    };
    if !has_fresh_variable(goal) {
        return Ok(Trial::failed());
    }
    let suffix = find_suffix(alloc, &goal.rows, &goal.left, &goal.right, solve)?;
    let trial = try_suffix(alloc, rules, state, suffix, solve)?;
    Ok(trial.after(suffix.common.noted))
}
