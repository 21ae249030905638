//! Steps that are tried one after another.
ghost use Rattle.std.specs.Prelude.{◌≡◌, map, IfOk};
ghost use Rattle.rx_moves.specs.Moves.{move_of};
ghost use Rattle.rx_solve.specs.Answers.{IsSolver};
ghost use Rattle.rx_wider.specs.Reached.{AskRows, TakesAll};

use rx_cert::Cert;
use rx_fm::FmEnd;
use rx_inference::Step;
use rx_plain::{Items, NoMemory};
use rx_row::Constraint;
use rx_settle::try_step;
use rx_steps::State;
use rx_term::RuleSet;
use std::alloc::Global;

/// Tries steps one after another on the first goal of the state: the steps with the certificates
/// that were found, where each of them applies.
pub(crate) fn try_steps<S: FnMut(&Constraint) -> Result<Option<Cert>, FmEnd>>(
    alloc: Global,
    rules: &RuleSet,
    state: &mut State,
    steps: &[Step],
    solve: &mut S,
) -> Result<Option<Items<Step>>, NoMemory>
    requires rows { AskRows steps.now }
    requires solver { IsSolver S.FnMut solve.old }
    ensures solver { IsSolver S.FnMut solve.new }
    ensures taken { IfOk result
        (TakesAll rules.now state.old state.new (map move_of steps.now)) }
{
    let mut made = Items::new(alloc);
    let mut rest = steps;
    while let Some((step, more)) = rest.split_first() {
        let step = step.try_clone(alloc)?;
        let tried = try_step(alloc, rules, state, step, solve)?;
        match tried.taken {
            Some(taken) => made.push(taken)?,
            None => return Ok(None),
        }
        rest = more;
    }
    Ok(Some(made))
}
