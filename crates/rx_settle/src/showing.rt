//! Showing what a step asks, by a solver.
ghost use Rattle.std.specs.Prelude.{List, IfOk};
ghost use Rattle.rx_inference.specs.Judging.{first_rows};
ghost use Rattle.rx_inference.specs.declared.formed_step.Asked.TheVariants.{Refuted, Rows};
ghost use Rattle.rx_row.specs.declared.row.Row.{Row};
ghost use Rattle.rx_solve.specs.Answers.{IsSolver};
ghost use Rattle.rx_moves.specs.Parts.{IsAskedShown};

use rx_cert::Cert;
use rx_fm::FmEnd;
use rx_inference::{Asked, FormedStep, Group};
use rx_plain::{Items, NoMemory};
use rx_row::Constraint;
use rx_solve::{AllShown, ask, show_all};
use rx_steps::rows_under;
use std::alloc::Global;

/// The one certificate that refutes the rows, where the solver has one.
#[tactic(auto, unfolding(rx_moves::specs::Trying::asked_shown, rx_moves::specs::Parts::ShownBy))]
fn show_refuted<S: FnMut(&Constraint) -> Result<Option<Cert>, FmEnd>>(
    alloc: Global,
    given: &Constraint,
    solve: &mut S,
) -> Result<AllShown, NoMemory>
    requires solver { IsSolver S.FnMut solve.old }
    ensures solver { IsSolver S.FnMut solve.new }
    ensures answer { IfOk result (λ a. (new : List Row) → IsAskedShown given.now new Refuted a) }
{
    match ask(given, solve) {
        Ok(Some(cert)) => {
            let mut certs = Items::new(alloc);
            certs.push(cert)?;
            Ok(AllShown::Shown(certs))
        }
        Ok(None) => Ok(AllShown::NotShown),
        Err(FmEnd::Large) => Ok(AllShown::TooLarge),
        Err(FmEnd::NoMemory) => Err(NoMemory),
    }
}

/// The certificates of the rows of all groups, group by group, each under the rows that it is
/// given, up to the first that isn't shown.
#[tactic(auto, using(crate::proofs::ShowingLaws::begun))]
fn show_groups<S: FnMut(&Constraint) -> Result<Option<Cert>, FmEnd>>(
    alloc: Global,
    old: &Constraint,
    new: &Constraint,
    groups: &[Group],
    solve: &mut S,
) -> Result<AllShown, NoMemory>
    requires solver { IsSolver S.FnMut solve.old }
    ensures solver { IsSolver S.FnMut solve.new }
    ensures answer { IfOk result (IsAskedShown old.now new.now (Rows groups.now)) }
{
    let mut certs = Items::new(alloc);
    for group in groups {
        let given = rows_under(old, new, group.under);
        match show_all(alloc, given, group.rows.as_slice(), solve)? {
            AllShown::Shown(more) => certs.append(more)?,
            AllShown::NotShown => return Ok(AllShown::NotShown),
            AllShown::TooLarge => return Ok(AllShown::TooLarge),
        }
    }
    Ok(AllShown::Shown(certs))
}

/// The certificates for what a step asks, under the rows of the goal and of the first new goal.
fn show<S: FnMut(&Constraint) -> Result<Option<Cert>, FmEnd>>(
    alloc: Global,
    old: &Constraint,
    new: &Constraint,
    asked: &Asked,
    solve: &mut S,
) -> Result<AllShown, NoMemory>
    requires solver { IsSolver S.FnMut solve.old }
    ensures solver { IsSolver S.FnMut solve.new }
    ensures answer { IfOk result (IsAskedShown old.now new.now asked.now) }
{
    match asked {
        Asked::Refuted => show_refuted(alloc, old, solve),
        Asked::Rows(groups) => show_groups(alloc, old, new, groups.as_slice(), solve),
    }
}

/// The certificates for what a formed step asks of a goal with those rows.
pub(crate) fn show_made<S: FnMut(&Constraint) -> Result<Option<Cert>, FmEnd>>(
    alloc: Global,
    old: &Constraint,
    made: &FormedStep,
    solve: &mut S,
) -> Result<AllShown, NoMemory>
    requires solver { IsSolver S.FnMut solve.old }
    ensures solver { IsSolver S.FnMut solve.new }
    ensures answer { IfOk result (IsAskedShown old.now (first_rows made.now.goals) made.now.asked) }
{
    match made.goals.as_slice().first() {
        Some(goal) => show(alloc, old, &goal.rows, &made.asked, solve),
        None => show(
            alloc,
            old,
            &Constraint::from_rows(Vec::new(alloc)),
            &made.asked,
            solve,
        ),
    }
}
