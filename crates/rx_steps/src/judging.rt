//! Whether the certificates of a step show what it asks.
ghost use Rattle.std.specs.Prelude.{◌≡◌, ◌<◌, ◌+◌, ◌^◌, ◌↔◌, [], ◌∷◌, IfOk, IsTrue, Some, length};
ghost use Rattle.rx_cert.specs.Conditions.{asked_for, in_order};
ghost use Rattle.rx_inference.specs.Judging.{asked_by_all, first_rows, given_to, groups_in_order, judged, of_conditions, refutation};
ghost use Rattle.rx_inference.specs.declared.formed_step.Asked.TheVariants.{Rows};
ghost use Rattle.rx_inference.specs.declared.formed_step.Under.TheVariants.{New};
ghost use Rattle.rx_steps.specs.Faults.{Judges};

use crate::step_end::StepEnd;
use rx_cert::{Cert, ConditionsAnswer, check_in_order, count_asked, shows};
use rx_inference::{Asked, FormedStep, Group, Under};
use rx_plain::{Items, NoMemory};
use rx_row::{Constraint, Row};
use std::alloc::Global;

/// Whether the certificate refutes the rows.
fn refute(alloc: Global, given: &Constraint, cert: &Cert) -> Result<(), StepEnd>
    ensures { Judges result (refutation given.now (cert.now ∷ [])) }
{
    if shows(alloc, given, cert)? {
        Ok(())
    } else {
        Err(StepEnd::NotShown { condition: 0 })
    }
}

/// Whether the one certificate refutes the rows.
fn refute_rows(alloc: Global, given: &Constraint, certs: &[Cert]) -> Result<(), StepEnd>
    ensures { Judges result (refutation given.now certs.now) }
{
    match certs.split_first() {
        Some((cert, more)) if more.is_empty() => refute(alloc, given, cert),
        _ => Err(StepEnd::WrongShape),
    }
}

/// Whether the rows follow from those that are given, the first having that number; as many
/// certificates are given as they ask for.
fn show_rows(
    alloc: Global,
    first: usize,
    given: &Constraint,
    rows: &[Row],
    certs: &[Cert],
) -> Result<(), StepEnd>
    requires count { length certs.now ≡ asked_for given.now rows.now }
    requires room { first + length rows.now < 2 ^ 64 }
    ensures { Judges result (of_conditions (in_order first given.now rows.now certs.now)) }
{
    match check_in_order(alloc, first, given, rows, certs)? {
        ConditionsAnswer::Shown => Ok(()),
        ConditionsAnswer::WrongCount => Err(StepEnd::WrongShape),
        ConditionsAnswer::NotShown(at) => match u32::try_from(at) {
            Ok(condition) => Err(StepEnd::NotShown { condition }),
            Err(_) => Err(StepEnd::NoMemory),
        },
    }
}

/// The rows that a group is given: those of the goal, or of the first new goal. Takes no memory.
pub fn rows_under<'a>(old: &'a Constraint, new: &'a Constraint, under: Under) -> &'a Constraint
    ensures { result.now ≡ given_to old.now new.now under }
{
    match under {
        Under::Goal => old,
        Under::New => new,
    }
}

/// Whether the groups ask for that many certificates.
fn ask_for(old: &Constraint, new: &Constraint, groups: &[Group], count: usize) -> bool
    ensures { IsTrue result ↔ count ≡ asked_by_all old.now new.now groups.now }
{
    let mut left = count;
    for group in groups {
        let asked = count_asked(rows_under(old, new, group.under), group.rows.as_slice());
        if left < asked {
            return false;
        }
        left -= asked;
    }
    left == 0
}

/// Whether the rows of each group follow from those that it is given, group by group; as many
/// certificates are given as they ask for. So many rows that they can't be counted have no memory.
fn show_in_order(
    alloc: Global,
    old: &Constraint,
    new: &Constraint,
    groups: &[Group],
    certs: &[Cert],
) -> Result<(), StepEnd>
    requires { length certs.now ≡ asked_by_all old.now new.now groups.now }
    ensures { Judges result
        (of_conditions (groups_in_order old.now new.now 0 groups.now certs.now)) }
{
    let mut left = certs;
    let mut first: usize = 0;
    for group in groups {
        let given = rows_under(old, new, group.under);
        let rows = group.rows.as_slice();
        let Some(next) = first.checked_add(rows.len()) else {
            return Err(StepEnd::NoMemory);
        };
        let (own, later) = left.split_at(count_asked(given, rows));
        show_rows(alloc, first, given, rows, own)?;
        left = later;
        first = next;
    }
    Ok(())
}

/// Whether the rows of all groups follow from those that they are given.
fn show_groups(
    alloc: Global,
    old: &Constraint,
    new: &Constraint,
    groups: &[Group],
    certs: &[Cert],
) -> Result<(), StepEnd>
    ensures { Judges result (judged old.now new.now (Rows groups.now) certs.now) }
{
    if !ask_for(old, new, groups, certs.len()) {
        return Err(StepEnd::WrongShape);
    }
    show_in_order(alloc, old, new, groups, certs)
}

/// The rows under those of the new goal, alone.
fn group_of_new(alloc: Global, rows: Items<Row>) -> Result<Items<Group>, NoMemory>
    ensures { IfOk result (λ groups. groups ≡ record { under = New; rows = rows } ∷ []) }
{
    let mut groups = Items::new(alloc);
    groups.push(Group {
        under: Under::New,
        rows,
    })?;
    Ok(groups)
}

/// Whether the certificates show the rows that put a new goal with those rows inside the domains.
pub(crate) fn judge_inside(
    alloc: Global,
    new: &Constraint,
    inside: Items<Row>,
    certs: &[Cert],
) -> Result<(), StepEnd>
    ensures { Judges result
        (judged new.now new.now (Rows (record { under = New; rows = inside } ∷ [])) certs.now) }
{
    let groups = group_of_new(alloc, inside)?;
    show_groups(alloc, new, new, groups.as_slice(), certs)
}

/// Whether the certificates show what is asked under the rows of the goal, and under those of the
/// first new goal.
fn judge_under(
    alloc: Global,
    old: &Constraint,
    new: &Constraint,
    asked: &Asked,
    certs: &[Cert],
) -> Result<(), StepEnd>
    ensures { Judges result (judged old.now new.now asked.now certs.now) }
{
    match asked {
        Asked::Refuted => refute_rows(alloc, old, certs),
        Asked::Rows(groups) => show_groups(alloc, old, new, groups.as_slice(), certs),
    }
}

/// Whether the certificates show what a formed step asks of a goal with those rows.
pub(crate) fn judge(
    alloc: Global,
    old: &Constraint,
    formed: &FormedStep,
    certs: &[Cert],
) -> Result<(), StepEnd>
    ensures { Judges result
        (judged old.now (first_rows formed.now.goals) formed.now.asked certs.now) }
{
    match formed.goals.as_slice().first() {
        Some(goal) => judge_under(alloc, old, &goal.rows, &formed.asked, certs),
        None => judge_under(
            alloc,
            old,
            &Constraint::from_rows(Vec::new(alloc)),
            &formed.asked,
            certs,
        ),
    }
}
