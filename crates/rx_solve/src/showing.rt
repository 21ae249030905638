//! Rows that are shown, one after the other, by a solver.
ghost use Rattle.std.specs.Prelude.{◌≡◌, List, IfOk, OnOk};
ghost use Rattle.rx_row.specs.declared.row.Row.{Row};
ghost use Rattle.rx_solve.specs.Answers.{IsSolver};
ghost use Rattle.rx_solve.specs.Shown.{AllAnswers, IsAllShown, NegationAnswers, RowAnswers};

use crate::asking::ask;
use rx_cert::{Cert, is_plain};
use rx_fm::FmEnd;
use rx_plain::{Items, NoMemory};
use rx_row::{Constraint, Row};
use std::alloc::Global;

/// What is found of a list of rows that are to follow from others.
#[derive(Drop)]
pub enum AllShown {
    /// Each is plain or shown: the certificates of those that aren't plain, in order.
    Shown(Items<Cert>),
    /// The first that isn't shown is one whose negation isn't refuted.
    NotShown,
    /// The first that isn't shown is one at which something passes the limits.
    TooLarge,
}

/// What the solver says of the rows with the negation of one more after them, also where that is
/// there already. The rows are the same again after it.
fn ask_negation<S: FnMut(&Constraint) -> Result<Option<Cert>, FmEnd>>(
    alloc: Global,
    rows: &mut Constraint,
    row: &Row,
    solve: &mut S,
) -> Result<Option<Cert>, FmEnd>
    requires solver { IsSolver S.FnMut solve.old }
    ensures solver { IsSolver S.FnMut solve.new }
    ensures answer { NegationAnswers rows.old row.now result }
    ensures kept { OnOk result (rows.new ≡ rows.old) }
{
    let count = rows.rows().len();
    let negation = row.negate(alloc)?;
    rows.append(negation).map_err(|_| FmEnd::NoMemory)?;
    let found = ask(rows, solve);
    rows.truncate(count);
    found
}

/// Whether the row is plain, or shown by a certificate that is added after the others. The rows
/// that are asked are the given ones, and the same again after it.
fn show_row<S: FnMut(&Constraint) -> Result<Option<Cert>, FmEnd>>(
    certs: &mut Items<Cert>,
    alloc: Global,
    given: &Constraint,
    asked: &mut Constraint,
    row: &Row,
    solve: &mut S,
) -> Result<bool, FmEnd>
    requires solver { IsSolver S.FnMut solve.old }
    requires asked { asked.old ≡ given.now }
    ensures solver { IsSolver S.FnMut solve.new }
    ensures answer { RowAnswers given.now row.now certs.old certs.new result }
    ensures kept { OnOk result (asked.new ≡ given.now) }
{
    if is_plain(given, row) {
        return Ok(true);
    }
    let Some(cert) = ask_negation(alloc, asked, row, solve)? else {
        return Ok(false);
    };
    certs.push(cert)?;
    Ok(true)
}

/// The certificates of the rows that aren't plain, in order; None where the first row that isn't
/// shown is one whose negation isn't refuted. The rows that are asked are the given ones.
fn show_in_order<S: FnMut(&Constraint) -> Result<Option<Cert>, FmEnd>>(
    alloc: Global,
    given: &Constraint,
    asked: &mut Constraint,
    rows: &[Row],
    solve: &mut S,
) -> Result<Option<Items<Cert>>, FmEnd>
    requires solver { IsSolver S.FnMut solve.old }
    requires asked { asked.old ≡ given.now }
    ensures solver { IsSolver S.FnMut solve.new }
    ensures answer { AllAnswers given.now rows.now result }
{
    let mut certs = Items::new(alloc);
    for row in rows {
        if !show_row(&mut certs, alloc, given, asked, row, solve)? {
            return Ok(None);
        }
    }
    Ok(Some(certs))
}

/// What was found of all rows.
fn what_is_shown(found: Result<Option<Items<Cert>>, FmEnd>) -> Result<AllShown, NoMemory>
    ensures { (given rows : List Row) → AllAnswers given rows found →
        IfOk result (λ a. IsAllShown given rows a) }
{
    match found {
        Ok(Some(certs)) => Ok(AllShown::Shown(certs)),
        Ok(None) => Ok(AllShown::NotShown),
        Err(FmEnd::Large) => Ok(AllShown::TooLarge),
        Err(FmEnd::NoMemory) => Err(NoMemory),
    }
}

/// The rows in order, up to the first that isn't shown: one is shown where it is plain, or where
/// the solver refutes the given rows with its negation after them. Too large where the negation, or
/// what is asked, passes the limits.
pub fn show_all<S: FnMut(&Constraint) -> Result<Option<Cert>, FmEnd>>(
    alloc: Global,
    given: &Constraint,
    rows: &[Row],
    solve: &mut S,
) -> Result<AllShown, NoMemory>
    requires solver { IsSolver S.FnMut solve.old }
    ensures solver { IsSolver S.FnMut solve.new }
    ensures answer { IfOk result (λ a. IsAllShown given.now rows.now a) }
{
    let mut asked = given.try_clone(alloc)?;
    what_is_shown(show_in_order(alloc, given, &mut asked, rows, solve))
}
