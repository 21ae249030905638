//! Leaving out the rows without which the lists serve as well.
ghost use Rattle.std.specs.Prelude.{◌≡◌, ◌≤◌, ◌^◌, ◌++◌, length, IfOk, OnOk};
ghost use Rattle.std.specs.List.{fold};
ghost use Rattle.rx_find_domains.specs.Groups.{groups};
ghost use Rattle.rx_row.specs.declared.row.Row.{Row};
ghost use Rattle.rx_solve.specs.Answers.{IsSolver};
ghost use Rattle.rx_wider_domains.specs.Finding.{leaving, left_out, numbered, numbered_from, tried};

use crate::serving::{Aim, serves};
use rx_cert::Cert;
use rx_find_domains::{drop_row, put_rows, rows_of};
use rx_fm::FmEnd;
use rx_has_ranks::RankMemo;
use rx_plain::NoMemory;
use rx_row::{Constraint, Row};
use rx_term::Sym;
use std::alloc::Global;

/// How many rows are tried at most.
const MOST_TRIED: usize = 128;

/// Adds the rows with the number of their list.
fn push_numbered(
    all: &mut Vec<(u32, Row)>,
    alloc: Global,
    number: u32,
    rows: &[Row],
) -> Result<(), NoMemory>
    ensures { OnOk result (all.new.items ≡ all.old.items ++ numbered number rows.now) }
{
    for row in rows {
        all.push((number, row.try_clone(alloc)?))?;
    }
    Ok(())
}

/// Each row with the number of its list.
fn numbered_rows(alloc: Global, lists: &[Constraint]) -> Result<Vec<(u32, Row)>, NoMemory>
    requires { length lists.now ≤ 2 ^ 32 }
    ensures { IfOk result (λ all. all.items ≡ numbered_from 0 lists.now) }
{
    let mut all = Vec::new(alloc);
    for (number, rows) in lists.iter().enumerate() {
        push_numbered(&mut all, alloc, number as u32, rows.rows())?;
    }
    Ok(all)
}

/// The rows that are tried, in this order.
fn tried_rows(alloc: Global, lists: &[Constraint]) -> Result<Vec<(u32, Row)>, NoMemory>
    ensures { IfOk result (λ all. all.items ≡ tried lists.now) }
{
    if lists.len() > u32::MAX as usize {
        return Err(NoMemory);
    }
    let mut all = numbered_rows(alloc, lists)?;
    all.reverse();
    all.truncate(MOST_TRIED);
    Ok(all)
}

/// The same rows once more.
fn copied_list(alloc: Global, rows: &[Row]) -> Result<Constraint, NoMemory>
    ensures { IfOk result (λ made. made ≡ rows.now) }
{
    let mut made = Constraint::from_rows(Vec::new(alloc));
    for row in rows {
        made.append(row.try_clone(alloc)?)?;
    }
    Ok(made)
}

/// Leaves out the row of the list with that number if the lists serve without it.
fn leave_row<S: FnMut(&Constraint) -> Result<Option<Cert>, FmEnd>>(
    lists: &mut Vec<Constraint>,
    alloc: Global,
    aim: Aim,
    at: &(u32, Row),
    memo: &mut RankMemo,
    solve: &mut S,
) -> Result<(), NoMemory>
    requires solver { IsSolver S.FnMut solve.old }
    requires names { aim.names.now ≡ groups aim.rules.now }
    requires few { length aim.rules.now.symbols ≤ 2 ^ 32 }
    ensures solver { IsSolver S.FnMut solve.new }
    ensures lists { OnOk result (lists.new.items ≡
        leaving aim.entry.rules.now aim.entry.goal.now lists.old.items at.now) }
{
    let sym = Sym(at.0);
    let before = copied_list(alloc, rows_of(lists.as_slice(), sym))?;
    drop_row(alloc, lists, sym, &at.1)?;
    let served = serves(alloc, aim, lists.as_slice(), memo, solve)?;
    if served {
        return Ok(());
    }
    put_rows(lists, sym, before);
    Ok(())
}

/// Leaves out each row in turn without which the lists serve.
pub(crate) fn leave_out<S: FnMut(&Constraint) -> Result<Option<Cert>, FmEnd>>(
    lists: &mut Vec<Constraint>,
    alloc: Global,
    aim: Aim,
    memo: &mut RankMemo,
    solve: &mut S,
) -> Result<(), NoMemory>
    requires solver { IsSolver S.FnMut solve.old }
    requires names { aim.names.now ≡ groups aim.rules.now }
    requires few { length aim.rules.now.symbols ≤ 2 ^ 32 }
    ensures solver { IsSolver S.FnMut solve.new }
    ensures lists { OnOk result (lists.new.items ≡
        left_out aim.entry.rules.now aim.entry.goal.now lists.old.items) }
{
    let tried = tried_rows(alloc, lists.as_slice())?;
    let rows = tried.as_slice();
    for at in rows {
        leave_row(lists, alloc, aim, at, memo, solve)?;
    }
    Ok(())
}
