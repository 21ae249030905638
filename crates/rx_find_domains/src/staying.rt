//! Whether a row of a symbol's list is shown at an occurrence of the symbol; else it is dropped.
ghost use Rattle.std.specs.Prelude.{◌≡◌, IfOk, OnOk, slice_set};
ghost use Rattle.rx_cert.specs.Showing.{shown};
ghost use Rattle.rx_solve.specs.Answers.{IsSolver};
ghost use Rattle.rx_solve.specs.Refuter.{refuted};
ghost use Rattle.rx_pairs.specs.Pairs.{part};
ghost use Rattle.rx_find_domains.specs.Finding.{at_occurrence, given_rows, is_kept, is_yes, others, without};

use crate::given::{Given, given_rows, rows_of};
use rx_cert::Cert;
use rx_fm::FmEnd;
use rx_plain::{Items, NoMemory};
use rx_poly::{Poly, PolyEnd};
use rx_row::{Constraint, Row};
use rx_solve::{AllShown, show_all};
use rx_term::Sym;
use std::alloc::Global;

/// Whether the solver shows the row; not where something passes the limits.
fn is_shown<S: FnMut(&Constraint) -> Result<Option<Cert>, FmEnd>>(
    alloc: Global,
    given: &Constraint,
    row: Row,
    solve: &mut S,
) -> Result<bool, NoMemory>
    requires solver { IsSolver S.FnMut solve.old }
    ensures solver { IsSolver S.FnMut solve.new }
    ensures shown { IfOk result (λ b. b ≡ is_yes (shown refuted given.now row)) }
{
    let rows = [row];
    match show_all(alloc, given, rows.as_slice(), solve)? {
        AllShown::Shown(_) => Ok(true),
        AllShown::NotShown => Ok(false),
        AllShown::TooLarge => Ok(false),
    }
}

/// Whether the row is formed at the arguments, and shown there.
fn is_kept<S: FnMut(&Constraint) -> Result<Option<Cert>, FmEnd>>(
    alloc: Global,
    given: &Constraint,
    args: &[Poly],
    row: &Row,
    solve: &mut S,
) -> Result<bool, NoMemory>
    requires solver { IsSolver S.FnMut solve.old }
    ensures solver { IsSolver S.FnMut solve.new }
    ensures kept { IfOk result (λ b. b ≡ is_kept given.now args.now row.now) }
{
    match row.at_args(alloc, args) {
        Ok(instance) => is_shown(alloc, given, instance, solve),
        Err(PolyEnd::Large) => Ok(false),
        Err(PolyEnd::NoMemory) => Err(NoMemory),
    }
}

/// The rows but that one.
fn others(alloc: Global, rows: &[Row], row: &Row) -> Result<Constraint, NoMemory>
    ensures { IfOk result (λ left. left ≡ others row.now rows.now) }
{
    let mut left = Constraint::from_rows(Vec::new(alloc));
    for other in rows {
        if other == row {
            continue;
        }
        left.append(other.try_clone(alloc)?)?;
    }
    Ok(left)
}

/// Sets the list of the symbol, where there is one. Takes no memory.
pub fn put_rows(lists: &mut Vec<Constraint>, sym: Sym, rows: Constraint)
    ensures { lists.new.items ≡ slice_set lists.old.items sym.0 rows }
{
    let at = sym.0 as usize;
    if at < lists.len() {
        lists[at] = rows;
    }
}

/// Drops the row from the list of the symbol. Fails only where there is no memory.
pub fn drop_row(
    alloc: Global,
    lists: &mut Vec<Constraint>,
    sym: Sym,
    row: &Row,
) -> Result<(), NoMemory>
    ensures { OnOk result (lists.new.items ≡ without lists.old.items sym.0 row.now) }
{
    let left = others(alloc, rows_of(lists.as_slice(), sym), row)?;
    put_rows(lists, sym, left);
    Ok(())
}

/// Whether the row is shown at the arguments, where the rows are given by the lists as they are.
fn stays<S: FnMut(&Constraint) -> Result<Option<Cert>, FmEnd>>(
    alloc: Global,
    given: &Given,
    lists: &[Constraint],
    args: &[Poly],
    row: &Row,
    solve: &mut S,
) -> Result<bool, NoMemory>
    requires solver { IsSolver S.FnMut solve.old }
    ensures solver { IsSolver S.FnMut solve.new }
    ensures kept { IfOk result (λ b. b ≡
        is_kept (given_rows given.now lists.now) args.now row.now) }
{
    let rows = given_rows(alloc, given, lists)?;
    is_kept(alloc, &rows, args, row, solve)
}

/// The same rows once more.
fn copied_rows(alloc: Global, rows: &[Row]) -> Result<Items<Row>, NoMemory>
    ensures { IfOk result (λ made. made ≡ rows.now) }
{
    let mut made = Items::new(alloc);
    for row in rows {
        made.push(row.try_clone(alloc)?)?;
    }
    Ok(made)
}

/// Goes over one occurrence of the symbol: each row of its list, as it is before, that isn't shown
/// at these arguments is dropped at once.
pub(crate) fn visit_occurrence<S: FnMut(&Constraint) -> Result<Option<Cert>, FmEnd>>(
    alloc: Global,
    given: &Given,
    sym: Sym,
    args: &[Poly],
    lists: &mut Vec<Constraint>,
    solve: &mut S,
) -> Result<(), NoMemory>
    requires solver { IsSolver S.FnMut solve.old }
    ensures solver { IsSolver S.FnMut solve.new }
    ensures lists { OnOk result (lists.new.items ≡
        at_occurrence given.now lists.old.items (part sym args.now)) }
{
    let rows = copied_rows(alloc, rows_of(lists.as_slice(), sym))?;
    let listed = rows.as_slice();
    for row in listed {
        if stays(alloc, given, lists.as_slice(), args, row, solve)? {
            continue;
        }
        drop_row(alloc, lists, sym, row)?;
    }
    Ok(())
}
