//! The rows of a symbol: those of its group that are over its own arguments.
ghost use Rattle.std.specs.Prelude.{◌≡◌, ◌≤◌, ◌^◌, length, take, IfOk};
ghost use Rattle.std.specs.List.{filter};
ghost use Rattle.rx_row.specs.Variables.{row_uses_below};
ghost use Rattle.rx_wider_domains.specs.Groups.{by_symbol_from, most_rows, rows_over, symbol_rows};

use crate::group_lists::group_rows;
use rx_plain::NoMemory;
use rx_row::{Constraint, Row};
use rx_term::{Sym, SymInfo};
use std::alloc::Global;

/// The most rows that a domain may begin with.
const MOST_ROWS: usize = 24;

/// Those of the rows that are over so many arguments.
fn rows_below(alloc: Global, rows: &[Row], arity: u32) -> Result<Constraint, NoMemory>
    ensures { IfOk result (λ some. some ≡ filter (row_uses_below arity) rows.now) }
{
    let mut some = Constraint::from_rows(Vec::new(alloc));
    for row in rows {
        if row.uses_below(arity) {
            some.append(row.try_clone(alloc)?)?;
        }
    }
    Ok(some)
}

/// The rows of the symbol's group that are over its own arguments.
pub(crate) fn symbol_rows(
    alloc: Global,
    names: &[u32],
    symbols: &[SymInfo],
    lists: &[Constraint],
    sym: Sym,
) -> Result<Constraint, NoMemory>
    ensures { IfOk result (λ rows. rows ≡ symbol_rows names.now symbols.now lists.now sym.0) }
{
    match symbols.get(sym.0 as usize) {
        Some(info) => rows_below(alloc, group_rows(names, lists, sym), info.arity),
        None => Ok(Constraint::from_rows(Vec::new(alloc))),
    }
}

/// The first of these rows, as many as a domain may begin with.
fn first_rows(
    alloc: Global,
    names: &[u32],
    lists: &[Constraint],
    sym: Sym,
    arity: u32,
) -> Result<Constraint, NoMemory>
    ensures { IfOk result (λ rows. rows ≡
        take most_rows (rows_over names.now lists.now sym.0 arity)) }
{
    let mut rows = rows_below(alloc, group_rows(names, lists, sym), arity)?;
    rows.truncate(MOST_ROWS);
    Ok(rows)
}

/// The rows that the domain of each symbol begins with, in order.
pub(crate) fn rows_by_symbol(
    alloc: Global,
    names: &[u32],
    symbols: &[SymInfo],
    lists: &[Constraint],
) -> Result<Vec<Constraint>, NoMemory>
    requires { length symbols.now ≤ 2 ^ 32 }
    ensures { IfOk result (λ made. made.items ≡
        by_symbol_from names.now lists.now 0 symbols.now) }
{
    let mut made = Vec::new(alloc);
    for (sym, info) in symbols.iter().enumerate() {
        made.push(first_rows(alloc, names, lists, Sym(sym as u32), info.arity)?)?;
    }
    Ok(made)
}
