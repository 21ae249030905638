//! Lists of rows by group, which take up more rows.
ghost use Rattle.std.specs.Prelude.{◌≡◌, OnOk, slice_get};
ghost use Rattle.rx_plain.specs.Formed.{Formed, Forms, pure};
ghost use Rattle.rx_wider_domains.specs.Groups.{group_rows, has_variable, taking};

use rx_find_domains::rows_of;
use rx_plain::NoMemory;
use rx_poly::PolyEnd;
use rx_row::{Constraint, Row};
use rx_term::Sym;

/// Whether the row has a variable.
fn has_variable(row: &Row) -> bool
    ensures { result ≡ has_variable row.now }
{
    row.variable_bound() > 0
}

/// Adds the row behind the others, unless it is one of them or has no variable.
pub(crate) fn take(rows: &mut Constraint, row: Row) -> Result<(), NoMemory>
    ensures { OnOk result (rows.new ≡ taking rows.old (pure row)) }
{
    if !has_variable(&row) {
        return Ok(());
    }
    rows.push(row)
}

/// The same with a row that is formed; one that passes the limits is left out.
pub(crate) fn take_formed(rows: &mut Constraint, made: Result<Row, PolyEnd>) -> Result<(), NoMemory>
    ensures { (row : Formed Row) → Forms PolyEnd.Large made row →
        OnOk result (rows.new ≡ taking rows.old row) }
{
    match made {
        Ok(row) => take(rows, row),
        Err(PolyEnd::Large) => Ok(()),
        Err(PolyEnd::NoMemory) => Err(NoMemory),
    }
}

/// The number of the list of the symbol's group, if it has one.
pub(crate) fn list_number(names: &[u32], sym: Sym) -> Option<usize>
    ensures { result ≡ slice_get names.now sym.0 }
{
    match names.get(sym.0 as usize) {
        Some(name) => Some(*name as usize),
        None => None,
    }
}

/// The rows of the symbol's group, borrowed; empty where it has none.
pub(crate) fn group_rows<'a>(names: &[u32], lists: &'a [Constraint], sym: Sym) -> &'a [Row]
    ensures { result.now ≡ group_rows names.now lists.now sym.0 }
{
    match names.get(sym.0 as usize) {
        Some(name) => rows_of(lists, Sym(*name)),
        None => &[],
    }
}
