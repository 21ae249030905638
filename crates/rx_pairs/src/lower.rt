//! Whether a pair is lower by a column of the table.
ghost use Rattle.std.specs.Prelude.{◌≡◌, ◌++◌, IfOk, IfErr};
ghost use Rattle.rx_cert.specs.Findings.{Beyond, said};
ghost use Rattle.rx_pairs.specs.Columns.{falls_rows, holds_rows};
ghost use Rattle.rx_pairs.specs.Lowering.{column_finding, has_column, lower_finding, lower_rows, prefixed};
ghost use Rattle.rx_pairs.specs.Ranks.{columns_of};
ghost use Rattle.rx_plain.specs.Formed.{FormsAs};

use crate::columns::{fall_rows, hold_row};
use crate::pair::Pair;
use crate::pair_cert::PairCert;
use crate::table::RankTable;
use rx_cert::{Cert, ConditionsAnswer, check_conditions};
use rx_poly::{Poly, PolyEnd};
use rx_row::{Constraint, Row};
use rx_term::Sym;
use std::alloc::{AllocError, Global};

/// The row of a column that is to hold, if it asks for one, after the others.
fn push_hold(
    rows: &mut Vec<Row>,
    alloc: Global,
    pair: &Pair,
    left: &Poly,
    right: &Poly,
) -> Result<(), PolyEnd>
    ensures { FormsAs (λ _. rows.new.items) PolyEnd.Large result
        (prefixed rows.old.items (holds_rows pair.now left.now right.now)) }
{
    if let Some(row) = hold_row(alloc, pair, left, right)? {
        rows.push(row).map_err(AllocError::from)?;
    }
    Ok(())
}

/// The rows of the column that is to fall after the others.
fn push_falls(
    rows: &mut Vec<Row>,
    alloc: Global,
    pair: &Pair,
    left: &Poly,
    right: &Poly,
) -> Result<(), PolyEnd>
    ensures { FormsAs (λ _. rows.new.items) PolyEnd.Large result
        (prefixed rows.old.items (falls_rows pair.now left.now right.now)) }
{
    let (first, second) = fall_rows(alloc, pair, left, right)?;
    rows.push(first).map_err(AllocError::from)?;
    rows.push(second).map_err(AllocError::from)?;
    Ok(())
}

/// The rows that are asked for by the column with that number.
fn asked_rows(
    alloc: Global,
    pair: &Pair,
    column: u32,
    left: &[Poly],
    right: &[Poly],
) -> Result<Vec<Row>, PolyEnd>
    ensures { FormsAs (λ rows. rows.items) PolyEnd.Large result
        (lower_rows pair.now column left.now right.now) }
{
    let mut rows = Vec::new(alloc);
    let mut rest = left;
    let mut others = right;
    let mut number = column;
    while number > 0 {
        let Some((here, more)) = rest.split_first() else {
            return Ok(rows);
        };
        let Some((there, further)) = others.split_first() else {
            return Ok(rows);
        };
        if number == 1 {
            push_falls(&mut rows, alloc, pair, here, there)?;
            return Ok(rows);
        }
        push_hold(&mut rows, alloc, pair, here, there)?;
        rest = more;
        others = further;
        number -= 1;
    }
    Ok(rows)
}

/// Whether there is a column with that number, counted from 1, in both ranks.
fn is_column(column: u32, left: &[Poly], right: &[Poly]) -> bool
    ensures { result ≡ has_column column left.now right.now }
{
    0 < column && column as usize <= left.len() && column as usize <= right.len()
}

/// Whether the pair is lower by that column of the ranks of its two symbols.
fn is_lower_by(
    alloc: Global,
    pair: &Pair,
    column: u32,
    left: &[Poly],
    right: &[Poly],
    certs: &[Cert],
) -> Result<bool, PolyEnd>
    ensures answer { IfOk result (λ b. column_finding pair.now column left.now right.now certs.now ≡
        said b) }
    ensures large { IfErr result (λ e. e ≡ PolyEnd.Large →
        column_finding pair.now column left.now right.now certs.now ≡ Beyond) }
{
    if !is_column(column, left, right) {
        return Ok(false);
    }
    let rows = asked_rows(alloc, pair, column, left, right)?;
    match check_conditions(alloc, &pair.phi, rows.as_slice(), certs)? {
        ConditionsAnswer::Shown => Ok(true),
        ConditionsAnswer::WrongCount => Ok(false),
        ConditionsAnswer::NotShown(_) => Ok(false),
    }
}

/// The columns of the symbol's rank, none where the table has no rank of it.
fn columns(table: &RankTable, sym: Sym) -> &[Poly]
    ensures { result.now ≡ columns_of table.now sym.0 }
{
    match table.ranks.as_slice().get(sym.0 as usize) {
        Some(rank) => rank.as_slice(),
        None => &[],
    }
}

/// Whether the pair is lower by the certificate's column: all columns before it hold, and it falls,
/// each row that this asks for being plain or shown by the next certificate under the pair's rows.
/// False too where there is no such column. Large exactly where one of these rows, or the
/// examination of a certificate before another answer is found, passes the limits.
pub fn is_lower(
    alloc: Global,
    pair: &Pair,
    table: &RankTable,
    cert: &PairCert,
) -> Result<bool, PolyEnd>
    ensures answer { IfOk result (λ b. lower_finding pair.now table.now cert.now ≡ said b) }
    ensures large { IfErr result (λ e. e ≡ PolyEnd.Large →
        lower_finding pair.now table.now cert.now ≡ Beyond) }
{
    let left = columns(table, pair.left);
    let right = columns(table, pair.right);
    is_lower_by(alloc, pair, cert.column, left, right, cert.certs.as_slice())
}
