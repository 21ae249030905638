//! The variables of rows.
ghost use Rattle.std.specs.Prelude.{◌≡◌};
ghost use Rattle.rx_row.specs.Variables.{row_bound, row_uses_below, rows_bound, rows_use_below};

use crate::constraint::Constraint;
use crate::row::Row;
use rx_poly::{uses_below, variable_bound};

impl Row {
    /// Whether all variables of the row, at every level, are below the number. Takes no memory.
    pub fn uses_below(&self, bound: u32) -> bool
        ensures { result ≡ row_uses_below bound self.now }
    {
        uses_below(self.poly(), bound)
    }

    /// The least number above all variables of the row, at every level; 0 where it has none. Takes
    /// no memory.
    pub fn variable_bound(&self) -> u64
        ensures { result ≡ row_bound self.now }
    {
        variable_bound(self.poly())
    }
}

/// Whether all variables of the rows are below the number. Takes no memory.
pub fn rows_use_below(rows: &[Row], bound: u32) -> bool
    ensures { result ≡ rows_use_below bound rows.now }
{
    for row in rows {
        if !uses_below(row.poly(), bound) {
            return false;
        }
    }
    true
}

/// The least number above all variables of the rows; 0 where there is none. Takes no memory.
pub fn rows_bound(rows: &[Row]) -> u64
    ensures { result ≡ rows_bound rows.now }
{
    let mut bound = 0;
    for row in rows {
        bound = row.variable_bound().max(bound);
    }
    bound
}

impl Constraint {
    /// Whether all variables of the rows are below the number. Takes no memory.
    pub fn uses_below(&self, bound: u32) -> bool
        ensures { result ≡ rows_use_below bound self.now }
    {
        rows_use_below(self.rows(), bound)
    }

    /// The least number above all variables of the rows; 0 where there is none. Takes no memory.
    pub fn variable_bound(&self) -> u64
        ensures { result ≡ rows_bound self.now }
    {
        rows_bound(self.rows())
    }
}
