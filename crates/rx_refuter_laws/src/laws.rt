//! Laws of the refuter's leaves.
ghost use Rattle.std.specs.Prelude.{◌≡◌, true, List};
ghost use Rattle.rx_row.specs.declared.row.Row.{Row};
ghost use Rattle.rx_cert.specs.Findings.{No, Yes};
ghost use Rattle.rx_solve.specs.Refuter.{refuted};
ghost use Rattle.rx_refuter_laws.specs.Leaves.{HasOpenLeaf, IsClosed, Leaf, have_polys};

use rx_row::Row;

/// Rows of polynomials that the refuter doesn't refute, within its limits, have an open leaf: the
/// elimination finds no multipliers of that leaf's rows that show a contradiction, and there are
/// none.
pub fn no_has_an_open_leaf()
    ensures { (rows : List Row) → have_polys rows ≡ true → refuted rows ≡ No → HasOpenLeaf rows }
{}

/// All leaves of rows that it refutes are closed.
pub fn yes_closes_all_leaves()
    ensures { (rows leaf : List Row) → refuted rows ≡ Yes → Leaf rows leaf → IsClosed leaf }
{}

/// All rows that a program holds are rows of polynomials, so they are what the first law asks.
pub fn rows_have_polynomials(rows: &[Row])
    ensures { have_polys rows.now ≡ true }
{
    for row in rows {
        let _ = row.poly().body();
    }
}
