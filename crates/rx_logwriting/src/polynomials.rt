//! Polynomials and rows: all are normal forms within the limits, and have a text where their
//! variables are small enough.
ghost use Rattle.std.specs.Prelude.{◌≡◌};
ghost use Rattle.std.specs.List.{list_all};
ghost use Rattle.rx_text.specs.Polynomials.{is_readable_poly};
ghost use Rattle.rx_text.specs.Rows.{is_readable_row};
ghost use Rattle.rx_words.specs.Substitutions.{row_lists};

use crate::lists::is_count;
use rx_poly::{Poly, uses_below};
use rx_row::Row;

/// The first variable without a text.
const VARIABLES: u32 = 1_000_000;

/// Whether the polynomial has a text: whether all its variables, at every level, are below
/// 1,000,000.
pub fn poly_has_text(poly: &Poly) -> bool
    ensures { result ≡ is_readable_poly poly.now }
{
    let _normal_form = poly.body();
    uses_below(poly, VARIABLES)
}

/// Whether all of the polynomials have a text.
pub fn polys_have_text(polys: &[Poly]) -> bool
    ensures { result ≡ list_all is_readable_poly polys.now }
{
    for poly in polys {
        if !poly_has_text(poly) {
            return false;
        }
    }
    true
}

/// Whether the row has a text: whether its polynomial has.
pub fn row_has_text(row: &Row) -> bool
    ensures { result ≡ is_readable_row row.now }
{
    poly_has_text(row.poly())
}

/// Whether all of the rows have a text.
fn each_row_has_text(rows: &[Row]) -> bool
    ensures { result ≡ list_all is_readable_row rows.now }
{
    for row in rows {
        if !row_has_text(row) {
            return false;
        }
    }
    true
}

/// Whether the list of rows has a text: whether each of them has, and they are few enough.
pub fn rows_have_text(rows: &[Row]) -> bool
    ensures { result ≡ row_lists.in_range rows.now }
{
    is_count(rows.len()) && each_row_has_text(rows)
}
