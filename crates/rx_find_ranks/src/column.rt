//! Columns of a table as they are found.
ghost use Rattle.std.specs.Prelude.{◌≡◌, IfOk};
ghost use Rattle.rx_find_ranks.specs.Columns.{column_of, height_column, value_at};

use rx_anchors::polynomial_of;
use rx_plain::NoMemory;
use rx_poly::Poly;
use std::alloc::Global;

/// A column as it is found. Heights stay numbers until a table is made of the columns.
#[derive(Drop)]
pub enum FoundColumn {
    /// By symbol the height of its component.
    Heights(Vec<u32>),
    /// By symbol its polynomial, if it has one.
    Polynomials(Vec<Option<Poly>>),
}

/// The symbol's height as a polynomial, -1 where it has none.
fn height_at(alloc: Global, heights: &[u32], symbol: u32) -> Result<Poly, NoMemory>
    ensures { IfOk result (λ poly. poly ≡ value_at symbol (height_column heights.now)) }
{
    match heights.get(symbol as usize) {
        Some(height) => Ok(Poly::constant(alloc, i128::from(*height))?),
        None => Ok(Poly::constant(alloc, -1)?),
    }
}

/// The symbol's polynomial, -1 where it has none.
fn polynomial_at(alloc: Global, values: &[Option<Poly>], symbol: u32) -> Result<Poly, NoMemory>
    ensures { IfOk result (λ poly. poly ≡ value_at symbol values.now) }
{
    match polynomial_of(values, symbol) {
        Some(poly) => Ok(poly.try_clone(alloc)?),
        None => Ok(Poly::constant(alloc, -1)?),
    }
}

/// What the symbol has in the column, -1 where it has nothing.
pub(crate) fn value_at(alloc: Global, column: &FoundColumn, symbol: u32) -> Result<Poly, NoMemory>
    ensures { IfOk result (λ poly. poly ≡ value_at symbol (column_of column.now)) }
{
    match column {
        FoundColumn::Heights(heights) => height_at(alloc, heights.as_slice(), symbol),
        FoundColumn::Polynomials(values) => polynomial_at(alloc, values.as_slice(), symbol),
    }
}
