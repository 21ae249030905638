//! Rows as text.
ghost use Rattle.std.specs.Prelude.{◌≡◌, ◌++◌, IfOk, OnOk};
ghost use Rattle.rx_text.specs.Formats.{Reads};
ghost use Rattle.rx_text.specs.Rows.{row_format, row_text, row_word};

use crate::poly_reader::read_poly;
use crate::poly_writer::push_poly;
use crate::words::{push_word, skip_word};
use rx_plain::NoMemory;
use rx_row::Row;
use std::alloc::Global;

/// The row whose text is at the place, and the place after it. None where no text of a row is
/// there; of its polynomial as `read_poly` says.
pub fn read_row(alloc: Global, bytes: &[u8], at: usize) -> Result<Option<(Row, usize)>, NoMemory>
    ensures { IfOk result (λ read. Reads row_format bytes.now at read) }
{
    if let Some(after) = skip_word(bytes, at, b"ge:") {
        return match read_poly(alloc, bytes, after)? {
            Some((poly, end)) => Ok(Some((Row::Ge(poly), end))),
            None => Ok(None),
        };
    }
    if let Some(after) = skip_word(bytes, at, b"eq:") {
        return match read_poly(alloc, bytes, after)? {
            Some((poly, end)) => Ok(Some((Row::Eq(poly), end))),
            None => Ok(None),
        };
    }
    if let Some(after) = skip_word(bytes, at, b"ne:") {
        return match read_poly(alloc, bytes, after)? {
            Some((poly, end)) => Ok(Some((Row::Ne(poly), end))),
            None => Ok(None),
        };
    }
    Ok(None)
}

/// What a row says of its polynomial, as a word.
fn word_of(row: &Row) -> &'static [u8]
    ensures { result.now ≡ row_word row.now }
{
    match row {
        Row::Ge(_) => b"ge:",
        Row::Eq(_) => b"eq:",
        Row::Ne(_) => b"ne:",
    }
}

/// Adds the text of the row after the bytes; fails only where there is no memory.
pub fn push_row(out: &mut Vec<u8>, row: &Row) -> Result<(), NoMemory>
    ensures { OnOk result (out.new.items ≡ out.old.items ++ row_text row.now) }
{
    push_word(out, word_of(row))?;
    push_poly(out, row.poly())
}
