//! Equations as words: the two sides, and the rows.
ghost use Rattle.std.specs.Prelude.{◌≡◌, IfOk};
ghost use Rattle.rx_text.specs.Formats.{Reads};
ghost use Rattle.rx_term_words.specs.Equations.{equations};
ghost use Rattle.rx_words.specs.Substitutions.{row_lists};
ghost use Rattle.rx_term_words.specs.Terms.{terms};
ghost use Rattle.rx_words.specs.Words.{pairs};

use crate::terms::read_term;
use rx_plain::{Items, NoMemory};
use rx_row::{Constraint, Row};
use rx_term::{Equation, Term};
use rx_text::skip_word;
use rx_words::read_rows;
use std::alloc::Global;

/// A right side with the rows after it.
fn read_right(
    alloc: Global,
    bytes: &[u8],
    at: usize,
) -> Result<Option<((Term, Items<Row>), usize)>, NoMemory>
    ensures { IfOk result (λ found. Reads (pairs terms row_lists) bytes.now at found) }
{
    let Some((right, middle)) = read_term(alloc, bytes, at)? else {
        return Ok(None);
    };
    let Some(next) = skip_word(bytes, middle, b" ") else {
        return Ok(None);
    };
    match read_rows(alloc, bytes, next)? {
        Some((rows, end)) => Ok(Some(((right, rows), end))),
        None => Ok(None),
    }
}

/// The equation of the two sides under those rows.
fn equated(left: Term, right: Term, rows: Items<Row>) -> Equation
    ensures { result ≡ record { left = left; right = right; rows = rows } }
{
    let rows = Constraint::from_rows(rows.into_vec());
    Equation { left, right, rows }
}

/// The equation whose text is at the place, and the place after it: the two sides, and then how
/// many rows there are and each of them. None exactly where no such text is there.
pub fn read_equation(
    alloc: Global,
    bytes: &[u8],
    at: usize,
) -> Result<Option<(Equation, usize)>, NoMemory>
    ensures { IfOk result (λ found. Reads equations bytes.now at found) }
{
    let Some((left, middle)) = read_term(alloc, bytes, at)? else {
        return Ok(None);
    };
    let Some(next) = skip_word(bytes, middle, b" ") else {
        return Ok(None);
    };
    match read_right(alloc, bytes, next)? {
        Some(((right, rows), end)) => Ok(Some((equated(left, right, rows), end))),
        None => Ok(None),
    }
}
