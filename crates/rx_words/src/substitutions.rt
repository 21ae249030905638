//! Substitutions and lists of rows as words.
ghost use Rattle.std.specs.Prelude.{◌≡◌, ◌++◌, IfOk, OnOk};
ghost use Rattle.rx_text.specs.Formats.{Reads};
ghost use Rattle.rx_words.specs.Substitutions.{row_lists, substitutions};

use crate::lists::{push_list, read_list};
use crate::numbers::Variable;
use crate::pairs::read_pair;
use crate::text::Text;
use rx_plain::{Items, NoMemory};
use rx_poly::Poly;
use rx_row::Row;
use rx_text::{push_natural, push_poly, push_word};
use std::alloc::Global;

/// What was read, with the variable as its number.
fn numbered(found: Option<((Variable, Poly), usize)>) -> Option<((u32, Poly), usize)>
    ensures { result ≡ found }
{
    match found {
        Some(((Variable(var), poly), end)) => Some(((var, poly), end)),
        None => None,
    }
}

impl Text for (u32, Poly) {
    ghost use Rattle.rx_text.specs.Polynomials.{polynomials};
    ghost use Rattle.rx_words.specs.Words as spec;

    ghost text = { (spec.pairs spec.variables (spec.word polynomials)).text };

    ghost in_range = { (spec.pairs spec.variables (spec.word polynomials)).in_range };

    fn read(
        alloc: Global,
        bytes: &[u8],
        at: usize,
    ) -> Result<Option<((u32, Poly), usize)>, NoMemory> {
        let found = read_pair::<Variable, Poly>(alloc, bytes, at)?;
        Ok(numbered(found))
    }

    fn push_text(&self, out: &mut Vec<u8>) -> Result<(), NoMemory> {
        push_natural(out, self.0)?;
        push_word(out, b" ")?;
        push_poly(out, &self.1)
    }
}

/// The substitution whose text is at the place, and the place after it: how many variables are
/// replaced, then for each its number, below 1,000,000, and the polynomial in its place. None
/// exactly where no such text is there.
pub fn read_subst(
    alloc: Global,
    bytes: &[u8],
    at: usize,
) -> Result<Option<(Items<(u32, Poly)>, usize)>, NoMemory>
    ensures { IfOk result (λ found. Reads substitutions bytes.now at found) }
{
    read_list(alloc, bytes, at)
}

/// Writes the text of the substitution after what was written before. Fails only when out of
/// memory, and then some of the text may have been written.
pub fn push_subst(pairs: &[(u32, Poly)], out: &mut Vec<u8>) -> Result<(), NoMemory>
    ensures { OnOk result (out.new.items ≡ out.old.items ++ substitutions.text pairs.now) }
{
    push_list(pairs, out)
}

/// The rows whose text is at the place, how many and then each of them, and the place after it.
/// None exactly where no such text is there.
pub fn read_rows(
    alloc: Global,
    bytes: &[u8],
    at: usize,
) -> Result<Option<(Items<Row>, usize)>, NoMemory>
    ensures { IfOk result (λ found. Reads row_lists bytes.now at found) }
{
    read_list(alloc, bytes, at)
}

/// Writes the text of the rows after what was written before. Fails only when out of memory, and
/// then some of the text may have been written.
pub fn push_rows(rows: &[Row], out: &mut Vec<u8>) -> Result<(), NoMemory>
    ensures { OnOk result (out.new.items ≡ out.old.items ++ row_lists.text rows.now) }
{
    push_list(rows, out)
}
