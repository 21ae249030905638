//! Numbers, polynomials and rows as words.
ghost use Rattle.std.specs.Prelude.{◌≡◌, ℕ, Bool, List};
ghost use Rattle.std.specs.Coded.{Coded, coded_ℕ};
ghost use Rattle.rx_text.specs.Formats.{Reads};
ghost use Rattle.rx_words.specs.Words.{numbers, variables};

use crate::places::ending_word;
use crate::text::Text;
use rx_plain::NoMemory;
use rx_poly::Poly;
use rx_row::Row;
use rx_text::{
    push_integer, push_natural, push_poly, push_row, read_integer, read_natural, read_poly,
    read_row,
};
use std::alloc::Global;
use std::marker::Model;

/// The number of u32 whose text is the word at the place, and the place after it.
pub fn read_number(bytes: &[u8], at: usize) -> Option<(u32, usize)>
    ensures { Reads numbers bytes.now at result }
{
    ending_word(bytes, read_natural(bytes, at, u32::MAX))
}

impl Text for u32 {
    ghost use Rattle.rx_words.specs.Words as spec;

    ghost text = { spec.numbers.text };

    ghost in_range = { spec.numbers.in_range };

    fn read(_alloc: Global, bytes: &[u8], at: usize) -> Result<Option<(u32, usize)>, NoMemory> {
        Ok(read_number(bytes, at))
    }

    fn push_text(&self, out: &mut Vec<u8>) -> Result<(), NoMemory> {
        push_natural(out, *self)
    }
}

/// The number of a variable.
#[derive(Drop)]
pub(crate) struct Variable(pub(crate) u32);

impl Model for Variable {
    ghost Value = { ℕ };

    ghost coded = { coded_ℕ };

    ghost view = { λ variable. variable.0 };
}

impl Text for Variable {
    ghost use Rattle.rx_words.specs.Words as spec;

    ghost text = { spec.variables.text };

    ghost in_range = { spec.variables.in_range };

    fn read(
        _alloc: Global,
        bytes: &[u8],
        at: usize,
    ) -> Result<Option<(Variable, usize)>, NoMemory> {
        match ending_word(bytes, read_natural(bytes, at, 999_999)) {
            Some((number, end)) => Ok(Some((Variable(number), end))),
            None => Ok(None),
        }
    }

    fn push_text(&self, out: &mut Vec<u8>) -> Result<(), NoMemory> {
        push_natural(out, self.0)
    }
}

impl Text for i128 {
    ghost use Rattle.rx_text.specs.Numbers as number;

    ghost text = { number.integers.text };

    ghost in_range = { number.integers.in_range };

    fn read(_alloc: Global, bytes: &[u8], at: usize) -> Result<Option<(i128, usize)>, NoMemory> {
        Ok(ending_word(bytes, read_integer(bytes, at)))
    }

    fn push_text(&self, out: &mut Vec<u8>) -> Result<(), NoMemory> {
        push_integer(out, self)
    }
}

impl Text for Poly {
    ghost use Rattle.rx_text.specs.Polynomials as poly;

    ghost text = { poly.polynomials.text };

    ghost in_range = { poly.polynomials.in_range };

    fn read(alloc: Global, bytes: &[u8], at: usize) -> Result<Option<(Poly, usize)>, NoMemory> {
        Ok(ending_word(bytes, read_poly(alloc, bytes, at)?))
    }

    fn push_text(&self, out: &mut Vec<u8>) -> Result<(), NoMemory> {
        push_poly(out, self)
    }
}

impl Text for Row {
    ghost use Rattle.rx_text.specs.Rows as row;

    ghost text = { row.row_format.text };

    ghost in_range = { row.row_format.in_range };

    fn read(alloc: Global, bytes: &[u8], at: usize) -> Result<Option<(Row, usize)>, NoMemory> {
        Ok(ending_word(bytes, read_row(alloc, bytes, at)?))
    }

    fn push_text(&self, out: &mut Vec<u8>) -> Result<(), NoMemory> {
        push_row(out, self)
    }
}
