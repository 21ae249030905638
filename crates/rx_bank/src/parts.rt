//! The parts of packed states: rows, terms and equations in which each polynomial is its number in
//! a bank, and whether all numbers of one are below a count.
ghost use Rattle.std.specs.Prelude.{◌≡◌};
ghost use Rattle.rx_bank.specs.Packing.{base_within, call_within, equation_within, equations_within};
ghost use Rattle.rx_bank.specs.Packing.{frames_within, numbers_within, row_within, rows_within, term_within};

use rx_plain::Items;
use rx_term::Sym;

/// A call or a frame: its symbol, and the numbers of its arguments.
#[derive(Drop)]
pub struct PackedCall {
    pub(crate) sym: Sym,
    pub(crate) args: Items<usize>,
}

/// What the frames of a term are over.
#[derive(Drop)]
pub enum PackedBase {
    /// A returned value, by its number.
    Return(usize),
    /// A failure with its code.
    Fail(u8),
    /// A call.
    Call(PackedCall),
}

/// A term: its frames, the outermost first, and what they are over.
#[derive(Drop)]
pub struct PackedTerm {
    pub(crate) frames: Items<PackedCall>,
    pub(crate) base: PackedBase,
}

/// What is said of the polynomial with that number.
#[derive(Drop)]
pub enum PackedRow {
    /// It is at least 0.
    Ge(usize),
    /// It is 0.
    Eq(usize),
    /// It is not 0.
    Ne(usize),
}

/// Two terms, and rows under which they are equal, or under which the left one steps to the right.
#[derive(Drop)]
pub struct PackedEquation {
    pub(crate) left: PackedTerm,
    pub(crate) right: PackedTerm,
    pub(crate) rows: Items<PackedRow>,
}

/// Whether all numbers are below the count.
fn are_within(count: usize, numbers: &[usize]) -> bool
    ensures { result ≡ numbers_within count numbers.now }
{
    numbers.iter().all(|number| *number < count)
}

impl PackedCall {
    /// Whether all its numbers are below the count.
    pub(crate) fn is_within(&self, count: usize) -> bool
        ensures { result ≡ call_within count self.now }
    {
        are_within(count, self.args.as_slice())
    }
}

impl PackedBase {
    /// Whether all its numbers are below the count.
    pub(crate) fn is_within(&self, count: usize) -> bool
        ensures { result ≡ base_within count self.now }
    {
        match self {
            PackedBase::Return(number) => *number < count,
            PackedBase::Fail(_) => true,
            PackedBase::Call(call) => call.is_within(count),
        }
    }
}

/// Whether all numbers of the frames are below the count.
fn are_frames_within(count: usize, frames: &[PackedCall]) -> bool
    ensures { result ≡ frames_within count frames.now }
{
    frames.iter().all(|frame| frame.is_within(count))
}

impl PackedTerm {
    /// Whether all its numbers are below the count.
    pub(crate) fn is_within(&self, count: usize) -> bool
        ensures { result ≡ term_within count self.now }
    {
        are_frames_within(count, self.frames.as_slice()) && self.base.is_within(count)
    }
}

impl PackedRow {
    /// Whether its number is below the count.
    pub(crate) fn is_within(&self, count: usize) -> bool
        ensures { result ≡ row_within count self.now }
    {
        match self {
            PackedRow::Ge(number) => *number < count,
            PackedRow::Eq(number) => *number < count,
            PackedRow::Ne(number) => *number < count,
        }
    }
}

/// Whether all numbers of the rows are below the count.
fn are_rows_within(count: usize, rows: &[PackedRow]) -> bool
    ensures { result ≡ rows_within count rows.now }
{
    rows.iter().all(|row| row.is_within(count))
}

impl PackedEquation {
    /// Whether all its numbers are below the count.
    pub(crate) fn is_within(&self, count: usize) -> bool
        ensures { result ≡ equation_within count self.now }
    {
        self.left.is_within(count)
            && self.right.is_within(count)
            && are_rows_within(count, self.rows.as_slice())
    }
}

/// Whether all numbers of the equations are below the count.
pub(crate) fn are_equations_within(count: usize, equations: &[PackedEquation]) -> bool
    ensures { result ≡ equations_within count equations.now }
{
    equations.iter().all(|equation| equation.is_within(count))
}
