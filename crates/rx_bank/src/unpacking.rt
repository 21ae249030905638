//! From things with the numbers of polynomials in a bank to things with these polynomials.
ghost use Rattle.std.specs.Prelude.{◌≡◌, ◌<◌, true, IfOk, length};
ghost use Rattle.rx_bank.specs.Packing.{base_at, equation_at, equations_at, frames_at, poly_at, polys_at};
ghost use Rattle.rx_bank.specs.Packing.{row_at, rows_at, rule_at, rules_at, term_at};
ghost use Rattle.rx_bank.specs.Packing.{base_within, equation_within, equations_within, frames_within};
ghost use Rattle.rx_bank.specs.Packing.{numbers_within, row_within, rows_within, term_within};

use crate::bank::Bank;
use crate::parts::{PackedBase, PackedCall, PackedEquation, PackedRow, PackedTerm};
use rx_plain::{Boxed, Items, NoMemory};
use rx_poly::Poly;
use rx_row::{Constraint, Row};
use rx_term::{Equation, Rule, Term};
use std::alloc::Global;

/// The polynomial with that number.
fn unpack_poly(bank: &Bank, alloc: Global, number: usize) -> Result<Poly, NoMemory>
    requires { number < length bank.now }
    ensures { IfOk result (λ p. p ≡ poly_at bank.now number) }
{
    let Some(poly) = bank.poly(number) else {
        unreachable!();
    };
    Ok(poly.try_clone(alloc)?)
}

/// The polynomials with these numbers, in order.
fn unpack_polys(bank: &Bank, alloc: Global, numbers: &[usize]) -> Result<Items<Poly>, NoMemory>
    requires { numbers_within (length bank.now) numbers.now ≡ true }
    ensures { IfOk result (λ ps. ps ≡ polys_at bank.now numbers.now) }
{
    let mut polys = Items::with_capacity(alloc, numbers.len())?;
    for number in numbers {
        polys.push(unpack_poly(bank, alloc, *number)?)?;
    }
    Ok(polys)
}

/// The row of the polynomial with its number.
fn unpack_row(bank: &Bank, alloc: Global, row: &PackedRow) -> Result<Row, NoMemory>
    requires { row_within (length bank.now) row.now ≡ true }
    ensures { IfOk result (λ r. r ≡ row_at bank.now row.now) }
{
    match row {
        PackedRow::Ge(number) => Ok(Row::Ge(unpack_poly(bank, alloc, *number)?)),
        PackedRow::Eq(number) => Ok(Row::Eq(unpack_poly(bank, alloc, *number)?)),
        PackedRow::Ne(number) => Ok(Row::Ne(unpack_poly(bank, alloc, *number)?)),
    }
}

/// The rows of the polynomials with their numbers, in order.
fn unpack_rows(bank: &Bank, alloc: Global, rows: &[PackedRow]) -> Result<Constraint, NoMemory>
    requires { rows_within (length bank.now) rows.now ≡ true }
    ensures { IfOk result (λ rs. rs ≡ rows_at bank.now rows.now) }
{
    let mut unpacked = Vec::with_capacity(alloc, rows.len())?;
    for row in rows {
        unpacked.push(unpack_row(bank, alloc, row)?)?;
    }
    Ok(Constraint::from_rows(unpacked))
}

/// What frames are over, with the polynomials.
fn unpack_base(bank: &Bank, alloc: Global, base: &PackedBase) -> Result<Term, NoMemory>
    requires { base_within (length bank.now) base.now ≡ true }
    ensures { IfOk result (λ t. t ≡ base_at bank.now base.now) }
{
    match base {
        PackedBase::Return(number) => Ok(Term::Return(unpack_poly(bank, alloc, *number)?)),
        PackedBase::Fail(code) => Ok(Term::Fail(*code)),
        PackedBase::Call(call) => {
            let args = unpack_polys(bank, alloc, call.args.as_slice())?;
            Ok(Term::Call(call.sym, args))
        }
    }
}

/// The frames with their polynomials, the outermost first, over the term.
fn unpack_frames(
    bank: &Bank,
    alloc: Global,
    frames: &[PackedCall],
    inner: Term,
) -> Result<Term, NoMemory>
    requires { frames_within (length bank.now) frames.now ≡ true }
    ensures { IfOk result (λ t. t ≡ frames_at bank.now frames.now inner) }
{
    let mut whole = inner;
    let mut upper = frames;
    while let Some((frame, further)) = upper.split_last() {
        let args = unpack_polys(bank, alloc, frame.args.as_slice())?;
        whole = Term::Frame(frame.sym, args, Boxed::new(alloc, whole)?);
        upper = further;
    }
    Ok(whole)
}

/// The term with the polynomials.
fn unpack_term(bank: &Bank, alloc: Global, term: &PackedTerm) -> Result<Term, NoMemory>
    requires { term_within (length bank.now) term.now ≡ true }
    ensures { IfOk result (λ t. t ≡ term_at bank.now term.now) }
{
    let base = unpack_base(bank, alloc, &term.base)?;
    unpack_frames(bank, alloc, term.frames.as_slice(), base)
}

/// Two terms and rows.
struct Sides {
    left: Term,
    right: Term,
    rows: Constraint,
}

/// Both terms and the rows with the polynomials.
fn unpack_sides(bank: &Bank, alloc: Global, packed: &PackedEquation) -> Result<Sides, NoMemory>
    requires { equation_within (length bank.now) packed.now ≡ true }
    ensures left { IfOk result (λ s. s.left ≡ term_at bank.now packed.now.left) }
    ensures right { IfOk result (λ s. s.right ≡ term_at bank.now packed.now.right) }
    ensures rows { IfOk result (λ s. s.rows ≡ rows_at bank.now packed.now.rows) }
{
    let rows = unpack_rows(bank, alloc, packed.rows.as_slice())?;
    let left = unpack_term(bank, alloc, &packed.left)?;
    let right = unpack_term(bank, alloc, &packed.right)?;
    Ok(Sides { left, right, rows })
}

/// The equation with the polynomials.
pub(crate) fn unpack_equation(
    bank: &Bank,
    alloc: Global,
    packed: &PackedEquation,
) -> Result<Equation, NoMemory>
    requires { equation_within (length bank.now) packed.now ≡ true }
    ensures { IfOk result (λ e. e ≡ equation_at bank.now packed.now) }
{
    let Sides { left, right, rows } = unpack_sides(bank, alloc, packed)?;
    Ok(Equation { left, right, rows })
}

/// The rule with the polynomials.
pub(crate) fn unpack_rule(
    bank: &Bank,
    alloc: Global,
    packed: &PackedEquation,
) -> Result<Rule, NoMemory>
    requires { equation_within (length bank.now) packed.now ≡ true }
    ensures { IfOk result (λ r. r ≡ rule_at bank.now packed.now) }
{
    let Sides { left, right, rows } = unpack_sides(bank, alloc, packed)?;
    Ok(Rule { left, right, rows })
}

/// The equations with the polynomials, in order.
pub(crate) fn unpack_equations(
    bank: &Bank,
    alloc: Global,
    packed: &[PackedEquation],
) -> Result<Vec<Equation>, NoMemory>
    requires { equations_within (length bank.now) packed.now ≡ true }
    ensures { IfOk result (λ es. es.items ≡ equations_at bank.now packed.now) }
{
    let mut equations = Vec::with_capacity(alloc, packed.len())?;
    for equation in packed {
        equations.push(unpack_equation(bank, alloc, equation)?)?;
    }
    Ok(equations)
}

/// The rules with the polynomials, in order.
pub(crate) fn unpack_rules(
    bank: &Bank,
    alloc: Global,
    packed: &[PackedEquation],
) -> Result<Vec<Rule>, NoMemory>
    requires { equations_within (length bank.now) packed.now ≡ true }
    ensures { IfOk result (λ rs. rs.items ≡ rules_at bank.now packed.now) }
{
    let mut rules = Vec::with_capacity(alloc, packed.len())?;
    for rule in packed {
        rules.push(unpack_rule(bank, alloc, rule)?)?;
    }
    Ok(rules)
}
