//! From things with polynomials to things with the numbers of these in a bank. Each call only adds
//! to the bank: polynomials that had numbers keep them, also where memory runs out.
ghost use Rattle.std.specs.Prelude.{IfOk};
ghost use Rattle.rx_bank.specs.Numbers.{KeepsNumbers};
ghost use Rattle.rx_bank.specs.Packing.{StandsAs, equation_at, equation_within, equations_at, equations_within};
ghost use Rattle.rx_bank.specs.Packing.{numbers_within, polys_at, row_at, row_within, rows_at, rows_within};
ghost use Rattle.rx_bank.specs.Packing.{rule_at, rules_at, term_at, term_within};

use crate::bank::Bank;
use crate::parts::{PackedBase, PackedCall, PackedEquation, PackedRow, PackedTerm};
use rx_plain::{Items, NoMemory};
use rx_poly::Poly;
use rx_row::Row;
use rx_steps::State;
use rx_term::{Equation, Rule, Term};
use std::alloc::Global;

/// The numbers of the polynomials, in order.
fn pack_polys(bank: &mut Bank, alloc: Global, polys: &[Poly]) -> Result<Items<usize>, NoMemory>
    ensures numbers { IfOk result (λ ns. StandsAs numbers_within polys_at bank.new ns polys.now) }
    ensures stay { KeepsNumbers bank.old bank.new }
{
    let mut numbers = Items::with_capacity(alloc, polys.len())?;
    for poly in polys {
        numbers.push(bank.number(alloc, poly)?)?;
    }
    Ok(numbers)
}

/// The row with its polynomial's number.
fn pack_row(bank: &mut Bank, alloc: Global, row: &Row) -> Result<PackedRow, NoMemory>
    ensures row { IfOk result (λ r. StandsAs row_within row_at bank.new r row.now) }
    ensures stay { KeepsNumbers bank.old bank.new }
{
    let number = bank.number(alloc, row.poly())?;
    Ok(match row {
        Row::Ge(_) => PackedRow::Ge(number),
        Row::Eq(_) => PackedRow::Eq(number),
        Row::Ne(_) => PackedRow::Ne(number),
    })
}

/// The rows with the numbers of their polynomials, in order.
fn pack_rows(bank: &mut Bank, alloc: Global, rows: &[Row]) -> Result<Items<PackedRow>, NoMemory>
    ensures rows { IfOk result (λ rs. StandsAs rows_within rows_at bank.new rs rows.now) }
    ensures stay { KeepsNumbers bank.old bank.new }
{
    let mut packed = Items::with_capacity(alloc, rows.len())?;
    for row in rows {
        packed.push(pack_row(bank, alloc, row)?)?;
    }
    Ok(packed)
}

/// The term with the numbers of its polynomials.
fn pack_term(bank: &mut Bank, alloc: Global, term: &Term) -> Result<PackedTerm, NoMemory>
    ensures term { IfOk result (λ t. StandsAs term_within term_at bank.new t term.now) }
    ensures stay { KeepsNumbers bank.old bank.new }
{
    let mut here = term;
    let mut frames = Items::new(alloc);
    loop {
        match here {
            Term::Return(value) => {
                let base = PackedBase::Return(bank.number(alloc, value)?);
                return Ok(PackedTerm { frames, base });
            }
            Term::Fail(code) => {
                let base = PackedBase::Fail(*code);
                return Ok(PackedTerm { frames, base });
            }
            Term::Call(sym, args) => {
                let args = pack_polys(bank, alloc, args.as_slice())?;
                let base = PackedBase::Call(PackedCall { sym: *sym, args });
                return Ok(PackedTerm { frames, base });
            }
            Term::Frame(sym, args, inner) => {
                let args = pack_polys(bank, alloc, args.as_slice())?;
                frames.push(PackedCall { sym: *sym, args })?;
                here = inner.get();
            }
        }
    }
}

/// The equation with the numbers of its polynomials.
pub(crate) fn pack_equation(
    bank: &mut Bank,
    alloc: Global,
    equation: &Equation,
) -> Result<PackedEquation, NoMemory>
    ensures equation { IfOk result (λ e.
        StandsAs equation_within equation_at bank.new e equation.now) }
    ensures stay { KeepsNumbers bank.old bank.new }
{
    Ok(PackedEquation {
        left: pack_term(bank, alloc, &equation.left)?,
        right: pack_term(bank, alloc, &equation.right)?,
        rows: pack_rows(bank, alloc, equation.rows.rows())?,
    })
}

/// The rule with the numbers of its polynomials.
pub(crate) fn pack_rule(
    bank: &mut Bank,
    alloc: Global,
    rule: &Rule,
) -> Result<PackedEquation, NoMemory>
    ensures rule { IfOk result (λ r. StandsAs equation_within rule_at bank.new r rule.now) }
    ensures stay { KeepsNumbers bank.old bank.new }
{
    Ok(PackedEquation {
        left: pack_term(bank, alloc, &rule.left)?,
        right: pack_term(bank, alloc, &rule.right)?,
        rows: pack_rows(bank, alloc, rule.rows.rows())?,
    })
}

/// The rules with the numbers of their polynomials, in order.
pub(crate) fn pack_rules(
    bank: &mut Bank,
    alloc: Global,
    rules: &[Rule],
) -> Result<Items<PackedEquation>, NoMemory>
    ensures rules { IfOk result (λ rs. StandsAs equations_within rules_at bank.new rs rules.now) }
    ensures stay { KeepsNumbers bank.old bank.new }
{
    let mut packed = Items::with_capacity(alloc, rules.len())?;
    for rule in rules {
        packed.push(pack_rule(bank, alloc, rule)?)?;
    }
    Ok(packed)
}

/// The goals of the state with the numbers of their polynomials, in order.
pub(crate) fn pack_goals(
    bank: &mut Bank,
    alloc: Global,
    state: &State,
) -> Result<Items<PackedEquation>, NoMemory>
    ensures goals { IfOk result (λ es.
        StandsAs equations_within equations_at bank.new es state.now.goals) }
    ensures stay { KeepsNumbers bank.old bank.new }
{
    let mut packed = Items::with_capacity(alloc, state.goals() as usize)?;
    for at in 0..state.goals() {
        let Some(goal) = state.goal(at) else {
            unreachable!();
        };
        packed.push(pack_equation(bank, alloc, goal)?)?;
    }
    Ok(packed)
}
