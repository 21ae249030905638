//! The refuter: all phases, one after the other.
ghost use Rattle.std.specs.Prelude.{◌≡◌, ◌++◌, ◌+◌, [], ◌∷◌, ℕ, ℤ, option_map, IfOk, IfSome, IsSome};
ghost use Rattle.rx_plain.specs.Formed.{FormsAs};
ghost use Rattle.rx_cert.specs.Examination.{level};
ghost use Rattle.rx_cert.specs.declared.cert.Cert.TheOpen.{Cert-F};
ghost use Rattle.rx_cert.specs.declared.cert.Cert.TheVariants.{Solve};
ghost use Rattle.rx_row.specs.Holds.{AllHold, RowHolds};
ghost use Rattle.rx_row.specs.Substitution.{rows_with};
ghost use Rattle.rx_solve.specs.Answers.{Answers, AnswersFor, BranchAnswers};
ghost use Rattle.rx_solve.specs.Refuter.{solving};
ghost use Rattle.rx_solve.specs.Shown.{NegationAnswers, ShownAnswers};

use crate::disequalities::refute_by_differing;
use crate::pivots::{Pivot, first_pivot};
use rx_cert::{Cert, is_plain, polynomial_at_zero, solve};
use rx_fm::FmEnd;
use rx_plain::Boxed;
use rx_poly::{Poly, PolyEnd};
use rx_row::{Constraint, Row, subst_rows};
use std::alloc::{AllocError, Global};

/// The most variables that are replaced.
const MOST_SOLVED: u32 = 100;

/// The certificate that the variable is replaced, and then what refutes the rows.
fn replaced(alloc: Global, pivot: &Pivot, rest: Cert) -> Result<Cert, AllocError>
    ensures { IfOk result (λ c. c ≡ Solve pivot.now.first pivot.now.second pivot.now.variable rest) }
{
    let rest = Boxed::new(alloc, rest)?;
    Ok(Cert::Solve {
        first: pivot.first,
        second: pivot.second,
        var: pivot.variable,
        rest,
    })
}

/// The certificate of the rows before the replacement, where something refutes those after it.
fn replaced_found(
    alloc: Global,
    pivot: &Pivot,
    found: Option<Cert>,
) -> Result<Option<Cert>, AllocError>
    ensures { IfOk result (λ whole. whole ≡ option_map
        (λ c. Solve pivot.now.first pivot.now.second pivot.now.variable c) found) }
{
    match found {
        Some(cert) => Ok(Some(replaced(alloc, pivot, cert)?)),
        None => Ok(None),
    }
}

/// The rows with the value in place of the variable.
pub fn replaced_rows(
    alloc: Global,
    rows: &[Row],
    var: u32,
    value: Poly,
) -> Result<Vec<Row>, PolyEnd>
    ensures { FormsAs (λ v. v.items) PolyEnd.Large result (rows_with ((var, value) ∷ []) rows.now) }
{
    let with = [(var, value)];
    subst_rows(alloc, rows, with.as_slice())
}

/// What is found of the rows with the value in place of the variable.
#[cycle(solving)]
fn replace_by(
    alloc: Global,
    rows: &[Row],
    var: u32,
    value: Poly,
    left: u32,
) -> Result<Option<Cert>, FmEnd>
    ensures { BranchAnswers (solving left) (left + 74) [] (rows_with ((var, value) ∷ []) rows.now)
        result }
{
    let mut changed = replaced_rows(alloc, rows, var, value)?;
    solve_in_order(alloc, &mut changed, left)
}

/// What is found of the rows with its value in place of the variable.
#[cycle(solving)]
fn replace(alloc: Global, rows: &[Row], pivot: &Pivot, left: u32) -> Result<Option<Cert>, FmEnd>
    ensures { AnswersFor (level (Cert-F.Solve pivot.now.first pivot.now.second pivot.now.variable
        (solving left))) (left + 75) rows.now result }
{
    let Some(poly) = polynomial_at_zero(rows, pivot.first, pivot.second) else {
        return Ok(None);
    };
    let Some(value) = solve(alloc, poly, pivot.variable)? else {
        return Ok(None);
    };
    let found = replace_by(alloc, rows, pivot.variable, value, left)?;
    Ok(replaced_found(alloc, pivot, found)?)
}

/// What is found of the rows once variables that they say the value of are replaced, at most `left`
/// times.
#[cycle(solving)]
fn solve_in_order(alloc: Global, rows: &mut Vec<Row>, left: u32) -> Result<Option<Cert>, FmEnd>
    ensures { AnswersFor (solving left) (left + 74) rows.old.items result }
{
    if left == 0 {
        return refute_by_differing(alloc, rows);
    }
    let Some(pivot) = first_pivot(alloc, rows.as_slice())? else {
        return refute_by_differing(alloc, rows);
    };
    replace(alloc, rows.as_slice(), &pivot, left - 1)
}

/// A copy of the rows.
fn copy_rows(alloc: Global, rows: &[Row]) -> Result<Vec<Row>, AllocError>
    ensures { IfOk result (λ v. v.items ≡ rows.now) }
{
    let mut copies = Vec::new(alloc);
    for row in rows {
        copies.push(row.try_clone(alloc)?)?;
    }
    Ok(copies)
}

/// A certificate that refutes the rows, where the refuter finds one: at most 174 deep, with no
/// variables but theirs. None exactly where it doesn't refute them, Large exactly where it passes
/// its limits.
pub fn refutes(alloc: Global, rows: &Constraint) -> Result<Option<Cert>, FmEnd>
    ensures answer { Answers rows.now result }
    ensures refuted { IfOk result (λ a. IfSome a (λ c. (a : ℕ → ℤ) → ¬ (AllHold a rows.now))) }
{
    let mut copy = copy_rows(alloc, rows.rows())?;
    solve_in_order(alloc, &mut copy, MOST_SOLVED)
}

/// What the refuter finds of the rows with the negation of one more after them.
fn refutes_negation(alloc: Global, rows: &Constraint, row: &Row) -> Result<Option<Cert>, FmEnd>
    ensures { NegationAnswers rows.now row.now result }
{
    let negation = row.negate(alloc)?;
    let mut copy = copy_rows(alloc, rows.rows())?;
    copy.push(negation).map_err(AllocError::from)?;
    solve_in_order(alloc, &mut copy, MOST_SOLVED)
}

/// Whether the row follows from the rows: without a certificate where it is plain, else by one that
/// refutes the rows with its negation after them. None exactly where the refuter doesn't refute
/// these, Large exactly where the negation or the refuter passes the limits.
pub fn entails(alloc: Global, rows: &Constraint, row: &Row) -> Result<Option<Option<Cert>>, FmEnd>
    ensures answer { ShownAnswers rows.now row.now result }
    ensures holds { IfOk result (λ o. IsSome o → (a : ℕ → ℤ) → AllHold a rows.now →
        RowHolds a row.now) }
{
    if is_plain(rows, row) {
        return Ok(Some(None));
    }
    match refutes_negation(alloc, rows, row)? {
        Some(cert) => Ok(Some(Some(cert))),
        None => Ok(None),
    }
}
