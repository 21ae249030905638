//! The examination of a certificate. The rows are borrowed: what a branch adds after them it takes
//! off again, and only the elimination of a variable makes a new list.
ghost use Rattle.std.specs.Prelude.{◌≡◌, ◌∷◌, ◌++◌, [], IfOk, IfErr, OnOk};
ghost use Rattle.rx_cert.specs.Examination.{examined, verdict, level};
ghost use Rattle.rx_cert.specs.Findings.{Beyond, said};
ghost use Rattle.rx_cert.specs.declared.cert.Cert.TheOpen.{Cert-F};
ghost use Rattle.rx_poly.specs.Terms.{is_zero};

use crate::cert::Cert;
use crate::differences::{disequal_at, row_above, row_below};
use crate::division_facts::{divide, facts_at_least_zero, facts_below_zero};
use crate::elimination::{polynomial_at_zero, solve};
use crate::rounding::rounded_row;
use crate::sums::sum_refutes;
use rx_plain::Boxed;
use rx_poly::{Poly, PolyEnd};
use rx_row::{Row, subst_rows};
use std::alloc::{AllocError, Global};

/// Whether the certificate refutes the rows with one more after them.
#[cycle(examination)]
fn examine_with(
    alloc: Global,
    rows: &mut Vec<Row>,
    row: Row,
    cert: &Boxed<Cert>,
) -> Result<bool, PolyEnd>
    ensures answer { IfOk result (λ b. verdict (rows.old.items ++ row ∷ []) cert.now ≡ said b) }
    ensures large { IfErr result (λ e. e ≡ PolyEnd.Large →
        verdict (rows.old.items ++ row ∷ []) cert.now ≡ Beyond) }
    ensures kept { OnOk result (rows.new.items ≡ rows.old.items) }
{
    let count = rows.len();
    rows.push(row).map_err(AllocError::from)?;
    let found = examine(alloc, rows, cert.get())?;
    rows.truncate(count);
    Ok(found)
}

/// Whether the certificate refutes the rows with more of them after.
#[cycle(examination)]
fn examine_with_all(
    alloc: Global,
    rows: &mut Vec<Row>,
    mut more: Vec<Row>,
    cert: &Boxed<Cert>,
) -> Result<bool, PolyEnd>
    ensures answer { IfOk result (λ b. verdict (rows.old.items ++ more.items) cert.now ≡ said b) }
    ensures large { IfErr result (λ e. e ≡ PolyEnd.Large →
        verdict (rows.old.items ++ more.items) cert.now ≡ Beyond) }
    ensures kept { OnOk result (rows.new.items ≡ rows.old.items) }
{
    let count = rows.len();
    rows.append(&mut more)?;
    let found = examine(alloc, rows, cert.get())?;
    rows.truncate(count);
    Ok(found)
}

/// A rounded sum is one more row.
#[cycle(examination)]
fn examine_cut(
    alloc: Global,
    rows: &mut Vec<Row>,
    parts: &[(u32, i128)],
    div: &i128,
    rest: &Boxed<Cert>,
) -> Result<bool, PolyEnd>
    ensures answer { IfOk result (λ b. level (Cert-F.Cut parts.now div.now (examined rest.now))
        rows.old.items ≡ said b) }
    ensures large { IfErr result (λ e. e ≡ PolyEnd.Large →
        level (Cert-F.Cut parts.now div.now (examined rest.now)) rows.old.items ≡ Beyond) }
    ensures kept { OnOk result (rows.new.items ≡ rows.old.items) }
{
    match rounded_row(alloc, rows.as_slice(), parts, div)? {
        Some(row) => examine_with(alloc, rows, row, rest),
        None => Ok(false),
    }
}

/// A row holds, or its negation does.
#[cycle(examination)]
fn examine_split(
    alloc: Global,
    rows: &mut Vec<Row>,
    row: &Row,
    yes: &Boxed<Cert>,
    no: &Boxed<Cert>,
) -> Result<bool, PolyEnd>
    ensures answer { IfOk result (λ b. level (Cert-F.Split row.now (examined yes.now)
        (examined no.now)) rows.old.items ≡ said b) }
    ensures large { IfErr result (λ e. e ≡ PolyEnd.Large →
        level (Cert-F.Split row.now (examined yes.now) (examined no.now)) rows.old.items ≡ Beyond) }
    ensures kept { OnOk result (rows.new.items ≡ rows.old.items) }
{
    let same = row.try_clone(alloc)?;
    if !examine_with(alloc, rows, same, yes)? {
        return Ok(false);
    }
    let negation = row.negate(alloc)?;
    examine_with(alloc, rows, negation, no)
}

/// What is not 0 is above it or below it.
#[cycle(examination)]
fn examine_differ(
    alloc: Global,
    rows: &mut Vec<Row>,
    at: u32,
    pos: &Boxed<Cert>,
    neg: &Boxed<Cert>,
) -> Result<bool, PolyEnd>
    ensures answer { IfOk result (λ b. level (Cert-F.Differ at (examined pos.now)
        (examined neg.now)) rows.old.items ≡ said b) }
    ensures large { IfErr result (λ e. e ≡ PolyEnd.Large →
        level (Cert-F.Differ at (examined pos.now) (examined neg.now)) rows.old.items ≡ Beyond) }
    ensures kept { OnOk result (rows.new.items ≡ rows.old.items) }
{
    let Some(poly) = disequal_at(alloc, rows.as_slice(), at)? else {
        return Ok(false);
    };
    let above = row_above(alloc, &poly)?;
    if !examine_with(alloc, rows, above, pos)? {
        return Ok(false);
    }
    let below = row_below(alloc, &poly)?;
    examine_with(alloc, rows, below, neg)
}

/// A variable is replaced in all rows.
#[cycle(examination)]
fn examine_solve(
    alloc: Global,
    rows: &[Row],
    first: u32,
    second: u32,
    var: u32,
    rest: &Boxed<Cert>,
) -> Result<bool, PolyEnd>
    ensures answer { IfOk result (λ b. level (Cert-F.Solve first second var (examined rest.now))
        rows.now ≡ said b) }
    ensures large { IfErr result (λ e. e ≡ PolyEnd.Large →
        level (Cert-F.Solve first second var (examined rest.now)) rows.now ≡ Beyond) }
{
    let Some(poly) = polynomial_at_zero(rows, first, second) else {
        return Ok(false);
    };
    let Some(value) = solve(alloc, poly, var)? else {
        return Ok(false);
    };
    let with = [(var, value)];
    let mut changed = subst_rows(alloc, rows, with.as_slice())?;
    examine(alloc, &mut changed, rest.get())
}

/// What is known of a quotient and a remainder.
#[cycle(examination)]
fn examine_division(
    alloc: Global,
    rows: &mut Vec<Row>,
    num: &Poly,
    den: &i128,
    pos: &Boxed<Cert>,
    neg: &Boxed<Cert>,
) -> Result<bool, PolyEnd>
    ensures answer { IfOk result (λ b. level (Cert-F.DivFacts num.now den.now (examined pos.now)
        (examined neg.now)) rows.old.items ≡ said b) }
    ensures large { IfErr result (λ e. e ≡ PolyEnd.Large →
        level (Cert-F.DivFacts num.now den.now (examined pos.now) (examined neg.now)) rows.old.items
        ≡ Beyond) }
    ensures kept { OnOk result (rows.new.items ≡ rows.old.items) }
{
    if *den == 0 {
        return Ok(false);
    }
    let division = divide(alloc, num, den)?;
    let above = facts_at_least_zero(alloc, num, &division)?;
    if !examine_with_all(alloc, rows, above, pos)? {
        return Ok(false);
    }
    let below = facts_below_zero(alloc, num, &division)?;
    examine_with_all(alloc, rows, below, neg)
}

/// Whether the certificate refutes the rows, which are the same again after it. Large exactly where
/// a polynomial passes the limits before that is seen.
#[cycle(examination)]
#[tactic(auto, using(crate::proofs::Equations::finding_sum, crate::proofs::Equations::finding_cut, crate::proofs::Equations::finding_split, crate::proofs::Equations::finding_differ, crate::proofs::Equations::finding_solve, crate::proofs::Equations::finding_division, crate::proofs::Equations::depth_cut, crate::proofs::Equations::depth_split, crate::proofs::Equations::depth_differ, crate::proofs::Equations::depth_solve, crate::proofs::Equations::depth_division))]
pub(crate) fn examine(alloc: Global, rows: &mut Vec<Row>, cert: &Cert) -> Result<bool, PolyEnd>
    ensures answer { IfOk result (λ b. verdict rows.old.items cert.now ≡ said b) }
    ensures large { IfErr result (λ e. e ≡ PolyEnd.Large → verdict rows.old.items cert.now ≡ Beyond) }
    ensures kept { OnOk result (rows.new.items ≡ rows.old.items) }
{
    match cert {
        Cert::Sum(parts) => sum_refutes(alloc, rows.as_slice(), parts.as_slice()),
        Cert::Cut { parts, div, rest } => examine_cut(alloc, rows, parts.as_slice(), div, rest),
        Cert::Split { row, yes, no } => examine_split(alloc, rows, row, yes, no),
        Cert::Differ { at, pos, neg } => examine_differ(alloc, rows, *at, pos, neg),
        Cert::Solve {
            first,
            second,
            var,
            rest,
        } => examine_solve(alloc, rows.as_slice(), *first, *second, *var, rest),
        Cert::DivFacts { num, den, pos, neg } => examine_division(alloc, rows, num, den, pos, neg),
    }
}
