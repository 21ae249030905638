//! Rows that say the value of a variable.
ghost use Rattle.std.specs.Prelude.{◌≡◌, ◌+◌, ◌<◌, ◌^◌, length, true, pos, negsuc, Some, IfOk};
ghost use Rattle.std.specs.Option.{is_some};
ghost use Rattle.rx_cert.specs.Elimination.{coefficient_of, solution};
ghost use Rattle.rx_poly.specs.Constants.{variable};
ghost use Rattle.rx_poly.specs.Limits.{body_sum, body_difference};
ghost use Rattle.rx_poly.specs.Normal.{is_poly};
ghost use Rattle.rx_poly.specs.Reading.{variable_of_atoms};
ghost use Rattle.rx_poly.specs.declared.body.Mono.{out-Mono};
ghost use Rattle.rx_solve.specs.Pivots.{first_pivot, is_opposite_row, least_solvable, opposite_from, pivot_at, value_said};

use rx_cert::are_opposites;
use rx_poly::{Atom, Mono, Poly, PolyEnd};
use rx_poly_laws::uses;
use rx_row::Row;
use std::alloc::{AllocError, Global};

/// Which rows say the value of which variable.
#[derive(Clone, Copy)]
pub struct Pivot {
    /// The number of an equation, or of a row `p >= 0`.
    pub first: u32,
    /// The same number, or that of the row `-p >= 0`.
    pub second: u32,
    /// The variable.
    pub variable: u32,
}

/// The variable that the monomial is, where it is one.
fn lone_variable(mono: &Mono) -> Option<u32>
    ensures { result ≡ variable_of_atoms (out-Mono mono.now).atoms }
{
    let (atom, more) = mono.atoms.as_slice().split_first()?;
    if !more.is_empty() {
        return None;
    }
    match atom {
        Atom::Var(number) => Some(*number),
        Atom::Div(_, _) => None,
        Atom::Mod(_, _) => None,
    }
}

/// The polynomial without the variable, whose coefficient is 1. That never passes the limits.
fn minus_variable(alloc: Global, poly: &Poly, var: u32) -> Result<Poly, AllocError>
    requires normal { is_poly poly.now ≡ true }
    requires one { coefficient_of var poly.now ≡ pos 1 }
    ensures { IfOk result (λ p. p ≡ body_difference poly.now (variable var)) }
{
    let alone = Poly::variable(alloc, var)?;
    match poly.sub(alloc, &alone) {
        Ok(rest) => Ok(rest),
        Err(PolyEnd::NoMemory) => Err(AllocError),
        Err(PolyEnd::Large) => unreachable!(),
    }
}

/// The polynomial without the variable, whose coefficient is -1. That never passes the limits.
fn plus_variable(alloc: Global, poly: &Poly, var: u32) -> Result<Poly, AllocError>
    requires normal { is_poly poly.now ≡ true }
    requires one { coefficient_of var poly.now ≡ negsuc 0 }
    ensures { IfOk result (λ p. p ≡ body_sum poly.now (variable var)) }
{
    let alone = Poly::variable(alloc, var)?;
    match poly.add(alloc, &alone) {
        Ok(rest) => Ok(rest),
        Err(PolyEnd::NoMemory) => Err(AllocError),
        Err(PolyEnd::Large) => unreachable!(),
    }
}

/// Whether the polynomial, where it is 0, says the value of the variable.
fn says_value(alloc: Global, poly: &Poly, var: u32) -> Result<bool, AllocError>
    requires { is_poly poly.now ≡ true }
    ensures { IfOk result (λ b. b ≡ is_some (solution var poly.now)) }
{
    let coefficient = poly.coeff_of(var);
    if coefficient == 1 {
        let rest = minus_variable(alloc, poly, var)?;
        return Ok(!uses(&rest, var));
    }
    if coefficient == -1 {
        let rest = plus_variable(alloc, poly, var)?;
        return Ok(!uses(&rest, var));
    }
    Ok(false)
}

/// The variable that the monomial is, where the polynomial says its value.
fn value_said(alloc: Global, poly: &Poly, mono: &Mono) -> Result<Option<u32>, AllocError>
    requires { is_poly poly.now ≡ true }
    ensures { IfOk result (λ o. o ≡ value_said poly.now
        (variable_of_atoms (out-Mono mono.now).atoms)) }
{
    let Some(var) = lone_variable(mono) else {
        return Ok(None);
    };
    if says_value(alloc, poly, var)? {
        Ok(Some(var))
    } else {
        Ok(None)
    }
}

/// The least variable that the polynomial, where it is 0, says the value of.
fn least_solvable(alloc: Global, poly: &Poly) -> Result<Option<u32>, AllocError>
    ensures { IfOk result (λ o. o ≡ least_solvable poly.now) }
{
    for term in poly.body().terms.as_slice() {
        if let Some(var) = value_said(alloc, poly, &term.0)? {
            return Ok(Some(var));
        }
    }
    Ok(None)
}

/// Whether the row says that the opposite of the polynomial is at least 0.
fn is_opposite_row(poly: &Poly, row: &Row) -> bool
    ensures { result ≡ is_opposite_row poly.now row.now }
{
    match row {
        Row::Ge(other) => are_opposites(
            poly.body().terms.as_slice(),
            other.body().terms.as_slice(),
        ),
        Row::Eq(_) | Row::Ne(_) => false,
    }
}

/// The number of the first row that says so, where the first is number `from`.
fn opposite_from(poly: &Poly, rows: &[Row], from: usize) -> Option<usize>
    requires { from + length rows.now < 2 ^ 64 }
    ensures { result ≡ opposite_from from poly.now rows.now }
{
    for (at, row) in rows.iter().enumerate() {
        if is_opposite_row(poly, row) {
            return Some(from + at);
        }
    }
    None
}

/// The numbers as those of a pivot.
fn make_pivot(first: usize, second: usize, variable: u32) -> Result<Pivot, AllocError>
    ensures { IfOk result (λ p. p ≡ record { first = first; second = second; variable = variable }) }
{
    let (Ok(first), Ok(second)) = (u32::try_from(first), u32::try_from(second)) else {
        return Err(AllocError);
    };
    Ok(Pivot {
        first,
        second,
        variable,
    })
}

/// The row, number `at`: an equation alone, an inequality with its opposite among the later rows.
fn pivot_at(alloc: Global, at: usize, row: &Row, later: &[Row]) -> Result<Option<Pivot>, AllocError>
    requires { at + 1 + length later.now < 2 ^ 64 }
    ensures { IfOk result (λ o. o ≡ pivot_at at row.now later.now) }
{
    let second = match row {
        Row::Ge(poly) => opposite_from(poly, later, at + 1),
        Row::Eq(_) => Some(at),
        Row::Ne(_) => None,
    };
    let Some(second) = second else {
        return Ok(None);
    };
    let Some(variable) = least_solvable(alloc, row.poly())? else {
        return Ok(None);
    };
    Ok(Some(make_pivot(at, second, variable)?))
}

/// The first row that says the value of a variable.
pub fn first_pivot(alloc: Global, rows: &[Row]) -> Result<Option<Pivot>, AllocError>
    ensures { IfOk result (λ o. o ≡ first_pivot rows.now) }
{
    let mut at = 0;
    let mut rest = rows;
    while let Some((row, later)) = rest.split_first() {
        if let Some(found) = pivot_at(alloc, at, row, later)? {
            return Ok(Some(found));
        }
        at += 1;
        rest = later;
    }
    Ok(None)
}
