//! Rows that only give a variable its value.
ghost use Rattle.std.specs.Prelude.{◌≡◌, [], ◌∷◌, false, IfOk};
ghost use Rattle.std.specs.List.{list_any};
ghost use Rattle.std.specs.Option.{is_some};
ghost use Rattle.rx_lemma.specs.Values as spec;
ghost use Rattle.rx_poly.specs.Reading.{variable_of};

use rx_poly::{Atom, Mono, Poly};
use rx_row::{Constraint, Row};
use std::alloc::{AllocError, Global};

/// Whether the row says that a variable is a number.
fn gives_value(row: &Row) -> bool
    ensures { result ≡ spec.gives_value row.now }
{
    match row {
        Row::Eq(poly) => is_valued(poly),
        Row::Ge(_) => false,
        Row::Ne(_) => false,
    }
}

/// Whether one of the rows says that a variable is a number.
pub(crate) fn any_value(rows: &[Row]) -> bool
    ensures { result ≡ list_any spec.gives_value rows.now }
{
    for row in rows {
        if gives_value(row) {
            return true;
        }
    }
    false
}

/// Copies of the rows that don't say that a variable is a number.
pub(crate) fn other_rows(alloc: Global, rows: &[Row]) -> Result<Constraint, AllocError>
    ensures { IfOk result (λ others. others ≡ spec.other_rows rows.now) }
{
    let mut others = Vec::new(alloc);
    for row in rows {
        if !gives_value(row) {
            others.push(row.try_clone(alloc)?)?;
        }
    }
    Ok(Constraint::from_rows(others))
}

/// Whether the term is a variable alone.
fn is_variable(term: &(Mono, i128)) -> bool
    ensures { result ≡ is_some (variable_of (term.now ∷ [])) }
{
    if term.1 != 1 {
        return false;
    }
    match term.0.atoms.as_slice().split_first() {
        Some((Atom::Var(_), more)) => more.is_empty(),
        _ => false,
    }
}

/// Whether the terms but numbers are a variable alone.
fn are_valued(terms: &[(Mono, i128)]) -> bool
    ensures { result ≡ spec.valued_from false terms.now }
{
    let mut seen = false;
    for term in terms {
        if term.0.atoms.is_empty() {
            continue;
        }
        if seen || !is_variable(term) {
            return false;
        }
        seen = true;
    }
    seen
}

/// Whether the polynomial is a variable without its constant.
fn is_valued(poly: &Poly) -> bool
    ensures { result ≡ spec.is_valued poly.now }
{
    are_valued(poly.body().terms.as_slice())
}
