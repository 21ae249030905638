//! Variables that aren't set.
ghost use Rattle.std.specs.Prelude.{◌≡◌, IfOk};
ghost use Rattle.rx_cert.specs.Variables.{rows_pass};
ghost use Rattle.rx_poly_laws.specs.Tests.{passes};
ghost use Rattle.rx_match.specs.Equations.{only_one, unset_in};
ghost use Rattle.rx_match.specs.Settings.{is_set};
ghost use Rattle.rx_match.specs.Variables.{polys_pass, rule_passes, term_passes};

use crate::settings::is_set;
use rx_poly::Poly;
use rx_poly_laws::variables_of;
use rx_row::Row;
use rx_term::{Rule, Term};
use std::alloc::{AllocError, Global};

/// The variables of the polynomial that aren't set, each as often as it occurs.
pub(crate) fn unset_in(
    alloc: Global,
    settings: &[(u32, Poly)],
    poly: &Poly,
) -> Result<Vec<u32>, AllocError>
    ensures { IfOk result (λ v. v.items ≡ unset_in settings.now poly.now) }
{
    let variables = variables_of(alloc, poly)?;
    let mut unset = Vec::new(alloc);
    for variable in variables.as_slice() {
        if !is_set(settings, *variable) {
            unset.push(*variable)?;
        }
    }
    Ok(unset)
}

/// The variable that all of these are, where there is one.
pub(crate) fn only_one(variables: &[u32]) -> Option<u32>
    ensures { result ≡ only_one variables.now }
{
    let (first, others) = variables.split_first()?;
    for other in others {
        if *other != *first {
            return None;
        }
    }
    Some(*first)
}

/// Whether all variables that are listed for the polynomial are set.
fn are_variables_set(
    alloc: Global,
    settings: &[(u32, Poly)],
    poly: &Poly,
) -> Result<bool, AllocError>
    ensures { IfOk result (λ b. b ≡ passes (is_set settings.now) poly.now) }
{
    let variables = variables_of(alloc, poly)?;
    for variable in variables.as_slice() {
        if !is_set(settings, *variable) {
            return Ok(false);
        }
    }
    Ok(true)
}

/// Whether all variables of the polynomial are set.
fn is_poly_set(alloc: Global, settings: &[(u32, Poly)], poly: &Poly) -> Result<bool, AllocError>
    ensures { IfOk result (λ b. b ≡ passes (is_set settings.now) poly.now) }
{
    match poly.as_variable() {
        Some(variable) => Ok(is_set(settings, variable)),
        None => are_variables_set(alloc, settings, poly),
    }
}

/// Whether all variables of the polynomials are set.
fn are_polys_set(
    alloc: Global,
    settings: &[(u32, Poly)],
    polys: &[Poly],
) -> Result<bool, AllocError>
    ensures { IfOk result (λ b. b ≡ polys_pass (is_set settings.now) polys.now) }
{
    for poly in polys {
        if !is_poly_set(alloc, settings, poly)? {
            return Ok(false);
        }
    }
    Ok(true)
}

/// Whether all variables of the term are set.
fn is_term_set(alloc: Global, settings: &[(u32, Poly)], term: &Term) -> Result<bool, AllocError>
    ensures { IfOk result (λ b. b ≡ term_passes (is_set settings.now) term.now) }
{
    if let Term::Call(_, args) = term {
        return are_polys_set(alloc, settings, args.as_slice());
    }
    let polys = term.arguments(alloc)?;
    are_polys_set(alloc, settings, polys.as_slice())
}

/// Whether all variables of the rows are set.
fn are_rows_set(alloc: Global, settings: &[(u32, Poly)], rows: &[Row]) -> Result<bool, AllocError>
    ensures { IfOk result (λ b. b ≡ rows_pass (is_set settings.now) rows.now) }
{
    for row in rows {
        if !is_poly_set(alloc, settings, row.poly())? {
            return Ok(false);
        }
    }
    Ok(true)
}

/// Whether all variables of the rule are set.
pub(crate) fn is_rule_set(
    alloc: Global,
    settings: &[(u32, Poly)],
    rule: &Rule,
) -> Result<bool, AllocError>
    ensures { IfOk result (λ b. b ≡ rule_passes (is_set settings.now) rule.now) }
{
    Ok(
        is_term_set(alloc, settings, &rule.left)?
            && is_term_set(alloc, settings, &rule.right)?
            && are_rows_set(alloc, settings, rule.rows.rows())?,
    )
}
