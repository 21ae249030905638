//! Terms that rules simplify without a choice.
ghost use Rattle.std.specs.Prelude.{◌≡◌, IfOk, Some};
ghost use Rattle.std.specs.Option.{option_copied};
ghost use Rattle.rx_match.specs.Simplification.{free_rule, if_free, returned, simplified, simplified_by, simplified_often};
ghost use Rattle.rx_match.specs.Beside.{most_simplifications};
ghost use Rattle.rx_plain.specs.Formed.{Forms};

use rx_inference::{RuleInstance, have_one_shape, rule_at};
use rx_poly::{Poly, PolyEnd};
use rx_term::{Rule, Term};
use std::alloc::Global;

/// How often a term is simplified at most.
const MOST_SIMPLIFICATIONS: u32 = 50;

/// The value that the term returns, where it is a returned value, borrowed.
pub(crate) fn returned(term: &Term) -> Option<&Poly>
    ensures { option_copied result ≡ returned term.now }
{
    match term {
        Term::Return(value) => Some(value),
        _ => None,
    }
}

/// The rule, where it has no rows.
fn if_free(rule: &Rule) -> Option<&Rule>
    ensures { option_copied result ≡ if_free rule.now rule.now.rows }
{
    if rule.rows.rows().is_empty() {
        Some(rule)
    } else {
        None
    }
}

/// The rule without rows that alone has the redex's shape, borrowed.
fn free_rule<'a>(rules: &'a [Rule], redex: &Term) -> Option<&'a Rule>
    ensures { option_copied result ≡ free_rule rules.now redex.now }
{
    let mut found = None;
    for rule in rules {
        if !have_one_shape(&rule.left, redex) {
            continue;
        }
        if found.is_some() {
            return None;
        }
        found = Some(rule);
    }
    if_free(found?)
}

/// The term with the right side of the rule in place of the redex. Large exactly where a polynomial
/// of that passes the limits.
fn simplify_by(
    alloc: Global,
    term: &Term,
    redex: &Term,
    rule: &Rule,
) -> Result<Option<Term>, PolyEnd>
    ensures forms { Forms PolyEnd.Large result (simplified_by term.now redex.now (Some rule.now)) }
{
    let RuleInstance { rows: _rows, right } = rule_at(alloc, rule, redex)?;
    Ok(Some(term.try_clone(alloc)?.replace_redex(right)))
}

/// The term simplified once, where one rule alone is for its redex and asks nothing. Large exactly
/// where a polynomial of that passes the limits.
fn simplify(alloc: Global, rules: &[Rule], term: &Term) -> Result<Option<Term>, PolyEnd>
    ensures forms { Forms PolyEnd.Large result (simplified rules.now term.now) }
{
    let Some(redex) = term.redex() else {
        return Ok(None);
    };
    match free_rule(rules, redex) {
        Some(rule) => simplify_by(alloc, term, redex, rule),
        None => Ok(None),
    }
}

/// The term simplified as long as one rule alone is for its redex and asks nothing, at most 50
/// times. Large exactly where a polynomial on the way passes the limits.
pub(crate) fn simplify_often(alloc: Global, rules: &[Rule], term: Term) -> Result<Term, PolyEnd>
    ensures forms { Forms PolyEnd.Large result
        (simplified_often rules.now most_simplifications term) }
{
    let mut term = term;
    for _ in 0..MOST_SIMPLIFICATIONS {
        match simplify(alloc, rules, &term)? {
            Some(next) => term = next,
            None => return Ok(term),
        }
    }
    Ok(term)
}
