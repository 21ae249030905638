//! The pairs of rules.
ghost use Rattle.std.specs.Prelude.{◌≡◌, ◌↔◌, ◌++◌, All, List, map, IfOk, IsTrue, OnOk};
ghost use Rattle.rx_plain.specs.Formed.{Forms, FormsAs};
ghost use Rattle.rx_pairs.specs.Inside.{bounded_rows, pairs_in};
ghost use Rattle.rx_pairs.specs.Lent.{all_lent, lent};
ghost use Rattle.rx_pairs.specs.Listed.{pairs_by_all};
ghost use Rattle.rx_pairs.specs.Pairs.{AreAllPairs, ArePairs, HasRoot, pair_under};
ghost use Rattle.rx_term.specs.declared.rule.Rule.{Rule};

use crate::pair::Pair;
use crate::parts::{Application, parts_of, root_part};
use rx_plain::{Items, NoMemory};
use rx_poly::{PolyEnd, copied_polys};
use rx_row::Constraint;
use rx_term::{Rule, RuleSet};
use std::alloc::Global;

/// The pair of the two under the rows.
pub(crate) fn pair(
    alloc: Global,
    rows: &Constraint,
    root: Application,
    part: Application,
) -> Result<Pair, NoMemory>
    ensures { IfOk result (λ made. made ≡ pair_under rows.now (lent root.entry) (lent part.entry)) }
{
    Ok(Pair {
        phi: rows.try_clone(alloc)?,
        left: root.symbol,
        left_args: copied_polys(alloc, root.arguments)?,
        right: part.symbol,
        right_args: copied_polys(alloc, part.arguments)?,
    })
}

/// The pairs of the root and the parts, under the rows.
fn pairs_with(
    alloc: Global,
    rows: &Constraint,
    root: Application,
    parts: &[Application],
) -> Result<Vec<Pair>, NoMemory>
    ensures { IfOk result (λ pairs.
        pairs.items ≡ map (pair_under rows.now (lent root.entry)) (all_lent parts.now)) }
{
    let mut pairs = Vec::with_capacity(alloc, parts.len())?;
    for part in parts {
        pairs.push(pair(alloc, rows, root, *part)?)?;
    }
    Ok(pairs)
}

/// The pairs of a rule or a hypothesis: the root of its left side against each frame and the call
/// of its right side, from outer to inner. What the right side has in common with a proper part
/// of the left side, at their inner ends, makes none. Fails only where there is no memory.
///
/// The left side must not be a bare result.
pub fn pairs_of(alloc: Global, rule: &Rule) -> Result<Vec<Pair>, NoMemory>
    requires { HasRoot rule.now }
    ensures { IfOk result (λ pairs. ArePairs rule.now pairs.items) }
{
    let Some(root) = root_part(&rule.left) else {
        return Ok(Vec::new(alloc));
    };
    let parts = parts_of(alloc, &rule.left, &rule.right)?;
    pairs_with(alloc, &rule.rows, root, parts.as_slice())
}

/// The rule's rows, and behind them the domain of the root's symbol at its arguments. Large exactly
/// where a polynomial on the way to one of these passes the limits.
pub(crate) fn bounded_rows(
    alloc: Global,
    rules: &RuleSet,
    rule: &Rule,
    root: Application,
) -> Result<Constraint, PolyEnd>
    ensures { Forms PolyEnd.Large result (bounded_rows rules.now rule.now (lent root.entry)) }
{
    let more = rules.rows_at(alloc, root.symbol, root.arguments)?;
    let mut rows = Items::from_vec(rule.rows.try_clone(alloc)?.into_rows());
    rows.append(more)?;
    Ok(Constraint::from_rows(rows.into_vec()))
}

/// The pairs of a rule or a hypothesis inside the domains: those of `pairs_of`, and behind the
/// rows of each the domain of the left root's symbol at its arguments. Large exactly where the rule
/// has a pair and a polynomial on the way to one of these rows passes the limits.
///
/// The left side must not be a bare result.
pub fn pairs_in(alloc: Global, rules: &RuleSet, rule: &Rule) -> Result<Vec<Pair>, PolyEnd>
    requires { HasRoot rule.now }
    ensures { FormsAs (λ pairs. pairs.items) PolyEnd.Large result (pairs_in rules.now rule.now) }
{
    let Some(root) = root_part(&rule.left) else {
        return Ok(Vec::new(alloc));
    };
    let Ok(made) = parts_of(alloc, &rule.left, &rule.right) else {
        return Err(PolyEnd::NoMemory);
    };
    let parts = made.as_slice();
    if parts.is_empty() {
        return Ok(Vec::new(alloc));
    }
    let rows = bounded_rows(alloc, rules, rule, root)?;
    match pairs_with(alloc, &rows, root, parts) {
        Ok(pairs) => Ok(pairs),
        Err(NoMemory) => Err(PolyEnd::NoMemory),
    }
}

/// Whether no left side is a bare result, as is asked of rules whose pairs are made. Takes no
/// memory.
pub fn have_roots(rules: &[Rule]) -> bool
    ensures { IsTrue result ↔ All HasRoot rules.now }
{
    for rule in rules {
        if rule.left.is_result() {
            return false;
        }
    }
    true
}

/// Adds the pairs of the rules after the others.
fn push_pairs(pairs: &mut Vec<Pair>, alloc: Global, rules: &[Rule]) -> Result<(), NoMemory>
    requires { All HasRoot rules.now }
    ensures { OnOk result ((before : List Rule) →
        AreAllPairs before pairs.old.items →
        AreAllPairs (before ++ rules.now) pairs.new.items) }
{
    for rule in rules {
        let mut more = pairs_of(alloc, rule)?;
        pairs.append(&mut more)?;
    }
    Ok(())
}

/// The pairs of the rules, in order. Fails only where there is no memory.
///
/// No left side may be a bare result.
pub(crate) fn rule_pairs(alloc: Global, rules: &[Rule]) -> Result<Vec<Pair>, NoMemory>
    requires { All HasRoot rules.now }
    ensures { IfOk result (λ pairs. pairs.items ≡ pairs_by_all rules.now) }
{
    let mut pairs = Vec::new(alloc);
    push_pairs(&mut pairs, alloc, rules)?;
    Ok(pairs)
}

/// The pairs of the rules, and then those of the hypotheses, in order. Fails only where there is no
/// memory.
///
/// No left side may be a bare result.
pub fn all_pairs(alloc: Global, rules: &[Rule], hypotheses: &[Rule]) -> Result<Vec<Pair>, NoMemory>
    requires rules { All HasRoot rules.now }
    requires hypotheses { All HasRoot hypotheses.now }
    ensures { IfOk result (λ pairs. AreAllPairs (rules.now ++ hypotheses.now) pairs.items) }
{
    let mut pairs = Vec::new(alloc);
    push_pairs(&mut pairs, alloc, rules)?;
    push_pairs(&mut pairs, alloc, hypotheses)?;
    Ok(pairs)
}
