//! The rows that the domain of a symbol may have.
ghost use Rattle.std.specs.Prelude.{◌≡◌, IfOk, OnOk, [], ◌∷◌};
ghost use Rattle.std.specs.List.{flat_map};
ghost use Rattle.rx_find_domains.specs.Candidates.{candidates, candidates_from, goal_is_near, redex_is_near, root_is_near, rows_of_goal, rows_of_rule, taken};

use crate::groups::in_one_group;
use rx_plain::NoMemory;
use rx_row::{Constraint, Row};
use rx_term::{Equation, Rule, RuleParts, Term};
use std::alloc::Global;

/// The most rows that a domain may begin with.
const MOST_CANDIDATES: usize = 12;

/// Whether the outermost symbol of the term is of the symbol's group.
fn root_is_near(names: &[u32], sym: usize, term: &Term) -> bool
    ensures { result ≡ root_is_near names.now sym term.now }
{
    match term.root() {
        Some(root) => in_one_group(names, sym, root),
        None => false,
    }
}

/// Whether the outermost symbol of the term's redex is.
fn redex_is_near(names: &[u32], sym: usize, term: &Term) -> bool
    ensures { result ≡ redex_is_near names.now sym term.now }
{
    match term.redex() {
        Some(redex) => root_is_near(names, sym, redex),
        None => false,
    }
}

/// Whether that of a side of the goal is.
fn goal_is_near(names: &[u32], sym: usize, goal: &Equation) -> bool
    ensures { result ≡ goal_is_near names.now sym goal.now }
{
    redex_is_near(names, sym, &goal.left) || redex_is_near(names, sym, &goal.right)
}

/// Adds the row behind the others, if it is over that many arguments, unless it is one of them or
/// they are as many as may be.
fn take_row(rows: &mut Constraint, alloc: Global, arity: u32, row: &Row) -> Result<(), NoMemory>
    ensures { OnOk result (rows.new ≡ taken arity rows.old (row.now ∷ [])) }
{
    if !row.uses_below(arity) {
        return Ok(());
    }
    if rows.rows().len() >= MOST_CANDIDATES {
        return Ok(());
    }
    rows.push(row.try_clone(alloc)?)
}

/// Adds those of the rows that are over that many arguments, one after the other.
fn take_rows(rows: &mut Constraint, alloc: Global, arity: u32, more: &[Row]) -> Result<(), NoMemory>
    ensures { OnOk result (rows.new ≡ taken arity rows.old more.now) }
{
    for row in more {
        take_row(rows, alloc, arity, row)?;
    }
    Ok(())
}

/// Adds those of the rule, if its left side's outermost symbol is of the symbol's group.
fn take_rule(
    rows: &mut Constraint,
    alloc: Global,
    names: &[u32],
    rule: &Rule,
    sym: usize,
    arity: u32,
) -> Result<(), NoMemory>
    ensures { OnOk result (rows.new ≡
        taken arity rows.old (rows_of_rule names.now sym rule.now)) }
{
    if !root_is_near(names, sym, &rule.left) {
        return Ok(());
    }
    take_rows(rows, alloc, arity, rule.rows.rows())
}

/// Adds those of the rules whose left side's outermost symbol is of the symbol's group.
fn take_rules(
    rows: &mut Constraint,
    alloc: Global,
    names: &[u32],
    rules: &[Rule],
    sym: usize,
    arity: u32,
) -> Result<(), NoMemory>
    ensures { OnOk result (rows.new ≡
        taken arity rows.old (flat_map (rows_of_rule names.now sym) rules.now)) }
{
    for rule in rules {
        take_rule(rows, alloc, names, rule, sym, arity)?;
    }
    Ok(())
}

/// Those of the goal, where a redex of it is of the symbol's group.
fn take_goal(
    alloc: Global,
    names: &[u32],
    goal: &Equation,
    sym: usize,
    arity: u32,
) -> Result<Constraint, NoMemory>
    ensures { IfOk result (λ rows. rows ≡ taken arity [] (rows_of_goal names.now sym goal.now)) }
{
    let mut rows = Constraint::from_rows(Vec::new(alloc));
    if !goal_is_near(names, sym, goal) {
        return Ok(rows);
    }
    take_rows(&mut rows, alloc, arity, goal.rows.rows())?;
    Ok(rows)
}

/// The candidates of the symbol.
fn find_candidates(
    alloc: Global,
    names: &[u32],
    rules: &[Rule],
    goal: &Equation,
    sym: usize,
    arity: u32,
) -> Result<Constraint, NoMemory>
    ensures { IfOk result (λ rows. rows ≡ candidates names.now rules.now goal.now sym arity) }
{
    let mut rows = take_goal(alloc, names, goal, sym, arity)?;
    take_rules(&mut rows, alloc, names, rules, sym, arity)?;
    Ok(rows)
}

/// The candidates of each symbol in order.
pub(crate) fn all_candidates(
    alloc: Global,
    names: &[u32],
    parts: &RuleParts,
    goal: &Equation,
) -> Result<Vec<Constraint>, NoMemory>
    ensures { IfOk result (λ lists. lists.items ≡
        candidates_from names.now parts.now.rules goal.now 0 parts.now.symbols) }
{
    let rules = parts.rules.as_slice();
    let mut lists = Vec::new(alloc);
    for (sym, info) in parts.symbols.as_slice().iter().enumerate() {
        let rows = find_candidates(alloc, names, rules, goal, sym, info.arity)?;
        lists.push(rows)?;
    }
    Ok(lists)
}
