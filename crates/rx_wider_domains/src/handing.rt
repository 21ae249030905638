//! Rows that symbols hand on to the groups of the symbols that they lead to.
ghost use Rattle.std.specs.Prelude.{◌≡◌, IfOk, OnOk};
ghost use Rattle.std.specs.List.{fold};
ghost use Rattle.rx_wider_domains.specs.Lists.{lists_by};
ghost use Rattle.rx_wider_domains.specs.Walks.{handed_on, handing, offers_listed, walked};

use crate::by_symbol::symbol_rows;
use crate::listing::{list_rows, visit_rules, visit_term};
use crate::offering::Offering;
use rx_plain::NoMemory;
use rx_row::Constraint;
use rx_term::{Equation, Rule, RuleParts, SymInfo};
use std::alloc::Global;

/// Adds what the rule's left root hands on, of the lists before.
fn hand_rule(
    lists: &mut Vec<Constraint>,
    alloc: Global,
    names: &[u32],
    symbols: &[SymInfo],
    before: &[Constraint],
    rule: &Rule,
) -> Result<(), NoMemory>
    ensures { OnOk result (lists.new.items ≡
        handing names.now symbols.now before.now lists.old.items rule.now) }
{
    let Some(root) = rule.left.root() else {
        return Ok(());
    };
    let offering = Offering::Handed(root, symbol_rows(alloc, names, symbols, before, root)?);
    visit_term(lists, alloc, names, &offering, &rule.right)
}

/// Adds what the left roots of all rules hand on.
fn hand_rules(
    lists: &mut Vec<Constraint>,
    alloc: Global,
    names: &[u32],
    symbols: &[SymInfo],
    before: &[Constraint],
    rules: &[Rule],
) -> Result<(), NoMemory>
    ensures { OnOk result (lists.new.items ≡
        fold (handing names.now symbols.now before.now) lists.old.items rules.now) }
{
    for rule in rules {
        hand_rule(lists, alloc, names, symbols, before, rule)?;
    }
    Ok(())
}

/// The same lists once more.
fn copied_lists(alloc: Global, lists: &[Constraint]) -> Result<Vec<Constraint>, NoMemory>
    ensures { IfOk result (λ made. made.items ≡ lists.now) }
{
    let mut made = Vec::new(alloc);
    for rows in lists {
        made.push(rows.try_clone(alloc)?)?;
    }
    Ok(made)
}

/// The lists, with what is handed on by these lists as they are.
fn hand_on(
    alloc: Global,
    names: &[u32],
    parts: &RuleParts,
    before: &[Constraint],
) -> Result<Vec<Constraint>, NoMemory>
    ensures { IfOk result (λ lists. lists.items ≡ handed_on names.now parts.now before.now) }
{
    let mut lists = copied_lists(alloc, before)?;
    let symbols = parts.symbols.as_slice();
    hand_rules(
        &mut lists,
        alloc,
        names,
        symbols,
        before,
        parts.rules.as_slice(),
    )?;
    Ok(lists)
}

/// The rows with their signs, the numbers and the equations.
fn list_offers(
    alloc: Global,
    names: &[u32],
    parts: &RuleParts,
    goal: &Equation,
) -> Result<Vec<Constraint>, NoMemory>
    ensures { IfOk result (λ lists. lists.items ≡ offers_listed names.now parts.now goal.now) }
{
    let mut lists = list_rows(alloc, names, parts, goal)?;
    let rules = parts.rules.as_slice();
    visit_rules(&mut lists, alloc, names, &Offering::Numbers, rules)?;
    visit_rules(&mut lists, alloc, names, &Offering::Equations, rules)?;
    Ok(lists)
}

/// The longer lists, as walks over the goal and the rules make them.
fn walk_lists(
    alloc: Global,
    names: &[u32],
    parts: &RuleParts,
    goal: &Equation,
) -> Result<Vec<Constraint>, NoMemory>
    ensures { IfOk result (λ lists. lists.items ≡ walked names.now parts.now goal.now) }
{
    let listed = list_offers(alloc, names, parts, goal)?;
    let once = hand_on(alloc, names, parts, listed.as_slice())?;
    hand_on(alloc, names, parts, once.as_slice())
}

/// The longer lists of the groups.
pub(crate) fn find_lists(
    alloc: Global,
    names: &[u32],
    parts: &RuleParts,
    goal: &Equation,
) -> Result<Vec<Constraint>, NoMemory>
    ensures { IfOk result (λ lists. lists.items ≡ lists_by names.now parts.now goal.now) }
{
    walk_lists(alloc, names, parts, goal)
}
