//! What is given at a part of a proof that domains are kept, and the lists of rows by symbol.
ghost use Rattle.std.specs.Prelude.{◌≡◌, ◌++◌, IfOk};
ghost use Rattle.rx_find_domains.specs.Finding.{given_rows, list_of};
ghost use Rattle.rx_find_domains.specs.Parts.{goal_given, rule_given};

use rx_plain::NoMemory;
use rx_row::{Constraint, Row};
use rx_term::{Equation, Rule, Sym};
use std::alloc::Global;

/// Rows that are given, and behind them the list of a symbol as it is by then.
#[derive(Drop)]
pub(crate) struct Given {
    /// The rows.
    pub(crate) rows: Constraint,
    /// The symbol; None where no list is given.
    pub(crate) root: Option<Sym>,
}

/// What is given of the goal: its rows.
pub(crate) fn goal_given(alloc: Global, goal: &Equation) -> Result<Given, NoMemory>
    ensures { IfOk result (λ given. given ≡ goal_given goal.now) }
{
    Ok(Given {
        rows: goal.rows.try_clone(alloc)?,
        root: None,
    })
}

/// What is given of the rule: its rows, and the list of its left side's outermost symbol.
pub(crate) fn rule_given(alloc: Global, rule: &Rule) -> Result<Given, NoMemory>
    ensures { IfOk result (λ given. given ≡ rule_given rule.now) }
{
    Ok(Given {
        rows: rule.rows.try_clone(alloc)?,
        root: rule.left.root(),
    })
}

/// The list of the symbol, borrowed; empty where there is none. Takes no memory.
pub fn rows_of(lists: &[Constraint], sym: Sym) -> &[Row]
    ensures { result.now ≡ list_of lists.now sym.0 }
{
    match lists.get(sym.0 as usize) {
        Some(rows) => rows.rows(),
        None => &[],
    }
}

/// The rows with more behind them, also those that are among them.
fn with_rows(alloc: Global, rows: Constraint, more: &[Row]) -> Result<Constraint, NoMemory>
    ensures { IfOk result (λ all. all ≡ rows ++ more.now) }
{
    let mut all = rows;
    for row in more {
        all.append(row.try_clone(alloc)?)?;
    }
    Ok(all)
}

/// The rows that are given, by the lists as they are.
pub(crate) fn given_rows(
    alloc: Global,
    given: &Given,
    lists: &[Constraint],
) -> Result<Constraint, NoMemory>
    ensures { IfOk result (λ rows. rows ≡ given_rows given.now lists.now) }
{
    let rows = given.rows.try_clone(alloc)?;
    match given.root {
        Some(sym) => with_rows(alloc, rows, rows_of(lists, sym)),
        None => Ok(rows),
    }
}
