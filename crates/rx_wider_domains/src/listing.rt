//! Rows that are taken up by the lists of groups, from the goal and from the rules.
ghost use Rattle.std.specs.Prelude.{◌≡◌, IfOk, OnOk};
ghost use Rattle.std.specs.List.{fold};
ghost use Rattle.std.specs.Option.{option_and_then};
ghost use Rattle.rx_pairs.specs.Pairs.{part};
ghost use Rattle.rx_term.specs.Meaning.{redex_of};
ghost use Rattle.rx_term.specs.Stacks.{root_of};
ghost use Rattle.rx_find_domains.specs.Parts.{occurrences_of};
ghost use Rattle.rx_wider_domains.specs.Walks.{at_occurrence, at_rules, no_rows, rows_listed, with_goal, with_rule, with_side, with_signs};

use crate::group_lists::list_number;
use crate::offering::Offering;
use crate::offers::take_offers;
use crate::signs::take_all_signs;
use rx_plain::NoMemory;
use rx_poly::Poly;
use rx_row::{Constraint, Row};
use rx_term::{Equation, Rule, RuleParts, Sym, SymInfo, Term};
use std::alloc::Global;

/// Adds these rows with their signs to the list of the symbol's group, if there is a symbol.
fn take_rows(
    lists: &mut Vec<Constraint>,
    alloc: Global,
    names: &[u32],
    rows: &[Row],
    root: Option<Sym>,
) -> Result<(), NoMemory>
    ensures { OnOk result (lists.new.items ≡ with_signs names.now rows.now lists.old.items root) }
{
    let Some(sym) = root else {
        return Ok(());
    };
    let Some(at) = list_number(names, sym) else {
        return Ok(());
    };
    if at < lists.len() {
        take_all_signs(&mut lists[at], alloc, rows)?;
    }
    Ok(())
}

/// The outermost symbol of the term's redex, if it has one.
fn redex_root(term: &Term) -> Option<Sym>
    ensures { result ≡ option_and_then root_of (redex_of term.now) }
{
    term.redex()?.root()
}

/// Adds the goal's rows to the list of the group of this side's redex.
fn take_side(
    lists: &mut Vec<Constraint>,
    alloc: Global,
    names: &[u32],
    goal: &Equation,
    side: &Term,
) -> Result<(), NoMemory>
    ensures { OnOk result (lists.new.items ≡
        with_side names.now goal.now lists.old.items side.now) }
{
    take_rows(lists, alloc, names, goal.rows.rows(), redex_root(side))
}

/// Adds them by both sides.
fn take_goal(
    lists: &mut Vec<Constraint>,
    alloc: Global,
    names: &[u32],
    goal: &Equation,
) -> Result<(), NoMemory>
    ensures { OnOk result (lists.new.items ≡ with_goal names.now goal.now lists.old.items) }
{
    take_side(lists, alloc, names, goal, &goal.left)?;
    take_side(lists, alloc, names, goal, &goal.right)
}

/// Adds the rows of each rule to the list of the group of its left side's outermost symbol.
fn take_rules(
    lists: &mut Vec<Constraint>,
    alloc: Global,
    names: &[u32],
    rules: &[Rule],
) -> Result<(), NoMemory>
    ensures { OnOk result (lists.new.items ≡ fold (with_rule names.now) lists.old.items rules.now) }
{
    for rule in rules {
        take_rows(lists, alloc, names, rule.rows.rows(), rule.left.root())?;
    }
    Ok(())
}

/// As many empty lists as there are symbols.
fn empty_lists(alloc: Global, symbols: &[SymInfo]) -> Result<Vec<Constraint>, NoMemory>
    ensures { IfOk result (λ lists. lists.items ≡ no_rows symbols.now) }
{
    let mut lists = Vec::new(alloc);
    for _symbol in symbols {
        lists.push(Constraint::from_rows(Vec::new(alloc)))?;
    }
    Ok(lists)
}

/// The rows of the goal and of the rules, with their signs.
pub(crate) fn list_rows(
    alloc: Global,
    names: &[u32],
    parts: &RuleParts,
    goal: &Equation,
) -> Result<Vec<Constraint>, NoMemory>
    ensures { IfOk result (λ lists. lists.items ≡ rows_listed names.now parts.now goal.now) }
{
    let mut lists = empty_lists(alloc, parts.symbols.as_slice())?;
    take_goal(&mut lists, alloc, names, goal)?;
    take_rules(&mut lists, alloc, names, parts.rules.as_slice())?;
    Ok(lists)
}

/// Adds what is offered at the symbol with these arguments to the list of its group.
fn visit_occurrence(
    lists: &mut Vec<Constraint>,
    alloc: Global,
    names: &[u32],
    offering: &Offering,
    sym: Sym,
    args: &[Poly],
) -> Result<(), NoMemory>
    ensures { OnOk result (lists.new.items ≡
        at_occurrence names.now offering.now lists.old.items (part sym args.now)) }
{
    if args.len() > u32::MAX as usize {
        return Err(NoMemory);
    }
    let Some(at) = list_number(names, sym) else {
        return Ok(());
    };
    if at < lists.len() {
        take_offers(&mut lists[at], alloc, names, offering, sym, args)?;
    }
    Ok(())
}

/// Adds what is offered at each occurrence in the term, from outside in.
pub(crate) fn visit_term(
    lists: &mut Vec<Constraint>,
    alloc: Global,
    names: &[u32],
    offering: &Offering,
    term: &Term,
) -> Result<(), NoMemory>
    ensures { OnOk result (lists.new.items ≡
        fold (at_occurrence names.now offering.now) lists.old.items (occurrences_of term.now)) }
{
    let mut here = term;
    loop {
        match here {
            Term::Return(_) => return Ok(()),
            Term::Fail(_) => return Ok(()),
            Term::Call(sym, args) => {
                return visit_occurrence(lists, alloc, names, offering, *sym, args.as_slice());
            }
            Term::Frame(sym, args, inner) => {
                visit_occurrence(lists, alloc, names, offering, *sym, args.as_slice())?;
                here = inner.get();
            }
        }
    }
}

/// Adds what is offered at each occurrence in a right side of the rules.
pub(crate) fn visit_rules(
    lists: &mut Vec<Constraint>,
    alloc: Global,
    names: &[u32],
    offering: &Offering,
    rules: &[Rule],
) -> Result<(), NoMemory>
    ensures { OnOk result (lists.new.items ≡
        at_rules names.now offering.now rules.now lists.old.items) }
{
    for rule in rules {
        visit_term(lists, alloc, names, offering, &rule.right)?;
    }
    Ok(())
}
