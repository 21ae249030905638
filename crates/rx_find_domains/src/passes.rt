//! Passes over the goal and the rules that drop the rows that aren't shown.
ghost use Rattle.std.specs.Prelude.{◌≡◌, IfOk, OnOk};
ghost use Rattle.std.specs.List.{fold};
ghost use Rattle.rx_solve.specs.Answers.{IsSolver};
ghost use Rattle.rx_find_domains.specs.Finding.{at_occurrence, at_part, count_rows, leaves_all, pass, passes};
ghost use Rattle.rx_find_domains.specs.Parts.{goal_asking, occurrences_of, rule_asking};

use crate::given::{Given, goal_given, rule_given};
use crate::staying::visit_occurrence;
use rx_cert::Cert;
use rx_fm::FmEnd;
use rx_plain::NoMemory;
use rx_row::Constraint;
use rx_term::{Equation, Rule, RuleParts, Term};
use std::alloc::Global;

/// Goes over the frames of the term from outside in, and then over its call.
fn visit_term<S: FnMut(&Constraint) -> Result<Option<Cert>, FmEnd>>(
    alloc: Global,
    given: &Given,
    term: &Term,
    lists: &mut Vec<Constraint>,
    solve: &mut S,
) -> Result<(), NoMemory>
    requires solver { IsSolver S.FnMut solve.old }
    ensures solver { IsSolver S.FnMut solve.new }
    ensures lists { OnOk result (lists.new.items ≡
        fold (at_occurrence given.now) lists.old.items (occurrences_of term.now)) }
{
    let mut here = term;
    loop {
        match here {
            Term::Return(_) => return Ok(()),
            Term::Fail(_) => return Ok(()),
            Term::Call(sym, args) => {
                return visit_occurrence(alloc, given, *sym, args.as_slice(), lists, solve);
            }
            Term::Frame(sym, args, inner) => {
                visit_occurrence(alloc, given, *sym, args.as_slice(), lists, solve)?;
                here = inner.get();
            }
        }
    }
}

/// Goes over both sides of the goal, under its rows.
fn visit_goal<S: FnMut(&Constraint) -> Result<Option<Cert>, FmEnd>>(
    alloc: Global,
    goal: &Equation,
    lists: &mut Vec<Constraint>,
    solve: &mut S,
) -> Result<(), NoMemory>
    requires solver { IsSolver S.FnMut solve.old }
    ensures solver { IsSolver S.FnMut solve.new }
    ensures lists { OnOk result (lists.new.items ≡
        at_part lists.old.items (goal_asking goal.now)) }
{
    let given = goal_given(alloc, goal)?;
    visit_term(alloc, &given, &goal.left, lists, solve)?;
    visit_term(alloc, &given, &goal.right, lists, solve)
}

/// Goes over the right side of the rule, under its rows and the list of its left side's outermost
/// symbol.
fn visit_rule<S: FnMut(&Constraint) -> Result<Option<Cert>, FmEnd>>(
    alloc: Global,
    rule: &Rule,
    lists: &mut Vec<Constraint>,
    solve: &mut S,
) -> Result<(), NoMemory>
    requires solver { IsSolver S.FnMut solve.old }
    ensures solver { IsSolver S.FnMut solve.new }
    ensures lists { OnOk result (lists.new.items ≡
        at_part lists.old.items (rule_asking rule.now)) }
{
    let given = rule_given(alloc, rule)?;
    visit_term(alloc, &given, &rule.right, lists, solve)
}

/// Goes over the goal, and then over the rules in order.
fn pass<S: FnMut(&Constraint) -> Result<Option<Cert>, FmEnd>>(
    alloc: Global,
    parts: &RuleParts,
    goal: &Equation,
    lists: &mut Vec<Constraint>,
    solve: &mut S,
) -> Result<(), NoMemory>
    requires solver { IsSolver S.FnMut solve.old }
    ensures solver { IsSolver S.FnMut solve.new }
    ensures lists { OnOk result (lists.new.items ≡ pass parts.now goal.now lists.old.items) }
{
    visit_goal(alloc, goal, lists, solve)?;
    let rules = parts.rules.as_slice();
    for rule in rules {
        visit_rule(alloc, rule, lists, solve)?;
    }
    Ok(())
}

/// How many rows there are.
fn count_rows(lists: &[Constraint]) -> u128
    ensures { result ≡ count_rows lists.now }
{
    let mut count = 0;
    for rows in lists {
        count += rows.rows().len() as u128;
    }
    count
}

/// One pass, and whether it leaves as many rows as there were.
fn pass_once<S: FnMut(&Constraint) -> Result<Option<Cert>, FmEnd>>(
    alloc: Global,
    parts: &RuleParts,
    goal: &Equation,
    lists: &mut Vec<Constraint>,
    solve: &mut S,
) -> Result<bool, NoMemory>
    requires solver { IsSolver S.FnMut solve.old }
    ensures solver { IsSolver S.FnMut solve.new }
    ensures lists { OnOk result (lists.new.items ≡ pass parts.now goal.now lists.old.items) }
    ensures level { IfOk result (λ b. b ≡
        leaves_all parts.now goal.now lists.old.items) }
{
    let before = count_rows(lists.as_slice());
    pass(alloc, parts, goal, lists, solve)?;
    let after = count_rows(lists.as_slice());
    Ok(after == before)
}

/// Passes, up to one that drops nothing.
pub(crate) fn settle<S: FnMut(&Constraint) -> Result<Option<Cert>, FmEnd>>(
    alloc: Global,
    parts: &RuleParts,
    goal: &Equation,
    lists: &mut Vec<Constraint>,
    solve: &mut S,
) -> Result<(), NoMemory>
    requires solver { IsSolver S.FnMut solve.old }
    ensures solver { IsSolver S.FnMut solve.new }
    ensures lists { OnOk result (lists.new.items ≡
        passes (count_rows lists.old.items) parts.now goal.now lists.old.items) }
{
    let mut left = count_rows(lists.as_slice());
    while left > 0 {
        let settled = pass_once(alloc, parts, goal, lists, solve)?;
        if settled {
            return Ok(());
        }
        left -= 1;
    }
    Ok(())
}
