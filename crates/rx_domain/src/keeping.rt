//! Whether a goal and rules keep the domains, part by part.
ghost use Rattle.std.specs.Prelude.{◌≡◌, ◌++◌, true, ℕ, ℤ, IfOk, IfErr, OnOk};
ghost use Rattle.rx_cert.specs.Conditions.{conditions, is_shown};
ghost use Rattle.rx_cert.specs.Findings.{Beyond, said};
ghost use Rattle.rx_row.specs.Holds.{AllHold};
ghost use Rattle.rx_rewriting.specs.Premises.{ClosedUnder};
ghost use Rattle.rx_term.specs.Domains.{IsInside};
ghost use Rattle.rx_term.specs.Fitting.{term_fits};
ghost use Rattle.rx_term.specs.Meaning.{Instance, ground_at};
ghost use Rattle.rx_domain.specs.Answers.{Tells};
ghost use Rattle.rx_domain.specs.Keeping.{Keeps, goal_part, goes_on, keeping, one_kept, part_finding, root_domain, rule_part};

use crate::domain_end::DomainEnd;
use rx_cert::{Cert, ConditionsAnswer, check_conditions};
use rx_plain::Items;
use rx_poly::PolyEnd;
use rx_row::{Constraint, Row};
use rx_term::{Equation, Rule, RuleSet, inside_of};
use std::alloc::{AllocError, Global};

/// Whether the rows follow from the given ones.
fn is_shown(
    alloc: Global,
    given: &Constraint,
    rows: &[Row],
    certs: &[Cert],
) -> Result<bool, PolyEnd>
    ensures answer { IfOk result (λ b. is_shown (conditions given.now (Some rows.now) certs.now) ≡
        said b) }
    ensures large { IfErr result (λ e. e ≡ PolyEnd.Large →
        is_shown (conditions given.now (Some rows.now) certs.now) ≡ Beyond) }
{
    match check_conditions(alloc, given, rows, certs)? {
        ConditionsAnswer::Shown => Ok(true),
        ConditionsAnswer::WrongCount => Ok(false),
        ConditionsAnswer::NotShown(_) => Ok(false),
    }
}

/// Whether the rows that put the goal inside follow from its own.
fn examine_goal(
    alloc: Global,
    rules: &RuleSet,
    goal: &Equation,
    certs: &[Cert],
) -> Result<bool, PolyEnd>
    ensures answer { IfOk result (λ b. part_finding (goal_part rules.now goal.now) certs.now ≡
        said b) }
    ensures large { IfErr result (λ e. e ≡ PolyEnd.Large →
        part_finding (goal_part rules.now goal.now) certs.now ≡ Beyond) }
{
    let asked = inside_of(alloc, rules, goal)?;
    is_shown(alloc, &goal.rows, asked.as_slice(), certs)
}

/// Adds the rows after the others, also those that are among them.
fn append_rows(given: &mut Items<Row>, alloc: Global, rows: &[Row]) -> Result<(), AllocError>
    ensures { OnOk result (given.new ≡ given.old ++ rows.now) }
{
    for row in rows {
        given.push(row.try_clone(alloc)?)?;
    }
    Ok(())
}

/// The rows of the rule, and behind them the domain of its left side's outermost symbol.
fn given_rows(alloc: Global, rules: &RuleSet, rule: &Rule) -> Result<Constraint, AllocError>
    ensures { IfOk result (λ given. given ≡ rule.now.rows ++ root_domain rules.now rule.now) }
{
    let mut given = Items::from_vec(rule.rows.try_clone(alloc)?.into_rows());
    if let Some(sym) = rule.left.root() {
        append_rows(&mut given, alloc, rules.domain(sym))?;
    }
    Ok(Constraint::from_rows(given.into_vec()))
}

/// Whether the rows that put the rule's right side inside follow from the rule's own and from the
/// domain of its left side's outermost symbol.
fn examine_rule(
    alloc: Global,
    rules: &RuleSet,
    rule: &Rule,
    certs: &[Cert],
) -> Result<bool, PolyEnd>
    ensures answer { IfOk result (λ b. part_finding (rule_part rules.now rule.now) certs.now ≡
        said b) }
    ensures large { IfErr result (λ e. e ≡ PolyEnd.Large →
        part_finding (rule_part rules.now rule.now) certs.now ≡ Beyond) }
{
    let asked = rules.inside_rows(alloc, &rule.right)?;
    let given = given_rows(alloc, rules, rule)?;
    is_shown(alloc, &given, asked.as_slice(), certs)
}

/// Whether the part with that number is shown; false where there is none.
fn examine_part(
    alloc: Global,
    rules: &RuleSet,
    goal: &Equation,
    part: usize,
    certs: &[Cert],
) -> Result<bool, PolyEnd>
    ensures answer { IfOk result (λ b. one_kept rules.now goal.now part certs.now ≡ said b) }
    ensures large { IfErr result (λ e. e ≡ PolyEnd.Large →
        one_kept rules.now goal.now part certs.now ≡ Beyond) }
{
    if part == 0 {
        return examine_goal(alloc, rules, goal, certs);
    }
    match rules.rules().get(part - 1) {
        Some(rule) => examine_rule(alloc, rules, rule, certs),
        None => Ok(false),
    }
}

/// Whether the part with that number is shown: 0 is the goal, whose inside rows are to follow from
/// its own rows; the others are the rules in order, the inside rows of whose right side are to
/// follow from the rule's own rows and the domain of its left side's outermost symbol behind them.
/// One certificate is given for each row that isn't plain. NotKept with the number exactly where
/// there is no such part or it isn't shown, Large exactly where it passes the limits first.
pub fn keep_one(
    alloc: Global,
    rules: &RuleSet,
    goal: &Equation,
    part: usize,
    certs: &[Cert],
) -> Result<(), DomainEnd>
    ensures exact { Tells (goes_on part (one_kept rules.now goal.now part certs.now) Keeps) result }
{
    match examine_part(alloc, rules, goal, part, certs) {
        Ok(true) => Ok(()),
        Ok(false) => Err(DomainEnd::NotKept(part)),
        Err(PolyEnd::Large) => Err(DomainEnd::Large(part)),
        Err(PolyEnd::NoMemory) => Err(DomainEnd::NoMemory),
    }
}

/// Whether the goal and the rules keep the domains: the parts in order, as `keep_one` numbers them,
/// each with its list of certificates. The first part that has no list, fails, or passes the limits
/// decides: NotKept or Large with its number. NotKept with the number of parts where there are more
/// lists. None of the rows of a part without a list is formed.
pub fn keeps(
    alloc: Global,
    rules: &RuleSet,
    goal: &Equation,
    lists: &[Items<Cert>],
) -> Result<(), DomainEnd>
    ensures exact { Tells (keeping rules.now goal.now lists.now) result }
    ensures goal { OnOk result (term_fits rules.now goal.now.left ≡ true →
        term_fits rules.now goal.now.right ≡ true → (a : ℕ → ℤ) → AllHold a goal.now.rows →
        IsInside rules.now (ground_at a goal.now.left) ×
        IsInside rules.now (ground_at a goal.now.right)) }
    ensures steps { OnOk result (ClosedUnder (IsInside rules.now) (Instance rules.now.rules)) }
{
    for (part, certs) in lists.iter().enumerate() {
        keep_one(alloc, rules, goal, part, certs.as_slice())?;
    }
    if lists.len() <= rules.parts().rules.len() {
        return Err(DomainEnd::NotKept(lists.len()));
    }
    Ok(())
}
