//! The rows of rules at the calls of an equation, and which of them are added to rows.
ghost use Rattle.std.specs.Prelude.{◌≡◌, ◌++◌, IfOk, ℕ};
ghost use Rattle.rx_cert.specs.Showing.{shown};
ghost use Rattle.rx_lemma.specs.Calls.{call_of};
ghost use Rattle.rx_lemma.specs.RuleRows as spec;
ghost use Rattle.rx_lemma.specs.RuleRows.{Makes, SaysShown};
ghost use Rattle.rx_plain.specs.Formed.{Forms};
ghost use Rattle.rx_solve.specs.Answers.{IsSolver};
ghost use Rattle.rx_solve.specs.Refuter.{refuted};
ghost use Rattle.rx_term.specs.Paired.{rules_of_shape};
ghost use Rattle.rx_term.specs.Shapes.{same_shape, shape_of};
ghost use Rattle.rx_term.specs.Shapes as shape;

use crate::calls::call_of;
use rx_cert::Cert;
use rx_fm::FmEnd;
use rx_plain::{Items, NoMemory};
use rx_poly::{Poly, PolyEnd};
use rx_row::{Constraint, Row, rows_at_args};
use rx_solve::{AllShown, show_all};
use rx_term::{Equation, Rule, Sym, Term};
use std::alloc::Global;

/// Whether the rule's left side is a call of the symbol.
fn is_of(rule: &Rule, symbol: Sym) -> bool
    ensures { result ≡ same_shape (shape_of rule.now.left) (shape.Call symbol) }
{
    match &rule.left {
        Term::Return(_) => false,
        Term::Fail(_) => false,
        Term::Call(sym, _) => sym.0 == symbol.0,
        Term::Frame(_, _, _) => false,
    }
}

/// The rows of the rules of a symbol, with those polynomials in place of their variables. Large
/// exactly where a polynomial on the way to them passes the limits.
fn rows_of(
    alloc: Global,
    rules: &[Rule],
    symbol: Sym,
    arguments: &[Poly],
) -> Result<Items<Row>, PolyEnd>
    ensures forms { Forms PolyEnd.Large result
        (spec.rows_by arguments.now (rules_of_shape (shape.Call symbol) rules.now)) }
{
    let mut made = Items::new(alloc);
    for rule in rules {
        if is_of(rule, symbol) {
            let rows = rows_at_args(alloc, rule.rows.rows(), arguments)?;
            made.append(Items::from_vec(rows))?;
        }
    }
    Ok(made)
}

/// The rows of the rules at the term's call, with its polynomials in place of their variables.
fn rows_at(alloc: Global, rules: &[Rule], term: &Term) -> Result<Items<Row>, PolyEnd>
    ensures forms { Forms PolyEnd.Large result (spec.rows_at rules.now (call_of term.now)) }
{
    match call_of(term) {
        Some(call) => rows_of(alloc, rules, call.symbol, call.arguments),
        None => Ok(Items::new(alloc)),
    }
}

/// The rows of the rules at both calls of the goal, the left one first. Large exactly where a
/// polynomial on the way to them passes the limits.
pub(crate) fn rule_rows(
    alloc: Global,
    rules: &[Rule],
    goal: &Equation,
) -> Result<Items<Row>, PolyEnd>
    ensures forms { Forms PolyEnd.Large result (spec.rule_rows rules.now goal.now) }
{
    let mut rows = rows_at(alloc, rules, &goal.left)?;
    let more = rows_at(alloc, rules, &goal.right)?;
    rows.append(more)?;
    Ok(rows)
}

/// Whether the solver shows the row, under the given ones.
fn is_shown<S: FnMut(&Constraint) -> Result<Option<Cert>, FmEnd>>(
    alloc: Global,
    given: &Constraint,
    row: &Row,
    solve: &mut S,
) -> Result<bool, FmEnd>
    requires solver { IsSolver S.FnMut solve.old }
    ensures solver { IsSolver S.FnMut solve.new }
    ensures answer { SaysShown (shown refuted given.now row.now) result }
{
    match show_all(alloc, given, std::slice::from_ref(row), solve) {
        Ok(AllShown::Shown(_)) => Ok(true),
        Ok(AllShown::NotShown) => Ok(false),
        Ok(AllShown::TooLarge) => Err(FmEnd::Large),
        Err(NoMemory) => Err(FmEnd::NoMemory),
    }
}

/// Whether the solver shows the row's instance, under the given ones.
#[tactic(auto, unfolding(crate::specs::RuleRows::instance_said))]
pub(crate) fn is_instance_shown<S: FnMut(&Constraint) -> Result<Option<Cert>, FmEnd>>(
    alloc: Global,
    with: &[(u32, Poly)],
    given: &Constraint,
    row: &Row,
    solve: &mut S,
) -> Result<bool, FmEnd>
    requires solver { IsSolver S.FnMut solve.old }
    ensures solver { IsSolver S.FnMut solve.new }
    ensures answer { SaysShown (spec.instance_said with.now given.now row.now) result }
{
    let instance = row.subst(alloc, with)?;
    is_shown(alloc, given, &instance, solve)
}

/// The rows, with the row where its instance is shown under the given ones.
#[tactic(auto, unfolding(crate::specs::RuleRows::row_added))]
fn add_row<S: FnMut(&Constraint) -> Result<Option<Cert>, FmEnd>>(
    alloc: Global,
    with: &[(u32, Poly)],
    given: &Constraint,
    row: &Row,
    rows: Constraint,
    solve: &mut S,
) -> Result<Constraint, FmEnd>
    requires solver { IsSolver S.FnMut solve.old }
    ensures solver { IsSolver S.FnMut solve.new }
    ensures answer { Makes (spec.row_added with.now given.now row.now rows) result }
{
    let shown = is_instance_shown(alloc, with, given, row, solve)?;
    let mut rows = rows;
    if shown {
        let copy = row.try_clone(alloc)?;
        rows.push(copy).map_err(|_| FmEnd::NoMemory)?;
    }
    Ok(rows)
}

/// The rows, with those of the others whose instances are shown under the given ones.
pub(crate) fn add_rows<S: FnMut(&Constraint) -> Result<Option<Cert>, FmEnd>>(
    alloc: Global,
    with: &[(u32, Poly)],
    given: &Constraint,
    more: &[Row],
    rows: Constraint,
    solve: &mut S,
) -> Result<Constraint, FmEnd>
    requires solver { IsSolver S.FnMut solve.old }
    ensures solver { IsSolver S.FnMut solve.new }
    ensures answer { Makes (spec.rows_added with.now given.now more.now rows) result }
{
    let mut rows = rows;
    for row in more {
        rows = add_row(alloc, with, given, row, rows, solve)?;
    }
    Ok(rows)
}
