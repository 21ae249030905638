//! Rows that may hold at all goals of a shape, since the rules of its calls test them.
ghost use Rattle.std.specs.Prelude.{◌≡◌, ◌<◌, ◌^◌, length, IfOk};
ghost use Rattle.rx_plain.specs.Formed.{Forms, FormsAs, fold_formed};
ghost use Rattle.rx_lemma.specs.Calls.{applied, call_of};
ghost use Rattle.rx_pairs.specs.Loops.{AreLoopsOf};
ghost use Rattle.rx_row.specs.Parts.{poly_of};
ghost use Rattle.rx_term.specs.declared.rule_set.RuleParts.{RuleParts};
ghost use Rattle.rx_shapes.specs.Bounds as spec;
ghost use Rattle.rx_shapes.specs.Candidates as candidates;
ghost use Rattle.rx_shapes.specs.Places as places;

use crate::general::{GeneralSides, general_sides};
use crate::held::goal_bounds;
use rx_lemma::{Call, call_of};
use rx_pairs::Loops;
use rx_plain::{Items, NoMemory};
use rx_poly::{Poly, PolyEnd};
use rx_row::{Constraint, Row};
use rx_term::{Equation, Rule, RuleSet, Sym, Term};
use std::alloc::Global;

/// The rows `p >= 0` and `p + 1 >= 0`. Large exactly where `p + 1` passes the limits.
fn at_least(alloc: Global, poly: Poly) -> Result<Items<Row>, PolyEnd>
    ensures { Forms PolyEnd.Large result (spec.at_least poly) }
{
    let one = Poly::constant(alloc, 1)?;
    let further = poly.add(alloc, &one)?;
    let mut rows = Items::new(alloc);
    rows.push(Row::Ge(poly))?;
    rows.push(Row::Ge(further))?;
    Ok(rows)
}

/// The rows `p != 0`, `p >= 0` and `-p >= 0`. Large exactly where `-p` passes the limits.
fn apart(alloc: Global, poly: Poly) -> Result<Items<Row>, PolyEnd>
    ensures { Forms PolyEnd.Large result (spec.apart poly) }
{
    let opposite = poly.scale(alloc, -1)?;
    let copy = poly.try_clone(alloc)?;
    let mut rows = Items::new(alloc);
    rows.push(Row::Ne(copy))?;
    rows.push(Row::Ge(poly))?;
    rows.push(Row::Ge(opposite))?;
    Ok(rows)
}

/// What may hold where the row is tested.
fn tested_by(alloc: Global, row: Row) -> Result<Items<Row>, PolyEnd>
    ensures { Forms PolyEnd.Large result (spec.tested_by row) }
{
    match row {
        Row::Ge(poly) => at_least(alloc, poly),
        Row::Eq(poly) => apart(alloc, poly),
        Row::Ne(poly) => apart(alloc, poly),
    }
}

/// What may hold where the row is tested at these arguments.
fn tested_at(alloc: Global, args: &[Poly], row: &Row) -> Result<Items<Row>, PolyEnd>
    ensures { Forms PolyEnd.Large result (spec.tested_at args.now row.now) }
{
    let instance = row.at_args(alloc, args)?;
    tested_by(alloc, instance)
}

/// Adds what may hold where the row is tested at these arguments, if it speaks of these alone.
fn push_row(rows: &mut Items<Row>, alloc: Global, args: &[Poly], row: &Row) -> Result<(), PolyEnd>
    ensures { FormsAs (λ _. rows.new) PolyEnd.Large result
        (spec.with_row args.now rows.old row.now) }
{
    if row.variable_bound() <= args.len() as u64 {
        let more = tested_at(alloc, args, row)?;
        rows.append(more)?;
    }
    Ok(())
}

/// Adds what may hold where these rows are tested at these arguments.
fn push_rows(
    rows: &mut Items<Row>,
    alloc: Global,
    args: &[Poly],
    tested: &[Row],
) -> Result<(), PolyEnd>
    ensures { FormsAs (λ _. rows.new) PolyEnd.Large result
        (fold_formed (spec.with_row args.now) rows.old tested.now) }
{
    for row in tested {
        push_row(rows, alloc, args, row)?;
    }
    Ok(())
}

/// Whether the root is in the component of the symbol; a result has no root.
fn is_with(loops: &Loops, symbol: u32, root: Option<Sym>) -> bool
    ensures { (parts : RuleParts) → AreLoopsOf parts loops.now →
        result ≡ spec.is_with parts symbol root }
{
    match root {
        Some(root) => loops.in_one_component(root.0, symbol),
        None => false,
    }
}

/// Adds what may hold where the rule's rows are tested at the call's arguments, if the rule is of
/// the call's component.
fn push_rule(
    rows: &mut Items<Row>,
    alloc: Global,
    loops: &Loops,
    call: Call,
    rule: &Rule,
) -> Result<(), PolyEnd>
    ensures { (parts : RuleParts) → AreLoopsOf parts loops.now →
        FormsAs (λ _. rows.new) PolyEnd.Large result
        (spec.with_rule parts (applied call.entry) rows.old rule.now) }
{
    if is_with(loops, call.symbol.0, rule.left.root()) {
        push_rows(rows, alloc, call.arguments, rule.rows.rows())?;
    }
    Ok(())
}

/// Adds what may hold where the rows of the rules of the call's component are tested at its
/// arguments.
fn push_rules(
    rows: &mut Items<Row>,
    alloc: Global,
    loops: &Loops,
    call: Call,
    rules: &[Rule],
) -> Result<(), PolyEnd>
    ensures { (parts : RuleParts) → AreLoopsOf parts loops.now →
        FormsAs (λ _. rows.new) PolyEnd.Large result
        (fold_formed (spec.with_rule parts (applied call.entry)) rows.old rules.now) }
{
    for rule in rules {
        push_rule(rows, alloc, loops, call, rule)?;
    }
    Ok(())
}

/// Adds the rows of the call that the side ends in, if it ends in one.
fn push_side(
    rows: &mut Items<Row>,
    alloc: Global,
    rules: &RuleSet,
    loops: &Loops,
    side: &Term,
) -> Result<(), PolyEnd>
    requires loops { AreLoopsOf rules.now loops.now }
    ensures { FormsAs (λ _. rows.new) PolyEnd.Large result
        (spec.with_call rules.now rows.old (call_of side.now)) }
{
    match call_of(side) {
        Some(call) => push_rules(rows, alloc, loops, call, rules.rules()),
        None => Ok(()),
    }
}

/// The rows that may hold at all goals of the shape with these general sides, since the rules of the
/// components of both calls test them: each row at the call's places, as it is and one further.
/// Large exactly where a polynomial of them passes the limits.
pub fn rule_bounds(
    alloc: Global,
    rules: &RuleSet,
    loops: &Loops,
    sides: &GeneralSides,
) -> Result<Items<Row>, PolyEnd>
    requires loops { AreLoopsOf rules.now loops.now }
    ensures { Forms PolyEnd.Large result (spec.rule_bounds rules.now sides.now) }
{
    let mut rows = Items::new(alloc);
    push_side(&mut rows, alloc, rules, loops, &sides.left)?;
    push_side(&mut rows, alloc, rules, loops, &sides.right)?;
    Ok(rows)
}

/// Whether the row speaks of a number alone.
fn is_number(row: &Row) -> bool
    ensures { result ≡ spec.is_number (poly_of row.now) }
{
    row.poly().is_constant().is_some()
}

/// The rows in order, each where it first stands; those that speak of a number alone are left out.
/// Fails only where there is no memory.
fn distinct(alloc: Global, rows: Items<Row>) -> Result<Constraint, NoMemory>
    ensures { IfOk result (λ c. c ≡ spec.distinct rows) }
{
    let mut kept = Constraint::from_rows(Vec::new(alloc));
    for row in rows.into_vec() {
        if !is_number(&row) {
            kept.push(row)?;
        }
    }
    Ok(kept)
}

/// The rows that may hold at all goals of the shape of this one, each where it first stands: those
/// that the rules of its calls test, then those of the goal; rows of a number alone are left out.
/// Large exactly where a polynomial of them passes the limits.
pub fn candidate_rows(
    alloc: Global,
    rules: &RuleSet,
    loops: &Loops,
    goal: &Equation,
) -> Result<Constraint, PolyEnd>
    requires loops { AreLoopsOf rules.now loops.now }
    requires few { length (places.places_of goal.now) < 2 ^ 32 }
    ensures { Forms PolyEnd.Large result (candidates.candidate_rows rules.now goal.now) }
{
    let sides = general_sides(alloc, goal)?;
    let mut rows = rule_bounds(alloc, rules, loops, &sides)?;
    rows.append(goal_bounds(alloc, goal)?)?;
    distinct(alloc, rows).map_err(|_| PolyEnd::NoMemory)
}
