//! The rules of what is done at a symbol.
ghost use Rattle.std.specs.Prelude.{◌≡◌, ◌++◌, OnOk, IfOk, [], ◌∷◌, length, map};
ghost use Rattle.c_ast.specs.declared.integers.Integers.TheVariants.{Unbounded};
ghost use Rattle.rx_plain.specs.Formed.{FormsAs, Forms};
ghost use Rattle.rx_code.specs.Points.{with_element};
ghost use Rattle.rx_code.specs.Programs as table;
ghost use Rattle.rx_code.specs.Rules as spec;
ghost use Rattle.rx_term.specs.declared.term.Term.TheVariants as term;
ghost use Rattle.rx_translate.specs.Rules.{action_after, divided_formed, rules_after};

use crate::goal::first_variables;
use c_ast::Integers;
use rx_code::{Action, Division, Instruction, Point};
use rx_plain::{Boxed, Items};
use rx_poly::{Poly, PolyEnd};
use rx_row::{Constraint, Row};
use rx_term::{Rule, Sym, Term};
use std::alloc::{AllocError, Global};

/// The first symbol of a function, by its place; 0 where it isn't compiled. Takes no memory.
pub fn entry_of(entries: &[(u32, u32)], f: u32) -> u32
    ensures { result ≡ table.entry_of entries.now f }
{
    for (place, symbol) in entries {
        if *place == f {
            return *symbol;
        }
    }
    0
}

/// The call of a point on the first of these, as many as it has variables.
fn jump(z: Point, mut args: Items<Poly>) -> Term
    ensures { result ≡ spec.jump z args }
{
    args.truncate(z.width as usize);
    Term::Call(Sym(z.symbol), args)
}

/// The call of a point on its variables.
fn call_of(alloc: Global, a: Point) -> Result<Term, AllocError>
    ensures { IfOk result (λ t. t ≡ spec.call_of a) }
{
    Ok(Term::Call(Sym(a.symbol), first_variables(alloc, a.width)?))
}

/// A rule without rows.
fn always(alloc: Global, left: Term, right: Term) -> Rule
    ensures { result ≡ spec.always left right }
{
    Rule {
        left,
        right,
        rows: Constraint::from_rows(Vec::new(alloc)),
    }
}

/// A rule with a row.
fn where_holds(alloc: Global, row: Row, left: Term, right: Term) -> Result<Rule, AllocError>
    ensures { IfOk result (λ r. r ≡ spec.where_holds row left right) }
{
    let mut rows = Items::new(alloc);
    rows.push(row)?;
    Ok(Rule {
        left,
        right,
        rows: Constraint::from_rows(rows.into_vec()),
    })
}

/// The polynomial that is the result of a division. Large exactly where it passes the limits.
fn divided(alloc: Global, way: Division, left: &Poly, right: &Poly) -> Result<Poly, PolyEnd>
    ensures forms { Forms PolyEnd.Large result (divided_formed way left.now right.now) }
{
    match way {
        Division::Quotient => left.quotient(alloc, right),
        Division::Remainder => left.remainder(alloc, right),
    }
}

/// The polynomials with one in place k, which may be the next place.
#[tactic(auto, using(crate::proofs::Elements::set_is))]
fn with_element(k: u32, value: Poly, args: Items<Poly>) -> Result<Items<Poly>, AllocError>
    ensures { IfOk result (λ ps. ps ≡ with_element k value args) }
{
    let mut elements = args.into_vec();
    if (k as usize) < elements.len() {
        elements[k as usize] = value;
        return Ok(Items::from_vec(elements));
    }
    elements.push(value)?;
    Ok(Items::from_vec(elements))
}

/// On to another point, with a variable set where a value is given.
fn push_jump(
    alloc: Global,
    rules: &mut Items<Rule>,
    a: Point,
    args: Items<Poly>,
    z: Point,
) -> Result<(), AllocError>
    ensures { OnOk result (rules.new ≡ rules.old ++
        spec.always (spec.call_of a) (spec.jump z args) ∷ []) }
{
    let left = call_of(alloc, a)?;
    rules.push(always(alloc, left, jump(z, args)))
}

/// Where the row holds to one point, and where it doesn't to another.
fn push_test(
    alloc: Global,
    rules: &mut Items<Rule>,
    a: Point,
    row: &Row,
    y: Point,
    w: Point,
) -> Result<(), PolyEnd>
    ensures forms { FormsAs (λ _. rules.new) PolyEnd.Large result
        (action_after Unbounded rules.old (λ f. f) a (Action.Test row.now y w)) }
{
    let negated = row.negate(alloc)?;
    let yes = jump(y, first_variables(alloc, a.width)?);
    rules.push(where_holds(alloc, row.try_clone(alloc)?, call_of(alloc, a)?, yes)?)?;
    let no = jump(w, first_variables(alloc, a.width)?);
    rules.push(where_holds(alloc, negated, call_of(alloc, a)?, no)?)?;
    Ok(())
}

/// The failure of a result out of range where the row holds, and on where it doesn't.
// These rules are the same by either kind of integers, which only what is handed on at a frame
// depends on.
fn push_exclusion(
    alloc: Global,
    rules: &mut Items<Rule>,
    a: Point,
    row: &Row,
    z: Point,
) -> Result<(), PolyEnd>
    ensures forms { FormsAs (λ _. rules.new) PolyEnd.Large result
        (action_after Unbounded rules.old (λ f. f) a (Action.Exclude row.now z)) }
{
    let negated = row.negate(alloc)?;
    let outside = row.try_clone(alloc)?;
    rules.push(where_holds(alloc, outside, call_of(alloc, a)?, Term::Fail(2))?)?;
    let on = jump(z, first_variables(alloc, a.width)?);
    rules.push(where_holds(alloc, negated, call_of(alloc, a)?, on)?)?;
    Ok(())
}

/// A failure where the divisor is 0, and the result as one variable more where it isn't.
fn push_division(
    alloc: Global,
    rules: &mut Items<Rule>,
    a: Point,
    way: Division,
    left: &Poly,
    right: &Poly,
    b: Point,
) -> Result<(), PolyEnd>
    ensures forms { FormsAs (λ _. rules.new) PolyEnd.Large result
        (action_after Unbounded rules.old (λ f. f) a (Action.Divide way left.now right.now b)) }
{
    let mut args = first_variables(alloc, a.width)?;
    args.push(divided(alloc, way, left, right)?)?;
    let zero = Row::Eq(right.try_clone(alloc)?);
    rules.push(where_holds(alloc, zero, call_of(alloc, a)?, Term::Fail(1))?)?;
    let other = Row::Ne(right.try_clone(alloc)?);
    rules.push(where_holds(alloc, other, call_of(alloc, a)?, jump(b, args))?)?;
    Ok(())
}

/// A frame over the call of a function.
fn push_call(
    alloc: Global,
    rules: &mut Items<Rule>,
    a: Point,
    entry: u32,
    args: &Items<Poly>,
    r: Point,
) -> Result<(), AllocError>
    ensures { OnOk result (rules.new ≡ rules.old ++
        spec.rules_of_action Unbounded (λ f. entry) a (Action.Call 0 args.now r)) }
{
    let mut copies = Items::new(alloc);
    for arg in args.as_slice() {
        copies.push(arg.try_clone(alloc)?)?;
    }
    let mut kept = first_variables(alloc, a.width)?;
    kept.truncate(r.width as usize);
    let inner = Boxed::new(alloc, Term::Call(Sym(entry), copies))?;
    let left = call_of(alloc, a)?;
    rules.push(always(alloc, left, Term::Frame(Sym(r.symbol), kept, inner)))
}

/// How many failures there are: 1, and of 32-bit integers 2.
pub(crate) fn number_of_failures(integers: Integers) -> u8
    ensures { result ≡ length (spec.failure_codes integers) }
{
    match integers {
        Integers::Unbounded => 1,
        Integers::Bits32 => 2,
    }
}

/// The frame at a point over a term.
fn frame_over(alloc: Global, a: Point, inner: Term) -> Result<Term, AllocError>
    ensures { IfOk result (λ t. t ≡
        term.Frame (spec.symbol a.symbol) (spec.variables_of a) inner) }
{
    let boxed = Boxed::new(alloc, inner)?;
    Ok(Term::Frame(Sym(a.symbol), first_variables(alloc, a.width)?, boxed))
}

/// At a frame: what is returned is one variable more of a point.
fn over_value(alloc: Global, a: Point, b: Point) -> Result<Rule, AllocError>
    ensures { IfOk result (λ r. r ≡ spec.over_value a b) }
{
    let left = frame_over(alloc, a, Term::Return(Poly::variable(alloc, a.width)?))?;
    let mut args = first_variables(alloc, a.width)?;
    args.push(Poly::variable(alloc, a.width)?)?;
    Ok(always(alloc, left, jump(b, args)))
}

/// At a frame: a failure stays what it is.
fn over_failure(alloc: Global, a: Point, code: u8) -> Result<Rule, AllocError>
    ensures { IfOk result (λ r. r ≡ spec.over_failure a code) }
{
    let left = frame_over(alloc, a, Term::Fail(code))?;
    Ok(always(alloc, left, Term::Fail(code)))
}

/// At a frame: each failure stays what it is.
fn push_failures(
    alloc: Global,
    integers: Integers,
    rules: &mut Items<Rule>,
    a: Point,
) -> Result<(), AllocError>
    ensures { OnOk result (rules.new ≡
        rules.old ++ map (spec.over_failure a) (spec.failure_codes integers)) }
{
    rules.push(over_failure(alloc, a, 1)?)?;
    match integers {
        Integers::Unbounded => Ok(()),
        Integers::Bits32 => rules.push(over_failure(alloc, a, 2)?),
    }
}

/// At a frame: what is returned is one variable more of a point, and each failure stays what it
/// is.
fn push_resume(
    alloc: Global,
    integers: Integers,
    rules: &mut Items<Rule>,
    a: Point,
    b: Point,
) -> Result<(), AllocError>
    ensures { OnOk result (rules.new ≡ rules.old ++
        spec.rules_of_action integers (λ f. f) a (Action.Resume b)) }
{
    rules.push(over_value(alloc, a, b)?)?;
    push_failures(alloc, integers, rules, a)
}

/// On to another point, with a variable set.
fn push_set(
    alloc: Global,
    rules: &mut Items<Rule>,
    a: Point,
    k: u32,
    value: &Poly,
    z: Point,
) -> Result<(), AllocError>
    ensures { OnOk result (rules.new ≡ rules.old ++
        spec.rules_of_action Unbounded (λ f. f) a (Action.Set k value.now z)) }
{
    let args = with_element(k, value.try_clone(alloc)?, first_variables(alloc, a.width)?)?;
    push_jump(alloc, rules, a, args, z)
}

/// What a point returns.
fn push_return(
    alloc: Global,
    rules: &mut Items<Rule>,
    a: Point,
    value: &Poly,
) -> Result<(), AllocError>
    ensures { OnOk result (rules.new ≡ rules.old ++
        spec.rules_of_action Unbounded (λ f. f) a (Action.Return value.now)) }
{
    let left = call_of(alloc, a)?;
    rules.push(always(alloc, left, Term::Return(value.try_clone(alloc)?)))
}

/// Adds the rules of an instruction after others, by the kind of integers, where `entries` has the
/// entry of each function.
/// Large exactly where the negation of a row, or the result of a division, passes the limits.
pub fn push_rules(
    alloc: Global,
    integers: Integers,
    rules: &mut Items<Rule>,
    entries: &[(u32, u32)],
    d: &Instruction,
) -> Result<(), PolyEnd>
    ensures forms { FormsAs (λ _. rules.new) PolyEnd.Large result
        (rules_after integers entries.now rules.old d.now) }
{
    let a = d.at;
    match &d.action {
        Action::Go(z) => push_jump(alloc, rules, a, first_variables(alloc, a.width)?, *z)?,
        Action::Set(k, value, z) => push_set(alloc, rules, a, *k, value, *z)?,
        Action::Test(row, y, w) => push_test(alloc, rules, a, row, *y, *w)?,
        Action::Exclude(row, z) => push_exclusion(alloc, rules, a, row, *z)?,
        Action::Divide(way, left, right, b) => {
            push_division(alloc, rules, a, *way, left, right, *b)?;
        }
        Action::Call(f, args, r) => push_call(alloc, rules, a, entry_of(entries, *f), args, *r)?,
        Action::Resume(b) => push_resume(alloc, integers, rules, a, *b)?,
        Action::Return(value) => push_return(alloc, rules, a, value)?,
    }
    Ok(())
}
