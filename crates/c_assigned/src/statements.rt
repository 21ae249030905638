//! How statements pass the sets of definitely assigned slots on, in the order of the text.
ghost use Rattle.std.specs.Prelude.{◌≡◌, ◌<◌, ◌^◌, ◌++◌, ◌∷◌, [], length, map, take, option_map, Option, if◌then◌else◌, IfOk, OnOk};
ghost use Rattle.std.specs.Option.{option_or};
ghost use Rattle.c_ast.specs.declared.expr.Expr.TheViews.{out-Expr};
ghost use Rattle.c_assigned.specs.Flows as spec;
ghost use Rattle.c_assigned.specs.Sets as spec_sets;
ghost use Rattle.c_names.specs.Names as names_spec;
ghost use Rattle.c_names.specs.Slots as slots_spec;

use crate::flow::{Flow, after_branches, fall_through, first_of, leave, sequence};
use crate::reads::first_unset;
use crate::sets::{copy, meet, restrict, with_assigned, with_slot};
use c_ast::{Expr, Stmt};
use c_names::{name_at, slot_of};
use rx_plain::{Boxed, Items, NoMemory};
use std::alloc::Global;

// Whether an expression is a literal above 0.
fn is_above_zero(test: &Expr) -> bool
    ensures { result ≡ spec.is_above_zero (out-Expr test.now) }
{
    match test {
        Expr::Lit(value) => *value > 0,
        _ => false,
    }
}

// Whether a test always holds: a literal above 0, or none.
fn is_endless(test: &Option<Expr>) -> bool
    ensures { result ≡ spec.is_endless test.now }
{
    match test {
        None => true,
        Some(test) => is_above_zero(test),
    }
}

// The first variable that the test of a `for` reads where it may have no value.
fn unset_in_test(
    names: &[u32],
    scope: &[u32],
    set: &Option<Items<bool>>,
    test: &Option<Expr>,
) -> Option<u32>
    requires { length scope.now < 2 ^ 32 }
    ensures { result ≡ spec.unset_in_test names.now scope.now set.now test.now }
{
    match test {
        None => None,
        Some(test) => first_unset(names, scope, set, None, test),
    }
}

// The flow of a declaration, whose name is in scope already, in the last slot.
fn declared(
    alloc: Global,
    names: &[u32],
    scope: &[u32],
    set: Option<Items<bool>>,
    value: &Option<Expr>,
) -> Result<Flow, NoMemory>
    requires some { 0 < length scope.now }
    requires few { length scope.now < 2 ^ 32 }
    ensures { IfOk result (λ f. f ≡ (spec.declaration_flow names.now scope.now set value.now).flow) }
{
    match value {
        None => Ok(fall_through(with_slot(false, set)?, None)),
        Some(value) => {
            let own = (scope.len() - 1) as u32;
            let reading = with_slot(false, copy(alloc, &set)?)?;
            let unset = first_unset(names, scope, &reading, Some(own), value);
            Ok(fall_through(with_slot(true, set)?, unset))
        }
    }
}

// The flow of an assignment.
fn assigned(
    names: &[u32],
    scope: &[u32],
    set: Option<Items<bool>>,
    token: u32,
    value: &Expr,
) -> Flow
    requires { length scope.now < 2 ^ 32 }
    ensures { result ≡ (spec.fall_through scope.now
        (spec.assign (slots_spec.slot_of scope.now (names_spec.name_at names.now token)) set)
        (spec.unset_in names.now scope.now set value.now)).flow }
{
    let unset = first_unset(names, scope, &set, None, value);
    match slot_of(scope, name_at(names, token)) {
        None => fall_through(set, unset),
        Some(slot) => fall_through(with_assigned(slot, set), unset),
    }
}

// After a `for`, with the slots that were in scope outside it.
fn for_after(
    outside: usize,
    is_endless: bool,
    begun: Flow,
    breaks: Option<Items<bool>>,
    unset: Option<u32>,
) -> Flow
    ensures { result ≡ (spec.fall_through [] (spec_sets.restrict outside
        (if is_endless then breaks else begun.behind)) (option_or begun.unset unset)).flow }
{
    let unset = first_of(begun.unset, unset);
    if is_endless {
        fall_through(restrict(outside, breaks), unset)
    } else {
        fall_through(restrict(outside, begun.behind), unset)
    }
}

// Brings the name of a declaration into scope, as the last. A scope that no number could count any
// more answers that there is no memory.
fn bring_in(scope: &mut Vec<u32>, name: u32) -> Result<(), NoMemory>
    ensures ok { OnOk result (scope.new.items ≡ scope.old.items ++ name ∷ []) }
    ensures few { OnOk result (length scope.new.items < 2 ^ 32) }
{
    if scope.len() >= 4_294_967_295 {
        return Err(NoMemory);
    }
    scope.push(name)?;
    Ok(())
}

/// What comes of a statement, with the names in scope and the set in front of it. It fails only
/// when out of memory.
#[cycle(flows)]
pub fn stmt_flow(
    alloc: Global,
    names: &[u32],
    scope: &mut Vec<u32>,
    set: Option<Items<bool>>,
    stmt: &Stmt,
) -> Result<Flow, NoMemory>
    requires { length scope.old.items < 2 ^ 32 }
    ensures flow { IfOk result (λ f. f ≡ (spec.stmt_flow names.now stmt.now scope.old.items
        set).flow) }
    ensures scope { OnOk result (scope.new.items ≡
        (spec.stmt_flow names.now stmt.now scope.old.items set).scope) }
    ensures kept { OnOk result (take (length scope.old.items) scope.new.items ≡ scope.old.items) }
    ensures few { OnOk result (length scope.new.items < 2 ^ 32) }
{
    match stmt {
        Stmt::Empty => Ok(fall_through(set, None)),
        Stmt::Declare(token, value) => {
            bring_in(scope, name_at(names, *token))?;
            declared(alloc, names, scope.as_slice(), set, value)
        }
        Stmt::Assign(token, value) => Ok(assigned(names, scope.as_slice(), set, *token, value)),
        Stmt::If(test, inner, other) => {
            let tested = first_unset(names, scope.as_slice(), &set, None, test);
            let held = copy(alloc, &set)?;
            let holds = inside(alloc, names, scope, held, inner.get())?;
            let fails = inside_optional(alloc, names, scope, set, other)?;
            Ok(after_branches(tested, holds, fails))
        }
        Stmt::While(test, inner) => while_flow(alloc, names, scope, set, inner.get(), test),
        Stmt::DoWhile(inner, test) => do_flow(alloc, names, scope, set, inner.get(), test),
        Stmt::For(first, test, change, inner) => {
            let outside = scope.len();
            let begun = in_order(alloc, names, scope, set, first.as_slice())?;
            let tested = unset_in_test(names, scope.as_slice(), &begun.behind, test);
            let turned = copy(alloc, &begun.behind)?;
            let turn = inside(alloc, names, scope, turned, inner.get())?;
            let going = meet(turn.behind, turn.continues);
            let changed = inside_optional(alloc, names, scope, going, change)?;
            scope.truncate(outside);
            let unset = first_of(tested, first_of(changed.unset, turn.unset));
            Ok(for_after(outside, is_endless(test), begun, turn.breaks, unset))
        }
        Stmt::Break(_) => Ok(Flow {
            behind: None,
            breaks: set,
            continues: None,
            unset: None,
        }),
        Stmt::Continue(_) => Ok(Flow {
            behind: None,
            breaks: None,
            continues: set,
            unset: None,
        }),
        Stmt::Return(value) => {
            let unset = first_unset(names, scope.as_slice(), &set, None, value);
            Ok(fall_through(None, unset))
        }
        Stmt::Block(inner) => block_flow(alloc, names, scope, set, inner.as_slice()),
    }
}

// The flow of a part of a statement: what the part declares is gone after it.
#[cycle(flows)]
fn inside(
    alloc: Global,
    names: &[u32],
    scope: &mut Vec<u32>,
    set: Option<Items<bool>>,
    stmt: &Stmt,
) -> Result<Flow, NoMemory>
    requires { length scope.old.items < 2 ^ 32 }
    ensures flow { IfOk result (λ f. f ≡ spec.nested (spec.stmt_flow names.now stmt.now)
        scope.old.items set) }
    ensures scope { OnOk result (scope.new.items ≡ scope.old.items) }
{
    let outside = scope.len();
    let flow = stmt_flow(alloc, names, scope, set, stmt)?;
    scope.truncate(outside);
    Ok(leave(outside, flow))
}

// The flow of a part of a statement that may be left out.
#[cycle(flows)]
fn inside_optional(
    alloc: Global,
    names: &[u32],
    scope: &mut Vec<u32>,
    set: Option<Items<bool>>,
    part: &Option<Boxed<Stmt>>,
) -> Result<Flow, NoMemory>
    requires { length scope.old.items < 2 ^ 32 }
    ensures flow { IfOk result (λ f. f ≡ spec.nested_optional
        (option_map (spec.stmt_flow names.now) part.now) scope.old.items set) }
    ensures scope { OnOk result (scope.new.items ≡ scope.old.items) }
{
    match part {
        None => Ok(fall_through(set, None)),
        Some(part) => inside(alloc, names, scope, set, part.get()),
    }
}

// The flow of a list of statements, in its order.
#[cycle(flows)]
pub fn in_order(
    alloc: Global,
    names: &[u32],
    scope: &mut Vec<u32>,
    set: Option<Items<bool>>,
    statements: &[Stmt],
) -> Result<Flow, NoMemory>
    requires { length scope.old.items < 2 ^ 32 }
    ensures flow { IfOk result (λ f. f ≡ (spec.in_order
        (map (spec.stmt_flow names.now) statements.now) scope.old.items set).flow) }
    ensures scope { OnOk result (scope.new.items ≡
        (spec.in_order (map (spec.stmt_flow names.now) statements.now) scope.old.items set).scope) }
    ensures kept { OnOk result (take (length scope.old.items) scope.new.items ≡ scope.old.items) }
    ensures few { OnOk result (length scope.new.items < 2 ^ 32) }
{
    let mut flow = fall_through(set, None);
    for statement in statements {
        let behind = flow.behind.take();
        let next = stmt_flow(alloc, names, scope, behind, statement)?;
        flow = sequence(flow, next);
    }
    Ok(flow)
}

// The flow of a `while`.
#[cycle(flows)]
fn while_flow(
    alloc: Global,
    names: &[u32],
    scope: &mut Vec<u32>,
    set: Option<Items<bool>>,
    inner: &Stmt,
    test: &Expr,
) -> Result<Flow, NoMemory>
    requires { length scope.old.items < 2 ^ 32 }
    ensures flow { IfOk result (λ f. f ≡ (spec.while_loop names.now scope.old.items set
        (spec.is_above_zero (out-Expr test.now))
        (spec.unset_in names.now scope.old.items set test.now)
        (spec.nested (spec.stmt_flow names.now inner.now) scope.old.items set)).flow) }
    ensures scope { OnOk result (scope.new.items ≡ scope.old.items) }
{
    let tested = first_unset(names, scope.as_slice(), &set, None, test);
    let turned = copy(alloc, &set)?;
    let turn = inside(alloc, names, scope, turned, inner)?;
    let unset = first_of(tested, turn.unset);
    if is_above_zero(test) {
        Ok(fall_through(turn.breaks, unset))
    } else {
        Ok(fall_through(set, unset))
    }
}

// The flow of a `do`.
#[cycle(flows)]
fn do_flow(
    alloc: Global,
    names: &[u32],
    scope: &mut Vec<u32>,
    set: Option<Items<bool>>,
    inner: &Stmt,
    test: &Expr,
) -> Result<Flow, NoMemory>
    requires { length scope.old.items < 2 ^ 32 }
    ensures flow { IfOk result (λ f. f ≡ (spec.do_loop names.now scope.old.items test.now
        (spec.nested (spec.stmt_flow names.now inner.now) scope.old.items set)).flow) }
    ensures scope { OnOk result (scope.new.items ≡ scope.old.items) }
{
    let turn = inside(alloc, names, scope, set, inner)?;
    let tested = meet(turn.behind, turn.continues);
    let unset = first_of(
        turn.unset,
        first_unset(names, scope.as_slice(), &tested, None, test),
    );
    if is_above_zero(test) {
        Ok(fall_through(turn.breaks, unset))
    } else {
        Ok(fall_through(meet(tested, turn.breaks), unset))
    }
}

// The flow of a block.
#[cycle(flows)]
fn block_flow(
    alloc: Global,
    names: &[u32],
    scope: &mut Vec<u32>,
    set: Option<Items<bool>>,
    inner: &[Stmt],
) -> Result<Flow, NoMemory>
    requires { length scope.old.items < 2 ^ 32 }
    ensures flow { IfOk result (λ f. f ≡ spec.leave (length scope.old.items)
        (spec.in_order (map (spec.stmt_flow names.now) inner.now) scope.old.items set).flow) }
    ensures scope { OnOk result (scope.new.items ≡ scope.old.items) }
{
    let outside = scope.len();
    let flow = in_order(alloc, names, scope, set, inner)?;
    scope.truncate(outside);
    Ok(leave(outside, flow))
}
