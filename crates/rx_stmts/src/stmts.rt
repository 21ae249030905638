//! The code of statements, as the table of rx_code says.
ghost use Rattle.std.specs.Prelude.{◌≡◌, ◌<◌, length, IfSome, IfNone};
ghost use Rattle.rx_plain.specs.Formed.{pure};
ghost use Rattle.c_ast.specs.declared.integers.Integers.{Integers};
ghost use Rattle.rx_code.specs.Codes.{test_or_one};
ghost use Rattle.rx_code.specs.Expressions.{expr_code};
ghost use Rattle.rx_code.specs.Pieces.{does, most_variables};
ghost use Rattle.rx_code.specs.Statements.{do_code, if_code, stmt_code, turn_code, value_or_zero, while_code, with_value};
ghost use Rattle.rx_exprs.specs.Compiles.{CompilesCode, condition_at};
ghost use Rattle.rx_stmts.specs.Statements.{CompilesHead, CompilesPoint, CompilesTurn, as_places, head_at, list_at, slots_after, slots_after_list, stmt_at};

use crate::places::Places;
use c_ast::{Expr, Stmt};
use rx_code::{Action, Code, Point};
use rx_exprs::{Setting, condition, set_value, value};
use rx_poly::{Poly, PolyEnd};

/// How many variables a symbol may have.
pub(crate) const MOST_VARIABLES: u32 = 128;

/// On from one point to another.
fn go(code: &mut Code, at: Point, to: Point) -> Result<(), PolyEnd>
    ensures code { CompilesCode code.old code.new result (pure (does at (Action.Go to))) }
{
    code.emit(at, Action::Go(to))?;
    Ok(())
}

/// A declaration: the slot gets its initial value, which is 0 where it is missing.
fn declare(
    setting: Setting,
    code: &mut Code,
    slot: u32,
    initial: &Option<Expr>,
    p: Places,
) -> Result<(), PolyEnd>
    ensures code { CompilesCode code.old code.new result
        (with_value (value_or_zero setting.integers initial.now) (λ v. Action.Set slot v p.to) p.at
        (length code.old.opened)) }
{
    match initial {
        None => set_value(setting, code, &Expr::Lit(0), p.at, slot, p.to),
        Some(e) => set_value(setting, code, e, p.at, slot, p.to),
    }
}

/// The value of an expression is returned.
fn return_value(setting: Setting, code: &mut Code, e: &Expr, at: Point) -> Result<(), PolyEnd>
    ensures code { CompilesCode code.old code.new result
        (with_value (expr_code setting.integers e.now) Action.Return at (length code.old.opened)) }
{
    let (at, returned) = value(setting, code, e, at)?;
    code.emit(at, Action::Return(returned))?;
    Ok(())
}

/// The test of a `for`, which is 1 where it is missing.
fn for_test(
    setting: Setting,
    code: &mut Code,
    test: &Option<Expr>,
    h: Point,
    y: Point,
    to: Point,
) -> Result<(), PolyEnd>
    ensures code { CompilesCode code.old code.new result
        (condition_at setting.integers (test_or_one test.now) h y to code.old) }
{
    match test {
        None => condition(setting, code, &Expr::Lit(1), h, y, to),
        Some(e) => condition(setting, code, e, h, y, to),
    }
}

/// The places of a loop's body: its end and a `continue` lead on in the loop, and a `break` out of
/// it.
fn inside_loop(at: Point, to: Point, out: Point) -> Places
    ensures { result ≡ (record { at = at; to = to; break_to = out; continue_to = to }) }
{
    Places {
        at,
        to,
        break_to: out,
        continue_to: to,
    }
}

/// Marks the head of a `for`, and opens the points of its body and of its change.
fn turn_points(code: &mut Code, h: Point) -> Result<(Point, Point), PolyEnd>
    ensures points { CompilesTurn code.old code.new result h }
{
    code.mark_head(h.symbol)?;
    let y = code.open(h.width, false)?;
    let k = code.open(h.width, false)?;
    Ok((y, k))
}

/// How many slots are in scope after a statement; None where these are more than a symbol may have
/// variables. Takes no memory.
fn slots_past(t: &Stmt, slots: u32) -> Option<u32>
    ensures slots { (integers : Integers) →
        IfSome result (λ n. n ≡ slots_after integers t.now slots) }
    ensures many { (integers : Integers) →
        IfNone result (most_variables < slots_after integers t.now slots) }
{
    match t {
        Stmt::Declare(..) => {
            if slots >= MOST_VARIABLES {
                None
            } else {
                Some(slots + 1)
            }
        }
        _ => Some(slots),
    }
}

/// Opens the point of what follows several statements; it has the slots in scope after them.
fn open_after_list(code: &mut Code, ts: &[Stmt], width: u32) -> Result<Point, PolyEnd>
    ensures point { (integers : Integers) →
        CompilesPoint code.old code.new result (slots_after_list integers ts.now width) }
{
    let mut slots = width;
    for t in ts {
        match slots_past(t, slots) {
            Some(next) => slots = next,
            None => return Err(PolyEnd::Large),
        }
    }
    code.open(slots, false)
}

/// Opens the point of what follows a statement; it has the slots in scope after it.
fn open_after(code: &mut Code, t: &Stmt, width: u32) -> Result<Point, PolyEnd>
    ensures point { (integers : Integers) →
        CompilesPoint code.old code.new result (slots_after integers t.now width) }
{
    match t {
        Stmt::Declare(..) => code.open_wider(width),
        _ => code.open(width, false),
    }
}

/// A statement, from where it begins to where it leads.
#[cycle(stmts)]
pub fn statement(setting: Setting, code: &mut Code, t: &Stmt, p: Places) -> Result<(), PolyEnd>
    ensures code { CompilesCode code.old code.new result
        (stmt_at setting.integers t.now p code.old) }
{
    match t {
        Stmt::Empty => go(code, p.at, p.to),
        Stmt::Declare(slot, initial) => declare(setting, code, *slot, initial, p),
        Stmt::Assign(slot, e) => set_value(setting, code, e, p.at, *slot, p.to),
        Stmt::If(test, inner, other) => match other {
            None => if_alone(setting, code, inner.get(), test, p),
            Some(other) => {
                let y = code.open(p.at.width, false)?;
                let w = code.open(p.at.width, false)?;
                condition(setting, code, test, p.at, y, w)?;
                statement(setting, code, inner.get(), Places { at: y, ..p })?;
                statement(setting, code, other.get(), Places { at: w, ..p })
            }
        },
        Stmt::While(test, inner) => while_loop(setting, code, inner.get(), test, p),
        Stmt::DoWhile(inner, test) => do_loop(setting, code, inner.get(), test, p),
        Stmt::Break(_) => go(code, p.at, p.break_to),
        Stmt::Continue(_) => go(code, p.at, p.continue_to),
        Stmt::Return(e) => return_value(setting, code, e, p.at),
        Stmt::For(first, test, change, inner) => {
            let h = head(setting, code, first.as_slice(), p)?;
            match change {
                None => turn(setting, code, inner.get(), test, h, p.to),
                Some(change) => {
                    let (y, k) = turn_points(code, h)?;
                    for_test(setting, code, test, h, y, p.to)?;
                    statement(setting, code, inner.get(), inside_loop(y, k, p.to))?;
                    statement(setting, code, change.get(), Places { at: k, to: h, ..p })
                }
            }
        }
        Stmt::Block(inner) => list(setting, code, inner.as_slice(), p),
    }
}

/// `if` without `else`.
#[cycle(stmts)]
fn if_alone(
    setting: Setting,
    code: &mut Code,
    inner: &Stmt,
    test: &Expr,
    p: Places,
) -> Result<(), PolyEnd>
    ensures code { CompilesCode code.old code.new result
        (if_code (expr_code setting.integers test.now) (stmt_code setting.integers inner.now)
        (as_places p) (length code.old.opened)) }
{
    let y = code.open(p.at.width, false)?;
    condition(setting, code, test, p.at, y, p.to)?;
    statement(setting, code, inner, Places { at: y, ..p })
}

/// `while`: its head is the point at which it begins.
#[cycle(stmts)]
fn while_loop(
    setting: Setting,
    code: &mut Code,
    inner: &Stmt,
    test: &Expr,
    p: Places,
) -> Result<(), PolyEnd>
    ensures code { CompilesCode code.old code.new result
        (while_code (expr_code setting.integers test.now) (stmt_code setting.integers inner.now)
        (as_places p) (length code.old.opened)) }
{
    code.mark_head(p.at.symbol)?;
    let y = code.open(p.at.width, false)?;
    condition(setting, code, test, p.at, y, p.to)?;
    statement(setting, code, inner, inside_loop(y, p.at, p.to))
}

/// `do`: likewise; a `continue` leads to the point of its test.
#[cycle(stmts)]
fn do_loop(
    setting: Setting,
    code: &mut Code,
    inner: &Stmt,
    test: &Expr,
    p: Places,
) -> Result<(), PolyEnd>
    ensures code { CompilesCode code.old code.new result
        (do_code (stmt_code setting.integers inner.now) (expr_code setting.integers test.now)
        (as_places p) (length code.old.opened)) }
{
    code.mark_head(p.at.symbol)?;
    let k = code.open(p.at.width, false)?;
    statement(setting, code, inner, inside_loop(p.at, k, p.to))?;
    condition(setting, code, test, k, p.at, p.to)
}

/// A turn of a `for` without a change, from its head on.
#[cycle(stmts)]
fn turn(
    setting: Setting,
    code: &mut Code,
    inner: &Stmt,
    test: &Option<Expr>,
    h: Point,
    to: Point,
) -> Result<(), PolyEnd>
    ensures code { CompilesCode code.old code.new result
        (turn_code (expr_code setting.integers (test_or_one test.now))
        (stmt_code setting.integers inner.now) h to (length code.old.opened)) }
{
    code.mark_head(h.symbol)?;
    let y = code.open(h.width, false)?;
    for_test(setting, code, test, h, y, to)?;
    statement(setting, code, inner, inside_loop(y, h, to))
}

/// The first part of a `for`, and the loop's head, to which it leads.
#[cycle(stmts)]
fn head(setting: Setting, code: &mut Code, first: &[Stmt], p: Places) -> Result<Point, PolyEnd>
    ensures head { CompilesHead code.old code.new result
        (head_at setting.integers first.now p code.old) }
{
    if first.is_empty() {
        return Ok(p.at);
    }
    let h = open_after_list(code, first, p.at.width)?;
    list(setting, code, first, Places { to: h, ..p })?;
    Ok(h)
}

/// A list of statements. Before each but the last is compiled, the point of what follows is opened.
#[cycle(stmts)]
pub fn list(setting: Setting, code: &mut Code, ts: &[Stmt], p: Places) -> Result<(), PolyEnd>
    ensures code { CompilesCode code.old code.new result
        (list_at setting.integers ts.now p code.old) }
{
    let mut at = p.at;
    for (i, t) in ts.iter().enumerate() {
        if i + 1 == ts.len() {
            return statement(setting, code, t, Places { at, ..p });
        }
        let next = open_after(code, t, at.width)?;
        statement(setting, code, t, Places { at, to: next, ..p })?;
        at = next;
    }
    go(code, at, p.to)
}
