//! The code of statements. It is made from its end: what comes after a part is at a lower position.
ghost use Rattle.std.specs.Prelude.{◌≡◌, ◌<◌, ◌+◌, IfOk, Some, None, length, slice_set};
ghost use Rattle.std.specs.Option.{option_map};
ghost use Rattle.c_ast.specs.declared.stmt.Stmt.TheVariants as syntax;
ghost use Rattle.c_meaning.specs.CountedExpressions.{Calls};
ghost use Rattle.c_meaning.specs.CountedStatements.{do_turn, loop, optional, stmt, while_turn};
ghost use Rattle.c_code.specs.Flat.{ExitsWithin, Leads, ScopeLeads, condition_run, flow_run, sequence_run, stmt_run, turn_of};
ghost use Rattle.c_code.specs.declared.code.Op.TheVariants as op;

use crate::code::{Destination, Exits, Op, Operand, Work};
use crate::expressions::{compile_expr, emit};
use crate::scopes::add_no_slots;
use c_ast::{Expr, Stmt};
use rx_plain::{Boxed, Items, NoMemory};

/// Where the statements of a scope lead: through its end.
fn scoped(ops: &mut Vec<Op<'_>>, exits: Exits) -> Result<Exits, NoMemory>
    requires { ExitsWithin (length ops.old.items) exits }
    ensures { IfOk result (λ inner. ScopeLeads ops.old.items ops.new.items exits inner) }
{
    let next = emit(ops, Op::Leave(exits.next))?;
    let broken = emit(ops, Op::Leave(exits.broken))?;
    let continued = emit(ops, Op::Leave(exits.continued))?;
    Ok(Exits {
        next,
        broken,
        continued,
        scopes: exits.scopes + 1,
    })
}

/// The code of a declaration.
fn compile_declaration(
    ops: &mut Vec<Op<'_>>,
    at: u32,
    value: &Option<Expr>,
    exits: Exits,
) -> Result<usize, NoMemory>
    requires { ExitsWithin (length ops.old.items) exits }
    ensures { IfOk result (λ p. Leads ops.old.items ops.new.items p
        (stmt_run ops.old.items exits (syntax.Declare at value.now))) }
{
    let destination = Destination::Declare(at, exits.next);
    match value {
        None => emit(ops, Op::Do(Work::Read(Operand::Constant(0)), destination)),
        Some(value) => compile_expr(ops, value, destination),
    }
}

/// The code of a part that may be left out.
#[cycle(executes)]
fn compile_other<'a>(
    ops: &mut Vec<Op<'a>>,
    other: &'a Option<Boxed<Stmt>>,
    exits: Exits,
) -> Result<usize, NoMemory>
    requires { ExitsWithin (length ops.old.items) exits }
    ensures { IfOk result (λ p. Leads ops.old.items ops.new.items p
        (flow_run ops.old.items exits (λ calls. optional (option_map (stmt calls) other.now)))) }
{
    match other {
        None => Ok(exits.next),
        Some(other) => compile_stmt(ops, other.get(), exits),
    }
}

/// The code of statements in their order.
#[cycle(executes)]
pub(crate) fn compile_sequence<'a>(
    ops: &mut Vec<Op<'a>>,
    statements: &'a [Stmt],
    exits: Exits,
) -> Result<usize, NoMemory>
    requires { ExitsWithin (length ops.old.items) exits }
    ensures { IfOk result (λ p. Leads ops.old.items ops.new.items p
        (sequence_run ops.old.items exits statements.now)) }
{
    let mut next = exits.next;
    for i in (0..statements.len()).rev() {
        next = compile_stmt(ops, &statements[i], Exits { next, ..exits })?;
    }
    Ok(next)
}

/// The code of a condition; one that is left out holds.
fn compile_condition(
    ops: &mut Vec<Op<'_>>,
    test: &Option<Expr>,
    ended: usize,
    holds: usize,
) -> Result<usize, NoMemory>
    requires ended { ended < length ops.old.items }
    requires holds { holds < length ops.old.items }
    ensures { IfOk result (λ p. Leads ops.old.items ops.new.items p
        (condition_run ops.old.items ended holds test.now)) }
{
    match test {
        None => Ok(holds),
        Some(test) => compile_expr(ops, test, Destination::Branch(ended, holds)),
    }
}

/// Where the body of a loop leads.
fn inside(exits: Exits, next: usize) -> Exits
    ensures { result ≡ record {
      next = next;
      broken = exits.next;
      continued = next;
      scopes = exits.scopes;
    } }
{
    Exits {
        next,
        broken: exits.next,
        continued: next,
        scopes: exits.scopes,
    }
}

/// Writes at which position a turn of the loop begins.
fn close<'a>(ops: &mut Vec<Op<'a>>, turn: usize, whole: &'a Stmt, exits: Exits, begin: usize)
    requires { turn < length ops.old.items }
    ensures { ops.new.items ≡ slice_set ops.old.items turn (op.Turn whole.entry exits begin) }
{
    ops[turn] = Op::Turn(whole, exits, begin);
}

/// The code of a `while`.
#[cycle(executes)]
fn compile_while<'a>(
    ops: &mut Vec<Op<'a>>,
    body: &'a Stmt,
    test: &Expr,
    whole: &'a Stmt,
    exits: Exits,
) -> Result<usize, NoMemory>
    requires within { ExitsWithin (length ops.old.items) exits }
    requires parts { (calls : Calls) → turn_of calls whole.now ≡ while_turn calls (Some test.now)
        (optional None) (stmt calls body.now) }
    ensures { IfOk result (λ p. Leads ops.old.items ops.new.items p
        (flow_run ops.old.items exits (λ calls. loop (turn_of calls whole.now)))) }
{
    let turn = emit(ops, Op::Turn(whole, exits, 0))?;
    let holds = compile_stmt(ops, body, inside(exits, turn))?;
    let begin = compile_expr(ops, test, Destination::Branch(exits.next, holds))?;
    close(ops, turn, whole, exits, begin);
    Ok(turn)
}

/// The code of a `do`.
#[cycle(executes)]
fn compile_do<'a>(
    ops: &mut Vec<Op<'a>>,
    body: &'a Stmt,
    test: &Expr,
    whole: &'a Stmt,
    exits: Exits,
) -> Result<usize, NoMemory>
    requires within { ExitsWithin (length ops.old.items) exits }
    requires parts { (calls : Calls) → turn_of calls whole.now ≡ do_turn calls test.now
        (stmt calls body.now) }
    ensures { IfOk result (λ p. Leads ops.old.items ops.new.items p
        (flow_run ops.old.items exits (λ calls. loop (turn_of calls whole.now)))) }
{
    let turn = emit(ops, Op::Turn(whole, exits, 0))?;
    let tested = compile_expr(ops, test, Destination::Branch(exits.next, turn))?;
    let begin = compile_stmt(ops, body, inside(exits, tested))?;
    close(ops, turn, whole, exits, begin);
    Ok(turn)
}

/// The code of a `for`, whose declarations are in a scope of its own.
#[cycle(executes)]
fn compile_for<'a>(
    ops: &mut Vec<Op<'a>>,
    whole: &'a Stmt,
    first: &'a Items<Stmt>,
    test: &Option<Expr>,
    change: &'a Option<Boxed<Stmt>>,
    body: &'a Stmt,
    exits: Exits,
) -> Result<usize, NoMemory>
    requires within { ExitsWithin (length ops.old.items) exits }
    requires parts { whole.now ≡ syntax.For first.now test.now change.now body.now }
    ensures { IfOk result (λ p. Leads ops.old.items ops.new.items p
        (stmt_run ops.old.items exits whole.now)) }
{
    let inner = scoped(ops, exits)?;
    let turn = emit(ops, Op::Turn(whole, inner, 0))?;
    let again = Exits {
        next: turn,
        ..inner
    };
    let changed = compile_other(ops, change, again)?;
    let holds = compile_stmt(ops, body, inside(inner, changed))?;
    let begin = compile_condition(ops, test, inner.next, holds)?;
    close(ops, turn, whole, inner, begin);
    let begun = compile_sequence(ops, first.as_slice(), again)?;
    emit(ops, Op::Enter(begun))
}

/// The code of a block. Where its statements add no slot, it needs no scope.
#[cycle(executes)]
fn compile_block<'a>(
    ops: &mut Vec<Op<'a>>,
    inner: &'a Items<Stmt>,
    exits: Exits,
) -> Result<usize, NoMemory>
    requires { ExitsWithin (length ops.old.items) exits }
    ensures { IfOk result (λ p. Leads ops.old.items ops.new.items p
        (stmt_run ops.old.items exits (syntax.Block inner.now))) }
{
    if add_no_slots(inner.as_slice()) {
        return compile_sequence(ops, inner.as_slice(), exits);
    }
    let within = scoped(ops, exits)?;
    let begun = compile_sequence(ops, inner.as_slice(), within)?;
    emit(ops, Op::Enter(begun))
}

/// The code of a statement; returns the position at which it begins.
#[cycle(executes)]
pub(crate) fn compile_stmt<'a>(
    ops: &mut Vec<Op<'a>>,
    statement: &'a Stmt,
    exits: Exits,
) -> Result<usize, NoMemory>
    requires { ExitsWithin (length ops.old.items) exits }
    ensures { IfOk result (λ p. Leads ops.old.items ops.new.items p
        (stmt_run ops.old.items exits statement.now)) }
{
    match statement {
        Stmt::Empty => Ok(exits.next),
        Stmt::Declare(at, value) => compile_declaration(ops, *at, value, exits),
        Stmt::Assign(at, value) => compile_expr(ops, value, Destination::Assign(*at, exits.next)),
        Stmt::If(test, then, other) => {
            let other = compile_other(ops, other, exits)?;
            let taken = compile_stmt(ops, then.get(), exits)?;
            compile_expr(ops, test, Destination::Branch(other, taken))
        }
        Stmt::While(test, body) => compile_while(ops, body.get(), test, statement, exits),
        Stmt::DoWhile(body, test) => compile_do(ops, body.get(), test, statement, exits),
        Stmt::For(first, test, change, body) => {
            compile_for(ops, statement, first, test, change, body.get(), exits)
        }
        Stmt::Break(_) => Ok(exits.broken),
        Stmt::Continue(_) => Ok(exits.continued),
        Stmt::Return(value) => compile_expr(ops, value, Destination::Return(exits.scopes)),
        Stmt::Block(inner) => compile_block(ops, inner, exits),
    }
}
