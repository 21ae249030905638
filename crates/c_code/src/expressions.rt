//! The code of expressions. It is made from its end: what comes after a part is at a lower
//! position.
ghost use Rattle.std.specs.Prelude.{◌≡◌, ◌<◌, ◌++◌, ◌∷◌, ℤ, None, [], IfOk, IfSome, OnOk, length};
ghost use Rattle.std.specs.Bool.{OnTrue};
ghost use Rattle.c_code.specs.Flat as spec;
ghost use Rattle.c_meaning.specs.CountedExpressions.{short_circuit};
ghost use Rattle.c_ast.specs.declared.expr.BinOp.TheVariants as binary;
ghost use Rattle.c_code.specs.declared.code.Leaf.TheVariants as leaf;
ghost use Rattle.c_code.specs.declared.code.Operand.TheVariants as operand;
ghost use Rattle.c_code.specs.declared.code.Destination.TheVariants as destination;
ghost use Rattle.c_code.specs.declared.code.Work.TheVariants as work;
ghost use Rattle.c_code.specs.Flat.{do_to, less_to, rests, IsInner, IsLeaf, IsOp, Leads, Makes, DestinationWithin, TopLeads, arguments_run, expr_run, operand_run, right_run};

use crate::code::{Destination, Inner, Leaf, Op, Operand, Work};
use c_ast::{BinOp, Expr};
use rx_plain::NoMemory;

/// Adds an op; returns its position.
pub(crate) fn emit<'a>(ops: &mut Vec<Op<'a>>, op: Op<'a>) -> Result<usize, NoMemory>
    ensures position { IfOk result (λ p. p ≡ length ops.old.items) }
    ensures added { OnOk result (ops.new.items ≡ ops.old.items ++ op.entry ∷ []) }
    ensures within { IfOk result (λ p. p < length ops.new.items) }
{
    let at = ops.len();
    ops.push(op)?;
    Ok(at)
}

/// Where the value of an expression is read: a literal and a variable need no step of their own.
fn operand_of(e: &Expr) -> Operand
    ensures { result ≡ spec.operand_of e.now }
{
    match e {
        Expr::Lit(value) => Operand::Constant(*value),
        Expr::Var(slot) => Operand::Slot(*slot),
        Expr::Unary(_, _) => Operand::Popped,
        Expr::Binary(_, _, _) => Operand::Popped,
        Expr::Choose(_, _, _) => Operand::Popped,
        Expr::Apply(_, _) => Operand::Popped,
    }
}

/// The leaf that an expression is, if it is one.
fn leaf_of(e: &Expr) -> Option<Leaf>
    ensures { IfSome result (λ leaf. IsLeaf e.now leaf) }
{
    match e {
        Expr::Lit(value) => Some(Leaf::Constant(*value)),
        Expr::Var(slot) => Some(Leaf::Slot(*slot)),
        _ => None,
    }
}

/// Whether an operator always needs both operands.
fn is_strict(op: BinOp) -> bool
    ensures { OnTrue result ((x : ℤ) → short_circuit op x ≡ None) }
{
    match op {
        BinOp::AndAlso => false,
        BinOp::OrElse => false,
        _ => true,
    }
}

/// Whether an operator is `+`.
fn is_sum(op: BinOp) -> bool
    ensures { OnTrue result (op ≡ binary.Add) }
{
    match op {
        BinOp::Add => true,
        _ => false,
    }
}

/// Whether an operator is `*`.
fn is_product(op: BinOp) -> bool
    ensures { OnTrue result (op ≡ binary.Mul) }
{
    match op {
        BinOp::Mul => true,
        _ => false,
    }
}

/// The operator between two leaves that an expression is, if it is one.
fn inner_of(e: &Expr) -> Option<Inner>
    ensures { IfSome result (λ inner. IsInner e.now inner) }
{
    let Expr::Binary(op, a, b) = e else {
        return None;
    };
    if !is_strict(*op) {
        return None;
    }
    let left = leaf_of(a.get())?;
    let right = leaf_of(b.get())?;
    let op = *op;
    Some(Inner { op, left, right })
}

/// The op that compares two leaves, if it has its own.
fn less_op<'a>(x: Leaf, y: Leaf, less: usize, other: usize) -> Option<Op<'a>>
    ensures { IfSome result (λ o. IsOp o (λ calls back rests. less_to rests x y less other)) }
{
    match x {
        Leaf::Slot(a) => match y {
            Leaf::Slot(b) => Some(Op::LessSlot(a, b, less, other)),
            Leaf::Constant(c) => Some(Op::LessLiteral(a, c, less, other)),
        },
        Leaf::Constant(c) => match y {
            Leaf::Slot(a) => Some(Op::LiteralLess(c, a, less, other)),
            Leaf::Constant(_) => None,
        },
    }
}

/// The op of a test by `<`, `<=`, `>` or `>=`, if it has its own.
fn order_op<'a>(inner: Inner, zero: usize, other: usize) -> Option<Op<'a>>
    ensures { IfSome result (λ o. IsOp o (λ calls back rests.
        do_to rests back (work.Alone inner) (destination.Branch zero other))) }
{
    match inner.op {
        BinOp::Lt => less_op(inner.left, inner.right, other, zero),
        BinOp::Ge => less_op(inner.left, inner.right, zero, other),
        BinOp::Gt => less_op(inner.right, inner.left, other, zero),
        BinOp::Le => less_op(inner.right, inner.left, zero, other),
        _ => None,
    }
}

/// The op of a test.
fn test_op<'a>(inner: Inner, zero: usize, other: usize) -> Op<'a>
    ensures { IsOp result (λ calls back rests.
        do_to rests back (work.Alone inner) (destination.Branch zero other)) }
{
    match order_op(inner, zero, other) {
        Some(op) => op,
        None => Op::Test(inner, zero, other),
    }
}

/// The op of `+` between a slot's value and a leaf's, which is the new value of a slot, if it has
/// its own.
fn add_op<'a>(a: u32, y: Leaf, at: u32, next: usize) -> Option<Op<'a>>
    ensures { IfSome result (λ o. IsOp o (λ calls back rests. do_to rests back
        (work.Alone (record { op = binary.Add; left = leaf.Slot a; right = y }))
        (destination.Assign at next))) }
{
    match y {
        Leaf::Slot(b) => Some(Op::Add(a, b, at, next)),
        Leaf::Constant(c) => {
            if a != at {
                return None;
            }
            Some(Op::Raise(a, c, next))
        }
    }
}

/// The op of `-` between a slot's value and a leaf's, which is the new value of a slot, if it has
/// its own.
fn sub_op<'a>(a: u32, y: Leaf, at: u32, next: usize) -> Option<Op<'a>>
    ensures { IfSome result (λ o. IsOp o (λ calls back rests. do_to rests back
        (work.Alone (record { op = binary.Sub; left = leaf.Slot a; right = y }))
        (destination.Assign at next))) }
{
    match y {
        Leaf::Slot(_) => None,
        Leaf::Constant(c) => {
            if a != at || c < 0 {
                return None;
            }
            Some(Op::Raise(a, -c, next))
        }
    }
}

/// The op of a sum or a difference that is the new value of a slot, if it has its own.
fn sum_op<'a>(inner: Inner, at: u32, next: usize) -> Option<Op<'a>>
    ensures { IfSome result (λ o. IsOp o (λ calls back rests.
        do_to rests back (work.Alone inner) (destination.Assign at next))) }
{
    let Inner { op, left, right } = inner;
    let Leaf::Slot(a) = left else {
        return None;
    };
    match op {
        BinOp::Add => add_op(a, right, at, next),
        BinOp::Sub => sub_op(a, right, at, next),
        _ => None,
    }
}

/// The op of an operator between two leaves that is the new value of a slot.
fn set_op<'a>(inner: Inner, at: u32, next: usize) -> Op<'a>
    ensures { IsOp result (λ calls back rests.
        do_to rests back (work.Alone inner) (destination.Assign at next)) }
{
    match sum_op(inner, at, next) {
        Some(op) => op,
        None => Op::Set(inner, at, next),
    }
}

/// The op of the sum of three slots' values, which is the new value of a slot, if it is one.
fn three_op<'a>(op: BinOp, inner: Inner, b: Leaf, at: u32, next: usize) -> Option<Op<'a>>
    ensures { IfSome result (λ o. IsOp o (λ calls back rests.
        do_to rests back (work.Left op inner b) (destination.Assign at next))) }
{
    let Inner {
        op: first,
        left,
        right,
    } = inner;
    let Leaf::Slot(x) = left else {
        return None;
    };
    let Leaf::Slot(y) = right else {
        return None;
    };
    let Leaf::Slot(z) = b else {
        return None;
    };
    if !is_sum(op) || !is_sum(first) {
        return None;
    }
    Some(Op::AddThree(x, y, z, at, next))
}

/// The op of the sum of a slot's value and an integer times another's, which is the new value of a
/// slot, if it is one.
fn times_op<'a>(op: BinOp, a: u32, inner: Inner, at: u32, next: usize) -> Option<Op<'a>>
    ensures { IfSome result (λ o. IsOp o (λ calls back rests.
        do_to rests back (work.Right op (operand.Slot a) inner) (destination.Assign at next))) }
{
    let Inner {
        op: first,
        left,
        right,
    } = inner;
    let Leaf::Constant(c) = left else {
        return None;
    };
    let Leaf::Slot(b) = right else {
        return None;
    };
    if !is_sum(op) || !is_product(first) {
        return None;
    }
    Some(Op::AddTimes(a, c, b, at, next))
}

/// The op of an operator on an inner one, which is the new value of a slot.
fn left_op<'a>(op: BinOp, inner: Inner, b: Leaf, at: u32, next: usize) -> Op<'a>
    ensures { IsOp result (λ calls back rests.
        do_to rests back (work.Left op inner b) (destination.Assign at next)) }
{
    match three_op(op, inner, b, at, next) {
        Some(three) => three,
        None => Op::SetLeft(op, inner, b, at, next),
    }
}

/// The op of an operator on a slot's value and an inner one, which is the new value of a slot.
fn right_op<'a>(op: BinOp, a: u32, inner: Inner, at: u32, next: usize) -> Op<'a>
    ensures { IsOp result (λ calls back rests.
        do_to rests back (work.Right op (operand.Slot a) inner) (destination.Assign at next)) }
{
    match times_op(op, a, inner, at, next) {
        Some(times) => times,
        None => Op::SetRight(op, a, inner, at, next),
    }
}

/// The op of a work whose value is the new one of a slot.
fn assign_op<'a>(work: Work, at: u32, next: usize) -> Op<'a>
    ensures { IsOp result (λ calls back rests. do_to rests back work (destination.Assign at next)) }
{
    match work {
        Work::Alone(inner) => set_op(inner, at, next),
        Work::Left(op, inner, b) => left_op(op, inner, b, at, next),
        Work::Right(op, Operand::Slot(a), inner) => right_op(op, a, inner, at, next),
        _ => Op::Do(work, Destination::Assign(at, next)),
    }
}

/// The op of a work and a destination: the most frequent ones have their own.
fn op_of<'a>(work: Work, destination: Destination) -> Op<'a>
    ensures { IsOp result (λ calls back rests. do_to rests back work destination) }
{
    match destination {
        Destination::Branch(zero, other) => match work {
            Work::Alone(inner) => test_op(inner, zero, other),
            _ => Op::Do(work, destination),
        },
        Destination::Assign(at, next) => assign_op(work, at, next),
        Destination::Push(next) => match work {
            Work::Alone(inner) => Op::PushInner(inner, next),
            _ => Op::Do(work, destination),
        },
        Destination::Return(scopes) => match work {
            Work::Between(op, a, b) => Op::Give(op, a, b, scopes),
            _ => Op::Do(work, destination),
        },
        Destination::Declare(_, _) => Op::Do(work, destination),
    }
}

/// Adds the op of a work and a destination.
fn emit_work(ops: &mut Vec<Op<'_>>, work: Work, destination: Destination) -> Result<usize, NoMemory>
    ensures { IfOk result (λ p. Leads ops.old.items ops.new.items p (λ calls back.
        do_to (rests calls back ops.old.items) back work destination)) }
{
    emit(ops, op_of(work, destination))
}

/// The work of an expression that is an operator between such an inner one and a leaf.
fn left_work(e: &Expr) -> Option<Work>
    ensures { IfSome result (λ work. Makes e.now work) }
{
    let Expr::Binary(op, a, b) = e else {
        return None;
    };
    if !is_strict(*op) {
        return None;
    }
    let inner = inner_of(a.get())?;
    let leaf = leaf_of(b.get())?;
    let op = *op;
    Some(Work::Left(op, inner, leaf))
}

/// The work of an expression that is an operator between two leaves, or on such an inner one and
/// a leaf.
fn work_of(e: &Expr) -> Option<Work>
    ensures { IfSome result (λ work. Makes e.now work) }
{
    match inner_of(e) {
        Some(inner) => Some(Work::Alone(inner)),
        None => left_work(e),
    }
}

/// The code that an operand needs before it is read.
#[cycle(compiles)]
fn compile_operand(ops: &mut Vec<Op<'_>>, e: &Expr, next: usize) -> Result<usize, NoMemory>
    requires { next < length ops.old.items }
    ensures { IfOk result (λ p. Leads ops.old.items ops.new.items p
        (operand_run ops.old.items next e.now)) }
{
    match operand_of(e) {
        Operand::Popped => compile_expr(ops, e, Destination::Push(next)),
        Operand::Constant(_) => Ok(next),
        Operand::Slot(_) => Ok(next),
    }
}

/// The code of the right operand of an operator, before the operator itself.
#[cycle(compiles)]
fn compile_right(
    ops: &mut Vec<Op<'_>>,
    op: BinOp,
    left: Operand,
    b: &Expr,
    destination: Destination,
) -> Result<usize, NoMemory>
    ensures { IfOk result (λ p. Leads ops.old.items ops.new.items p
        (right_run ops.old.items destination op left b.now)) }
{
    if let Some(inner) = inner_of(b) {
        return emit_work(ops, Work::Right(op, left, inner), destination);
    }
    let work = Work::Between(op, left, operand_of(b));
    let both = emit_work(ops, work, destination)?;
    compile_operand(ops, b, both)
}

/// The code of arguments, the first before the second and so on.
#[cycle(compiles)]
fn compile_arguments(
    ops: &mut Vec<Op<'_>>,
    arguments: &[Expr],
    next: usize,
) -> Result<usize, NoMemory>
    requires { next < length ops.old.items }
    ensures { IfOk result (λ p. Leads ops.old.items ops.new.items p
        (arguments_run ops.old.items next arguments.now)) }
{
    let mut at = next;
    for i in (0..arguments.len()).rev() {
        at = compile_expr(ops, &arguments[i], Destination::Push(at))?;
    }
    Ok(at)
}

/// Where the value on top is that of the destination.
fn after_call(ops: &mut Vec<Op<'_>>, destination: Destination) -> Result<usize, NoMemory>
    requires { DestinationWithin (length ops.old.items) destination }
    ensures { IfOk result (λ p. TopLeads ops.old.items ops.new.items p destination) }
{
    match destination {
        Destination::Push(next) => Ok(next),
        _ => emit(ops, Op::Do(Work::Read(Operand::Popped), destination)),
    }
}

/// The code of an expression, whose value goes to the destination; returns the position at which it
/// begins.
#[cycle(compiles)]
pub(crate) fn compile_expr(
    ops: &mut Vec<Op<'_>>,
    e: &Expr,
    destination: Destination,
) -> Result<usize, NoMemory>
    requires { DestinationWithin (length ops.old.items) destination }
    ensures { IfOk result (λ p. Leads ops.old.items ops.new.items p
        (expr_run ops.old.items destination e.now)) }
{
    match work_of(e) {
        Some(work) => emit_work(ops, work, destination),
        None => compile_parts(ops, e, destination),
    }
}

/// The code of an expression, from that of its parts.
#[cycle(compiles)]
fn compile_parts(
    ops: &mut Vec<Op<'_>>,
    e: &Expr,
    destination: Destination,
) -> Result<usize, NoMemory>
    requires { DestinationWithin (length ops.old.items) destination }
    ensures { IfOk result (λ p. Leads ops.old.items ops.new.items p
        (expr_run ops.old.items destination e.now)) }
{
    match e {
        Expr::Lit(value) => emit(
            ops,
            Op::Do(Work::Read(Operand::Constant(*value)), destination),
        ),
        Expr::Var(slot) => emit(ops, Op::Do(Work::Read(Operand::Slot(*slot)), destination)),
        Expr::Unary(op, a) => {
            let next = emit(
                ops,
                Op::Do(Work::Before(*op, operand_of(a.get())), destination),
            )?;
            compile_operand(ops, a.get(), next)
        }
        Expr::Binary(op, a, b) => match *op {
            BinOp::AndAlso => {
                let known = emit(ops, Op::Do(Work::Read(Operand::Constant(0)), destination))?;
                let right = compile_right(ops, *op, Operand::Constant(1), b.get(), destination)?;
                compile_expr(ops, a.get(), Destination::Branch(known, right))
            }
            BinOp::OrElse => {
                let known = emit(ops, Op::Do(Work::Read(Operand::Constant(1)), destination))?;
                let right = compile_right(ops, *op, Operand::Constant(0), b.get(), destination)?;
                compile_expr(ops, a.get(), Destination::Branch(right, known))
            }
            _ => {
                let right = compile_right(ops, *op, operand_of(a.get()), b.get(), destination)?;
                compile_operand(ops, a.get(), right)
            }
        },
        Expr::Choose(c, a, b) => {
            let other = compile_expr(ops, b.get(), destination)?;
            let first = compile_expr(ops, a.get(), destination)?;
            compile_expr(ops, c.get(), Destination::Branch(other, first))
        }
        Expr::Apply(place, arguments) => {
            let after = after_call(ops, destination)?;
            let call = emit(ops, Op::Call(*place, arguments.len(), after))?;
            compile_arguments(ops, arguments.as_slice(), call)
        }
    }
}
