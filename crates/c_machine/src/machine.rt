//! The run of code with a number of rounds.
ghost use Rattle.std.specs.Prelude.{◌≡◌, ◌<◌, ◌≤◌, ℕ, ℤ, List, Some, IfOk, IfErr, OnOk, OnErr, length, slice_get, take};
ghost use Rattle.std.specs.Option.{option_copied};
ghost use Rattle.c_ast.specs.declared.program.Resolved.{Resolved};
ghost use Rattle.c_meaning.specs.Counted.{counted, counted_expr, outcome_of};
ghost use Rattle.c_machine.specs.Ends.{Ends, GivesNumber};
ghost use Rattle.c_ast.specs.declared.expr.BinOp.TheVariants as binary;
ghost use Rattle.c_code.specs.Flat.{Back, IsCode, Rest, between, inner_run, kept_after, made, op_to, rests, destination_to, three, times};
ghost use Rattle.c_machine.specs.Machines.{Falls, Delivers, Steps, back_to, machine_run};
ghost use Rattle.c_machine.specs.Preconditions.{precondition_at};
ghost use Rattle.c_meaning.specs.Runs.{Run, on_value};
ghost use Rattle.c_code.specs.declared.code.Op.{Op};
ghost use Rattle.c_code.specs.declared.code.Op.TheVariants as op;
ghost use Rattle.c_code.specs.declared.code.Leaf.TheVariants as leaf;
ghost use Rattle.c_code.specs.declared.code.Operand.TheVariants as operand;
ghost use Rattle.c_code.specs.declared.code.Work.TheVariants as work;
ghost use Rattle.c_machine.specs.declared.machine.Caller.{Caller};
ghost use Rattle.c_machine.specs.declared.machine.Reached.TheVariants as reached;
ghost use Rattle.c_machine.specs.declared.stop.Stop.TheVariants as stop;

use crate::arithmetic::{apply_binary, apply_unary, is_zero};
use crate::stop::Stop;
use crate::store::Store;
use c_ast::{BinOp, Expr, Resolved};
use c_code::{Code, Destination, Inner, Leaf, Op, Operand, Work, compile};
use c_meaning::Outcome;
use rx_plain::NoMemory;
use std::alloc::Global;

/// A caller that waits for a value.
#[derive(Clone, Copy)]
pub(crate) struct Caller {
    /// Where it goes on.
    pub next: usize,
    /// Where its slots begin.
    pub base: usize,
}

/// What a run of code needs. Its memory is kept from one run to the next.
#[derive(Drop)]
pub struct Machine {
    callers: Vec<Caller>,
    store: Store,
}

/// Where a value leads.
pub(crate) enum Delivered {
    /// To a position.
    On(usize),
    /// To the caller.
    Back(i128),
}

/// Where a step leads.
pub(crate) enum Reached {
    /// To a lower position.
    On(usize),
    /// To a turn of a loop or to a function, which took a round.
    Round(usize),
    /// To a caller.
    Back(usize),
    /// To the end of the run.
    Ended(i128),
}

/// Where the function at place `f` begins, if there is one.
#[inline(always)]
fn entry_of(code: &Code<'_>, f: u32) -> Option<usize>
    ensures { result ≡ slice_get code.now.entries.items f }
{
    match code.entries.as_slice().get(f as usize) {
        Some(entry) => Some(*entry),
        None => None,
    }
}

/// What an operator between two leaves gives.
#[inline(always)]
fn inner_value(store: &Store, inner: &Inner) -> Result<i128, Stop>
    ensures { GivesNumber (inner_run inner.now store.now) result }
{
    let x = store.leaf_value(&inner.left);
    let y = store.leaf_value(&inner.right);
    apply_binary(inner.op, x, y)
}

/// What an operator between two operands gives.
#[inline(always)]
fn between_value(store: &mut Store, op: &BinOp, a: &Operand, b: &Operand) -> Result<i128, Stop>
    ensures number { GivesNumber (made (work.Between op.now a.now b.now) store.old) result }
    ensures kept { OnOk result
        (store.new ≡ kept_after (work.Between op.now a.now b.now) store.old) }
{
    let y = store.read(*b);
    let x = store.read(*a);
    apply_binary(*op, x, y)
}

/// What an operator between what an inner one gives and a leaf gives.
#[inline(always)]
fn left_value(store: &Store, op: &BinOp, inner: &Inner, b: &Leaf) -> Result<i128, Stop>
    ensures { GivesNumber (made (work.Left op.now inner.now b.now) store.now) result }
{
    let x = inner_value(store, inner)?;
    let y = store.leaf_value(b);
    apply_binary(*op, x, y)
}

/// What an operator between a slot's value and what an inner one gives gives.
#[inline(always)]
fn right_value(store: &Store, op: &BinOp, slot: u32, inner: &Inner) -> Result<i128, Stop>
    ensures { GivesNumber (made (work.Right op.now (operand.Slot slot) inner.now) store.now)
        result }
{
    let y = inner_value(store, inner)?;
    let x = store.value_at(slot);
    apply_binary(*op, x, y)
}

/// The sum of a slot's value and a leaf's.
#[inline(always)]
fn sum_value(store: &Store, a: u32, y: &Leaf) -> Result<i128, Stop>
    ensures { GivesNumber (made (between binary.Add (leaf.Slot a) y.now) store.now) result }
{
    let x = store.value_at(a);
    let y = store.leaf_value(y);
    apply_binary(BinOp::Add, x, y)
}

/// The sum of the values of three slots.
#[inline(always)]
fn three_value(store: &Store, a: u32, b: u32, c: u32) -> Result<i128, Stop>
    ensures { GivesNumber (made (three a b c) store.now) result }
{
    let inner = Inner {
        op: BinOp::Add,
        left: Leaf::Slot(a),
        right: Leaf::Slot(b),
    };
    left_value(store, &BinOp::Add, &inner, &Leaf::Slot(c))
}

/// The sum of a slot's value and an integer times another's.
#[inline(always)]
fn times_value(store: &Store, a: u32, c: i64, b: u32) -> Result<i128, Stop>
    ensures { GivesNumber (made (times a c b) store.now) result }
{
    let inner = Inner {
        op: BinOp::Mul,
        left: Leaf::Constant(c),
        right: Leaf::Slot(b),
    };
    right_value(store, &BinOp::Add, a, &inner)
}

/// Makes a value.
#[inline(always)]
fn value_of(store: &mut Store, work: &Work) -> Result<i128, Stop>
    ensures number { GivesNumber (made work.now store.old) result }
    ensures kept { OnOk result (store.new ≡ kept_after work.now store.old) }
{
    match work {
        Work::Read(a) => Ok(store.read(*a)),
        Work::Before(op, a) => {
            let x = store.read(*a);
            apply_unary(*op, x)
        }
        Work::Between(op, a, b) => between_value(store, op, a, b),
        Work::Alone(inner) => inner_value(store, inner),
        Work::Left(op, inner, b) => left_value(store, op, inner, b),
        Work::Right(op, a, inner) => {
            let y = inner_value(store, inner)?;
            let x = store.read(*a);
            apply_binary(*op, x, y)
        }
    }
}

/// Takes a value to its destination.
#[inline(always)]
fn deliver(store: &mut Store, destination: &Destination, x: i128) -> Result<Delivered, Stop>
    ensures { (rests : List Rest) (back : Back) (left : ℕ) →
        Delivers rests back (destination_to rests back destination.now store.old x) result store.new
        left }
{
    match destination {
        Destination::Push(next) => {
            store.push(x)?;
            Ok(Delivered::On(*next))
        }
        Destination::Branch(zero, other) => {
            if is_zero(&x) {
                Ok(Delivered::On(*zero))
            } else {
                Ok(Delivered::On(*other))
            }
        }
        Destination::Declare(at, next) => {
            store.declare(*at, x)?;
            Ok(Delivered::On(*next))
        }
        Destination::Assign(at, next) => {
            store.assign(*at, x);
            Ok(Delivered::On(*next))
        }
        Destination::Return(scopes) => {
            store.end(*scopes);
            Ok(Delivered::Back(x))
        }
    }
}

impl Machine {
    /// A machine that has run nothing yet. Takes no memory.
    pub fn new(alloc: Global) -> Machine {
        Machine {
            callers: Vec::new(alloc),
            store: Store::new(alloc),
        }
    }

    /// Goes back to the caller, if one waits.
    #[inline(always)]
    fn go_back(&mut self, x: i128) -> Result<Reached, Stop>
        ensures steps { (program : Resolved) (ops : List Op) (left : ℕ) →
            (at : ℕ) → Steps at program ops (back_to (counted program) ops self.old.callers.items x
            self.old.store left) result self.new.callers.items self.new.store left }
        ensures falls { (size left : ℕ) → Falls size result (length self.old.callers.items)
            (length self.new.callers.items) left }
    {
        let Some(caller) = self.callers.pop() else {
            return Ok(Reached::Ended(x));
        };
        self.store.return_to(caller.base);
        self.store.push(x)?;
        Ok(Reached::Back(caller.next))
    }

    /// Does something with a value.
    #[inline(always)]
    fn give(&mut self, x: i128, destination: &Destination) -> Result<Reached, Stop>
        ensures steps { (program : Resolved) (ops : List Op) (at left : ℕ) → Steps at program ops
            (destination_to (rests (counted program)
            (back_to (counted program) ops self.old.callers.items) (take at ops))
            (back_to (counted program) ops self.old.callers.items) destination.now self.old.store x
            left)
            result self.new.callers.items self.new.store left }
        ensures falls { (size left : ℕ) → Falls size result (length self.old.callers.items)
            (length self.new.callers.items) left }
    {
        match deliver(&mut self.store, destination, x)? {
            Delivered::On(next) => Ok(Reached::On(next)),
            Delivered::Back(x) => self.go_back(x),
        }
    }

    /// Does something with a value, if it could be made.
    #[inline(always)]
    fn give_made(
        &mut self,
        made: Result<i128, Stop>,
        destination: &Destination,
    ) -> Result<Reached, Stop>
        ensures steps { (program : Resolved) (ops : List Op) (at left : ℕ) (run : ℕ → Run ℤ) →
            GivesNumber run made → Steps at program ops (on_value (run left)
            (destination_to (rests (counted program)
            (back_to (counted program) ops self.old.callers.items) (take at ops))
            (back_to (counted program) ops self.old.callers.items) destination.now self.old.store))
            result self.new.callers.items self.new.store left }
        ensures falls { (size left : ℕ) → Falls size result (length self.old.callers.items)
            (length self.new.callers.items) left }
    {
        let x = made?;
        self.give(x, destination)
    }

    /// Begins a function.
    #[inline(always)]
    fn invoke(
        &mut self,
        code: &Code<'_>,
        f: u32,
        count: usize,
        next: usize,
        at: usize,
        left: u32,
    ) -> Result<Reached, Stop>
        requires { IsCode code.now }
        ensures steps { Steps at code.now.program.now code.now.ops.items
            (op_to (counted code.now.program.now) (back_to (counted code.now.program.now)
            code.now.ops.items self.old.callers.items) (rests (counted code.now.program.now)
            (back_to (counted code.now.program.now) code.now.ops.items self.old.callers.items)
            (take at code.now.ops.items)) (op.Call f count next) self.old.store left)
            result self.new.callers.items self.new.store left }
        ensures falls { Falls (length code.now.ops.items) result (length self.old.callers.items)
            (length self.new.callers.items) left }
    {
        if left == 0 {
            return Err(Stop::More);
        }
        let Some(entry) = entry_of(code, f) else {
            return Err(Stop::More);
        };
        let base = self.store.call(count)?;
        let next = lower(next, at, code.ops.len());
        self.callers.push(Caller { next, base })?;
        Ok(Reached::Round(entry))
    }

    /// One step, by the op at a position.
    #[inline(always)]
    fn advance(
        &mut self,
        code: &Code<'_>,
        op: &Op<'_>,
        at: usize,
        left: u32,
    ) -> Result<Reached, Stop>
        requires code { IsCode code.now }
        requires found { slice_get code.now.ops.items at ≡ Some op.now }
        ensures steps { Steps at code.now.program.now code.now.ops.items (machine_run
            code.now.program.now code.now.ops.items self.old.callers.items at self.old.store left)
            result self.new.callers.items self.new.store left }
        ensures falls { Falls (length code.now.ops.items) result (length self.old.callers.items)
            (length self.new.callers.items) left }
    {
        match op {
            Op::Do(work, destination) => {
                let x = value_of(&mut self.store, work);
                self.give_made(x, destination)
            }
            Op::Test(inner, zero, other) => {
                let x = inner_value(&self.store, inner);
                self.give_made(x, &Destination::Branch(*zero, *other))
            }
            Op::Set(inner, slot, next) => {
                let x = inner_value(&self.store, inner);
                self.give_made(x, &Destination::Assign(*slot, *next))
            }
            Op::LessSlot(a, b, less, other) => {
                let x = Leaf::Slot(*a);
                let y = Leaf::Slot(*b);
                let next = self.store.compare(&x, &y, *less, *other);
                Ok(Reached::On(next))
            }
            Op::LessLiteral(a, c, less, other) => {
                let x = Leaf::Slot(*a);
                let y = Leaf::Constant(*c);
                let next = self.store.compare(&x, &y, *less, *other);
                Ok(Reached::On(next))
            }
            Op::LiteralLess(c, a, less, other) => {
                let x = Leaf::Constant(*c);
                let y = Leaf::Slot(*a);
                let next = self.store.compare(&x, &y, *less, *other);
                Ok(Reached::On(next))
            }
            Op::Raise(slot, c, next) => {
                let x = sum_value(&self.store, *slot, &Leaf::Constant(*c));
                self.give_made(x, &Destination::Assign(*slot, *next))
            }
            Op::Add(a, b, slot, next) => {
                let x = sum_value(&self.store, *a, &Leaf::Slot(*b));
                self.give_made(x, &Destination::Assign(*slot, *next))
            }
            Op::AddThree(a, b, c, slot, next) => {
                let x = three_value(&self.store, *a, *b, *c);
                self.give_made(x, &Destination::Assign(*slot, *next))
            }
            Op::AddTimes(a, c, b, slot, next) => {
                let x = times_value(&self.store, *a, *c, *b);
                self.give_made(x, &Destination::Assign(*slot, *next))
            }
            Op::SetLeft(op, inner, leaf, slot, next) => {
                let x = left_value(&self.store, op, inner, leaf);
                self.give_made(x, &Destination::Assign(*slot, *next))
            }
            Op::SetRight(op, a, inner, slot, next) => {
                let x = right_value(&self.store, op, *a, inner);
                self.give_made(x, &Destination::Assign(*slot, *next))
            }
            Op::PushInner(inner, next) => {
                let x = inner_value(&self.store, inner);
                self.give_made(x, &Destination::Push(*next))
            }
            Op::Give(op, a, b, scopes) => {
                let x = between_value(&mut self.store, op, a, b);
                self.give_made(x, &Destination::Return(*scopes))
            }
            Op::Call(f, count, next) => self.invoke(code, *f, *count, *next, at, left),
            Op::Turn(_, _, begin) => begin_turn(*begin, left),
            Op::Enter(next) => {
                self.store.enter()?;
                Ok(Reached::On(*next))
            }
            Op::Leave(next) => {
                self.store.leave();
                Ok(Reached::On(*next))
            }
        }
    }

    /// Runs code from a position on, with this number of rounds.
    fn run(&mut self, code: &Code<'_>, start: usize, rounds: u32) -> Result<i128, Stop>
        requires { IsCode code.now }
        ensures { Ends (machine_run code.now.program.now code.now.ops.items
            self.old.callers.items start self.old.store rounds) result }
    {
        let ops = code.ops.as_slice();
        if ops.len() <= start {
            return Err(Stop::More);
        }
        let mut at = start;
        let mut left = rounds;
        'steps: loop {
            match self.advance(code, &ops[at], at, left)? {
                Reached::On(next) => {
                    if at <= next {
                        return Err(Stop::More);
                    }
                    at = next;
                }
                Reached::Round(next) => {
                    at = next;
                    left -= 1;
                }
                Reached::Back(next) => {
                    if ops.len() <= next {
                        return Err(Stop::More);
                    }
                    at = next;
                }
                Reached::Ended(x) => return Ok(x),
            }
        }
    }

    /// The outcome of a call of the function at place `f` on these arguments, with this number of
    /// rounds, of which the call itself takes one; fails only out of memory.
    pub fn call_outcome(
        &mut self,
        code: &Code<'_>,
        f: u32,
        args: &[i128],
        rounds: u32,
    ) -> Result<Outcome, NoMemory>
        requires { IsCode code.now }
        ensures { IfOk result (λ o. o ≡
            outcome_of (counted code.now.program.now rounds f args.now)) }
    {
        if rounds == 0 {
            return Ok(Outcome::More);
        }
        let Some(entry) = entry_of(code, f) else {
            return Ok(Outcome::More);
        };
        self.callers.clear();
        self.store.begin(args)?;
        outcome_of(self.run(code, entry, rounds - 1))
    }

    /// The outcome of the code's expression in a state, and 1 where there is none; fails only out
    /// of memory.
    pub fn whole_outcome(
        &mut self,
        code: &Code<'_>,
        state: &[i128],
        rounds: u32,
    ) -> Result<Outcome, NoMemory>
        requires { IsCode code.now }
        ensures { IfOk result (λ o. o ≡ precondition_at code.now.program.now
            (option_copied code.now.whole) rounds state.now) }
    {
        let Some(start) = code.start else {
            return Ok(Outcome::Value(1));
        };
        self.callers.clear();
        self.store.begin(state)?;
        outcome_of(self.run(code, start, rounds))
    }
}

/// The position, if it is a lower one; else `end`, where there is nothing.
#[inline(always)]
fn lower(next: usize, at: usize, end: usize) -> usize
    ensures next { next < at → result ≡ next }
    ensures end { at ≤ next → result ≡ end }
{
    if next < at { next } else { end }
}

/// Begins a turn of a loop, if a round is left.
#[inline(always)]
fn begin_turn(begin: usize, left: u32) -> Result<Reached, Stop>
    ensures begun { OnOk result (0 < left) }
    ensures next { IfOk result (λ r. r ≡ reached.Round begin) }
    ensures none { OnErr result (left ≡ 0) }
    ensures more { IfErr result (λ e. e ≡ stop.More) }
{
    if left == 0 {
        return Err(Stop::More);
    }
    Ok(Reached::Round(begin))
}

/// The outcome of a run.
fn outcome_of(end: Result<i128, Stop>) -> Result<Outcome, NoMemory>
    ensures { (run : Run ℤ) → Ends run end → IfOk result (λ o. o ≡ outcome_of run) }
{
    match end {
        Ok(value) => Ok(Outcome::Value(value)),
        Err(Stop::DivisionError) => Ok(Outcome::DivError),
        Err(Stop::More) => Ok(Outcome::More),
        Err(Stop::Over) => Ok(Outcome::Over),
        Err(Stop::NoMemory) => Err(NoMemory),
    }
}

/// The outcome of a call of the function at place `f` on these arguments, with this number of
/// rounds, of which the call itself takes one; fails only out of memory.
pub fn call_outcome(
    alloc: Global,
    program: &Resolved,
    f: u32,
    args: &[i128],
    rounds: u32,
) -> Result<Outcome, NoMemory>
    ensures { IfOk result (λ o. o ≡ outcome_of (counted program.now rounds f args.now)) }
{
    let code = compile(alloc, program, None)?;
    let mut machine = Machine::new(alloc);
    machine.call_outcome(&code, f, args, rounds)
}

/// The outcome of an expression in a state, which gives each slot in scope its integer, with this
/// number of rounds; fails only out of memory.
pub fn expr_outcome(
    alloc: Global,
    program: &Resolved,
    e: &Expr,
    state: &[i128],
    rounds: u32,
) -> Result<Outcome, NoMemory>
    ensures { IfOk result (λ o. o ≡ outcome_of (counted_expr program.now e.now rounds state.now)) }
{
    let code = compile(alloc, program, Some(e))?;
    let mut machine = Machine::new(alloc);
    machine.whole_outcome(&code, state, rounds)
}
