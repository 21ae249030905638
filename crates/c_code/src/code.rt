//! Flat code: each op says at which position the run goes on.
use c_ast::{BinOp, Expr, Resolved, Stmt, UnOp};

/// Where an operand is.
#[derive(Clone, Copy)]
pub enum Operand {
    /// It is this integer.
    Constant(i64),
    /// In a slot; out of scope it is 0.
    Slot(u32),
    /// On top of the values, from where it is taken.
    Popped,
}

/// A literal or a variable.
#[derive(Clone, Copy)]
pub enum Leaf {
    /// It is this integer.
    Constant(i64),
    /// In a slot; out of scope it is 0.
    Slot(u32),
}

/// An operator between two leaves.
#[derive(Clone, Copy)]
pub struct Inner {
    /// The operator.
    pub op: BinOp,
    /// Its left operand.
    pub left: Leaf,
    /// Its right operand.
    pub right: Leaf,
}

/// How a value is made.
#[derive(Clone, Copy)]
pub enum Work {
    /// It is the operand.
    Read(Operand),
    /// By an operator before its operand.
    Before(UnOp, Operand),
    /// By an operator between its operands; the right one is read first.
    Between(BinOp, Operand, Operand),
    /// By an operator between two leaves.
    Alone(Inner),
    /// By an operator between what an inner one gives and a leaf.
    Left(BinOp, Inner, Leaf),
    /// By an operator between an operand and what an inner one gives.
    Right(BinOp, Operand, Inner),
}

/// What is done with a value, and where it goes on.
#[derive(Clone, Copy)]
pub enum Destination {
    /// The value is pushed on top of the values.
    Push(usize),
    /// It goes on at the first position where the value is 0, and else at the second.
    Branch(usize, usize),
    /// The value is that of a new slot after that many.
    Declare(u32, usize),
    /// The value is the new one of a slot.
    Assign(u32, usize),
    /// The value goes to the caller, with that many scopes fewer.
    Return(usize),
}

/// Where a statement leads.
#[derive(Clone, Copy)]
pub struct Exits {
    /// The statement after it.
    pub next: usize,
    /// Where a break leads.
    pub broken: usize,
    /// Where a continue leads.
    pub continued: usize,
    /// How many scopes of the function have begun.
    pub scopes: usize,
}

/// One step of a run. It goes on at a lower position, but for a call and a turn, which take a
/// round.
#[derive(Clone, Copy)]
pub enum Op<'a> {
    /// A value is made, and something is done with it.
    Do(Work, Destination),
    /// An operator between two leaves is made: it goes on at the first position where the value is
    /// 0, and else at the second.
    Test(Inner, usize, usize),
    /// An operator between two leaves is made: the value is the new one of a slot.
    Set(Inner, u32, usize),
    /// It goes on at the first position where the first slot's value is less than the second's, and
    /// else at the second.
    LessSlot(u32, u32, usize, usize),
    /// It goes on at the first position where the slot's value is less than the integer, and else
    /// at the second.
    LessLiteral(u32, i64, usize, usize),
    /// It goes on at the first position where the integer is less than the slot's value, and else
    /// at the second.
    LiteralLess(i64, u32, usize, usize),
    /// An integer is added to the value of a slot.
    Raise(u32, i64, usize),
    /// The sum of the values of the first two slots is the new value of the third.
    Add(u32, u32, u32, usize),
    /// The sum of the values of the first three slots is the new value of the fourth.
    AddThree(u32, u32, u32, u32, usize),
    /// The sum of the first slot's value and an integer times the second's is the new value of the
    /// third.
    AddTimes(u32, i64, u32, u32, usize),
    /// An operator between what an inner one gives and a leaf is made: the value is the new one of
    /// a slot.
    SetLeft(BinOp, Inner, Leaf, u32, usize),
    /// An operator between the first slot's value and what an inner one gives is made: the value is
    /// the new one of the second.
    SetRight(BinOp, u32, Inner, u32, usize),
    /// An operator between two leaves is made: the value is pushed.
    PushInner(Inner, usize),
    /// An operator between two operands is made: the value goes to the caller, with that many
    /// scopes fewer.
    Give(BinOp, Operand, Operand, usize),
    /// A call of the function at this place, with that many arguments from the top of the values;
    /// then it goes on at the position.
    Call(u32, usize, usize),
    /// The turns of a loop, where it leads, and the position at which a turn begins.
    Turn(&'a Stmt, Exits, usize),
    /// A scope begins.
    Enter(usize),
    /// A scope ends: the slots stay that were there when it began.
    Leave(usize),
}

/// The code of a program and of an expression, if there is one.
#[derive(Drop)]
pub struct Code<'a> {
    /// The program.
    pub program: &'a Resolved,
    /// The expression.
    pub whole: Option<&'a Expr>,
    /// The ops.
    pub ops: Vec<Op<'a>>,
    /// Where each function begins.
    pub entries: Vec<usize>,
    /// Where the expression begins.
    pub start: Option<usize>,
}
