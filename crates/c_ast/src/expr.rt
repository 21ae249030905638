//! Expressions (ISO/IEC 9899:1999, 6.5), their height, their calls and their exact copy.
ghost use Rattle.std.specs.Prelude.{◌≡◌, ◌<◌, ◌^◌, ◌++◌, IfOk, OnOk};
ghost use Rattle.c_ast.specs.Calls.{calls};
ghost use Rattle.c_ast.specs.Height.{expr_height};

use crate::parts::{extended, in_box};
use rx_plain::{Boxed, Items, NoMemory, both};
use std::alloc::Global;

/// An operator of one operand.
#[derive(Clone, Copy, Debug, PartialEq, Eq)]
pub enum UnOp {
    /// `+e`
    Plus,
    /// `-e`
    Minus,
    /// `!e`
    Not,
}

/// An operator of two operands.
#[derive(Clone, Copy, Debug, PartialEq, Eq)]
pub enum BinOp {
    /// `a + b`
    Add,
    /// `a - b`
    Sub,
    /// `a * b`
    Mul,
    /// `a / b`
    Div,
    /// `a % b`
    Rem,
    /// `a < b`
    Lt,
    /// `a <= b`
    Le,
    /// `a > b`
    Gt,
    /// `a >= b`
    Ge,
    /// `a == b`
    Eq,
    /// `a != b`
    Ne,
    /// `a && b`
    AndAlso,
    /// `a || b`
    OrElse,
}

/// An expression. Parentheses leave no trace in it.
#[derive(Debug, Drop, PartialEq, Eq)]
pub enum Expr {
    /// A literal, by its value.
    Lit(i64),
    /// A variable: the number of the name's token, or in a resolved program its slot.
    Var(u32),
    /// An operator before its operand.
    Unary(UnOp, Boxed<Expr>),
    /// An operator between its left and its right operand.
    Binary(BinOp, Boxed<Expr>, Boxed<Expr>),
    /// `c ? a : b`: the condition, the value where it holds, and the value where it doesn't.
    Choose(Boxed<Expr>, Boxed<Expr>, Boxed<Expr>),
    /// A call: the number of the name's token, or in a resolved program the function's place in the
    /// list; then the arguments.
    Apply(u32, Items<Expr>),
}

/// The height of `e`: 1 for a literal, a variable and a call without arguments, and else 1 more
/// than the greatest height of its parts. Takes no memory.
pub fn expr_height(e: &Expr) -> u32
    requires { expr_height e.now < 2 ^ 32 }
    ensures { result ≡ expr_height e.now }
{
    match e {
        Expr::Lit(_) => 1,
        Expr::Var(_) => 1,
        Expr::Unary(_, a) => 1 + expr_height(a.get()),
        Expr::Binary(_, a, b) => 1 + expr_height(a.get()).max(expr_height(b.get())),
        Expr::Choose(c, a, b) => {
            1 + expr_height(c.get())
                .max(expr_height(a.get()))
                .max(expr_height(b.get()))
        }
        Expr::Apply(_, arguments) => {
            let mut most = 0;
            for argument in arguments.as_slice() {
                most = most.max(expr_height(argument));
            }
            1 + most
        }
    }
}

impl Expr {
    /// Adds the functions that the expression calls to the end of `called`, from left to right,
    /// each as often as it is called there; fails only when out of memory.
    pub fn push_calls(&self, called: &mut Items<u32>) -> Result<(), NoMemory>
        ensures { OnOk result (called.new ≡ called.old ++ calls self.now) }
    {
        match self {
            Expr::Lit(_) => Ok(()),
            Expr::Var(_) => Ok(()),
            Expr::Unary(_, a) => a.get().push_calls(called),
            Expr::Binary(_, a, b) => {
                a.get().push_calls(called)?;
                b.get().push_calls(called)
            }
            Expr::Choose(c, a, b) => {
                c.get().push_calls(called)?;
                a.get().push_calls(called)?;
                b.get().push_calls(called)
            }
            Expr::Apply(place, arguments) => {
                called.push(*place)?;
                for argument in arguments.as_slice() {
                    argument.push_calls(called)?;
                }
                Ok(())
            }
        }
    }

    /// A copy that equals `self`; fails only when out of memory.
    #[cycle(clones)]
    pub fn try_clone(&self, alloc: Global) -> Result<Expr, NoMemory>
        ensures { IfOk result (λ e. e ≡ self.now) }
    {
        match self {
            Expr::Lit(n) => Ok(Expr::Lit(*n)),
            Expr::Var(v) => Ok(Expr::Var(*v)),
            Expr::Unary(op, a) => Ok(Expr::Unary(*op, copy(alloc, a)?)),
            Expr::Binary(op, a, b) => {
                let (a, b) = both(copy(alloc, a)?, copy(alloc, b))?;
                Ok(Expr::Binary(*op, a, b))
            }
            Expr::Choose(c, a, b) => {
                let parts = both(copy(alloc, c)?, copy(alloc, a))?;
                let ((c, a), b) = both(parts, copy(alloc, b))?;
                Ok(Expr::Choose(c, a, b))
            }
            Expr::Apply(name, arguments) => Ok(Expr::Apply(*name, copy_all(alloc, arguments)?)),
        }
    }
}

// A copy of what the box holds, in a box of its own.
#[cycle(clones)]
fn copy(alloc: Global, e: &Boxed<Expr>) -> Result<Boxed<Expr>, NoMemory>
    ensures { IfOk result (λ copied. copied ≡ e.now) }
{
    in_box(alloc, e.get().try_clone(alloc))
}

// A copy of each expression, in order.
#[cycle(clones)]
fn copy_all(alloc: Global, expressions: &Items<Expr>) -> Result<Items<Expr>, NoMemory>
    ensures { IfOk result (λ copied. copied ≡ expressions.now) }
{
    let mut copies = Items::new(alloc);
    for expression in expressions.as_slice() {
        copies = extended(copies, expression.try_clone(alloc))?;
    }
    Ok(copies)
}
