//! Statements (ISO/IEC 9899:1999, 6.8), their height, their calls and their exact copy.
ghost use Rattle.std.specs.Prelude.{◌≡◌, ◌<◌, ◌^◌, ◌++◌, IfOk, OnOk, map};
ghost use Rattle.std.specs.List.{concat};
ghost use Rattle.c_ast.specs.Calls.{calls, calls_in};
ghost use Rattle.c_ast.specs.declared.stmt.Stmt.TheVariants.{For, If};
ghost use Rattle.c_ast.specs.Variables.{list_of_option};
ghost use Rattle.c_ast.specs.Height.{stmt_height, expr_height, of_option, greatest};

use crate::expr::{Expr, expr_height};
use crate::parts::{extended, in_box};
use rx_plain::{Boxed, Items, NoMemory, both};
use std::alloc::Global;

/// A statement, or a declaration of one name.
#[derive(Debug, Drop, PartialEq, Eq)]
pub enum Stmt {
    /// `;`
    Empty,
    /// `int NAME;` or `int NAME = e;`, one for each name of a declaration: the name's token or its slot.
    Declare(u32, Option<Expr>),
    /// `NAME = e;`: the name's token or its slot.
    Assign(u32, Expr),
    /// `if (e) s` or `if (e) s else t`.
    If(Expr, Boxed<Stmt>, Option<Boxed<Stmt>>),
    /// `while (e) s`
    While(Expr, Boxed<Stmt>),
    /// `do s while (e);`
    DoWhile(Boxed<Stmt>, Expr),
    /// `for (..; ..; ..) s`: the declarations or the change before it, the test, the change after
    /// each turn, and the body.
    For(Items<Stmt>, Option<Expr>, Option<Boxed<Stmt>>, Boxed<Stmt>),
    /// `break;`: the number of its token.
    Break(u32),
    /// `continue;`: the number of its token.
    Continue(u32),
    /// `return e;`
    Return(Expr),
    /// `{ .. }`
    Block(Items<Stmt>),
}

/// The height of `s`: 1 for a statement without parts, and else 1 more than the greatest height of
/// its parts. Takes no memory.
#[cycle(stmt_heights)]
pub fn stmt_height(s: &Stmt) -> u32
    requires { stmt_height s.now < 2 ^ 32 }
    ensures { result ≡ stmt_height s.now }
{
    match s {
        Stmt::Empty => 1,
        Stmt::Declare(_, value) => 1 + option_height(value),
        Stmt::Assign(_, value) => 1 + expr_height(value),
        Stmt::If(test, then, other) => {
            let least = expr_height(test).max(stmt_height(then.get()));
            match other {
                None => 1 + least,
                Some(other) => 1 + least.max(stmt_height(other.get())),
            }
        }
        Stmt::While(test, body) => 1 + expr_height(test).max(stmt_height(body.get())),
        Stmt::DoWhile(body, test) => 1 + stmt_height(body.get()).max(expr_height(test)),
        Stmt::For(first, test, change, body) => {
            let least = greatest_height(first.as_slice())
                .max(option_height(test))
                .max(stmt_height(body.get()));
            match change {
                None => 1 + least,
                Some(change) => 1 + least.max(stmt_height(change.get())),
            }
        }
        Stmt::Break(_) => 1,
        Stmt::Continue(_) => 1,
        Stmt::Return(value) => 1 + expr_height(value),
        Stmt::Block(inner) => 1 + greatest_height(inner.as_slice()),
    }
}

// The greatest height of the statements, 0 where there is none.
#[cycle(stmt_heights)]
fn greatest_height(statements: &[Stmt]) -> u32
    requires { greatest (map stmt_height statements.now) < 2 ^ 32 }
    ensures { result ≡ greatest (map stmt_height statements.now) }
{
    let mut most = 0;
    for statement in statements {
        most = most.max(stmt_height(statement));
    }
    most
}

// The height of the expression, 0 where there is none.
fn option_height(e: &Option<Expr>) -> u32
    requires { of_option expr_height e.now < 2 ^ 32 }
    ensures { result ≡ of_option expr_height e.now }
{
    match e {
        None => 0,
        Some(e) => expr_height(e),
    }
}

impl Stmt {
    /// Adds the functions that the statement calls to the end of `called`, in the order of its
    /// parts, each as often as it is called there, also where nothing leads; fails only when out of
    /// memory.
    #[cycle(stmt_calls)]
    pub fn push_calls(&self, called: &mut Items<u32>) -> Result<(), NoMemory>
        ensures { OnOk result (called.new ≡ called.old ++ calls_in self.now) }
    {
        match self {
            Stmt::Empty => Ok(()),
            Stmt::Declare(_, value) => push_calls_of_option(value, called),
            Stmt::Assign(_, value) => value.push_calls(called),
            Stmt::If(test, then, other) => {
                test.push_calls(called)?;
                then.get().push_calls(called)?;
                push_calls_of_other(other, called)
            }
            Stmt::While(test, body) => {
                test.push_calls(called)?;
                body.get().push_calls(called)
            }
            Stmt::DoWhile(body, test) => {
                body.get().push_calls(called)?;
                test.push_calls(called)
            }
            Stmt::For(first, test, change, body) => {
                push_calls_of_all(first.as_slice(), called)?;
                push_calls_of_option(test, called)?;
                push_calls_of_other(change, called)?;
                body.get().push_calls(called)
            }
            Stmt::Break(_) => Ok(()),
            Stmt::Continue(_) => Ok(()),
            Stmt::Return(value) => value.push_calls(called),
            Stmt::Block(inner) => push_calls_of_all(inner.as_slice(), called),
        }
    }
}

// Adds the calls of the statement, where there is one.
#[cycle(stmt_calls)]
fn push_calls_of_other(s: &Option<Boxed<Stmt>>, called: &mut Items<u32>) -> Result<(), NoMemory>
    ensures { OnOk result (called.new ≡ called.old ++ list_of_option calls_in s.now) }
{
    match s {
        None => Ok(()),
        Some(s) => s.get().push_calls(called),
    }
}

// Adds the calls of each statement, in order.
#[cycle(stmt_calls)]
pub fn push_calls_of_all(statements: &[Stmt], called: &mut Items<u32>) -> Result<(), NoMemory>
    ensures { OnOk result (called.new ≡ called.old ++ concat (map calls_in statements.now)) }
{
    for statement in statements {
        statement.push_calls(called)?;
    }
    Ok(())
}

// Adds the calls of the expression, where there is one.
fn push_calls_of_option(e: &Option<Expr>, called: &mut Items<u32>) -> Result<(), NoMemory>
    ensures { OnOk result (called.new ≡ called.old ++ list_of_option calls e.now) }
{
    match e {
        None => Ok(()),
        Some(e) => e.push_calls(called),
    }
}

impl Stmt {
    /// A copy that equals `self`; fails only when out of memory.
    #[cycle(clones)]
    pub fn try_clone(&self, alloc: Global) -> Result<Stmt, NoMemory>
        ensures { IfOk result (λ s. s ≡ self.now) }
    {
        match self {
            Stmt::Empty => Ok(Stmt::Empty),
            Stmt::Declare(name, value) => Ok(Stmt::Declare(*name, copy_option(alloc, value)?)),
            Stmt::Assign(name, value) => Ok(Stmt::Assign(*name, value.try_clone(alloc)?)),
            Stmt::If(test, then, other) => copy_branch(alloc, self, test, then, other),
            Stmt::While(test, body) => {
                let (test, body) = copy_guarded(alloc, body, test)?;
                Ok(Stmt::While(test, body))
            }
            Stmt::DoWhile(body, test) => {
                let (test, body) = copy_guarded(alloc, body, test)?;
                Ok(Stmt::DoWhile(body, test))
            }
            Stmt::For(first, test, change, body) => {
                copy_for(alloc, self, first, test, change, body)
            }
            Stmt::Break(token) => Ok(Stmt::Break(*token)),
            Stmt::Continue(token) => Ok(Stmt::Continue(*token)),
            Stmt::Return(value) => Ok(Stmt::Return(value.try_clone(alloc)?)),
            Stmt::Block(inner) => Ok(Stmt::Block(copy_all(alloc, inner)?)),
        }
    }
}

// A copy of an `if`. The whole statement is there for its height, by which the recursion ends; so
// it is in `copy_for`.
#[cycle(clones)]
fn copy_branch(
    alloc: Global,
    whole: &Stmt,
    test: &Expr,
    then: &Boxed<Stmt>,
    other: &Option<Boxed<Stmt>>,
) -> Result<Stmt, NoMemory>
    requires parts { whole.now ≡ If test.now then.now other.now }
    ensures { IfOk result (λ s. s ≡ whole.now) }
{
    let parts = copy_guarded(alloc, then, test)?;
    let ((test, then), other) = both(parts, copy_other(alloc, other))?;
    Ok(Stmt::If(test, then, other))
}

// A copy of a `for`.
#[cycle(clones)]
fn copy_for(
    alloc: Global,
    whole: &Stmt,
    first: &Items<Stmt>,
    test: &Option<Expr>,
    change: &Option<Boxed<Stmt>>,
    body: &Boxed<Stmt>,
) -> Result<Stmt, NoMemory>
    requires parts { whole.now ≡ For first.now test.now change.now body.now }
    ensures { IfOk result (λ s. s ≡ whole.now) }
{
    let parts = both(copy_all(alloc, first)?, copy_option(alloc, test))?;
    let parts = both(parts, copy_other(alloc, change))?;
    let (((first, test), change), body) = both(parts, copy(alloc, body))?;
    Ok(Stmt::For(first, test, change, body))
}

// A copy of a test and of the statement under it.
#[cycle(clones)]
fn copy_guarded(
    alloc: Global,
    body: &Boxed<Stmt>,
    test: &Expr,
) -> Result<(Expr, Boxed<Stmt>), NoMemory>
    ensures test { IfOk result (λ copied. copied.0 ≡ test.now) }
    ensures body { IfOk result (λ copied. copied.1 ≡ body.now) }
{
    both(test.try_clone(alloc)?, copy(alloc, body))
}

// A copy of what the box holds, in a box of its own.
#[cycle(clones)]
fn copy(alloc: Global, s: &Boxed<Stmt>) -> Result<Boxed<Stmt>, NoMemory>
    ensures { IfOk result (λ copied. copied ≡ s.now) }
{
    in_box(alloc, s.get().try_clone(alloc))
}

// A copy of the part that may be left out.
#[cycle(clones)]
fn copy_other(alloc: Global, s: &Option<Boxed<Stmt>>) -> Result<Option<Boxed<Stmt>>, NoMemory>
    ensures { IfOk result (λ copied. copied ≡ s.now) }
{
    match s {
        None => Ok(None),
        Some(s) => Ok(Some(in_box(alloc, s.get().try_clone(alloc))?)),
    }
}

// A copy of each statement, in order.
#[cycle(clones)]
pub fn copy_all(alloc: Global, statements: &Items<Stmt>) -> Result<Items<Stmt>, NoMemory>
    ensures { IfOk result (λ copied. copied ≡ statements.now) }
{
    let mut copies = Items::new(alloc);
    for statement in statements.as_slice() {
        copies = extended(copies, statement.try_clone(alloc))?;
    }
    Ok(copies)
}

// A copy of the expression that may be left out.
fn copy_option(alloc: Global, e: &Option<Expr>) -> Result<Option<Expr>, NoMemory>
    ensures { IfOk result (λ copied. copied ≡ e.now) }
{
    match e {
        None => Ok(None),
        Some(e) => Ok(Some(e.try_clone(alloc)?)),
    }
}
