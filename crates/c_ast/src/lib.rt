//! Trees of the C subset: expressions, statements, functions and programs, with their heights and
//! exact copies, the functions that they call, which functions are straight, which expressions may
//! be preconditions, and when a resolved program's slots and calls are in order. And two kinds of
//! integers: which results of arithmetic operators are values.
//!
//! Contracts see each tree as plain data, so that `≡` compares trees. What a `u32` names is the
//! reader's affair: in a program as it was read it is the number of a token, and in a resolved one
//! a variable is a slot and a called function its place in the list.
#![tactic(auto)]

mod expr;
mod forms;
mod integers;
pub mod laws;
mod parts;
mod program;
mod stmt;

pub use expr::{BinOp, Expr, UnOp, expr_height};
pub use forms::{is_row_form, straight};
pub use integers::Integers;
pub use laws::{
    one_fault_is_out_of_order, scoped_programs_name_what_is_there,
    straight_expressions_are_one_notion,
};
pub use program::{Function, Program, Prototype, Resolved};
pub use rx_plain::NoMemory;
pub use stmt::{Stmt, stmt_height};
