//! Parts of programs that are no trees of c_ast.
use c_ast::{Expr, Function, Prototype, Stmt};
use rx_plain::{Boxed, Items};

/// The head of a `for`.
#[derive(Drop)]
pub struct Head {
    pub first: Items<Stmt>,
    pub test: Option<Expr>,
    pub change: Option<Boxed<Stmt>>,
}

/// A function or a prototype.
#[derive(Drop)]
pub enum External {
    Defined(Function),
    Declared(Prototype),
}
