//! What an operator of two operands is compiled as.
ghost use Rattle.std.specs.Prelude.{◌≡◌};
ghost use Rattle.rx_code.specs.Expressions as table;

use c_ast::BinOp;

/// A class of operators that are compiled alike.
#[derive(Clone, Copy, Debug, PartialEq, Eq)]
pub enum OpKind {
    /// `+`, `-` and `*`, whose value is a polynomial.
    Arithmetic,
    /// `/` and `%`, which may fail.
    Dividing,
    /// A comparison.
    Comparing,
    /// `&&`
    Conjunction,
    /// `||`
    Disjunction,
}

/// The class of an operator. Takes no memory.
pub fn kind_of(op: BinOp) -> OpKind
    ensures { result ≡ table.kind_of op }
{
    match op {
        BinOp::Add | BinOp::Sub | BinOp::Mul => OpKind::Arithmetic,
        BinOp::Div | BinOp::Rem => OpKind::Dividing,
        BinOp::AndAlso => OpKind::Conjunction,
        BinOp::OrElse => OpKind::Disjunction,
        BinOp::Lt | BinOp::Le | BinOp::Gt | BinOp::Ge | BinOp::Eq | BinOp::Ne => OpKind::Comparing,
    }
}
