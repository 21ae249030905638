//! What a reader found, and the place after it.
use c_ast::Expr;
use rx_plain::Items;

/// An expression, with its height.
#[derive(Drop)]
pub struct Read {
    pub tree: Expr,
    pub end: usize,
    pub height: u32,
}

/// The arguments of a call, with the greatest of their heights, 0 where there are none.
#[derive(Drop)]
pub struct ReadArguments {
    pub arguments: Items<Expr>,
    pub end: usize,
    pub height: u32,
}

/// Anything else.
#[derive(Drop)]
pub struct Span<T> {
    pub value: T,
    pub end: usize,
}
