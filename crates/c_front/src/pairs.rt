//! Two functions of a program, with or without a precondition.
use c_ast::{Expr, Resolved};

/// A program with its names resolved, and the places of two functions in it.
#[derive(Debug, Drop)]
pub struct TwoFunctions {
    /// The program.
    pub program: Resolved,
    /// The place of the function with the first name.
    pub first: u32,
    /// The place of the function with the second name.
    pub second: u32,
}

/// Two functions that are to be compared.
#[derive(Debug, Drop)]
pub struct Compared {
    /// The functions, of equally many parameters.
    pub two: TwoFunctions,
    /// What their arguments are to meet: a row form over the parameters of the first function, each
    /// by its number from 0.
    pub precondition: Option<Expr>,
}
