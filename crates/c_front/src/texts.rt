//! What goes from one stage of the front end to the next.
use crate::pairs::TwoFunctions;
use c_ast::{Expr, Program, Resolved};
use c_lex::Token;
use rx_plain::Items;

/// A list of tokens, and the program that it spells.
#[derive(Debug, Drop)]
pub struct ProgramText {
    /// The tokens.
    pub tokens: Items<Token>,
    /// The program, with the names of its functions and variables by their tokens.
    pub program: Program,
}

/// The tokens of a text, the program as it is read, and the program with all its names resolved.
#[derive(Debug, Drop)]
pub struct ResolvedText {
    /// The tokens and the program.
    pub text: ProgramText,
    /// The program with its names resolved.
    pub resolved: Resolved,
}

/// Two functions of a program, and what the program was read from.
#[derive(Debug, Drop)]
pub struct NamedText {
    /// The tokens and the program.
    pub text: ProgramText,
    /// The program with its names resolved, and the places of the two functions.
    pub two: TwoFunctions,
}

/// The tokens of a precondition, and the expression that they spell.
#[derive(Debug, Drop)]
pub struct PreText {
    /// The tokens.
    pub tokens: Items<Token>,
    /// The expression, with the names of parameters by their tokens.
    pub pre: Expr,
}
