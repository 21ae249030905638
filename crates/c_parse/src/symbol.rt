//! What the recogniser still expects.

/// A part of a program that is still to come, by what it spells. `Going`, `Called`, `Else` and
/// `Program` may spell nothing.
#[derive(Clone, Copy)]
pub enum Symbol {
    /// A name.
    Name,
    /// `(`
    LeftParen,
    /// `)`
    RightParen,
    /// `:`
    Colon,
    /// `;`
    Semicolon,
    /// `while`
    While,
    /// An expression.
    Expression,
    /// What comes after a name in an expression: the arguments of a call, an operator and the rest.
    Called,
    /// What comes after an operand: an operator and the rest of the expression.
    Going,
    /// The arguments of a call, with the closing parenthesis.
    Arguments,
    /// The arguments after the first, with the closing parenthesis.
    Following,
    /// The items of a block, with the closing brace.
    Items,
    /// A statement.
    Statement,
    /// `else` and a statement.
    Else,
    /// What comes after the name that a change begins with.
    Changed,
    /// Declarations of names, with the semicolon.
    Declarators,
    /// What comes after a declared name, with the semicolon.
    Declared,
    /// A comma and declarations of names, or the semicolon.
    MoreDeclarators,
    /// The part of a `for` before its test, with the semicolon.
    ForStart,
    /// The test of a `for`, with the semicolon.
    ForTest,
    /// The change after the test of a `for`, with the closing parenthesis.
    ForChange,
    /// Functions and prototypes.
    Program,
    /// What comes after the opening parenthesis of a heading, to the end of the function or
    /// prototype.
    Parameters,
    /// A parameter and what comes after it, to the end of the function or prototype.
    Parameter(Naming),
    /// What comes after the `int` of a parameter, to the end of the function or prototype.
    ParameterName(Naming),
    /// What comes after a parameter, to the end of the function or prototype.
    MoreParameters(Naming),
    /// The block of a function, or the semicolon of a prototype.
    Body,
}

/// Whether each parameter so far has a name, as those of a function have.
#[derive(Clone, Copy)]
pub enum Naming {
    /// Each has one.
    Full,
    /// One of them has none.
    Partial,
}

/// What the recogniser does at a token with the symbol on top of its stack, which it takes off.
#[derive(Clone, Copy)]
pub enum Step {
    /// The token is the first of what the symbol spells: it is shifted, and the symbols of what may
    /// come after it are on the stack.
    Shifted,
    /// The symbol spells nothing here: it is popped, and the token is left to the symbol below.
    Popped,
    /// Nothing that the symbol spells begins with the token: it is rejected.
    Rejected,
}
