/// A token: its kind, and the slice of the source that spells it, `source[at..at + len]`.
#[derive(Clone, Copy, Debug, PartialEq, Eq)]
pub struct Token {
    /// What the slice spells.
    pub kind: TokenKind,
    /// The offset of its first byte.
    pub at: u32,
    /// How many bytes spell it, at least one.
    pub len: u32,
}

/// What a token is.
#[derive(Clone, Copy, Debug, PartialEq, Eq)]
pub enum TokenKind {
    /// A letter or underscore with the letters, digits and underscores after it, and no keyword.
    Name,
    /// A decimal literal, by its value, which is at least 0.
    Number(i64),
    /// A keyword.
    Word(Keyword),
    /// A punctuator.
    Mark(Mark),
}

/// The 37 keywords of C99 (ISO/IEC 9899:1999, 6.4.1).
#[derive(Clone, Copy, Debug, PartialEq, Eq)]
pub enum Keyword {
    /// `int`
    Int,
    /// `void`
    Void,
    /// `if`
    If,
    /// `else`
    Else,
    /// `while`
    While,
    /// `do`
    Do,
    /// `for`
    For,
    /// `break`
    Break,
    /// `continue`
    Continue,
    /// `return`
    Return,
    /// Each of the other 27, which the subset doesn't use.
    Other,
}

/// The punctuators of the subset, each in its longest spelling (ISO/IEC 9899:1999, 6.4.6).
#[derive(Clone, Copy, Debug, PartialEq, Eq)]
pub enum Mark {
    /// `(`
    LeftParen,
    /// `)`
    RightParen,
    /// `{`
    LeftBrace,
    /// `}`
    RightBrace,
    /// `,`
    Comma,
    /// `;`
    Semicolon,
    /// `?`
    Question,
    /// `:`
    Colon,
    /// `=`
    Assign,
    /// `==`
    EqualEqual,
    /// `!=`
    NotEqual,
    /// `<`
    Less,
    /// `<=`
    LessEqual,
    /// `>`
    Greater,
    /// `>=`
    GreaterEqual,
    /// `+`
    Plus,
    /// `-`
    Minus,
    /// `*`
    Star,
    /// `/`
    Slash,
    /// `%`
    Percent,
    /// `!`
    Not,
    /// `&&`
    AndAnd,
    /// `||`
    OrOr,
    /// `+=`
    PlusAssign,
    /// `-=`
    MinusAssign,
    /// `*=`
    StarAssign,
    /// `/=`
    SlashAssign,
    /// `%=`
    PercentAssign,
    /// `++`
    PlusPlus,
    /// `--`
    MinusMinus,
}
