//! Why the front end refuses a text or a precondition.
use c_lex::LexEnd;
use c_parse::ParseEnd;
use c_scope::ScopeEnd;

/// Why a text is refused for two names, or a precondition on the two functions.
#[derive(Clone, Copy, Debug, PartialEq, Eq)]
pub enum Refusal {
    /// It is no list of tokens.
    Lex(LexEnd),
    /// It spells no program within the parser's limits.
    Parse(ParseEnd),
    /// Its program isn't well formed.
    Scope(ScopeEnd),
    /// Its number at this token is above 2147483647, and 32-bit integers are asked for.
    WideLiteral(u32),
    /// No function has the first name, which is 1, or else the second, which is 2.
    NoFunction(u8),
    /// The two functions have different numbers of parameters, which these are.
    Arity(u32, u32),
    /// The precondition is no list of tokens.
    PreLex(LexEnd),
    /// The tokens of the precondition spell no row form within the parser's limits.
    PreParse(ParseEnd),
    /// No parameter of the first function has the name that this token of the precondition is.
    PreName(u32),
}
