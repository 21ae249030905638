//! What is at a place of the list of tokens. After its end there is nothing.
ghost use Rattle.std.specs.Prelude.{◌≡◌, Some, None, MatchBool, MatchOption};
ghost use Rattle.c_ast.specs.declared.expr.BinOp.{BinOp};
ghost use Rattle.c_syntax.specs.Grammar.{kind_at, infixed, binary_of, unary_of};

use c_ast::{BinOp, UnOp};
use c_lex::{Keyword, Mark, Token, TokenKind};

// What the token at `at` is.
#[tactic(auto, unfolding(crate::specs::Grammar::kind_at))]
pub fn kind_at(tokens: &[Token], at: usize) -> Option<TokenKind>
    ensures { result ≡ kind_at tokens.now at }
{
    match tokens.get(at) {
        Some(token) => Some(token.kind),
        None => None,
    }
}

// Whether the mark is at `at`.
pub fn has_mark(tokens: &[Token], at: usize, mark: Mark) -> bool
    ensures { MatchBool result (kind_at tokens.now at ≡ Some (TokenKind.Mark mark))
        (kind_at tokens.now at ≡ Some (TokenKind.Mark mark) → ⊥) }
{
    match kind_at(tokens, at) {
        Some(TokenKind::Mark(found)) => found == mark,
        _ => false,
    }
}

// Whether the keyword is at `at`.
pub fn has_keyword(tokens: &[Token], at: usize, word: Keyword) -> bool
    ensures { MatchBool result (kind_at tokens.now at ≡ Some (TokenKind.Word word))
        (kind_at tokens.now at ≡ Some (TokenKind.Word word) → ⊥) }
{
    match kind_at(tokens, at) {
        Some(TokenKind::Word(found)) => found == word,
        _ => false,
    }
}

// Whether a name is at `at`.
pub fn has_name(tokens: &[Token], at: usize) -> bool
    ensures { MatchBool result (kind_at tokens.now at ≡ Some TokenKind.Name)
        (kind_at tokens.now at ≡ Some TokenKind.Name → ⊥) }
{
    match kind_at(tokens, at) {
        Some(TokenKind::Name) => true,
        _ => false,
    }
}

// The operator of that level at `at`, if one is there.
pub fn operator_at(tokens: &[Token], at: usize, level: u32) -> Option<BinOp>
    ensures { MatchOption result
        ((op : BinOp) → binary_of (kind_at tokens.now at) ≡ Some (infixed level op) → ⊥)
        (λ op. binary_of (kind_at tokens.now at) ≡ Some (infixed level op)) }
{
    match kind_at(tokens, at) {
        Some(TokenKind::Mark(mark)) => operator_of(mark, level),
        _ => None,
    }
}

// The operator of that level that the mark is, if it is one.
fn operator_of(mark: Mark, level: u32) -> Option<BinOp>
    ensures { MatchOption result
        ((op : BinOp) → binary_of (Some (TokenKind.Mark mark)) ≡ Some (infixed level op) → ⊥)
        (λ op. binary_of (Some (TokenKind.Mark mark)) ≡ Some (infixed level op)) }
{
    match mark {
        Mark::Star if level == 0 => Some(BinOp::Mul),
        Mark::Slash if level == 0 => Some(BinOp::Div),
        Mark::Percent if level == 0 => Some(BinOp::Rem),
        Mark::Plus if level == 1 => Some(BinOp::Add),
        Mark::Minus if level == 1 => Some(BinOp::Sub),
        Mark::Less if level == 2 => Some(BinOp::Lt),
        Mark::LessEqual if level == 2 => Some(BinOp::Le),
        Mark::Greater if level == 2 => Some(BinOp::Gt),
        Mark::GreaterEqual if level == 2 => Some(BinOp::Ge),
        Mark::EqualEqual if level == 3 => Some(BinOp::Eq),
        Mark::NotEqual if level == 3 => Some(BinOp::Ne),
        Mark::AndAnd if level == 4 => Some(BinOp::AndAlso),
        Mark::OrOr if level == 5 => Some(BinOp::OrElse),
        _ => None,
    }
}

// The operator before an operand at `at`, if one is there.
pub fn sign_at(tokens: &[Token], at: usize) -> Option<UnOp>
    ensures { result ≡ unary_of (kind_at tokens.now at) }
{
    match kind_at(tokens, at) {
        Some(TokenKind::Mark(Mark::Plus)) => Some(UnOp::Plus),
        Some(TokenKind::Mark(Mark::Minus)) => Some(UnOp::Minus),
        Some(TokenKind::Mark(Mark::Not)) => Some(UnOp::Not),
        _ => None,
    }
}
