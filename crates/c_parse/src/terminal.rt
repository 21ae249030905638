//! What a token does to a symbol that is one token.
ghost use Rattle.std.specs.Prelude.{List, Ok};
ghost use Rattle.c_parse.specs.declared.symbol.Symbol.{Symbol};
ghost use Rattle.c_parse.specs.Actions.{name_action, left_paren_action, right_paren_action};
ghost use Rattle.c_parse.specs.Actions.{colon_action, semicolon_action, while_action};
ghost use Rattle.c_parse.specs.Recogniser.{Acts};

use crate::symbol::Step;
use c_lex::{Keyword, Mark, TokenKind};

// A name.
pub fn name(kind: Option<TokenKind>) -> Step
    ensures { (below : List Symbol) → Acts (Ok result) below below (name_action kind) }
{
    match kind {
        Some(TokenKind::Name) => Step::Shifted,
        _ => Step::Rejected,
    }
}

// `(`
pub fn left_paren(kind: Option<TokenKind>) -> Step
    ensures { (below : List Symbol) → Acts (Ok result) below below (left_paren_action kind) }
{
    match kind {
        Some(TokenKind::Mark(Mark::LeftParen)) => Step::Shifted,
        _ => Step::Rejected,
    }
}

// `)`
pub fn right_paren(kind: Option<TokenKind>) -> Step
    ensures { (below : List Symbol) → Acts (Ok result) below below (right_paren_action kind) }
{
    match kind {
        Some(TokenKind::Mark(Mark::RightParen)) => Step::Shifted,
        _ => Step::Rejected,
    }
}

// `:`
pub fn colon(kind: Option<TokenKind>) -> Step
    ensures { (below : List Symbol) → Acts (Ok result) below below (colon_action kind) }
{
    match kind {
        Some(TokenKind::Mark(Mark::Colon)) => Step::Shifted,
        _ => Step::Rejected,
    }
}

// `;`
pub fn semicolon(kind: Option<TokenKind>) -> Step
    ensures { (below : List Symbol) → Acts (Ok result) below below (semicolon_action kind) }
{
    match kind {
        Some(TokenKind::Mark(Mark::Semicolon)) => Step::Shifted,
        _ => Step::Rejected,
    }
}

// `while`
pub fn while_word(kind: Option<TokenKind>) -> Step
    ensures { (below : List Symbol) → Acts (Ok result) below below (while_action kind) }
{
    match kind {
        Some(TokenKind::Word(Keyword::While)) => Step::Shifted,
        _ => Step::Rejected,
    }
}
