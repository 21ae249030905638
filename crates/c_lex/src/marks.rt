//! Which mark a byte or two are.
ghost use Rattle.std.specs.Prelude.{◌≡◌, [], ◌∷◌, IfSome};
ghost use Rattle.c_lex.specs.Marks as spec;

use crate::token::Mark;

/// The mark of two bytes that these are, if any.
pub(crate) fn two_mark(x: u8, y: u8) -> Option<Mark>
    ensures value { result ≡ spec.two_mark x y }
    ensures spelled { IfSome result (λ m. x ∷ y ∷ [] ≡ spec.spelling m) }
{
    match (x, y) {
        (b'=', b'=') => Some(Mark::EqualEqual),
        (b'!', b'=') => Some(Mark::NotEqual),
        (b'<', b'=') => Some(Mark::LessEqual),
        (b'>', b'=') => Some(Mark::GreaterEqual),
        (b'&', b'&') => Some(Mark::AndAnd),
        (b'|', b'|') => Some(Mark::OrOr),
        (b'+', b'=') => Some(Mark::PlusAssign),
        (b'-', b'=') => Some(Mark::MinusAssign),
        (b'*', b'=') => Some(Mark::StarAssign),
        (b'/', b'=') => Some(Mark::SlashAssign),
        (b'%', b'=') => Some(Mark::PercentAssign),
        (b'+', b'+') => Some(Mark::PlusPlus),
        (b'-', b'-') => Some(Mark::MinusMinus),
        _ => None,
    }
}

/// The mark of one byte that this is, if any.
pub(crate) fn one_mark(x: u8) -> Option<Mark>
    ensures value { result ≡ spec.one_mark x }
    ensures spelled { IfSome result (λ m. x ∷ [] ≡ spec.spelling m) }
{
    match x {
        b'(' => Some(Mark::LeftParen),
        b')' => Some(Mark::RightParen),
        b'{' => Some(Mark::LeftBrace),
        b'}' => Some(Mark::RightBrace),
        b',' => Some(Mark::Comma),
        b';' => Some(Mark::Semicolon),
        b'?' => Some(Mark::Question),
        b':' => Some(Mark::Colon),
        b'=' => Some(Mark::Assign),
        b'<' => Some(Mark::Less),
        b'>' => Some(Mark::Greater),
        b'+' => Some(Mark::Plus),
        b'-' => Some(Mark::Minus),
        b'*' => Some(Mark::Star),
        b'/' => Some(Mark::Slash),
        b'%' => Some(Mark::Percent),
        b'!' => Some(Mark::Not),
        _ => None,
    }
}
