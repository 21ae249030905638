//! The bytes that spell the tokens of a text.
ghost use Rattle.std.specs.Prelude.{◌≡◌, ◌<◌, ◌^◌, length};
ghost use Rattle.c_names.specs.Spellings as spec;
ghost use Rattle.c_names.specs.Spellings.{IsWithin};

use c_lex::Token;

/// The bytes of the token with this number, none where there is no such token.
pub fn spelling_at<'a>(source: &'a [u8], tokens: &[Token], number: u32) -> &'a [u8]
    requires { IsWithin source.now tokens.now }
    ensures { result.now ≡ spec.spelling_at source.now tokens.now number }
{
    match tokens.get(number as usize) {
        Some(token) => {
            let rest = &source[token.at as usize..];
            &rest[..token.len as usize]
        }
        None => &[],
    }
}

/// The place of the first of the tokens with these numbers that the bytes spell. Takes no memory.
pub fn find_spelling(source: &[u8], tokens: &[Token], numbers: &[u32], name: &[u8]) -> Option<u32>
    requires within { IsWithin source.now tokens.now }
    requires few { length numbers.now < 2 ^ 32 }
    ensures { result ≡ spec.place_of (spec.spellings source.now tokens.now numbers.now) name.now }
{
    let mut place: u32 = 0;
    for number in numbers {
        if spelling_at(source, tokens, *number) == name {
            return Some(place);
        }
        place += 1;
    }
    None
}
