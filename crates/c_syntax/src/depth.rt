//! How deep brackets are open.
ghost use Rattle.std.specs.Prelude.{◌≡◌, ◌≤◌, ◌<◌, ◌^◌, length};
ghost use Rattle.c_syntax.specs.Depth.{open_behind, too_deep};

use c_lex::{Mark, Token, TokenKind};

// How many brackets may be open.
const MAX_OPEN: u32 = 200;

// The number of the first token that opens a bracket where 200 are open already, if there is one.
pub fn too_deep(tokens: &[Token]) -> Option<u32>
    requires { length tokens.now < 2 ^ 32 }
    ensures { result ≡ too_deep 0 0 tokens.now }
{
    let mut count = 0;
    for (at, token) in tokens.iter().enumerate() {
        count = open_behind(count, token.kind);
        if count > MAX_OPEN {
            return Some(at as u32);
        }
    }
    None
}

// How many brackets are open after a token, of those that are open before it.
fn open_behind(count: u32, kind: TokenKind) -> u32
    requires { count ≤ 200 }
    ensures { result ≡ open_behind count kind }
{
    match kind {
        TokenKind::Mark(Mark::LeftParen) => count + 1,
        TokenKind::Mark(Mark::LeftBrace) => count + 1,
        TokenKind::Mark(Mark::RightParen) => count.saturating_sub(1),
        TokenKind::Mark(Mark::RightBrace) => count.saturating_sub(1),
        _ => count,
    }
}
