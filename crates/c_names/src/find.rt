//! The place of a function in a program.
ghost use Rattle.std.specs.Prelude.{◌≡◌, ◌<◌, ◌^◌, length};
ghost use Rattle.c_names.specs.Spellings.{IsWithin};
ghost use Rattle.c_names.specs.Places.{place_of_function};

use crate::spelling::spelling_at;
use c_ast::Program;
use c_lex::Token;

/// The place of the first definition of a function with this name, none where there is none. Takes
/// no memory.
pub fn find_function(source: &[u8], tokens: &[Token], program: &Program, name: &str) -> Option<u32>
    requires within { IsWithin source.now tokens.now }
    requires few { length program.now.functions < 2 ^ 32 }
    ensures { result ≡ place_of_function source.now tokens.now program.now.functions name.now }
{
    let mut place: u32 = 0;
    for function in program.functions.as_slice() {
        if spelling_at(source, tokens, function.name) == name.as_bytes() {
            return Some(place);
        }
        place += 1;
    }
    None
}
