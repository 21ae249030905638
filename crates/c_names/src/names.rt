//! The names of tokens, as numbers.
ghost use Rattle.std.specs.Prelude.{◌≡◌, ◌<◌, ◌^◌, ℕ, List, Some, None, length, if◌then◌else◌, bytes_eq, unwrap_or, IfOk, OnOk};
ghost use Rattle.std.specs.Option.{option_or};
ghost use Rattle.c_lex.specs.declared.token.Token.{Token as TheToken};
ghost use Rattle.c_names.specs.Names as spec;
ghost use Rattle.c_names.specs.Names.{NamesTellSpellings};
ghost use Rattle.c_names.specs.Seen.{number_in};
ghost use Rattle.c_names.specs.Spellings.{IsWithin};

use crate::spelling::spelling_at;
use c_lex::Token;
use indexmap::IndexMap;
use rx_plain::NoMemory;
use std::alloc::Global;

// The number that a word was first seen with: this one where it is new.
fn number_of<'a>(
    seen: &mut IndexMap<&'a [u8], u32>,
    word: &'a [u8],
    number: u32,
) -> Result<u32, NoMemory>
    ensures number { IfOk result (λ n. n ≡ unwrap_or (number_in seen.old.entries word.now) number) }
    ensures known { OnOk result ((w : List ℕ) → number_in seen.new.entries w ≡
        option_or (number_in seen.old.entries w)
        (if bytes_eq word.now w then Some number else None)) }
{
    if let Some(first) = seen.get(word) {
        return Ok(*first);
    }
    seen.insert(word, number)?;
    Ok(number)
}

/// The names of all tokens of a text, in order: each is the number of the first token that is
/// spelled alike. It fails only when out of memory.
pub fn names_of(alloc: Global, source: &[u8], tokens: &[Token]) -> Result<Vec<u32>, NoMemory>
    requires within { IsWithin source.now tokens.now }
    requires few { length tokens.now < 2 ^ 32 }
    ensures { IfOk result (λ names. names.items ≡ spec.names_of source.now tokens.now) }
{
    let mut seen: IndexMap<&[u8], u32> = IndexMap::new(alloc);
    let mut names = Vec::new(alloc);
    let mut number: u32 = 0;
    for _token in tokens {
        let word = spelling_at(source, tokens, number);
        let name = number_of(&mut seen, word, number)?;
        names.push(name)?;
        number += 1;
    }
    Ok(names)
}

/// Two tokens have one name exactly where the same bytes spell them.
#[tactic(auto, using(crate::proofs::NameLaws::names_tell_spellings))]
pub fn names_tell_spellings()
    ensures { (source : List ℕ) (tokens : List TheToken) → NamesTellSpellings source tokens }
{}

/// The name of the token with this number, where these are the names of all tokens; 0 where there
/// is no such token. Takes no memory.
pub fn name_at(names: &[u32], number: u32) -> u32
    ensures { result ≡ spec.name_at names.now number }
{
    match names.get(number as usize) {
        Some(name) => *name,
        None => 0,
    }
}
