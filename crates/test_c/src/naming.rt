//! Names, spellings and slots.
use crate::texts::{Lexed, lex_text};
use c_names::{find_spelling, name_at, names_of, slot_of, spelling_at};
use std::alloc::Global;
use std::str;
use test_lines::{numbers_of, put, put_debug, put_number, put_space};

// The names of all tokens, as numbers.
fn names(alloc: Global, text: &Lexed) -> Option<String> {
    let mut out = String::new(alloc);
    for name in &names_of(alloc, &text.source, &text.tokens).ok()? {
        put_space(&mut out);
        put_number(&mut out, "", *name);
    }
    Some(out)
}

// The name of the token with a number.
fn name(alloc: Global, number: u32, text: &Lexed) -> Option<String> {
    let names = names_of(alloc, &text.source, &text.tokens).ok()?;
    let mut out = String::new(alloc);
    put_number(&mut out, "", name_at(&names, number));
    Some(out)
}

// The bytes that spell the token with a number.
fn spelling(alloc: Global, number: u32, text: &Lexed) -> Option<String> {
    let bytes = spelling_at(&text.source, &text.tokens, number);
    let mut out = String::new(alloc);
    put(&mut out, str::from_utf8(bytes).ok()?);
    Some(out)
}

// The place of the first of some tokens that is spelled so.
fn place(alloc: Global, name: &str, numbers: &[u32], text: &Lexed) -> Option<String> {
    if numbers.len() > 100 {
        return None;
    }
    let found = find_spelling(&text.source, &text.tokens, numbers, name.as_bytes());
    let mut out = String::new(alloc);
    put_debug(&mut out, found);
    Some(out)
}

// The slot of a name in a scope.
fn slot(alloc: Global, given: &str) -> Option<String> {
    let (name, scope) = given.split_once(" | ")?;
    let name = name.parse().ok()?;
    let scope = numbers_of::<u32>(alloc, scope)?;
    if scope.len() > 100 {
        return None;
    }
    let mut out = String::new(alloc);
    put_debug(&mut out, slot_of(&scope, name));
    Some(out)
}

// The place of a name among tokens, whose numbers are given, of a text.
fn place_in(alloc: Global, name: &str, numbers: &str, text: &str) -> Option<String> {
    let text = lex_text(alloc, text)?;
    let numbers = numbers_of::<u32>(alloc, numbers)?;
    place(alloc, name, &numbers, &text)
}

// The place of a name that is given before numbers of tokens and a text.
fn find(alloc: Global, given: &str) -> Option<String> {
    let (name, rest) = given.split_once(" | ")?;
    let (numbers, text) = rest.split_once(" | ")?;
    place_in(alloc, name, numbers, text)
}

// The name or the spelling of the token whose number is given before a text.
fn of_token(alloc: Global, call: &str, given: &str) -> Option<String> {
    let (number, text) = given.split_once(" | ")?;
    let number = number.parse().ok()?;
    let text = lex_text(alloc, text)?;
    if call == "name" {
        name(alloc, number, &text)
    } else {
        spelling(alloc, number, &text)
    }
}

/// `names` numbers all tokens of a text; `name`, `spelling` and `find spelling` ask for some of
/// them; `slot` finds a name.
pub fn answer(alloc: Global, call: &str, given: &str) -> Option<String> {
    match call {
        "names" => names(alloc, &lex_text(alloc, given)?),
        "find spelling" => find(alloc, given),
        "slot" => slot(alloc, given),
        _ => of_token(alloc, call, given),
    }
}
