//! A rule set as text: words with a space between them, a list after its number of elements.
use rx_plain::NoMemory;
use rx_term::SymInfo;
use rx_text::{push_natural, push_word};
use rx_translate::Translation;
use test_lines::{push_list, push_rule};

// A letter, where the symbol is what the letter says.
fn push_letter(is: bool, letter: &[u8], out: &mut Vec<u8>) -> Result<(), NoMemory> {
    if is { push_word(out, letter) } else { Ok(()) }
}

// How many arguments the symbol has, then `f` for a frame, `e` for an entry, `h` for a loop's head.
fn push_symbol(info: &SymInfo, out: &mut Vec<u8>) -> Result<(), NoMemory> {
    push_natural(out, info.arity)?;
    push_letter(info.frame, b"f", out)?;
    push_letter(info.entry, b"e", out)?;
    push_letter(info.head, b"h", out)
}

// The numbers of both entries.
fn push_entries(translation: &Translation, out: &mut Vec<u8>) -> Result<(), NoMemory> {
    push_natural(out, translation.first.0)?;
    push_word(out, b" ")?;
    push_natural(out, translation.second.0)
}

/// The entries of both functions, the symbols and the rules.
pub fn push_translation(translation: &Translation, out: &mut Vec<u8>) -> Result<(), NoMemory> {
    push_entries(translation, out)?;
    push_word(out, b" ")?;
    push_list(translation.rules.symbols(), out, push_symbol)?;
    push_word(out, b" ")?;
    push_list(
        translation.rules.rules(),
        out,
        |rule, out| push_rule(rule, out),
    )
}
