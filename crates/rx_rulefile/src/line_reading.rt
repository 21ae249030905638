//! The lines of a rule text, read from bytes.
ghost use Rattle.std.specs.Prelude.{◌≡◌, ◌++◌, codes, drop, IfOk};
ghost use Rattle.rx_lines.specs.Orders.{ReadsNext};
ghost use Rattle.rx_lines.specs.Texts.{ReadsAll};
ghost use Rattle.rx_text.specs.Formats.{Reads};
ghost use Rattle.rx_rulefile.specs.SymbolParts as spec;
ghost use Rattle.rx_rulefile.specs.Places.{rule_order};
ghost use Rattle.rx_rulefile.specs.RuleLines.{arities, fail_codes, lines, symbol_numbers};

use crate::kinds::{Kind, read_kind};
use crate::place::Place;
use crate::rule_line::RuleLine;
use rx_lines::{is_word, skip_beginning, up_to_end};
use rx_plain::NoMemory;
use rx_term::{Equation, Rule, SymInfo};
use rx_term_words::read_equation;
use rx_text::{read_natural, skip_word};
use rx_words::ending_word;
use std::alloc::Global;

/// The greatest failure code whose text is the word at the place, and the place after it.
fn read_fail_code(bytes: &[u8], at: usize) -> Option<(u32, usize)>
    ensures { Reads fail_codes bytes.now at result }
{
    ending_word(bytes, read_natural(bytes, at, 255))
}

/// The number of a symbol whose text is the word at the place, and the place after it.
fn read_symbol_number(bytes: &[u8], at: usize) -> Option<(u32, usize)>
    ensures { Reads symbol_numbers bytes.now at result }
{
    ending_word(bytes, read_natural(bytes, at, 4095))
}

/// The number of arguments whose text is the word at the place, and the place after it.
fn read_arity(bytes: &[u8], at: usize) -> Option<(u32, usize)>
    ensures { Reads arities bytes.now at result }
{
    ending_word(bytes, read_natural(bytes, at, 128))
}

/// A line that begins with `fails `.
fn read_fails(line: &[u8], at: usize) -> Option<RuleLine>
    requires { line.now ≡ codes "fails " ++ drop at line.now }
    ensures { ReadsAll lines line.now result }
{
    match up_to_end(line, read_fail_code(line, at)) {
        Some(fails) => Some(RuleLine::Fails(fails as u8)),
        None => None,
    }
}

/// The number of arguments of a symbol, and what it is.
fn read_shape(bytes: &[u8], at: usize) -> Option<((u32, Kind), usize)>
    ensures { Reads spec.shapes bytes.now at result }
{
    let Some((arity, middle)) = read_arity(bytes, at) else {
        return None;
    };
    let Some(next) = skip_word(bytes, middle, b" ") else {
        return None;
    };
    match read_kind(bytes, next) {
        Some((kind, end)) => Some(((arity, kind), end)),
        None => None,
    }
}

/// The number of a symbol, and what comes after it.
fn read_numbered(bytes: &[u8], at: usize) -> Option<((u32, (u32, Kind)), usize)>
    ensures { Reads spec.symbols bytes.now at result }
{
    let Some((number, middle)) = read_symbol_number(bytes, at) else {
        return None;
    };
    let Some(next) = skip_word(bytes, middle, b" ") else {
        return None;
    };
    match read_shape(bytes, next) {
        Some((shape, end)) => Some(((number, shape), end)),
        None => None,
    }
}

/// A line that begins with `symbol s`.
fn read_symbol(line: &[u8], at: usize) -> Option<RuleLine>
    requires { line.now ≡ codes "symbol s" ++ drop at line.now }
    ensures { ReadsAll lines line.now result }
{
    match up_to_end(line, read_numbered(line, at)) {
        Some((number, (arity, kind))) => {
            let info = SymInfo {
                arity,
                frame: kind.frame,
                entry: kind.entry,
                head: kind.head,
            };
            Some(RuleLine::Symbol { number, info })
        }
        None => None,
    }
}

/// A line that begins with `rule `.
fn read_rule(alloc: Global, line: &[u8], at: usize) -> Result<Option<RuleLine>, NoMemory>
    requires { line.now ≡ codes "rule " ++ drop at line.now }
    ensures { IfOk result (ReadsAll lines line.now) }
{
    match up_to_end(line, read_equation(alloc, line, at)?) {
        Some(Equation { left, right, rows }) => {
            Ok(Some(RuleLine::Rule(Rule { left, right, rows })))
        }
        None => Ok(None),
    }
}

/// A line that begins with `equation `.
fn read_goal(alloc: Global, line: &[u8], at: usize) -> Result<Option<RuleLine>, NoMemory>
    requires { line.now ≡ codes "equation " ++ drop at line.now }
    ensures { IfOk result (ReadsAll lines line.now) }
{
    match up_to_end(line, read_equation(alloc, line, at)?) {
        Some(equation) => Ok(Some(RuleLine::Equation(equation))),
        None => Ok(None),
    }
}

/// The line of a rule text that the bytes are, given without the line feed that ends it; None
/// exactly where they are no line of any rule text. Fails only when out of memory.
pub fn read_line(alloc: Global, bytes: &[u8]) -> Result<Option<RuleLine>, NoMemory>
    ensures { IfOk result (ReadsAll lines bytes.now) }
{
    if let Some(at) = skip_beginning(bytes, b"rule ") {
        return read_rule(alloc, bytes, at);
    }
    if let Some(at) = skip_beginning(bytes, b"symbol s") {
        return Ok(read_symbol(bytes, at));
    }
    if let Some(at) = skip_beginning(bytes, b"equation ") {
        return read_goal(alloc, bytes, at);
    }
    if let Some(at) = skip_beginning(bytes, b"fails ") {
        return Ok(read_fails(bytes, at));
    }
    if is_word(bytes, b"ctrl-rules 1") {
        return Ok(Some(RuleLine::Header));
    }
    if is_word(bytes, b"END") {
        return Ok(Some(RuleLine::End));
    }
    Ok(None)
}

/// The line that the bytes are, where it may come at the place, with the place after it; None
/// exactly where the bytes are no line that may.
pub(crate) fn read_next(
    alloc: Global,
    place: Place,
    bytes: &[u8],
) -> Result<Option<(RuleLine, Place)>, NoMemory>
    ensures { IfOk result (ReadsNext rule_order place bytes.now) }
{
    let Some(line) = read_line(alloc, bytes)? else {
        return Ok(None);
    };
    match place.after(&line) {
        Some(next) => Ok(Some((line, next))),
        None => Ok(None),
    }
}
