//! The lines of refusals of the front end.
ghost use Rattle.std.specs.Prelude.{◌≡◌, IfOk, string_bytes};
ghost use Rattle.rx_report.specs.Texts as spec;

use c_lex::LexEnd;
use c_parse::ParseEnd;
use c_scope::ScopeEnd;
use std::alloc::{AllocError, Global};

/// A refusal by its words and its place.
pub fn place_line(alloc: Global, words: &str, at: u32) -> Result<String, AllocError>
    ensures { IfOk result (λ line. string_bytes line ≡ spec.place_line words.now at) }
{
    format!(in alloc; "REFUSED {words} at {at}\n")
}

/// A source that is no list of tokens.
pub fn lex_line(alloc: Global, fault: LexEnd) -> Result<String, AllocError>
    ensures { IfOk result (λ line. string_bytes line ≡ spec.lex_line fault) }
{
    match fault {
        LexEnd::BadByte { at } => place_line(alloc, "lex bad-byte", at),
        LexEnd::OpenComment { at } => place_line(alloc, "lex open-comment", at),
        LexEnd::LiteralTooLarge { at } => place_line(alloc, "lex literal-too-large", at),
        LexEnd::LeadingZero { at } => place_line(alloc, "lex leading-zero", at),
        LexEnd::Directive { at } => place_line(alloc, "lex directive", at),
        LexEnd::NoMemory => Ok(String::new(alloc)),
    }
}

/// A source that spells no program within the limits.
pub fn parse_line(alloc: Global, end: ParseEnd) -> Result<String, AllocError>
    ensures { IfOk result (λ line. string_bytes line ≡ spec.parse_line end) }
{
    match end {
        ParseEnd::Syntax { token } => place_line(alloc, "syntax", token),
        ParseEnd::TooDeep { token } => place_line(alloc, "deep", token),
        ParseEnd::TooManyParams { token } => place_line(alloc, "params", token),
        ParseEnd::NoMemory | ParseEnd::NotARowForm => Ok(String::new(alloc)),
    }
}

/// A program that isn't well formed.
pub fn scope_line(alloc: Global, end: ScopeEnd) -> Result<String, AllocError>
    ensures { IfOk result (λ line. string_bytes line ≡ spec.scope_line end) }
{
    match end {
        ScopeEnd::UnknownName { token } => place_line(alloc, "scope unknown-name", token),
        ScopeEnd::TwiceDeclared { token } => place_line(alloc, "scope twice-declared", token),
        ScopeEnd::WrongCount { token } => place_line(alloc, "scope wrong-count", token),
        ScopeEnd::MayBeUnset { token } => place_line(alloc, "scope may-be-unset", token),
        ScopeEnd::MayNotReturn { token } => place_line(alloc, "scope may-not-return", token),
        ScopeEnd::StrayBreak { token } => place_line(alloc, "scope stray-break", token),
        ScopeEnd::TooManySlots { token } => place_line(alloc, "scope too-many-slots", token),
        ScopeEnd::NoMemory => Ok(String::new(alloc)),
    }
}

/// Two functions with different numbers of parameters.
pub fn arity_line(alloc: Global, first: u32, second: u32) -> Result<String, AllocError>
    ensures { IfOk result (λ line. string_bytes line ≡ spec.arity_line first second) }
{
    format!(in alloc; "REFUSED arity {first} {second}\n")
}

/// A precondition that is no list of tokens.
pub fn pre_lex_line(alloc: Global, fault: LexEnd) -> Result<String, AllocError>
    ensures { IfOk result (λ line. string_bytes line ≡ spec.pre_lex_line fault) }
{
    match fault {
        LexEnd::BadByte { at } => place_line(alloc, "pre bad-byte", at),
        LexEnd::OpenComment { at } => place_line(alloc, "pre open-comment", at),
        LexEnd::LiteralTooLarge { at } => place_line(alloc, "pre literal-too-large", at),
        LexEnd::LeadingZero { at } => place_line(alloc, "pre leading-zero", at),
        LexEnd::Directive { at } => place_line(alloc, "pre directive", at),
        LexEnd::NoMemory => Ok(String::new(alloc)),
    }
}

/// A precondition that spells no row form within the limits.
pub fn pre_parse_line(alloc: Global, end: ParseEnd) -> Result<String, AllocError>
    ensures { IfOk result (λ line. string_bytes line ≡ spec.pre_parse_line end) }
{
    match end {
        ParseEnd::Syntax { token } => place_line(alloc, "pre syntax", token),
        ParseEnd::TooDeep { token } => place_line(alloc, "pre deep", token),
        ParseEnd::NotARowForm => String::from_str(alloc, "REFUSED pre not-row-form\n"),
        ParseEnd::TooManyParams { token: _ } | ParseEnd::NoMemory => Ok(String::new(alloc)),
    }
}
