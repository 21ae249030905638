//! The lines of verdicts, and the exit statuses.
ghost use Rattle.std.specs.Prelude.{IfSome};
ghost use Rattle.rx_report.specs.Texts.{IsReportableVerdict};

use c_lex::LexEnd;
use c_scope::ScopeEnd;
use rx_report::{Status, Verdict, report};
use std::alloc::Global;
use test_lines::{put_bytes, put_debug};

// A fault of the tokens, by its word.
fn lex_verdict(word: &str, at: u32) -> Option<Verdict>
    ensures { IfSome result IsReportableVerdict }
{
    match word {
        "bad-byte" => Some(Verdict::Lex(LexEnd::BadByte { at })),
        "open-comment" => Some(Verdict::Lex(LexEnd::OpenComment { at })),
        "literal-too-large" => Some(Verdict::Lex(LexEnd::LiteralTooLarge { at })),
        "leading-zero" => Some(Verdict::Lex(LexEnd::LeadingZero { at })),
        "directive" => Some(Verdict::Lex(LexEnd::Directive { at })),
        _ => None,
    }
}

// A fault of the names, by its word.
fn scope_verdict(word: &str, token: u32) -> Option<Verdict>
    ensures { IfSome result IsReportableVerdict }
{
    match word {
        "unknown-name" => Some(Verdict::Scope(ScopeEnd::UnknownName { token })),
        "twice-declared" => Some(Verdict::Scope(ScopeEnd::TwiceDeclared { token })),
        "wrong-count" => Some(Verdict::Scope(ScopeEnd::WrongCount { token })),
        "may-be-unset" => Some(Verdict::Scope(ScopeEnd::MayBeUnset { token })),
        "may-not-return" => Some(Verdict::Scope(ScopeEnd::MayNotReturn { token })),
        "stray-break" => Some(Verdict::Scope(ScopeEnd::StrayBreak { token })),
        "too-many-slots" => Some(Verdict::Scope(ScopeEnd::TooManySlots { token })),
        _ => None,
    }
}

// Another verdict, by its word.
fn other_verdict(word: &str, number: u32) -> Option<Verdict>
    ensures { IfSome result IsReportableVerdict }
{
    match word {
        "equivalent" => Some(Verdict::Equivalent),
        "depth" => Some(Verdict::Depth(number)),
        "long" => Some(Verdict::LongSource),
        "ranks" => Some(Verdict::NoRanks),
        "visits" => Some(Verdict::Visits(number)),
        "usage" => Some(Verdict::Usage),
        "read-fault" => Some(Verdict::ReadFault),
        "large" => Some(Verdict::LargeTranslate),
        "large-search" => Some(Verdict::LargeSearch),
        "large-rules" => Some(Verdict::LargeRules),
        "no-function" => Some(Verdict::NoFunction(number.min(255) as u8)),
        "arity" => Some(Verdict::Arity(number, 16)),
        _ => None,
    }
}

// The line of a verdict.
fn line(alloc: Global, verdict: &Verdict) -> Option<String>
    requires { IsReportableVerdict verdict.now }
{
    let mut out = String::new(alloc);
    put_bytes(&mut out, &report(alloc, verdict).ok()?);
    Some(out)
}

// The line of the verdict of a kind, with a word and a number.
fn line_of(alloc: Global, kind: &str, word: &str, number: u32) -> Option<String> {
    match kind {
        "lex" => line(alloc, &lex_verdict(word, number)?),
        "scope" => line(alloc, &scope_verdict(word, number)?),
        "other" => line(alloc, &other_verdict(word, number)?),
        _ => None,
    }
}

/// The exit statuses, in order.
pub fn codes(alloc: Global) -> String {
    let mut out = String::new(alloc);
    for status in [
        Status::Equivalent,
        Status::Unknown,
        Status::Refused,
        Status::Usage,
        Status::ReadFault,
        Status::WriteFault,
        Status::NoMemory,
        Status::Large,
    ] {
        put_debug(&mut out, status.code());
    }
    out
}

/// Reports a verdict: its kind, its word and its number are given.
pub fn reported(alloc: Global, given: &str) -> Option<String> {
    let (kind, rest) = given.split_once(' ')?;
    let (word, number) = rest.split_once(' ')?;
    line_of(alloc, kind, word, number.parse().ok()?)
}
