//! The text of a report of one line.
ghost use Rattle.std.specs.Prelude.{◌≡◌, IfOk, string_bytes};
ghost use Rattle.rx_report.specs.Texts as spec;
ghost use Rattle.rx_report.specs.Texts.{IsReportableVerdict, text_of};

mod checks;
mod found;
mod fronts;

use crate::reports::checks::check_line;
pub use crate::reports::found::found_line;
use crate::reports::fronts::{
    arity_line, lex_line, parse_line, place_line, pre_lex_line, pre_parse_line, scope_line,
};
use crate::{NoMemory, Verdict};
use std::alloc::{AllocError, Global};

const USAGE: &str =
    "usage: ctrl MODE FILE [F] [G] [LOG] [--pre E] [--depth N] [--budget N] [--box N] [--rounds N] [--int32]\n";

/// A line that ends in a number.
fn numbered_line(alloc: Global, words: &str, number: usize) -> Result<String, AllocError>
    ensures { IfOk result (λ line. string_bytes line ≡ spec.numbered_line words.now number) }
{
    format!(in alloc; "{words}{number}\n")
}

/// The line on examples: how many there are, how many of them are proved, and how many aren't.
fn counts_line(
    alloc: Global,
    pairs: u32,
    equivalent: u32,
    unknown: u32,
) -> Result<String, AllocError>
    ensures { IfOk result (λ line.
        string_bytes line ≡ spec.counts_line pairs equivalent unknown) }
{
    format!(in alloc; "demo {pairs} equivalent {equivalent} unknown {unknown}\n")
}

/// The line on examples: how many there are, and how many of them are proved.
fn demo_line(alloc: Global, pairs: u32, equivalent: u32) -> Result<String, AllocError>
    ensures { IfOk result (λ line. string_bytes line ≡ spec.demo_line pairs equivalent) }
{
    counts_line(alloc, pairs, equivalent, pairs.saturating_sub(equivalent))
}

fn line(alloc: Global, verdict: &Verdict) -> Result<String, AllocError>
    ensures { IfOk result (λ line. string_bytes line ≡ text_of verdict.now) }
{
    match verdict {
        Verdict::Equivalent => String::from_str(alloc, "EQUIVALENT\n"),
        Verdict::NoRanks => String::from_str(alloc, "UNKNOWN ranks\n"),
        Verdict::Depth(depth) => numbered_line(alloc, "UNKNOWN depth ", *depth as usize),
        Verdict::Visits(visits) => numbered_line(alloc, "UNKNOWN visits ", *visits as usize),
        Verdict::Demo(pairs, equivalent) => demo_line(alloc, *pairs, *equivalent),
        Verdict::LongSource => String::from_str(alloc, "REFUSED long source\n"),
        Verdict::LongLog => String::from_str(alloc, "REFUSED long log\n"),
        Verdict::Lex(fault) => lex_line(alloc, *fault),
        Verdict::Parse(end) => parse_line(alloc, *end),
        Verdict::Scope(end) => scope_line(alloc, *end),
        Verdict::WideLiteral(token) => place_line(alloc, "wide-literal", *token),
        Verdict::NoFunction(name) => numbered_line(alloc, "REFUSED no-function ", *name as usize),
        Verdict::Arity(first, second) => arity_line(alloc, *first, *second),
        Verdict::PreLex(fault) => pre_lex_line(alloc, *fault),
        Verdict::PreParse(end) => pre_parse_line(alloc, *end),
        Verdict::PreName(token) => place_line(alloc, "pre unknown-name", *token),
        Verdict::Box(count) => numbered_line(alloc, "REFUSED box ", *count),
        Verdict::Line(number) => numbered_line(alloc, "REFUSED line ", *number),
        Verdict::Check(end) => check_line(alloc, *end),
        Verdict::RuleLine(number) => numbered_line(alloc, "REFUSED rule-line ", *number),
        Verdict::NotMade(rule) => numbered_line(alloc, "REFUSED not-made ", *rule),
        Verdict::NoCover => String::from_str(alloc, "UNKNOWN cover\n"),
        Verdict::Inductive => String::from_str(alloc, "INDUCTIVE\n"),
        Verdict::Usage => String::from_str(alloc, USAGE),
        Verdict::ReadFault => String::from_str(alloc, "READ FAULT\n"),
        Verdict::LargeTranslate => String::from_str(alloc, "LARGE translate\n"),
        Verdict::LargePre => String::from_str(alloc, "LARGE pre\n"),
        Verdict::LargeSearch => String::from_str(alloc, "LARGE search\n"),
        Verdict::LargeRules => String::from_str(alloc, "LARGE rules\n"),
    }
}

/// The report of a verdict: one line with its line end.
pub fn report(alloc: Global, verdict: &Verdict) -> Result<Vec<u8>, NoMemory>
    requires { IsReportableVerdict verdict.now }
    ensures text { IfOk result (λ text. text.items ≡ text_of verdict.now) }
{
    Ok(line(alloc, verdict)?.into_bytes())
}
