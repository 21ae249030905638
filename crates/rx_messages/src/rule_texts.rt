//! What a message shows of a rule text.
ghost use Rattle.std.specs.Prelude.{◌≡◌, ◌≤◌, ◌+◌, Some, true, IfOk};
ghost use Rattle.rx_command.specs.Commands.{bytes_of};
ghost use Rattle.rx_io.specs.Outside.{Rose};
ghost use Rattle.rx_messages.specs.Asked.{asked_view};
ghost use Rattle.rx_messages.specs.RuleTexts as spec;
ghost use Rattle.rx_messages.specs.Steps.{CountsSymbols, FindsSymbols};

use crate::asked::Asked;
use crate::logs::{LONGEST_LOG, lines_after};
use crate::silences::{Silence, silence_of};
use rx_io::{Files, read_all};
use rx_places::NoMemory;
use rx_report::Verdict;
use rx_rulefile::{RuleEnd, read_parts};
use std::alloc::Global;

// Whether a report is about a line of the rule text.
fn is_about_rules(verdict: &Option<Verdict>) -> bool
    ensures { result ≡ spec.is_about_rules verdict.now }
{
    match verdict {
        Some(Verdict::RuleLine(_) | Verdict::NotMade(_)) => true,
        Some(_) => false,
        None => false,
    }
}

/// The name of the file of which a line is shown: the rule text, or else the log.
pub(crate) fn lines_name<'a>(asked: &Asked<'a>, verdict: &Option<Verdict>) -> Option<&'a str>
    ensures { bytes_of result ≡ spec.lines_name (asked_view asked.now) verdict.now }
{
    if is_about_rules(verdict) {
        asked.rules
    } else {
        asked.log
    }
}

/// Whether the report is about a rule, whose line depends on how many symbols there are.
pub(crate) fn is_about_rule(verdict: &Option<Verdict>) -> bool
    ensures { result ≡ spec.is_about_rule verdict.now }
{
    match verdict {
        Some(Verdict::NotMade(_)) => true,
        Some(_) => false,
        None => false,
    }
}

// How many symbols the rule text has.
fn symbols_in(alloc: Global, text: &[u8]) -> Result<Option<usize>, Silence>
    ensures { CountsSymbols text.now result }
{
    match read_parts(alloc, text) {
        Ok((parts, _goal)) => Ok(Some(parts.symbols.len())),
        Err(RuleEnd::BadLine { line: _ }) => Err(Silence::Changed),
        Err(RuleEnd::NotMade { rule: _ }) => Err(Silence::Changed),
        Err(RuleEnd::NoMemory) => Err(Silence::NoMemory),
    }
}

// How many symbols the rule text with this name has.
fn symbols_found<F: Files>(
    alloc: Global,
    files: &mut F,
    name: &str,
) -> Result<Option<usize>, Silence>
    ensures reach { F.reaches files.old files.new }
    ensures held { F.held files.new ≡ F.held files.old }
    ensures later { F.faults files.old ≤ F.faults files.new }
    ensures finds { FindsSymbols (F.held files.old) (Rose (F.faults files.old) (F.faults files.new))
        (Some name.now) true result }
{
    match read_all(alloc, files, name, LONGEST_LOG) {
        Ok(text) => symbols_in(alloc, &text),
        Err(end) => Err(silence_of(end)),
    }
}

/// The same where there may be no file, or it is no matter.
pub(crate) fn read_symbols<F: Files>(
    alloc: Global,
    files: &mut F,
    name: Option<&str>,
    wanted: bool,
) -> Result<Option<usize>, Silence>
    ensures reach { F.reaches files.old files.new }
    ensures held { F.held files.new ≡ F.held files.old }
    ensures later { F.faults files.old ≤ F.faults files.new }
    ensures finds { FindsSymbols (F.held files.old) (Rose (F.faults files.old) (F.faults files.new))
        (bytes_of name.entry) wanted result }
{
    let Some(name) = name else {
        return Ok(None);
    };
    if wanted {
        symbols_found(alloc, files, name)
    } else {
        Ok(None)
    }
}

/// The line of the rule with this number, or of the equation behind all rules.
pub(crate) fn rule_line(rule: usize, symbols: Option<usize>) -> Result<Option<usize>, NoMemory>
    ensures { IfOk result (λ number. number ≡ spec.rule_line rule symbols) }
{
    match symbols {
        Some(count) => {
            let first = lines_after(3, count)?;
            Ok(Some(lines_after(first, rule)?))
        }
        None => Ok(None),
    }
}
