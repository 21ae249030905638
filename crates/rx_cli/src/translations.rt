//! The rules of two functions as a rule text.
ghost use Rattle.std.specs.Prelude.{◌≡◌, ◌≤◌, [], true, length, map, nat_lt, IfOk, MatchBool};
ghost use Rattle.std.specs.List.{list_all};
ghost use Rattle.rx_command.specs.Commands.{functions_view, is_short};
ghost use Rattle.rx_report.specs.Reports.{IsReportable};
ghost use Rattle.rx_rulefile.specs.RuleLines.{lines};
ghost use Rattle.rx_rulefile.specs.RuleTexts.{numbered};
ghost use Rattle.rx_rulefile.specs.declared.rule_line.RuleLine.TheVariants as line;
ghost use Rattle.rx_cli.specs.Problems.{longest_source};
ghost use Rattle.rx_cli.specs.Steps.{WritesText, is_writable};
ghost use Rattle.rx_cli.specs.Translations.{IsWritten};

use crate::problems::{Problem, ask};
use c_front::Next;
use rx_command::Functions;
use rx_logwriting::equation_has_text;
use rx_plain::{Items, NoMemory};
use rx_report::{Answer, Verdict};
use rx_rulefile::write_rules;
use rx_term::{Equation, Rule, SymInfo};
use std::alloc::Global;

/// The most symbols of a rule text.
const MOST_SYMBOLS: usize = 4096;

/// The most arguments of a symbol of a rule text.
const MOST_ARGUMENTS: u32 = 128;

/// Whether the symbol with this number has a line.
fn symbol_has_line(number: usize, info: &SymInfo) -> bool
    ensures { result ≡ lines.in_range (line.Symbol number info.now) }
{
    number < MOST_SYMBOLS
        && info.arity <= MOST_ARGUMENTS
        && !(info.frame && (info.entry || info.head))
}

/// Whether all symbols have lines.
fn symbols_have_lines(symbols: &[SymInfo]) -> bool
    ensures { result ≡ list_all lines.in_range (numbered 0 symbols.now) }
{
    for (number, info) in symbols.iter().enumerate() {
        if !symbol_has_line(number, info) {
            return false;
        }
    }
    true
}

/// Whether all rules have lines.
fn rules_have_lines(rules: &[Rule]) -> bool
    ensures { result ≡ list_all lines.in_range (map line.Rule rules.now) }
{
    for rule in rules {
        if !equation_has_text(&rule.left, &rule.right, rule.rows.rows()) {
            return false;
        }
    }
    true
}

/// Whether the equation has a line.
fn goal_has_line(goal: &Equation) -> bool
    ensures { result ≡ lines.in_range (line.Equation goal.now) }
{
    equation_has_text(&goal.left, &goal.right, goal.rows.rows())
}

/// Whether the rules and the goal keep the limits of rule texts.
fn is_writable(problem: &Problem) -> bool
    ensures { result ≡ is_writable problem.now }
{
    let _fails = problem.rules.fails();
    symbols_have_lines(problem.rules.symbols())
        && rules_have_lines(problem.rules.rules())
        && goal_has_line(&problem.goal)
}

/// The most bytes of a rule text that is read.
const LONGEST_SOURCE: usize = 1_048_576;

/// The answer by the text of a problem: whether it isn't too long to be read again.
fn if_short(text: Items<u8>) -> Answer
    ensures answer { MatchBool (nat_lt longest_source (length text))
        (result ≡ Answer.Line Verdict.LargeRules) (result ≡ Answer.RuleText text) }
    ensures reportable { IsReportable result }
{
    if text.len() > LONGEST_SOURCE {
        Answer::Line(Verdict::LargeRules)
    } else {
        Answer::RuleText(text)
    }
}

/// The text of a problem without domains, where it has one.
fn write(alloc: Global, problem: &Problem) -> Result<Answer, NoMemory>
    requires { problem.now.rules.domains ≡ [] }
    ensures answer { IfOk result (WritesText problem.now) }
    ensures reportable { IfOk result IsReportable }
{
    if is_writable(problem) {
        let text = write_rules(alloc, &problem.rules, &problem.goal)?;
        Ok(if_short(text))
    } else {
        Ok(Answer::Line(Verdict::LargeRules))
    }
}

/// Writes the rules of the two named functions of a text, with the goal that their entries are equal
/// as the equation.
pub fn translate(
    alloc: Global,
    source: &[u8],
    functions: &Functions<'_>,
) -> Result<Answer, NoMemory>
    requires source { length source.now ≤ 1048576 }
    requires pre { is_short (functions_view functions.now).precondition ≡ true }
    ensures answer { IfOk result (IsWritten (functions_view functions.now) source.now) }
    ensures reportable { IfOk result IsReportable }
{
    match ask(alloc, source, functions)? {
        Next::Ends(verdict) => Ok(Answer::Line(verdict)),
        Next::Goes(problem) => write(alloc, &problem),
    }
}
