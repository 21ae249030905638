//! What a message shows of a log, and which line of the log or of the rule text.
ghost use Rattle.std.specs.Prelude.{◌≡◌, ◌≤◌, ◌+◌, ◌++◌, Some, true, IfOk, OnOk};
ghost use Rattle.std.specs.Option.{option_copied};
ghost use Rattle.rx_command.specs.Commands.{bytes_of};
ghost use Rattle.rx_io.specs.Outside.{Rose};
ghost use Rattle.rx_messages.specs.Logs as spec;
ghost use Rattle.rx_messages.specs.Logs.{AreFacts, facts_view};
ghost use Rattle.rx_messages.specs.Steps.{FindsFacts, FindsFronts, FindsLine, FindsStep, IsInside};

use crate::rule_texts::{is_about_rule, read_symbols, rule_line};
use crate::silences::{Silence, silence_of, silence_of_look};
use rx_check::{CheckEnd, LimitAt};
use rx_domain::{DomainEnd, set_domains};
use rx_goal_words::{push_condition, push_pair, push_rules_of, push_state};
use rx_io::Files;
use rx_logstate::{AtStep, Fronts, fronts_in_file, step_in_file};
use rx_places::{NoMemory, line_in_file, push_number, push_numbered_line, push_word};
use rx_plain::Items;
use rx_report::Verdict;
use rx_row::Constraint;
use rx_steps::StepEnd;
use rx_term::{Equation, RuleSet};
use std::alloc::Global;

/// The problem that a log is about: whether both sides of the goal are equal by the rules.
#[derive(Drop)]
pub struct Posed {
    /// The rules of both functions.
    pub rules: RuleSet,
    /// Their entries on the same variables, under the rows of the precondition.
    pub goal: Equation,
}

/// What is known of the log, or of the rule text, for a message.
#[derive(Drop)]
pub(crate) struct Facts<'a> {
    /// The problem, where it is given.
    pub posed: Option<&'a Posed>,
    /// The state at the step that the report is about.
    pub found: Option<AtStep>,
    /// Where the lines before the steps begin, where the report is about one of them.
    pub fronts: Option<Fronts>,
    /// How many symbols the rule text has, where the report is about one of its rules.
    pub symbols: Option<usize>,
    /// The number of the line that it is about, counted from 1.
    pub number: Option<usize>,
    /// The first bytes of that line.
    pub line: Vec<u8>,
}

/// The most bytes of a log, and of any file of which a line is shown.
pub(crate) const LONGEST_LOG: u32 = 67_108_864;

// So many bytes of a line are read: one more than are shown.
const LONGEST_LINE: usize = 201;

// A log has fewer steps.
const ALL_STEPS: usize = 1 << 32;

// ---- the step

fn step_of_limit(place: LimitAt) -> Option<usize>
    ensures { result ≡ spec.step_of_limit place }
{
    match place {
        LimitAt::Keep(_) | LimitAt::Cover(_) => None,
        LimitAt::Step(step) => Some(step),
        LimitAt::Pair(_) => Some(ALL_STEPS),
    }
}

fn step_of_end(end: CheckEnd) -> Option<usize>
    ensures { result ≡ spec.step_of_end end }
{
    match end {
        CheckEnd::BadDomain { sym: _ } | CheckEnd::NotKept { part: _ } => None,
        CheckEnd::Step { step, end: _ } => Some(step),
        CheckEnd::Unfinished { goals: _ } => Some(ALL_STEPS),
        CheckEnd::NotCovered { sym: _ } => None,
        CheckEnd::BadRanks { sym: _ } => Some(ALL_STEPS),
        CheckEnd::NotLower { pair: _ } => Some(ALL_STEPS),
        CheckEnd::Large { place } => step_of_limit(place),
        CheckEnd::NoMemory => None,
    }
}

/// The step at which the log is looked at, counted from 0.
fn step_wanted(verdict: &Option<Verdict>) -> Option<usize>
    ensures { result ≡ spec.step_wanted verdict.now }
{
    match verdict {
        Some(Verdict::Check(end)) => step_of_end(*end),
        Some(_) => None,
        None => None,
    }
}

/// What is known at that step of the log.
fn step_found<F: Files>(
    alloc: Global,
    files: &mut F,
    name: &str,
    posed: &Posed,
    number: usize,
) -> Result<Option<AtStep>, Silence>
    ensures reach { F.reaches files.old files.new }
    ensures held { F.held files.new ≡ F.held files.old }
    ensures later { F.faults files.old ≤ F.faults files.new }
    ensures finds { FindsStep (F.held files.old) (Rose (F.faults files.old) (F.faults files.new))
        (Some name.now) (Some posed.now) (Some number) result }
{
    let Ok(goal) = posed.goal.try_clone(alloc) else {
        return Err(Silence::NoMemory);
    };
    match step_in_file(alloc, &posed.rules, goal, files, name, LONGEST_LOG, number) {
        Ok(found) => Ok(Some(found)),
        Err(end) => Err(silence_of_look(end)),
    }
}

/// The same where there may be no log, no problem, or no such step.
fn read_step<F: Files>(
    alloc: Global,
    files: &mut F,
    name: Option<&str>,
    posed: Option<&Posed>,
    wanted: Option<usize>,
) -> Result<Option<AtStep>, Silence>
    ensures reach { F.reaches files.old files.new }
    ensures held { F.held files.new ≡ F.held files.old }
    ensures later { F.faults files.old ≤ F.faults files.new }
    ensures finds { FindsStep (F.held files.old) (Rose (F.faults files.old) (F.faults files.new))
        (bytes_of name.entry) (option_copied posed.entry) wanted result }
{
    let Some(name) = name else {
        return Ok(None);
    };
    let Some(posed) = posed else {
        return Ok(None);
    };
    let Some(number) = wanted else {
        return Ok(None);
    };
    step_found(alloc, files, name, posed, number)
}

// ---- the lines before the steps

fn is_limit_before(place: LimitAt) -> bool
    ensures { result ≡ spec.is_limit_before place }
{
    match place {
        LimitAt::Keep(_) | LimitAt::Cover(_) => true,
        LimitAt::Step(_) | LimitAt::Pair(_) => false,
    }
}

fn is_end_before(end: CheckEnd) -> bool
    ensures { result ≡ spec.is_end_before end }
{
    match end {
        CheckEnd::NotKept { part: _ } | CheckEnd::NotCovered { sym: _ } => true,
        CheckEnd::Large { place } => is_limit_before(place),
        _ => false,
    }
}

/// Whether it is about a line whose place depends on how many domains there are.
fn is_before_steps(verdict: &Option<Verdict>) -> bool
    ensures { result ≡ spec.is_before_steps verdict.now }
{
    match verdict {
        Some(Verdict::Check(end)) => is_end_before(*end),
        Some(_) => false,
        None => false,
    }
}

/// Where the lines before the steps of the log begin.
fn fronts_found<F: Files>(
    alloc: Global,
    files: &mut F,
    name: &str,
) -> Result<Option<Fronts>, Silence>
    ensures reach { F.reaches files.old files.new }
    ensures held { F.held files.new ≡ F.held files.old }
    ensures later { F.faults files.old ≤ F.faults files.new }
    ensures finds { FindsFronts (F.held files.old) (Rose (F.faults files.old) (F.faults files.new))
        (Some name.now) true result }
{
    match fronts_in_file(alloc, files, name, LONGEST_LOG) {
        Ok(fronts) => Ok(Some(fronts)),
        Err(end) => Err(silence_of_look(end)),
    }
}

/// The same where there may be no log, or it is no matter.
fn read_fronts<F: Files>(
    alloc: Global,
    files: &mut F,
    name: Option<&str>,
    wanted: bool,
) -> Result<Option<Fronts>, Silence>
    ensures reach { F.reaches files.old files.new }
    ensures held { F.held files.new ≡ F.held files.old }
    ensures later { F.faults files.old ≤ F.faults files.new }
    ensures finds { FindsFronts (F.held files.old) (Rose (F.faults files.old) (F.faults files.new))
        (bytes_of name.entry) wanted result }
{
    let Some(name) = name else {
        return Ok(None);
    };
    if wanted {
        fronts_found(alloc, files, name)
    } else {
        Ok(None)
    }
}

// ---- the line

/// So many lines after this one; NoMemory where there is no such number.
pub(crate) fn lines_after(line: usize, lines: usize) -> Result<usize, NoMemory>
    ensures { IfOk result (λ number. number ≡ line + lines) }
{
    match line.checked_add(lines) {
        Some(number) => Ok(number),
        None => Err(NoMemory),
    }
}

/// The line of the domain of a symbol.
fn domain_line(symbol: usize) -> Result<Option<usize>, NoMemory>
    ensures { IfOk result (λ number. number ≡ Some (2 + symbol)) }
{
    Ok(Some(lines_after(2, symbol)?))
}

/// The line of the certificates of a part.
fn keep_line(part: usize, fronts: Option<Fronts>) -> Result<Option<usize>, NoMemory>
    ensures { IfOk result (λ number. number ≡ spec.keep_line part fronts) }
{
    match fronts {
        Some(at) => Ok(Some(lines_after(at.keeps, part)?)),
        None => Ok(None),
    }
}

/// The line of the trees of a symbol.
fn cover_line(symbol: usize, fronts: Option<Fronts>) -> Result<Option<usize>, NoMemory>
    ensures { IfOk result (λ number. number ≡ spec.cover_line symbol fronts) }
{
    match fronts {
        Some(at) => Ok(Some(lines_after(at.covers, symbol)?)),
        None => Ok(None),
    }
}

/// The line of the step.
fn line_at(found: &Option<AtStep>) -> Option<usize>
    ensures { result ≡ spec.line_at found.now }
{
    match found {
        Some(at) => Some(at.line),
        None => None,
    }
}

/// The line of the rank of a symbol.
fn rank_line(symbol: usize, found: &Option<AtStep>) -> Result<Option<usize>, NoMemory>
    ensures { IfOk result (λ number. number ≡ spec.line_past (1 + symbol) found.now) }
{
    match found {
        Some(at) => {
            let lines = lines_after(1, symbol)?;
            Ok(Some(lines_after(at.line, lines)?))
        }
        None => Ok(None),
    }
}

/// The line of a pair.
fn pair_line(pair: usize, found: &Option<AtStep>) -> Result<Option<usize>, NoMemory>
    ensures { IfOk result (λ number. number ≡ spec.pair_line pair found.now) }
{
    match found {
        Some(at) => {
            let begin = lines_after(at.line, 1)?;
            let first = lines_after(begin, at.table.ranks.len())?;
            Ok(Some(lines_after(first, pair)?))
        }
        None => Ok(None),
    }
}

fn line_of_limit(
    place: LimitAt,
    found: &Option<AtStep>,
    fronts: Option<Fronts>,
) -> Result<Option<usize>, NoMemory>
    ensures { IfOk result (λ number. number ≡ spec.line_of_limit place found.now fronts) }
{
    match place {
        LimitAt::Keep(part) => keep_line(part, fronts),
        LimitAt::Cover(symbol) => cover_line(symbol, fronts),
        LimitAt::Step(_) => Ok(line_at(found)),
        LimitAt::Pair(pair) => pair_line(pair, found),
    }
}

fn line_of_end(
    end: CheckEnd,
    found: &Option<AtStep>,
    fronts: Option<Fronts>,
) -> Result<Option<usize>, NoMemory>
    ensures { IfOk result (λ number. number ≡ spec.line_of_end end found.now fronts) }
{
    match end {
        CheckEnd::BadDomain { sym } => domain_line(sym),
        CheckEnd::NotKept { part } => keep_line(part, fronts),
        CheckEnd::Step { step: _, end: _ } => Ok(line_at(found)),
        CheckEnd::Unfinished { goals: _ } => Ok(line_at(found)),
        CheckEnd::NotCovered { sym } => cover_line(sym, fronts),
        CheckEnd::BadRanks { sym } => rank_line(sym, found),
        CheckEnd::NotLower { pair } => pair_line(pair, found),
        CheckEnd::Large { place } => line_of_limit(place, found, fronts),
        CheckEnd::NoMemory => Ok(None),
    }
}

/// The number of the line of the log, or of the rule text, that a report is about.
fn line_wanted(
    verdict: &Option<Verdict>,
    found: &Option<AtStep>,
    fronts: Option<Fronts>,
    symbols: Option<usize>,
) -> Result<Option<usize>, NoMemory>
    ensures { IfOk result (λ number.
        number ≡ spec.line_wanted verdict.now found.now fronts symbols) }
{
    match verdict {
        Some(Verdict::Line(number)) => Ok(Some(*number)),
        Some(Verdict::Check(end)) => line_of_end(*end, found, fronts),
        Some(Verdict::RuleLine(number)) => Ok(Some(*number)),
        Some(Verdict::NotMade(rule)) => rule_line(*rule, symbols),
        Some(_) => Ok(None),
        None => Ok(None),
    }
}

/// The first bytes of that line, if there is one.
fn read_line<F: Files>(
    alloc: Global,
    files: &mut F,
    name: Option<&str>,
    wanted: Option<usize>,
) -> Result<Vec<u8>, Silence>
    ensures reach { F.reaches files.old files.new }
    ensures held { F.held files.new ≡ F.held files.old }
    ensures later { F.faults files.old ≤ F.faults files.new }
    ensures finds { FindsLine (F.held files.old) (Rose (F.faults files.old) (F.faults files.new))
        (bytes_of name.entry) wanted result }
{
    let Some(name) = name else {
        return Ok(Vec::new(alloc));
    };
    let Some(number) = wanted else {
        return Ok(Vec::new(alloc));
    };
    line_in_file(alloc, files, name, LONGEST_LOG, LONGEST_LINE, number).map_err(|end| silence_of(
        end,
    ))
}

// ---- all facts

/// What is known of the file with this name, if there is one, after what was reported: of the log,
/// or of the rule text.
pub(crate) fn facts_of<'a, F: Files>(
    alloc: Global,
    files: &mut F,
    name: Option<&str>,
    posed: Option<&'a Posed>,
    verdict: &Option<Verdict>,
) -> Result<Facts<'a>, Silence>
    ensures reach { F.reaches files.old files.new }
    ensures later { F.faults files.old ≤ F.faults files.new }
    ensures finds { FindsFacts (F.held files.old) (F.faults files.old) (F.faults files.new)
        (bytes_of name.entry) (option_copied posed.entry) verdict.now result }
{
    let found = read_step(alloc, files, name, posed, step_wanted(verdict))?;
    let fronts = read_fronts(alloc, files, name, is_before_steps(verdict))?;
    let symbols = read_symbols(alloc, files, name, is_about_rule(verdict))?;
    let number = line_wanted(verdict, &found, fronts, symbols)?;
    let line = read_line(alloc, files, name, number)?;
    Ok(Facts {
        posed,
        found,
        fronts,
        symbols,
        number,
        line,
    })
}

// ---- what is shown

/// Adds the number of the line.
pub(crate) fn push_line_number(out: &mut Vec<u8>, number: Option<usize>) -> Result<(), NoMemory>
    ensures { OnOk result (out.new.items ≡ out.old.items ++ spec.number_text number) }
{
    match number {
        Some(number) => {
            push_word(out, b":")?;
            push_number(out, number)
        }
        None => Ok(()),
    }
}

fn push_line(out: &mut Vec<u8>, number: Option<usize>, line: &[u8]) -> Result<(), NoMemory>
    ensures { OnOk result (out.new.items ≡ out.old.items ++ spec.line_text number line.now) }
{
    match number {
        Some(number) => push_numbered_line(out, number, line),
        None => Ok(()),
    }
}

fn push_condition_of(
    alloc: Global,
    out: &mut Vec<u8>,
    rules: &RuleSet,
    at: &AtStep,
    number: u32,
) -> Result<(), NoMemory>
    ensures { OnOk result (out.new.items
        ≡ out.old.items ++ spec.condition_of rules.now at.now number at.now.step) }
{
    match at.step.as_slice().first() {
        Some(step) => push_condition(alloc, out, rules, &at.state, step, number),
        None => Ok(()),
    }
}

/// The rules with these domains, where these are lawful; the rules themselves where there are none.
fn rules_inside(
    alloc: Global,
    rules: &RuleSet,
    domains: &Option<Items<Constraint>>,
) -> Result<Option<RuleSet>, NoMemory>
    ensures { IfOk result (IsInside rules.now domains.now) }
{
    let Some(rows) = domains else {
        return Ok(Some(rules.try_clone(alloc)?));
    };
    match set_domains(alloc, rules, rows.as_slice()) {
        Ok(set) => Ok(Some(set)),
        Err(DomainEnd::BadDomain(_)) => Ok(None),
        Err(DomainEnd::NotKept(_) | DomainEnd::Large(_) | DomainEnd::NoMemory) => Err(NoMemory),
    }
}

/// The same over the rules with the domains of the log, where these are lawful.
fn push_condition_inside(
    alloc: Global,
    out: &mut Vec<u8>,
    rules: &RuleSet,
    at: &AtStep,
    number: u32,
) -> Result<(), NoMemory>
    ensures { OnOk result (out.new.items
        ≡ out.old.items ++ spec.condition_inside rules.now at.now number) }
{
    match rules_inside(alloc, rules, &at.domains)? {
        Some(inside) => push_condition_of(alloc, out, &inside, at, number),
        None => Ok(()),
    }
}

fn push_unmet(
    alloc: Global,
    out: &mut Vec<u8>,
    rules: &RuleSet,
    at: &AtStep,
    end: StepEnd,
) -> Result<(), NoMemory>
    ensures { OnOk result (out.new.items ≡ out.old.items ++ spec.unmet_text rules.now at.now end) }
{
    match end {
        StepEnd::NotShown { condition } => push_condition_inside(alloc, out, rules, at, condition),
        StepEnd::NoGoal
        | StepEnd::WrongShape
        | StepEnd::NoSuchRule
        | StepEnd::Large
        | StepEnd::NoMemory => Ok(()),
    }
}

fn push_step_text(
    alloc: Global,
    out: &mut Vec<u8>,
    rules: &RuleSet,
    end: StepEnd,
    found: &Option<AtStep>,
) -> Result<(), NoMemory>
    ensures { OnOk result (out.new.items ≡ out.old.items ++ spec.step_text rules.now end found.now) }
{
    match found {
        Some(at) => {
            push_unmet(alloc, out, rules, at, end)?;
            push_state(out, rules, &at.state)
        }
        None => Ok(()),
    }
}

fn push_goal_text(
    out: &mut Vec<u8>,
    rules: &RuleSet,
    found: &Option<AtStep>,
) -> Result<(), NoMemory>
    ensures { OnOk result (out.new.items ≡ out.old.items ++ spec.goal_text rules.now found.now) }
{
    match found {
        Some(at) => push_state(out, rules, &at.state),
        None => Ok(()),
    }
}

/// Adds the pair with this number over the rules with the domains of the log, where these are lawful.
fn push_pair_inside(
    alloc: Global,
    out: &mut Vec<u8>,
    rules: &RuleSet,
    at: &AtStep,
    number: usize,
) -> Result<(), NoMemory>
    ensures { OnOk result (out.new.items
        ≡ out.old.items ++ spec.pair_inside rules.now at.now number) }
{
    match rules_inside(alloc, rules, &at.domains)? {
        Some(inside) => push_pair(alloc, out, &inside, &at.state, &at.table, number),
        None => Ok(()),
    }
}

fn push_pair_shown(
    alloc: Global,
    out: &mut Vec<u8>,
    rules: &RuleSet,
    number: usize,
    found: &Option<AtStep>,
) -> Result<(), NoMemory>
    ensures { OnOk result (out.new.items
        ≡ out.old.items ++ spec.pair_shown rules.now number found.now) }
{
    match found {
        Some(at) => push_pair_inside(alloc, out, rules, at, number),
        None => Ok(()),
    }
}

fn push_symbol_text(out: &mut Vec<u8>, rules: &RuleSet, symbol: usize) -> Result<(), NoMemory>
    ensures { OnOk result (out.new.items ≡ out.old.items ++ spec.symbol_text rules.now symbol) }
{
    push_word(out, b"  rules of s")?;
    push_number(out, symbol)?;
    push_word(out, b":\n")?;
    push_rules_of(out, symbol, rules.rules())
}

fn push_limit_text(
    alloc: Global,
    out: &mut Vec<u8>,
    rules: &RuleSet,
    place: LimitAt,
    found: &Option<AtStep>,
) -> Result<(), NoMemory>
    ensures { OnOk result (out.new.items
        ≡ out.old.items ++ spec.limit_text rules.now place found.now) }
{
    match place {
        LimitAt::Keep(_) => Ok(()),
        LimitAt::Cover(symbol) => push_symbol_text(out, rules, symbol),
        LimitAt::Step(_) => push_goal_text(out, rules, found),
        LimitAt::Pair(pair) => push_pair_shown(alloc, out, rules, pair, found),
    }
}

fn push_end_text(
    alloc: Global,
    out: &mut Vec<u8>,
    rules: &RuleSet,
    end: CheckEnd,
    found: &Option<AtStep>,
) -> Result<(), NoMemory>
    ensures { OnOk result (out.new.items ≡ out.old.items ++ spec.end_text rules.now end found.now) }
{
    match end {
        CheckEnd::BadDomain { sym } => push_symbol_text(out, rules, sym),
        CheckEnd::NotKept { part: _ } => Ok(()),
        CheckEnd::Step { step: _, end } => push_step_text(alloc, out, rules, end, found),
        CheckEnd::Unfinished { goals: _ } => push_goal_text(out, rules, found),
        CheckEnd::NotCovered { sym } | CheckEnd::BadRanks { sym } => {
            push_symbol_text(out, rules, sym)
        }
        CheckEnd::NotLower { pair } => push_pair_shown(alloc, out, rules, pair, found),
        CheckEnd::Large { place } => push_limit_text(alloc, out, rules, place, found),
        CheckEnd::NoMemory => Ok(()),
    }
}

fn push_posed_text(
    alloc: Global,
    out: &mut Vec<u8>,
    posed: Option<&Posed>,
    end: CheckEnd,
    found: &Option<AtStep>,
) -> Result<(), NoMemory>
    ensures { OnOk result (out.new.items
        ≡ out.old.items ++ spec.posed_text (option_copied posed.entry) end found.now) }
{
    match posed {
        Some(posed) => push_end_text(alloc, out, &posed.rules, end, found),
        None => Ok(()),
    }
}

fn push_details(
    alloc: Global,
    out: &mut Vec<u8>,
    facts: &Facts<'_>,
    verdict: &Verdict,
) -> Result<(), NoMemory>
    ensures { OnOk result (out.new.items
        ≡ out.old.items ++ spec.details (facts_view facts.now) verdict.now) }
{
    match verdict {
        Verdict::Check(end) => push_posed_text(alloc, out, facts.posed, *end, &facts.found),
        _ => Ok(()),
    }
}

/// Adds the line, and more of the check.
pub(crate) fn push_log_text(
    alloc: Global,
    out: &mut Vec<u8>,
    facts: &Facts<'_>,
    verdict: &Verdict,
) -> Result<(), NoMemory>
    ensures { OnOk result (out.new.items
        ≡ out.old.items ++ spec.log_text (facts_view facts.now) verdict.now) }
{
    push_line(out, facts.number, &facts.line)?;
    push_details(alloc, out, facts, verdict)
}
