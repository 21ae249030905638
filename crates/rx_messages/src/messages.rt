//! The message on a run that isn't a plain yes.
ghost use Rattle.std.specs.Prelude.{◌≡◌, ◌++◌, ◌-◌, List, [], Option, Some, ⊤, codes, decimal, length, option_map, IfOk, MatchOption, OnOk};
ghost use Rattle.rx_command.specs.Commands.{bytes_of, functions_view};
ghost use Rattle.rx_messages.specs.Asked.{asked_view};
ghost use Rattle.rx_messages.specs.Logs.{facts_view};
ghost use Rattle.rx_messages.specs.Messages as spec;
ghost use Rattle.rx_messages.specs.Faults as faults;
ghost use Rattle.rx_messages.specs.Steps.{MakesSome, bytes_in};
ghost use Rattle.rx_places.specs.Spots.{IsWithin};
ghost use Rattle.rx_report.specs.Texts.{IsReportableVerdict};

use crate::asked::{Asked, condition_of, file_of, push_call, push_call_of, push_file};
use crate::faults::{Place, is_about_pre, place_of, spot_at};
use crate::logs::{Facts, push_line_number, push_log_text};
use crate::remarks::{is_about_log, mode_after, tries_of, words_of};
use c_ast::Integers;
use rx_command::Functions;
use rx_places::{
    NoMemory, Spot, column_of, line_of, push_excerpt, push_number, push_quoted, push_word,
};
use rx_report::{Status, Verdict, report};
use std::alloc::Global;

// The bytes without the last one.
fn without_last(line: &[u8]) -> &[u8]
    ensures { result.now ≡ spec.without_last line.now }
{
    &line[..line.len().saturating_sub(1)]
}

// Adds the report in brackets, and the line's end.
fn push_closing(alloc: Global, out: &mut Vec<u8>, verdict: &Verdict) -> Result<(), NoMemory>
    requires { IsReportableVerdict verdict.now }
    ensures { OnOk result (out.new.items ≡ out.old.items ++ spec.closing verdict.now) }
{
    let line = report(alloc, verdict)?;
    push_word(out, b" (")?;
    push_word(out, without_last(&line))?;
    push_word(out, b")\n")
}

// What a message begins with, behind its name.
fn kind_of(status: Status) -> &'static [u8]
    ensures { result.now ≡ spec.kind_of status }
{
    match status {
        Status::Unknown | Status::Different => b": note: ",
        _ => b": error: ",
    }
}

// Adds the line and the column of a place.
fn push_line_column(out: &mut Vec<u8>, text: &[u8], spot: Spot) -> Result<(), NoMemory>
    requires { IsWithin text.now spot }
    ensures { OnOk result (out.new.items ≡ out.old.items ++ spec.line_column text.now spot.at) }
{
    push_word(out, b":")?;
    push_number(out, line_of(text, spot.at))?;
    push_word(out, b":")?;
    push_number(out, column_of(text, spot.at))?;
    push_word(out, b": error: ")
}

// Adds the part of the text, as it is written there.
fn push_part(out: &mut Vec<u8>, text: &[u8], spot: Spot) -> Result<(), NoMemory>
    requires { IsWithin text.now spot }
    ensures { OnOk result (out.new.items ≡ out.old.items ++ spec.part_text text.now spot) }
{
    if spot.len == 0 {
        push_word(out, b"the end of the text")
    } else {
        push_quoted(out, &text[spot.at..spot.at + spot.len])
    }
}

// Adds the name of the text that a report is about.
fn push_subject_name(
    out: &mut Vec<u8>,
    asked: &Asked<'_>,
    verdict: &Verdict,
) -> Result<(), NoMemory>
    ensures { OnOk result (out.new.items
        ≡ out.old.items ++ spec.subject_name (asked_view asked.now) verdict.now) }
{
    if is_about_pre(verdict) {
        push_word(out, b"--pre")
    } else {
        push_file(out, file_of(asked))
    }
}

// The text that a report with a place is about.
fn subject<'a>(asked: &Asked<'a>, given: &'a [u8], verdict: &Verdict) -> &'a [u8]
    ensures { result.now ≡ spec.subject (asked_view asked.now) given.now verdict.now }
{
    if is_about_pre(verdict) {
        condition_of(asked)
    } else {
        given
    }
}

// Adds what is wrong at a place, the report, and the line.
fn push_located(
    alloc: Global,
    out: &mut Vec<u8>,
    text: &[u8],
    verdict: &Verdict,
    spot: Spot,
) -> Result<(), NoMemory>
    requires within { IsWithin text.now spot }
    requires reportable { IsReportableVerdict verdict.now }
    ensures { OnOk result (out.new.items ≡ out.old.items ++ spec.located text.now verdict.now spot) }
{
    push_line_column(out, text, spot)?;
    push_part(out, text, spot)?;
    push_word(out, words_of(verdict))?;
    push_closing(alloc, out, verdict)?;
    push_excerpt(out, text, spot)
}

// The message on a report that names a place; none where the text has no such place.
fn at_place(
    alloc: Global,
    asked: &Asked<'_>,
    given: &[u8],
    verdict: &Verdict,
    place: Place,
) -> Result<Option<Vec<u8>>, NoMemory>
    requires { IsReportableVerdict verdict.now }
    ensures { IfOk result (MakesSome
        (spec.at_place (asked_view asked.now) given.now verdict.now place)) }
{
    let text = subject(asked, given, verdict);
    let Some(spot) = spot_at(alloc, text, place)? else {
        return Ok(None);
    };
    let mut out = Vec::new(alloc);
    push_subject_name(&mut out, asked, verdict)?;
    push_located(alloc, &mut out, text, verdict, spot)?;
    Ok(Some(out))
}

// Adds the name that no function has.
fn push_missing_name(
    out: &mut Vec<u8>,
    name: u8,
    functions: &Option<Functions<'_>>,
) -> Result<(), NoMemory>
    ensures { OnOk result (out.new.items
        ≡ out.old.items ++ spec.missing_name name (option_map functions_view functions.now)) }
{
    match functions {
        Some(functions) => {
            let missing = if name == 1 {
                functions.first
            } else {
                functions.second
            };
            push_quoted(out, missing.as_bytes())
        }
        None => Ok(()),
    }
}

// Adds what is spoken of.
fn push_thing(out: &mut Vec<u8>, asked: &Asked<'_>, verdict: &Verdict) -> Result<(), NoMemory>
    ensures { OnOk result (out.new.items
        ≡ out.old.items ++ spec.thing_of (asked_view asked.now) verdict.now) }
{
    match verdict {
        Verdict::NoFunction(name) => push_missing_name(out, *name, &asked.functions),
        _ => Ok(()),
    }
}

// Adds the name of the file that a report without a place is about.
fn push_text_name(out: &mut Vec<u8>, asked: &Asked<'_>, verdict: &Verdict) -> Result<(), NoMemory>
    ensures { OnOk result (out.new.items
        ≡ out.old.items ++ spec.text_name (asked_view asked.now) verdict.now) }
{
    if is_about_log(verdict) {
        push_file(out, asked.log)
    } else {
        push_subject_name(out, asked, verdict)
    }
}

// Adds the name of what a report is about, with the line.
fn push_remark_name(
    out: &mut Vec<u8>,
    asked: &Asked<'_>,
    verdict: &Verdict,
    facts: &Facts<'_>,
) -> Result<(), NoMemory>
    ensures { OnOk result (out.new.items
        ≡ out.old.items ++ spec.remark_name (asked_view asked.now) verdict.now
        (facts_view facts.now)) }
{
    push_text_name(out, asked, verdict)?;
    push_line_number(out, facts.number)
}

// Adds the call that compares the functions in another mode; of 32-bit integers, which that mode
// doesn't read, what was asked by the others.
fn push_call_by(out: &mut Vec<u8>, mode: &[u8], functions: &Functions<'_>) -> Result<(), NoMemory>
    ensures { OnOk result (out.new.items
        ≡ out.old.items ++ spec.call_by functions.now.integers mode.now
        (functions_view functions.now)) }
{
    match functions.integers {
        Integers::Unbounded => push_call_of(out, mode, functions),
        Integers::Bits32 => push_word(out, b"the same without --int32; "),
    }
}

// Adds that call, where there is one.
fn push_call_after(
    out: &mut Vec<u8>,
    mode: Option<&[u8]>,
    asked: &Asked<'_>,
) -> Result<(), NoMemory>
    ensures { OnOk result (out.new.items
        ≡ out.old.items ++ spec.call_after (bytes_in mode.entry) (asked_view asked.now).functions) }
{
    match (mode, &asked.functions) {
        (Some(mode), Some(functions)) => push_call_by(out, mode, functions),
        _ => Ok(()),
    }
}

// Adds a line of advice, where there is any.
fn push_advice(out: &mut Vec<u8>, asked: &Asked<'_>, verdict: &Verdict) -> Result<(), NoMemory>
    ensures { OnOk result (out.new.items
        ≡ out.old.items ++ spec.advice (asked_view asked.now) verdict.now) }
{
    match tries_of(verdict) {
        Some(words) => {
            push_word(out, b"  try: ")?;
            push_call_after(out, mode_after(verdict), asked)?;
            push_word(out, words)?;
            push_word(out, b"\n")
        }
        None => Ok(()),
    }
}

// The message on a report that names no place.
fn remark(
    alloc: Global,
    asked: &Asked<'_>,
    verdict: &Verdict,
    facts: &Facts<'_>,
) -> Result<Vec<u8>, NoMemory>
    requires { IsReportableVerdict verdict.now }
    ensures { IfOk result (λ text. text.items
        ≡ spec.remark (asked_view asked.now) verdict.now (facts_view facts.now)) }
{
    let mut out = Vec::new(alloc);
    push_remark_name(&mut out, asked, verdict, facts)?;
    push_word(&mut out, kind_of(verdict.status()))?;
    push_thing(&mut out, asked, verdict)?;
    push_word(&mut out, words_of(verdict))?;
    push_closing(alloc, &mut out, verdict)?;
    push_log_text(alloc, &mut out, facts, verdict)?;
    push_advice(&mut out, asked, verdict)?;
    Ok(out)
}

// The modes, with an example each.
fn usage(alloc: Global) -> Result<Vec<u8>, NoMemory>
    ensures { IfOk result (λ text. text.items ≡ spec.usage) }
{
    let mut out = Vec::new(alloc);
    push_word(
        &mut out,
        b"ctrl: error: the words ask for nothing that ctrl does\n",
    )?;
    push_word(
        &mut out,
        b"  a proof:          ctrl prove examples/sum.c up rec\n",
    )?;
    push_word(
        &mut out,
        b"  a replay:         ctrl check examples/sum.c up rec examples/sum.log\n",
    )?;
    push_word(
        &mut out,
        b"  a counterexample: ctrl refute examples/twice.c twice same\n",
    )?;
    push_word(
        &mut out,
        b"  32-bit integers:  ctrl prove examples/order.c less minus --int32\n",
    )?;
    push_word(
        &mut out,
        b"  written rules:    ctrl rules examples/sum.rules\n",
    )?;
    push_word(
        &mut out,
        b"  rules of C:       ctrl translate examples/sum.c up rec\n",
    )?;
    push_word(&mut out, b"  some examples:    ctrl demo 10\n")?;
    Ok(out)
}

// The message on two functions that are alike at all points.
fn alike(alloc: Global, asked: &Asked<'_>) -> Result<Vec<u8>, NoMemory>
    ensures { IfOk result (λ text. text.items ≡ spec.alike (asked_view asked.now)) }
{
    let mut out = Vec::new(alloc);
    push_file(&mut out, file_of(asked))?;
    push_word(
        &mut out,
        b": note: no point is found at which the two differ\n",
    )?;
    push_word(&mut out, b"  try: ")?;
    push_call(&mut out, b"prove", asked)?;
    push_word(&mut out, b"a greater --box; more --rounds")?;
    push_word(&mut out, b"\n")?;
    Ok(out)
}

// The message on two functions that differ at a point.
fn different(alloc: Global, asked: &Asked<'_>) -> Result<Vec<u8>, NoMemory>
    ensures { IfOk result (λ text. text.items ≡ spec.different (asked_view asked.now)) }
{
    let mut out = Vec::new(alloc);
    push_file(&mut out, file_of(asked))?;
    push_word(
        &mut out,
        b": note: the two functions differ at these arguments\n",
    )?;
    push_word(
        &mut out,
        b"  try: to mend one of them, or a --pre that leaves these arguments out\n",
    )?;
    Ok(out)
}

// The bytes in a list of their own.
fn owned(alloc: Global, bytes: &[u8]) -> Result<Vec<u8>, NoMemory>
    ensures { IfOk result (λ text. text.items ≡ bytes.now) }
{
    let mut out = Vec::new(alloc);
    push_word(&mut out, bytes)?;
    Ok(out)
}

// The message on a run that reported no line of a verdict.
fn of_status(alloc: Global, asked: &Asked<'_>, status: Status) -> Result<Vec<u8>, NoMemory>
    ensures { IfOk result (λ text. text.items ≡ spec.of_status (asked_view asked.now) status) }
{
    match status {
        Status::Unknown => alike(alloc, asked),
        Status::Different => different(alloc, asked),
        Status::WriteFault => owned(
            alloc,
            b"ctrl: error: the report couldn't be written whole\n",
        ),
        Status::NoMemory => owned(
            alloc,
            b"ctrl: error: there was no memory, so nothing is reported\n",
        ),
        _ => owned(alloc, b""),
    }
}

// The message on a report of a verdict.
fn on_place(
    alloc: Global,
    asked: &Asked<'_>,
    given: &[u8],
    verdict: &Verdict,
    facts: &Facts<'_>,
) -> Result<Option<Vec<u8>>, NoMemory>
    requires { IsReportableVerdict verdict.now }
    ensures { IfOk result (MakesSome (spec.on_place (asked_view asked.now) given.now verdict.now
        (facts_view facts.now) (faults.place_of verdict.now))) }
{
    match place_of(verdict) {
        Some(place) => at_place(alloc, asked, given, verdict, place),
        None => Ok(Some(remark(alloc, asked, verdict, facts)?)),
    }
}

// The message on a report of a verdict, if there is one to make.
fn of_verdict(
    alloc: Global,
    asked: &Asked<'_>,
    given: &[u8],
    verdict: &Verdict,
    facts: &Facts<'_>,
) -> Result<Option<Vec<u8>>, NoMemory>
    requires { IsReportableVerdict verdict.now }
    ensures { IfOk result (MakesSome (spec.of_verdict (asked_view asked.now) given.now verdict.now
        (facts_view facts.now))) }
{
    match verdict {
        Verdict::Usage => Ok(Some(usage(alloc)?)),
        _ => on_place(alloc, asked, given, verdict, facts),
    }
}

// The message on a run that reported this, if it was a verdict.
fn on_report(
    alloc: Global,
    asked: &Asked<'_>,
    status: Status,
    verdict: Option<Verdict>,
    given: &[u8],
    facts: &Facts<'_>,
) -> Result<Option<Vec<u8>>, NoMemory>
    requires { MatchOption verdict ⊤ IsReportableVerdict }
    ensures { IfOk result (MakesSome (spec.on_report (asked_view asked.now) status verdict given.now
        (facts_view facts.now))) }
{
    match verdict {
        Some(verdict) => of_verdict(alloc, asked, given, &verdict, facts),
        None => Ok(Some(of_status(alloc, asked, status)?)),
    }
}

// Whether the run said yes.
fn is_yes(status: Status) -> bool
    ensures { result ≡ spec.is_yes status }
{
    match status {
        Status::Equivalent => true,
        _ => false,
    }
}

/// The message on a run, with the verdict that it reported, if it did; none where what was read has
/// no such place as the verdict names. `facts` is what is known of the log.
pub(crate) fn message(
    alloc: Global,
    asked: &Asked<'_>,
    status: Status,
    verdict: Option<Verdict>,
    given: &[u8],
    facts: &Facts<'_>,
) -> Result<Option<Vec<u8>>, NoMemory>
    requires { MatchOption verdict ⊤ IsReportableVerdict }
    ensures { IfOk result (MakesSome (spec.message (asked_view asked.now) status verdict given.now
        (facts_view facts.now))) }
{
    if is_yes(status) {
        return Ok(Some(Vec::new(alloc)));
    }
    on_report(alloc, asked, status, verdict, given, facts)
}
