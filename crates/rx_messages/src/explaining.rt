//! What a run says on standard error.
ghost use Rattle.std.specs.Prelude.{◌≡◌, ◌≤◌, ⊤, map, string_bytes, IfOk, MatchOption};
ghost use Rattle.std.specs.Option.{option_copied};
ghost use Rattle.rx_command.specs.Commands as words_say;
ghost use Rattle.rx_command.specs.Commands.{bytes_of};
ghost use Rattle.rx_io.specs.Outside.{Rose};
ghost use Rattle.rx_messages.specs.Asked as spec_asked;
ghost use Rattle.rx_messages.specs.Asked.{asked_view};
ghost use Rattle.rx_messages.specs.Explaining as spec;
ghost use Rattle.rx_messages.specs.Explaining.{Explains};
ghost use Rattle.rx_messages.specs.Steps.{ReadsGiven};
ghost use Rattle.rx_report.specs.Texts.{IsReportableVerdict};

use crate::asked::{Asked, asked_of, file_of};
use crate::faults::{is_about_pre, place_of};
use crate::logs::{Posed, facts_of};
use crate::messages::message;
use crate::rule_texts::lines_name;
use crate::silences::{Silence, silence_of};
use rx_command::command_of;
use rx_io::{Files, Sink, put_all, read_all};
use rx_report::{Status, Verdict};
use std::alloc::Global;

// The most bytes of a source.
const LONGEST_SOURCE: u32 = 1_048_576;

// The name under which a text is read: only where the verdict names a place of it.
fn name_for<'a>(asked: &Asked<'a>, verdict: &Verdict) -> Option<&'a str>
    ensures { bytes_of result ≡ spec.name_for (asked_view asked.now) verdict.now }
{
    if place_of(verdict).is_none() || is_about_pre(verdict) {
        None
    } else {
        file_of(asked)
    }
}

// The same of what was reported, if it was a verdict.
fn name_read<'a>(asked: &Asked<'a>, verdict: &Option<Verdict>) -> Option<&'a str>
    ensures { bytes_of result ≡ spec.name_read (asked_view asked.now) verdict.now }
{
    match verdict {
        Some(verdict) => name_for(asked, verdict),
        None => None,
    }
}

// The bytes of the file with this name; none where there is no name.
fn read_given<F: Files>(
    alloc: Global,
    files: &mut F,
    name: Option<&str>,
) -> Result<Vec<u8>, Silence>
    ensures reach { F.reaches files.old files.new }
    ensures held { F.held files.new ≡ F.held files.old }
    ensures later { F.faults files.old ≤ F.faults files.new }
    ensures reads { ReadsGiven (F.held files.old) (Rose (F.faults files.old) (F.faults files.new))
        (bytes_of name.entry) result }
{
    match name {
        None => Ok(Vec::new(alloc)),
        Some(name) => {
            read_all(alloc, files, name, LONGEST_SOURCE).map_err(|end| silence_of(end))
        }
    }
}

/// Writes the message on a run with these words to `err`: nothing after a plain yes.
///
/// `status` says how the run ended, and `verdict` what it reported, where that was a line of a
/// verdict. Where the verdict names a place in the text of the functions, the text is read again;
/// the place is shown by its line and column, with the line. Where it is about the log, that is read
/// again, in pieces, and its line is shown; `posed` is the problem that the log is about, and where
/// a step fails or goals are left, the first goal of the state before is shown, and where a call
/// isn't lower, the pair. Where it is about a line of the rule text, that line is shown. Else the
/// message says in words what was tried, and what to try. Nothing else is read, and the report isn't
/// touched.
pub fn explain<F: Files, O: Sink>(
    alloc: Global,
    words: &[String],
    status: Status,
    verdict: Option<Verdict>,
    posed: Option<&Posed>,
    files: &mut F,
    err: &mut O,
) -> Result<(), Silence>
    requires { MatchOption verdict ⊤ IsReportableVerdict }
    ensures explains { Explains (F.held files.old) (Rose (F.faults files.old) (F.faults files.new))
        (Rose (O.faults err.old) (O.faults err.new))
        (spec_asked.asked_of (words_say.command_of (map string_bytes words.now)))
        (option_copied posed.entry) status verdict (O.contents err.old) (O.contents err.new) result }
    ensures reach_files { F.reaches files.old files.new }
    ensures reach_err { O.reaches err.old err.new }
{
    let command = command_of(alloc, words)?;
    let asked = asked_of(&command);
    let given = read_given(alloc, files, name_read(&asked, &verdict))?;
    let facts = facts_of(alloc, files, lines_name(&asked, &verdict), posed, &verdict)?;
    let Some(text) = message(alloc, &asked, status, verdict, &given, &facts)? else {
        return Err(Silence::Changed);
    };
    match put_all(err, &text) {
        Ok(()) => Ok(()),
        Err(_) => Err(Silence::Cut),
    }
}
