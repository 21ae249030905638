//! What the words of a command line name, as messages name it.
ghost use Rattle.std.specs.Prelude.{◌≡◌, ◌++◌, option_map, OnOk};
ghost use Rattle.rx_command.specs.Commands.{bytes_of, command_view, comparison_view, functions_view, induction_view};
ghost use Rattle.rx_messages.specs.Asked as spec;
ghost use Rattle.rx_messages.specs.Asked.{asked_view};

use rx_command::{Command, Comparison, Functions, Induction};
use rx_places::{NoMemory, push_name, push_word};

/// Two functions, the name of the log that is replayed, and that of a rule text, if there are any.
#[derive(Clone, Copy)]
pub(crate) struct Asked<'a> {
    /// The two functions.
    pub functions: Option<Functions<'a>>,
    /// The log's name.
    pub log: Option<&'a str>,
    /// The name of the rule text.
    pub rules: Option<&'a str>,
}

fn asked_in<'a>(comparison: &Comparison<'a>) -> Asked<'a>
    ensures { asked_view result ≡ spec.asked_in (comparison_view comparison.now) }
{
    match comparison {
        Comparison::Prove(functions, _) | Comparison::Refute(functions, _) => Asked {
            functions: Some(*functions),
            log: None,
            rules: None,
        },
        Comparison::Check(functions, log) => Asked {
            functions: Some(*functions),
            log: Some(*log),
            rules: None,
        },
    }
}

fn asked_for<'a>(task: &Induction<'a>) -> Asked<'a>
    ensures { asked_view result ≡ spec.asked_for (induction_view task.now) }
{
    match task {
        Induction::Find(file, _) => Asked {
            functions: None,
            log: None,
            rules: Some(*file),
        },
        Induction::Replay(file, log) => Asked {
            functions: None,
            log: Some(*log),
            rules: Some(*file),
        },
    }
}

/// What a command asks about.
pub(crate) fn asked_of<'a>(command: &Option<Command<'a>>) -> Asked<'a>
    ensures { asked_view result ≡ spec.asked_of (option_map command_view command.now) }
{
    match command {
        Some(Command::Compare(comparison)) => asked_in(comparison),
        Some(Command::Rules(task)) => asked_for(task),
        Some(Command::Translate(functions)) => Asked {
            functions: Some(*functions),
            log: None,
            rules: None,
        },
        Some(Command::Demo(_)) | None => Asked {
            functions: None,
            log: None,
            rules: None,
        },
    }
}

/// The name of the file that has the functions, or else of the rule text.
pub(crate) fn file_of<'a>(asked: &Asked<'a>) -> Option<&'a str>
    ensures { bytes_of result ≡ spec.file_of (asked_view asked.now) }
{
    match &asked.functions {
        Some(functions) => Some(functions.file),
        None => asked.rules,
    }
}

/// The text of the precondition; nothing where there is none.
pub(crate) fn condition_of<'a>(asked: &Asked<'a>) -> &'a [u8]
    ensures { result.now ≡ spec.condition_of (asked_view asked.now).functions }
{
    match &asked.functions {
        Some(functions) => match functions.precondition {
            Some(text) => text.as_bytes(),
            None => b"",
        },
        None => b"",
    }
}

/// Adds the name of a file; the program's where there is none.
pub(crate) fn push_file(out: &mut Vec<u8>, name: Option<&str>) -> Result<(), NoMemory>
    ensures { OnOk result (out.new.items ≡ out.old.items ++ spec.file_name (bytes_of name.entry)) }
{
    match name {
        Some(name) => push_name(out, name),
        None => push_word(out, b"ctrl"),
    }
}

// Adds the end of a call.
fn push_condition(out: &mut Vec<u8>, precondition: Option<&str>) -> Result<(), NoMemory>
    ensures { OnOk result (out.new.items
        ≡ out.old.items ++ spec.with_condition (bytes_of precondition.entry)) }
{
    match precondition {
        Some(_) => push_word(out, b" --pre E; "),
        None => push_word(out, b"; "),
    }
}

// Adds the file and the two names.
fn push_names(out: &mut Vec<u8>, functions: &Functions<'_>) -> Result<(), NoMemory>
    ensures { OnOk result (out.new.items
        ≡ out.old.items ++ spec.names_text (functions_view functions.now)) }
{
    push_name(out, functions.file)?;
    push_word(out, b" ")?;
    push_name(out, functions.first)?;
    push_word(out, b" ")?;
    push_name(out, functions.second)
}

/// Adds the words that compare the functions in the mode.
pub(crate) fn push_call_of(
    out: &mut Vec<u8>,
    mode: &[u8],
    functions: &Functions<'_>,
) -> Result<(), NoMemory>
    ensures { OnOk result (out.new.items
        ≡ out.old.items ++ spec.call_of mode.now (functions_view functions.now)) }
{
    push_word(out, b"ctrl ")?;
    push_word(out, mode)?;
    push_word(out, b" ")?;
    push_names(out, functions)?;
    push_condition(out, functions.precondition)
}

/// Adds the words that compare the functions in the mode, if there are any.
pub(crate) fn push_call(out: &mut Vec<u8>, mode: &[u8], asked: &Asked<'_>) -> Result<(), NoMemory>
    ensures { OnOk result (out.new.items
        ≡ out.old.items ++ spec.call mode.now (asked_view asked.now).functions) }
{
    match &asked.functions {
        Some(functions) => push_call_of(out, mode, functions),
        None => Ok(()),
    }
}
