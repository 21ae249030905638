//! The problem that the words of a command line pose, for what is said beside the report.
ghost use Rattle.std.specs.Prelude.{◌≡◌, ◌≤◌, true, length, map, string_bytes, IfOk};
ghost use Rattle.rx_command.specs.Commands as words_say;
ghost use Rattle.rx_command.specs.Commands.{comparison_view, functions_view, induction_view, is_short};
ghost use Rattle.rx_io.specs.Outside.{Rose};
ghost use Rattle.rx_cli.specs.Answers.{file_in, functions_in};
ghost use Rattle.rx_cli.specs.Posed.{Poses};
ghost use Rattle.rx_cli.specs.Problems.{asked, posed};
ghost use Rattle.rx_cli.specs.Steps.{PosesIn, PosesOf};

use crate::answers::read_source;
use crate::inductions::pose;
use crate::problems::{Problem, ask};
use c_front::Next;
use rx_command::{Command, Comparison, Functions, Induction, command_of};
use rx_io::Files;
use rx_plain::NoMemory;
use std::alloc::Global;

/// The problem of two functions of a text, if it poses one.
fn problem_in(
    alloc: Global,
    functions: &Functions<'_>,
    source: &[u8],
) -> Result<Option<Problem>, NoMemory>
    requires source { length source.now ≤ 1048576 }
    requires pre { is_short (functions_view functions.now).precondition ≡ true }
    ensures { IfOk result (PosesOf (asked (functions_view functions.now)) source.now) }
{
    match ask(alloc, source, functions)? {
        Next::Ends(_) => Ok(None),
        Next::Goes(problem) => Ok(Some(problem)),
    }
}

/// The problem of two functions of the text in their file.
fn problem_of<F: Files>(
    alloc: Global,
    functions: &Functions<'_>,
    files: &mut F,
) -> Result<Option<Problem>, NoMemory>
    requires { is_short (functions_view functions.now).precondition ≡ true }
    ensures reach { F.reaches files.old files.new }
    ensures poses { IfOk result (PosesIn (F.held files.old)
        (Rose (F.faults files.old) (F.faults files.new)) functions.now.file.now
        (asked (functions_view functions.now))) }
{
    match read_source(alloc, functions.file, files)? {
        Next::Ends(_) => Ok(None),
        Next::Goes(source) => problem_in(alloc, functions, &source),
    }
}

/// The problem of a rule text, if it poses one.
fn rules_in(alloc: Global, source: &[u8]) -> Result<Option<Problem>, NoMemory>
    ensures { IfOk result (PosesOf posed source.now) }
{
    match pose(alloc, source)? {
        Next::Ends(_) => Ok(None),
        Next::Goes(read) => Ok(Some(read)),
    }
}

/// The problem of the rule text in the file with this name.
fn problem_of_rules<F: Files>(
    alloc: Global,
    file: &str,
    files: &mut F,
) -> Result<Option<Problem>, NoMemory>
    ensures reach { F.reaches files.old files.new }
    ensures poses { IfOk result (PosesIn (F.held files.old)
        (Rose (F.faults files.old) (F.faults files.new)) file.now posed) }
{
    match read_source(alloc, file, files)? {
        Next::Ends(_) => Ok(None),
        Next::Goes(source) => rules_in(alloc, &source),
    }
}

/// The name of the rule text.
fn rule_file<'a>(task: &Induction<'a>) -> &'a str
    ensures { result.now ≡ file_in (induction_view task.now) }
{
    match task {
        Induction::Find(file, _) => file,
        Induction::Replay(file, _) => file,
    }
}

/// The functions that are compared.
fn functions_of<'a>(comparison: &Comparison<'a>) -> Functions<'a>
    ensures { functions_view result ≡ functions_in (comparison_view comparison.now) }
{
    match comparison {
        Comparison::Prove(functions, _) | Comparison::Refute(functions, _) => *functions,
        Comparison::Check(functions, _) => *functions,
    }
}

/// The rules and the goal of the functions that the words compare, or those of the rule text that
/// they name, in the text that is read again; none where they do neither, where the text can't be
/// read, or where it poses no problem. The log isn't read.
pub fn problem_of_words<F: Files>(
    alloc: Global,
    words: &[String],
    files: &mut F,
) -> Result<Option<Problem>, NoMemory>
    ensures reach { F.reaches files.old files.new }
    ensures poses { IfOk result (Poses (F.held files.old)
        (Rose (F.faults files.old) (F.faults files.new))
        (words_say.command_of (map string_bytes words.now))) }
{
    match command_of(alloc, words)? {
        Some(Command::Compare(comparison)) => {
            problem_of(alloc, &functions_of(&comparison), files)
        }
        Some(Command::Rules(task)) => problem_of_rules(alloc, rule_file(&task), files),
        Some(Command::Translate(_)) => Ok(None),
        Some(Command::Demo(_)) => Ok(None),
        None => Ok(None),
    }
}
