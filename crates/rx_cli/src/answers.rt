//! What a run answers to its words and to the files that they name, before it is reported.
ghost use Rattle.std.specs.Prelude.{◌≡◌, ◌≤◌, true, length, map, string_bytes, IfOk, Option, Some};
ghost use Rattle.rx_command.specs.Commands as words_say;
ghost use Rattle.rx_command.specs.Commands.{Check, Compare, Demo, Find, Prove, Refute, Replay, Rules, Translate, comparison_view, functions_view, induction_view, is_short};
ghost use Rattle.rx_io.specs.Outside.{Names, Rose};
ghost use Rattle.rx_cli.specs.Answers.{AreEqual, AnswersSoundly, IsRefutedBy, AnswersOrFails, functions_in};
ghost use Rattle.rx_cli.specs.Problems.{longest_source};
ghost use Rattle.rx_report.specs.Ends.{status_in};
ghost use Rattle.rx_report.specs.Reports.{IsReportable};
ghost use Rattle.rx_cli.specs.Steps.{ChecksNamed, IsReportableNext, IsNotDeep, IsInductionNotDeep, Reads, bytes_in};
ghost use Rattle.rx_report.specs.Texts.{IsReportableVerdict};

use crate::NoMemory;
use crate::check::on_named;
use crate::examples::demo;
use crate::inductions::{replay, seek};
use crate::problems::ask;
use crate::proving::prove;
use crate::refuting::refute;
use crate::translations::translate;
use c_front::Next;
use rx_command::{Command, Comparison, Effort, Extent, Functions, Induction, command_of};
use rx_io::{Files, ReadEnd, read_all};
use rx_report::{Answer, Status, Verdict};
use std::alloc::Global;

/// The most bytes of a source.
const LONGEST_SOURCE: u32 = 1_048_576;

/// The bytes of the file with this name, or why they can't be had: there are more than a source may
/// have, or reading failed.
pub(crate) fn read_source<F: Files>(
    alloc: Global,
    name: &str,
    files: &mut F,
) -> Result<Next<Verdict, Vec<u8>>, NoMemory>
    ensures reach { F.reaches files.old files.new }
    ensures held { F.held files.new ≡ F.held files.old }
    ensures later { F.faults files.old ≤ F.faults files.new }
    ensures read { IfOk result (λ next. Reads (F.held files.old)
        (Rose (F.faults files.old) (F.faults files.new)) name.now longest_source
        Verdict.LongSource (bytes_in next)) }
    ensures line { IfOk result IsReportableNext }
{
    match read_all(alloc, files, name, LONGEST_SOURCE) {
        Ok(bytes) => Ok(Next::Goes(bytes)),
        Err(ReadEnd::Failed) => Ok(Next::Ends(Verdict::ReadFault)),
        Err(ReadEnd::TooLong) => Ok(Next::Ends(Verdict::LongSource)),
        Err(ReadEnd::NoMemory) => Err(NoMemory),
    }
}

/// What is said of a text and of the log that is read under a name. The log is read only where the
/// text poses a problem.
fn check_named<F: Files>(
    alloc: Global,
    source: &[u8],
    functions: &Functions<'_>,
    log: &str,
    files: &mut F,
) -> Result<Verdict, NoMemory>
    requires source { length source.now ≤ 1048576 }
    requires pre { is_short (functions_view functions.now).precondition ≡ true }
    ensures reach { F.reaches files.old files.new }
    ensures later { F.faults files.old ≤ F.faults files.new }
    ensures verdict { IfOk result (ChecksNamed (F.held files.old)
        (Rose (F.faults files.old) (F.faults files.new)) (functions_view functions.now) source.now
        log.now) }
    ensures line { IfOk result IsReportableVerdict }
{
    match ask(alloc, source, functions)? {
        Next::Ends(verdict) => Ok(verdict),
        Next::Goes(problem) => on_named(alloc, problem, files, log),
    }
}

/// The answer where a log is to be replayed.
fn execute_check<F: Files>(
    alloc: Global,
    functions: &Functions<'_>,
    log: &str,
    files: &mut F,
) -> Result<Answer, NoMemory>
    requires { is_short (functions_view functions.now).precondition ≡ true }
    ensures reach { F.reaches files.old files.new }
    ensures answer { IfOk result (AnswersOrFails (F.held files.old)
        (Rose (F.faults files.old) (F.faults files.new))
        (Some (Compare (Check (functions_view functions.now) log.now)))) }
    ensures reportable { IfOk result IsReportable }
{
    match read_source(alloc, functions.file, files)? {
        Next::Ends(verdict) => Ok(Answer::Line(verdict)),
        Next::Goes(source) => {
            Ok(Answer::Line(check_named(alloc, &source, functions, log, files)?))
        }
    }
}

/// The answer where a proof is to be searched for.
fn execute_prove<F: Files>(
    alloc: Global,
    functions: &Functions<'_>,
    effort: Effort,
    files: &mut F,
) -> Result<Answer, NoMemory>
    requires pre { is_short (functions_view functions.now).precondition ≡ true }
    requires depth { effort.depth ≤ 12 }
    ensures reach { F.reaches files.old files.new }
    ensures answer { IfOk result (AnswersOrFails (F.held files.old)
        (Rose (F.faults files.old) (F.faults files.new))
        (Some (Compare (Prove (functions_view functions.now) effort)))) }
    ensures reportable { IfOk result IsReportable }
{
    match read_source(alloc, functions.file, files)? {
        Next::Ends(verdict) => Ok(Answer::Line(verdict)),
        Next::Goes(source) => prove(alloc, &source, functions, effort),
    }
}

/// The answer where a counterexample is to be looked for.
fn execute_refute<F: Files>(
    alloc: Global,
    functions: &Functions<'_>,
    extent: Extent,
    files: &mut F,
) -> Result<Answer, NoMemory>
    requires pre { is_short (functions_view functions.now).precondition ≡ true }
    ensures reach { F.reaches files.old files.new }
    ensures answer { IfOk result (AnswersOrFails (F.held files.old)
        (Rose (F.faults files.old) (F.faults files.new))
        (Some (Compare (Refute (functions_view functions.now) extent)))) }
    ensures reportable { IfOk result IsReportable }
{
    match read_source(alloc, functions.file, files)? {
        Next::Ends(verdict) => Ok(Answer::Line(verdict)),
        Next::Goes(source) => refute(alloc, &source, functions, extent),
    }
}

/// The answer to a comparison, for which it reads the files that it names.
fn execute_comparison<F: Files>(
    alloc: Global,
    comparison: &Comparison<'_>,
    files: &mut F,
) -> Result<Answer, NoMemory>
    requires pre { is_short (functions_in (comparison_view comparison.now)).precondition ≡ true }
    requires depth { IsNotDeep (comparison_view comparison.now) }
    ensures reach { F.reaches files.old files.new }
    ensures answer { IfOk result (AnswersOrFails (F.held files.old)
        (Rose (F.faults files.old) (F.faults files.new))
        (Some (Compare (comparison_view comparison.now)))) }
    ensures reportable { IfOk result IsReportable }
{
    match comparison {
        Comparison::Prove(functions, effort) => execute_prove(alloc, functions, *effort, files),
        Comparison::Check(functions, log) => execute_check(alloc, functions, log, files),
        Comparison::Refute(functions, extent) => execute_refute(alloc, functions, *extent, files),
    }
}

/// The answer where a proof of the equation of a rule text is to be searched for.
fn execute_seek<F: Files>(
    alloc: Global,
    file: &str,
    effort: Effort,
    files: &mut F,
) -> Result<Answer, NoMemory>
    requires { effort.depth ≤ 12 }
    ensures reach { F.reaches files.old files.new }
    ensures answer { IfOk result (AnswersOrFails (F.held files.old)
        (Rose (F.faults files.old) (F.faults files.new)) (Some (Rules (Find file.now effort)))) }
    ensures reportable { IfOk result IsReportable }
{
    match read_source(alloc, file, files)? {
        Next::Ends(verdict) => Ok(Answer::Line(verdict)),
        Next::Goes(source) => seek(alloc, &source, effort),
    }
}

/// The answer where a log is to be replayed for a rule text.
fn execute_replay<F: Files>(
    alloc: Global,
    file: &str,
    log: &str,
    files: &mut F,
) -> Result<Answer, NoMemory>
    ensures reach { F.reaches files.old files.new }
    ensures answer { IfOk result (AnswersOrFails (F.held files.old)
        (Rose (F.faults files.old) (F.faults files.new)) (Some (Rules (Replay file.now log.now)))) }
    ensures reportable { IfOk result IsReportable }
{
    match read_source(alloc, file, files)? {
        Next::Ends(verdict) => Ok(Answer::Line(verdict)),
        Next::Goes(source) => Ok(Answer::Line(replay(alloc, &source, log, files)?)),
    }
}

/// The answer where the equation of a rule text is to be proved.
fn execute_rules<F: Files>(
    alloc: Global,
    task: &Induction<'_>,
    files: &mut F,
) -> Result<Answer, NoMemory>
    requires { IsInductionNotDeep (induction_view task.now) }
    ensures reach { F.reaches files.old files.new }
    ensures answer { IfOk result (AnswersOrFails (F.held files.old)
        (Rose (F.faults files.old) (F.faults files.new)) (Some (Rules (induction_view task.now)))) }
    ensures reportable { IfOk result IsReportable }
{
    match task {
        Induction::Find(file, effort) => execute_seek(alloc, file, *effort, files),
        Induction::Replay(file, log) => execute_replay(alloc, file, log, files),
    }
}

/// The answer where the rules of two functions are to be written.
fn execute_translate<F: Files>(
    alloc: Global,
    functions: &Functions<'_>,
    files: &mut F,
) -> Result<Answer, NoMemory>
    requires { is_short (functions_view functions.now).precondition ≡ true }
    ensures reach { F.reaches files.old files.new }
    ensures answer { IfOk result (AnswersOrFails (F.held files.old)
        (Rose (F.faults files.old) (F.faults files.new))
        (Some (Translate (functions_view functions.now)))) }
    ensures reportable { IfOk result IsReportable }
{
    match read_source(alloc, functions.file, files)? {
        Next::Ends(verdict) => Ok(Answer::Line(verdict)),
        Next::Goes(source) => translate(alloc, &source, functions),
    }
}

/// The answer where examples are to be shown.
fn execute_demo(alloc: Global, pairs: u32) -> Result<Answer, NoMemory>
    requires { pairs ≤ 100 }
    ensures answer { (held : Option Names) →
        IfOk result (AnswersSoundly held (Some (Demo pairs))) }
    ensures reportable { IfOk result IsReportable }
{
    Ok(Answer::Line(demo(alloc, pairs)?))
}

/// The answer to the words, for which it reads the files that they name.
pub fn execute<F: Files>(alloc: Global, words: &[String], files: &mut F) -> Result<Answer, NoMemory>
    ensures reach { F.reaches files.old files.new }
    ensures answer { IfOk result (AnswersOrFails (F.held files.old)
        (Rose (F.faults files.old) (F.faults files.new))
        (words_say.command_of (map string_bytes words.now))) }
    ensures sound { IfOk result (λ answer. status_in answer ≡ Status.Equivalent →
        AreEqual (F.held files.old) (map string_bytes words.now)) }
    ensures different { IfOk result (λ answer. status_in answer ≡ Status.Different →
        IsRefutedBy (F.held files.old) (map string_bytes words.now)) }
    ensures reportable { IfOk result IsReportable }
{
    match command_of(alloc, words)? {
        None => Ok(Answer::Line(Verdict::Usage)),
        Some(Command::Demo(pairs)) => execute_demo(alloc, pairs),
        Some(Command::Compare(comparison)) => execute_comparison(alloc, &comparison, files),
        Some(Command::Rules(task)) => execute_rules(alloc, &task, files),
        Some(Command::Translate(functions)) => execute_translate(alloc, &functions, files),
    }
}
