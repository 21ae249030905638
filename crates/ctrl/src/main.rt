//! ctrl shows that two C functions compute the same for all integers.
#![tactic(auto)]

ghost use Rattle.std.specs.Prelude.{◌≡◌, ⊤, IfErr, IfSome, MatchOption, None, map, string_bytes};
ghost use Rattle.std.specs.Process.{exit_status};
ghost use Rattle.rx_cli.specs.Answers.{AreEqual, IsRefutedBy};
ghost use Rattle.rx_cli.specs.Posed.{HasProblem};
ghost use Rattle.rx_command.specs.Commands.{command_of};
ghost use Rattle.rx_report.specs.Ends.{code_of};
ghost use Rattle.rx_report.specs.Texts.{IsReportableVerdict};

use rx_cli::{Ending, Problem, Status, Verdict, problem_of_words, run_told};
use rx_messages::{Posed, explain};
use rx_system::{SystemFiles, SystemOutput};
use std::env;
use std::io::ErrorKind;
use std::process::ExitCode;

/// The exit status that says how a run ended.
fn exit_of(status: Status) -> ExitCode
    ensures { exit_status result ≡ code_of status }
{
    ExitCode::from(status.code())
}

/// The words of the command line; none where one of them isn't UTF-8, and no words ask for nothing
/// that the program does. Fails only where there is no memory, and then names that status.
fn words_of(rt: &HostRuntime) -> Result<Vec<String>, Status>
    ensures { IfErr result (λ status. status ≡ Status.NoMemory) }
{
    match env::args(rt) {
        Ok(words) => words.collect(rt.alloc()).map_err(|_| Status::NoMemory),
        Err(error) if error.kind() == ErrorKind::OutOfMemory => Err(Status::NoMemory),
        Err(_) => Ok(Vec::new(rt.alloc())),
    }
}

/// How the run of these words over the system's files and output ends, and what it reported.
fn run_words(rt: &HostRuntime, words: &[String]) -> Ending
    ensures sound { result.status ≡ Status.Equivalent → AreEqual None (map string_bytes words.now) }
    ensures different { result.status ≡ Status.Different →
        IsRefutedBy None (map string_bytes words.now) }
    ensures reportable { MatchOption result.verdict ⊤ IsReportableVerdict }
{
    let mut files = SystemFiles::new(rt);
    let mut out = SystemOutput::new(rt);
    run_told(rt.alloc(), words, &mut files, &mut out)
}

/// The problem that the words pose, where what was reported is about a log; none where their text
/// can't be read any more or poses none, and where there is no memory.
fn posed_by(rt: &HostRuntime, words: &[String], ending: &Ending) -> Option<Posed>
    ensures { IfSome result (λ posed. HasProblem None (command_of (map string_bytes words.now))
        (record { rules = posed.rules; goal = posed.goal })) }
{
    let Some(Verdict::Check(_)) = ending.verdict else {
        return None;
    };
    let mut files = SystemFiles::new(rt);
    let Ok(Some(problem)) = problem_of_words(rt.alloc(), words, &mut files) else {
        return None;
    };
    let Problem { rules, goal } = problem;
    Some(Posed { rules, goal })
}

/// Says on standard error what a person needs, if the run of these words ended so. That nothing
/// more can be said, or nothing at all, changes neither the report nor the exit status.
fn explain_words(rt: &HostRuntime, words: &[String], ending: Ending)
    requires { MatchOption ending.verdict ⊤ IsReportableVerdict }
{
    let posed = posed_by(rt, words, &ending);
    let mut files = SystemFiles::new(rt);
    let printer = rt.stderr();
    let mut err = SystemOutput::new(&printer);
    let _ = explain(
        rt.alloc(),
        words,
        ending.status,
        ending.verdict,
        posed.as_ref(),
        &mut files,
        &mut err,
    );
}

fn main(rt: HostRuntime) -> ExitCode {
    match words_of(&rt) {
        Ok(words) => {
            let ending = run_words(&rt, &words);
            explain_words(&rt, &words, ending);
            exit_of(ending.status)
        }
        Err(status) => exit_of(status),
    }
}
