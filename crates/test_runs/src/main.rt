//! Compares files and a sink in memory, the reports of verdicts, and whole runs over memory, with the
//! statuses and reports that are wanted.
//!
//! Each line of the standard input is a call, what it is given, and what it is to answer, with ` | `
//! or a semicolon and a space between them. A line that begins with `#` is a heading. The program
//! prints each line whose answer is another with the word `differs`, each that it can't read with
//! `unread`, and at the end how many lines hold.
//!
//! In a text and in an answer `\n` is a line end; a text may be empty.
#![tactic(auto)]

mod cli_answers;
mod files;
mod messages;
mod report_answers;
mod run_files;
mod running;
mod sinks;
mod verdicts;

use std::alloc::Global;
use std::io;
use test_lines::run;

// What the call answers: no two of the tables have a call in common.
fn answer(alloc: Global, call: &str, given: &str) -> Option<String> {
    if let Some(answer) = report_answers::answer(alloc, call, given) {
        return Some(answer);
    }
    cli_answers::answer(alloc, call, given)
}

fn main(rt: HostRuntime) -> io::Result<()> {
    run(&rt, answer)
}
