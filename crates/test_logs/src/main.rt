//! Logs that another program wrote, and changes of them, with the answers that are wanted of
//! `check`.
//!
//! The standard input has a word in front of each line. `words` begins a case with a command line,
//! `source` has a line of the file `a.c`, `log` one of the file `a.log`. Then `gives` has the
//! status and the line of the report that are wanted. Before it, each for the next `gives` alone:
//! `instead N` replaces line N of the log, counted from 1, with the rest of that line, and `long
//! N` with a text in pieces parted by `~`, each third of them a number that says how often the
//! piece before it occurs there; `without N` leaves line N out; `cut N` leaves the first N bytes
//! of the log; `over P F ..` has files that give at most P bytes a call, of which the calls F
//! fail; without it each check is run over files that give 1, 7, 64 and 4,096 bytes a call, and
//! the reports have to be the same. `puts S N` wants the status S and N bytes written; before it,
//! `into P ROOM; F ..; Z ..` has a sink that takes at most P bytes a call and ROOM in all, of
//! which the calls F fail and the calls Z write nothing. `says` wants what the run says on
//! standard error, over the log with the changes that are given so far, which stay; `\n` is a line
//! end. `deep N` says how a log is written whose one certificate is N deep. `writes` wants that
//! the run, over the source alone, ends with status 0 and writes the log. `then` goes on with
//! another command line over the same files. A line that begins with `#` is a heading. The program
//! prints each `gives`, `says` and `writes` that doesn't hold with the word `differs`, each line
//! that it can't read with `unread`, and at the end how many hold.
#![tactic(auto)]

mod cases;
mod changes;
mod depth;
mod devices;
mod saying;

use crate::cases::Case;
use std::alloc::Global;
use std::io;
use test_lines::{Verdict, count_lines};

// How a line fares: most lines only say what the case is given.
fn judged(alloc: Global, case: &mut Case, line: &str) -> Verdict {
    match case.take(alloc, line) {
        Some(None) => Verdict::Given,
        Some(Some(true)) => Verdict::Holds,
        Some(Some(false)) => Verdict::Differs,
        None => Verdict::Unread,
    }
}

fn main(rt: HostRuntime) -> io::Result<()> {
    let mut case = Case::new(rt.alloc());
    count_lines(&rt, "reports", |alloc, line| judged(alloc, &mut case, line))
}
