//! Rule texts, with the answers that another program gives: read, and written again.
//!
//! Each line of the standard input is a call, what it is given, and what it is to answer, with
//! ` | ` between them. `read` is given a text, in which `\n` is a line end, and `\x` with two
//! hexadecimal digits any byte. `text` has the text of which the lines after it speak: `cut` is
//! given how many of its bytes are left, `byte` a place and the byte that stands there instead.
//! `symbols` is given how many symbols a text without rules declares. The answers are `same` where
//! a rule set and an equation were read that are written as the same bytes again, `line` with the
//! number of the first bad line, and `rule` with the number of the first rule that isn't well made.
//! A line that begins with `#` is a heading.
#![tactic(auto)]

mod calls;

use crate::calls::Texts;
use std::alloc::Global;
use std::io;
use test_lines::{BAR, Meant, Verdict, case_of, count_lines};

// Whether the line's call answers what is wanted; none where that isn't known.
fn is_answered(
    alloc: Global,
    texts: &Texts,
    call: &str,
    given: &str,
    wanted: &str,
) -> Option<bool> {
    let found = texts.answer_to(alloc, call, given)?;
    found.is_meant(alloc, wanted)
}

// How a line fares: some only say of which text the next ones speak.
fn judged(alloc: Global, texts: &mut Texts, line: &str) -> Verdict {
    let Some(case) = case_of(line, BAR) else {
        return Verdict::Unread;
    };
    if case.call == "text" {
        return match texts.keep(alloc, case.wanted) {
            Some(()) => Verdict::Given,
            None => Verdict::Unread,
        };
    }
    Verdict::of(is_answered(alloc, texts, case.call, case.given, case.wanted))
}

fn main(rt: HostRuntime) -> io::Result<()> {
    let mut texts = Texts::new(rt.alloc());
    count_lines(&rt, "lines", |alloc, line| judged(alloc, &mut texts, line))
}
