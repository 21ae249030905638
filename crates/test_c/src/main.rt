//! Compares what the crates on C texts answer with values from outside: tokens and names, programs and
//! preconditions as they are read, trees, definite assignment, and names resolved.
//!
//! Each line of the standard input is a call, what it is given, and what it is to answer, with ` | `
//! or a semicolon and a space between them. A line that begins with `#` is a heading. The program
//! prints each line whose answer is another with the word `differs`, each that it can't read with
//! `unread`, and at the end how many lines hold.
//!
//! In a text and in an answer `\n`, `\r` and `\t` are a line end, a carriage return and a tab, `\x`
//! with two hexadecimal digits is any byte, and `\e` is no byte, for a text that is empty. A tree is
//! written as `src/printing.rt` says.
#![tactic(auto)]

mod assigning;
mod c_program_answers;
mod c_syntax_answers;
mod c_token_answers;
mod copying;
mod lexing;
mod naming;
mod parsed;
mod parsing;
mod printing;
mod scoping;
mod texts;
mod trees;

use std::alloc::Global;
use std::io;
use test_lines::run;

// What the call answers: no two of the tables have a call in common.
fn answer(alloc: Global, call: &str, given: &str) -> Option<String> {
    if let Some(answer) = c_token_answers::answer(alloc, call, given) {
        return Some(answer);
    }
    if let Some(answer) = c_syntax_answers::answer(alloc, call, given) {
        return Some(answer);
    }
    c_program_answers::answer(alloc, call, given)
}

fn main(rt: HostRuntime) -> io::Result<()> {
    run(&rt, answer)
}
