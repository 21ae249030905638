//! What the programs of tests share: the lines of a table, read from the standard input and counted
//! where they hold, the parts of a line, the answers of calls, texts and numbers as lines have them;
//! and values in the notation of a log, lists of them, equations, rules and rule sets, read from the
//! texts of a line and written as the text of an answer.
//!
//! What a reader may rely on: each call is safe and ends, and answers that there is nothing, or that
//! a line is unread, where a text is not of its form, or where there is no memory. That each line
//! is judged once, in order, is not proved; the programs show it. That a value and its text belong
//! together is proved of the readers and writers that are handed in.
#![tactic(auto)]

mod answers;
mod cases;
mod constraints;
mod domains;
mod ends;
mod high;
mod lines;
mod lists;
mod numbers;
mod polynomials;
mod rewriting;
mod rule_sets;
mod runs;
mod signatures;
mod texts;
mod writing;

pub use answers::{Answer, Meant, compared, equal, integers, nothing, ordered, perhaps, told};
pub use cases::{BAR, Case, SEMICOLON, case_of, parted, separator_of};
pub use constraints::{read_constraint, row, rows, written_row, written_rows};
pub use domains::{domain_fault, take_domains};
pub use ends::ended;
pub use high::{has_high, high_variables, meant};
pub use lines::{Verdict, count_lines, run};
pub use lists::{bytes_written, list, list_at, push_each, push_list, several, whole, written};
pub use numbers::{count, integer, numbers_of};
pub use polynomials::{poly, polys, substitution, written_poly};
pub use rewriting::{equation, equations, push_goal, push_rule, rule, rule_of, rules};
pub use rule_sets::{parts, take_set};
pub use runs::{add_file, words_of};
pub use signatures::{six_symbols, symbols};
pub use texts::{bytes_of, is_text_of, source_of, written_out};
pub use writing::{put, put_bytes, put_debug, put_number, put_space};
