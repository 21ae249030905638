//! Logs as text: the one text of each log, read, and the first line that no log has.
#![tactic(auto)]

mod cutting;
mod laws;
mod lines;
mod log_end;
mod part;
mod read;
mod reader;
mod steps;

pub use laws::{a_text_has_one_reading, each_cut_is_read_alike, no_two_logs_have_the_same_lines};
pub use lines::{is_width, read_line, read_line_2};
pub use log_end::LogEnd;
pub use read::read_log;
pub use reader::LogReader;
pub use rx_log::{Line, LineState, Version};
