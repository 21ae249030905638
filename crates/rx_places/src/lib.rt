//! Places of a text as a person sees them: the line and the column of a byte, and the line itself
//! with a mark under the place.
//!
//! What a reader may rely on: lines and columns count from 1, and columns count bytes; what is
//! shown of a text is printable ASCII, whatever the text holds; a long line is cut around the
//! place, so what is added has at most some 1,000 bytes.
#![tactic(auto)]

mod excerpts;
mod line_front;
mod pieces;
mod places;
mod spots;

pub use excerpts::{push_excerpt, push_numbered_line};
pub use line_front::line_in_file;
pub use pieces::{push_name, push_number, push_quoted, push_word};
pub use places::{column_of, line_of};
pub use rx_io::ReadEnd;
pub use rx_plain::NoMemory;
pub use spots::{Spot, spot_of_fault, spot_of_token};
