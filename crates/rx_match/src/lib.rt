//! Using hypotheses: how one is matched with a part of a side of the goal, and with which
//! certificates it replaces that part.
//!
//! What a reader may rely on: `find_use` answers exactly what the definition in `specs/Matching`
//! comes to, and `find_use_beside` what that in `specs/Beside` does, where the other side of the goal
//! may set variables too; a use that either finds is a step that rx_inference forms and whose
//! certificates show what it asks.
#![tactic(auto)]

mod arguments;
mod beside;
mod equations;
mod finding;
mod laws;
mod matching;
mod place;
mod settings;
mod simplifying;
mod unset;

pub use finding::{Use, find_use, find_use_beside};
pub use laws::{
    a_use_is_one_from_each_list, as_many_passes_as_rows_are_enough,
    both_sides_are_matched_only_where_something_is_unset, other_places_have_no_use,
    unchanging_passes_are_the_last,
};
pub use place::place_of;
pub use rx_fm::FmEnd;
pub use rx_plain::NoMemory;
