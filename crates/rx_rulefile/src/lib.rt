//! Rule texts: a set of rules with an equation as text, read and written.
#![tactic(auto)]

mod gathered;
mod kinds;
mod laws;
mod line_reading;
mod making;
mod place;
mod reading;
mod rule_end;
mod rule_line;
mod writing;

pub use laws::{
    a_text_has_one_reading, the_lines_of_rule_texts_are_in_order, what_is_not_unmade_is_well_made,
};
pub use line_reading::read_line;
pub use place::Place;
pub use reading::{read_parts, read_rules};
pub use rule_end::RuleEnd;
pub use rule_line::RuleLine;
pub use writing::write_rules;
