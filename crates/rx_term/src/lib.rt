//! Terms that rewriting is done on, rules, and sets of rules. A term is a stack: frames outside,
//! then a call or a result. All walks down a stack are loops, so a term may have as many frames as
//! memory holds.
#![tactic(auto)]

mod arguments;
mod bounds;
mod inside;
mod laws;
mod left_side;
mod rule;
mod rule_set;
mod term;

pub use arguments::differences;
pub use inside::inside_of;
pub use laws::{
    Inside, arguments_are_assignments, arguments_are_numbered_in_order,
    bounds_are_the_least_above_all, covered_sets_step, covered_sets_step_inside,
    equal_values_make_one_ground_term, fitting_right_sides_keep_fitting,
    fitting_terms_have_fitting_ground_terms, paired_sets_step_once,
    parts_stand_under_ground_frames, redexes_mean_redexes, replacing_keeps_fitting,
    rules_step_terms_of_their_shape, rules_step_their_instances, substitution_and_values_commute,
    substitution_keeps_the_stack, the_premises_can_be_met, two_lists_step_as_one_does,
    variables_alone_decide_the_ground_term, well_made_sets_keep_fitting,
};
pub use rule::{Equation, Rule};
pub use rule_set::{RuleParts, RuleSet, SymInfo};
pub use rx_plain::NoMemory;
pub use rx_poly::PolyEnd;
pub use term::{Sym, Term};
