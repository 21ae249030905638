//! Steps of a proof as data, and what each makes of the first goal: the rows that it asks, the new
//! goals, and the hypothesis that it keeps. The code here looks at no certificate.
#![tactic(auto)]

mod deleting;
mod form_end;
mod formed_step;
mod forming;
mod generalising;
mod laws;
mod pieces;
mod results;
mod rewriting;
mod step;

pub use form_end::FormEnd;
pub use formed_step::{Asked, FormedStep, Group, Under};
pub use forming::form;
pub use laws::{
    certificates_are_not_looked_at, forming_never_runs_out_of_memory,
    one_group_is_a_condition_list, shown_steps_are_taken, what_is_shown_follows,
};
pub use pieces::{
    RuleInstance, asking_for, have_one_shape, is_equation, is_substitution, rule_at, side_of,
};
pub use rewriting::{hypothesis_at, rewritten};
pub use rx_plain::NoMemory;
pub use step::{Delete, Side, Step};
