//! Goals, rules, conditions and pairs in words: terms, rows, equations and ranks as a log writes them.
#![tactic(auto)]

mod conditions;
mod goals;
mod pairs;
mod rules;

pub use conditions::push_condition;
pub use goals::push_state;
pub use pairs::push_pair;
pub use rules::push_rules_of;
pub use rx_plain::NoMemory;
