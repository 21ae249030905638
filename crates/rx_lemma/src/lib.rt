//! Lemmas that a search may take: equations of which a goal is an instance; and what those who find
//! them share: the call that a term ends in, and where the numbers of variables end.
//!
//! Naming: the goal whose constants in calls of loop heads are variables, each with a row that
//! gives it its value.
//!
//! What a reader may rely on: `named` answers exactly what `naming_of` comes to (`specs/Naming`).
//! It asks no solver. By the laws, naming keeps the shapes of a goal's sides, and what its new
//! variables are replaced by is a substitution (`specs/Shapes`).
//!
//! Two generalisations of a goal: without the rows that give a variable its value, and with
//! variables in place of polynomials that occur repeatedly.
//!
//! Laws of lemmas: each is a lawful step on from its goal. What is here answers nothing; its
//! contracts are the laws.
//!
//! What a reader may rely on: by `naming_is_lawful` and `generalisations_are_lawful`, a step of
//! kind Generalise on to what naming makes of a goal, or on to a generalisation of it, is formed,
//! and the refuter shows the rows that it asks (`specs/Lawful`). By `equations_are_goals` what
//! these laws ask of a goal is so of each equation over the symbols of a rule set.
#![tactic(auto)]

mod calls;
mod constants;
mod generalised;
mod generalising;
mod inside_rows;
mod laws;
mod lemma;
mod lemma_laws;
mod naming;
mod naming_calls;
mod premises;
mod repeated;
mod replaced;
mod rule_rows;
mod values;

pub use calls::{Call, call_of};
pub use generalised::Generalised;
pub use generalising::lemmas;
pub use laws::{naming_keeps_shapes, naming_substitutes};
pub use lemma::{LemmaKind, VARIABLES_END};
pub use lemma_laws::{
    generalisations_are_lawful, naming_is_lawful, no_domains_require_nothing,
    without_domains_all_stay_inside,
};
pub use naming::named;
pub use premises::equations_are_goals;
pub use rx_plain::NoMemory;
