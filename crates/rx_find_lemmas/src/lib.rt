//! The lemmas that a search takes at a goal, each with the certificates of its step; and closures
//! that find them.
//!
//! What a reader may rely on: `find_lemmas` answers exactly the lemmas of the definition in
//! `specs/Finding`, and the step to each is a lawful one, by its own certificates. What takes a
//! closure asks by `IsLemmaFinder` of `specs/Finders` that it answers so each time.
#![tactic(auto)]

mod asking;
mod finding;
mod laws;
mod lemma;

pub use asking::ask_lemmas;
pub use finding::find_lemmas;
pub use laws::generalisations_of_equations_are_lemmas;
pub use lemma::Lemma;
pub use rx_fm::FmEnd;
pub use rx_lemma::LemmaKind;
pub use rx_plain::NoMemory;
