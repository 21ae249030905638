//! What a C program is compiled to: symbols, and what is done at each of them; and laws that say
//! what each translation of a program in order is like.
#![tactic(auto)]

mod action;
mod code;
mod code_laws;
mod kind;
pub mod laws;
mod point;

pub use action::{Action, Division, Instruction};
pub use code::Code;
pub use code_laws::{
    goals_fit_their_translation, the_premises_can_be_met, there_is_one_translation,
    translations_are_well_made_and_paired, translations_carry_code,
    translations_do_their_instructions,
};
pub use kind::{OpKind, kind_of};
pub use laws::{small_programs_are_compiled_so, there_are_translations};
pub use point::{Opening, Point};
