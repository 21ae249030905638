//! The laws of rewriting on which proofs by rewriting induction rest. Terms are stacks of frames
//! over a call or a result, rules and hypotheses are relations between terms; no polynomial, rule
//! text or program is known here.
//!
//! What a reader may rely on: each public function has an empty body, and its contract is a law,
//! proved for every relation, weight and set of inside terms that a trait's ghost members name.
//! The definitions are in `specs/`: `Terms` (ground terms, and which fit a signature), `Steps`
//! (steps under frames, reach, conversion, joins), `Ranks` (ranks, weights, smaller), `Premises`
//! (what the laws ask). The lemmas of `proofs/` are the same laws for relations that depend on
//! values, as those of a rule list do, and are for the crates above. `specs/Example` has rules and
//! a hypothesis for which all premises hold (`the_premises_can_be_met`).
//!
//! The laws speak of what is *reached* from inside terms and of inside terms that *join*. A
//! conversion whose middle is outside proves nothing: two inside results can be convertible by
//! rules and hypotheses through an outside term, where no premise holds, and not by the rules.
//! Where all terms are inside, the laws are those of plain conversion.
//!
//! Sources: rules on constrained terms as in Kop and Nishida, *Term Rewriting with Logical
//! Constraints* (FroCoS 2013), restricted to stacks; rewriting induction as in Fuhs, Kop and
//! Nishida, *Verifying Procedural Programs via Constrained Rewriting Induction* (TOCL 2017); that
//! hypotheses convert no more than rules is the principle of Koike and Toyama; the multiset order
//! is Dershowitz and Manna's (1979); a rank for each frame and call is what the dependency pairs
//! of Arts and Giesl (2000) come to on stacks.
#![tactic(auto)]

pub mod frames;
pub mod laws;
pub mod weights;

pub use frames::{
    chains_carry_under_frames, lowering_carries_under_frames, replacing_carries_under_frames,
    steps_replace_inner_parts,
};
pub use laws::{
    System, inside_terms_reach_results, joined_terms_reach_convertible_results,
    reached_terms_are_convertible, single_valued_rules_give_one_result, the_premises_can_be_met,
    unions_keep_what_both_have,
};
pub use weights::{
    Property, chains_lower_the_weight, equal_ranks_keep_smaller, frames_add_their_ranks,
    induction_over_weights_is_sound, smaller_is_transitive, weights_are_accessible,
};
