//! Weights: induction over them is sound, and smaller weights stay smaller under frames and along
//! chains of steps.

ghost use mathlib.Core.WellFounded.{Acc};
ghost use Rattle.std.specs.Prelude.{◌≡◌, ℕ, suc, List, ◌++◌, ℤ};
ghost use Rattle.rx_rewriting.specs.Terms.{Ground, StackFrame, in_context};
ghost use Rattle.rx_rewriting.specs.Steps.{ReachesIn};
ghost use Rattle.rx_rewriting.specs.Ranks.{Rank, Weight, Smaller, weight_of, ranks_of};
ghost use Rattle.rx_rewriting.specs.Premises.{IsInductive, Lowers, ClosedUnder};

use crate::laws::System;

/// A property of weights.
pub trait Property {
    ghost holds: { Weight → Type 0 };
}

/// Every weight is accessible: each descent by smaller weights ends.
pub fn weights_are_accessible()
    ensures { (w : Weight) → Acc Smaller w }
{}

/// A property that holds of a weight whenever it holds of every smaller weight holds of every
/// weight.
pub fn induction_over_weights_is_sound<P: Property>()
    requires { IsInductive P.holds }
    ensures { (w : Weight) → P.holds w }
{}

/// The weight of a term under frames is the frames' ranks beside the term's weight.
pub fn frames_add_their_ranks()
    ensures { (rank : ℕ → List ℤ → Rank) (fs : List StackFrame) (s : Ground) →
        weight_of rank (in_context fs s) ≡ ranks_of rank fs ++ weight_of rank s }
{}

/// The same ranks added on both sides keep smaller.
pub fn equal_ranks_keep_smaller()
    ensures in_front { (u v w : Weight) → Smaller v w → Smaller (u ++ v) (u ++ w) }
    ensures after { (u v w : Weight) → Smaller v w → Smaller (v ++ u) (w ++ u) }
{}

/// Smaller than smaller is smaller.
pub fn smaller_is_transitive()
    ensures { (u v w : Weight) → Smaller u v → Smaller v w → Smaller u w }
{}

/// Where each rule step from inside gives a smaller weight and stays inside, so does each chain,
/// if it has a step at all.
pub fn chains_lower_the_weight<S: System>()
    requires lowers { Lowers S.weight S.inside S.rule }
    requires stays { ClosedUnder S.inside S.rule }
    ensures smaller { (m : ℕ) (s t : Ground) → S.inside s → ReachesIn S.rule (suc m) s t →
        Smaller (S.weight t) (S.weight s) }
    ensures within { (m : ℕ) (s t : Ground) → S.inside s → ReachesIn S.rule m s t → S.inside t }
{}
