//! What holds of terms holds of them under frames.

ghost use Rattle.std.specs.Prelude.{ℕ, ◌↔◌, List, ℤ};
ghost use Rattle.rx_rewriting.specs.Terms.{Ground, StackFrame, in_context};
ghost use Rattle.rx_rewriting.specs.Steps.{Step, ReplacesInner, Reaches, ReachesIn, Convertible, Joinable};
ghost use Rattle.rx_rewriting.specs.Ranks.{Rank, weight_of};
ghost use Rattle.rx_rewriting.specs.Premises.{Lowers, LowersHere, ClosedUnderSubterms};
ghost use Rattle.rx_rewriting.specs.Premises.{IsReplaceable, IsReplaceableHere};

use crate::laws::System;

/// A step keeps some frames and replaces what is under them as the rule says; and each such
/// replacement is a step.
pub fn steps_replace_inner_parts<S: System>()
    ensures { (s t : Ground) → Step S.rule s t ↔ ReplacesInner S.rule s t }
{}

/// Steps, reach, counted reach, joins and conversion carry under frames.
pub fn chains_carry_under_frames<S: System>()
    ensures step { (fs : List StackFrame) (s t : Ground) →
        Step S.rule s t → Step S.rule (in_context fs s) (in_context fs t) }
    ensures reach { (fs : List StackFrame) (s t : Ground) →
        Reaches S.rule s t → Reaches S.rule (in_context fs s) (in_context fs t) }
    ensures counted { (fs : List StackFrame) (m : ℕ) (s t : Ground) →
        ReachesIn S.rule m s t → ReachesIn S.rule m (in_context fs s) (in_context fs t) }
    ensures join { (fs : List StackFrame) (s t : Ground) →
        Joinable S.rule s t → Joinable S.rule (in_context fs s) (in_context fs t) }
    ensures conversion { (fs : List StackFrame) (s t : Ground) →
        Convertible S.rule s t → Convertible S.rule (in_context fs s) (in_context fs t) }
{}

/// Where inner parts of inside terms are inside, and each rule with no frames over it gives a
/// smaller weight, each rule step does.
pub fn lowering_carries_under_frames<S: System>()
    requires inner { ClosedUnderSubterms S.inside }
    ensures { (rank : ℕ → List ℤ → Rank) →
        LowersHere (weight_of rank) S.inside S.rule → Lowers (weight_of rank) S.inside S.rule }
{}

/// Where inner parts of inside terms are inside, and each hypothesis with no frames over it is
/// replaceable, each hypothesis step is.
pub fn replacing_carries_under_frames<S: System>()
    requires inner { ClosedUnderSubterms S.inside }
    requires here { IsReplaceableHere S.inside S.rule S.hypothesis }
    ensures { IsReplaceable S.inside S.rule S.hypothesis }
{}
