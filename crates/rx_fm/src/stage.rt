//! One stage: a monomial is eliminated.
ghost use Rattle.std.specs.Prelude.{◌≡◌, ◌<ℤ◌, ◌≤◌, ◌+◌, ◌*◌, ◌++◌, [], ◌∷◌, pos, true, false, int_lt, length, map, nat_le, IfOk, IfErr, OnOk};
ghost use Rattle.std.specs.List.{list_all};
ghost use Rattle.rx_plain.specs.Formed.{Forms};
ghost use Rattle.rx_fm.specs.Elimination.{at, resolvent, resolvent_within, negative, stage_formed, pairs, pairs_within, positive, without};

use crate::combination::{Combination, joined};
use crate::fm_end::FmEnd;
use rx_plain::Items;
use rx_poly::Mono;
use std::alloc::{AllocError, Global};

/// Combinations, by the coefficient that one monomial has in them.
#[derive(Drop)]
struct BySign {
    without: Items<Combination>,
    positive: Items<Combination>,
    negative: Items<Combination>,
}

impl BySign {
    /// Adds the combination after those of its kind.
    fn push(&mut self, mono: &Mono, combination: Combination) -> Result<(), AllocError>
        ensures without { OnOk result (self.new.without ≡ self.old.without ++
            without mono.now (combination ∷ [])) }
        ensures positive { OnOk result (self.new.positive ≡ self.old.positive ++
            positive mono.now (combination ∷ [])) }
        ensures negative { OnOk result (self.new.negative ≡ self.old.negative ++
            negative mono.now (combination ∷ [])) }
    {
        let coefficient = combination.coeff(mono);
        if coefficient == 0 {
            self.without.push(combination)
        } else if coefficient > 0 {
            self.positive.push(combination)
        } else {
            self.negative.push(combination)
        }
    }
}

/// The combinations by the coefficient of the monomial, each moved to those of its kind.
fn split(alloc: Global, combinations: Items<Combination>, mono: &Mono) -> Result<BySign, AllocError>
    ensures without { IfOk result (λ s. s.without ≡ without mono.now combinations) }
    ensures positive { IfOk result (λ s. s.positive ≡ positive mono.now combinations) }
    ensures negative { IfOk result (λ s. s.negative ≡ negative mono.now combinations) }
{
    let mut split = BySign {
        without: Items::new(alloc),
        positive: Items::new(alloc),
        negative: Items::new(alloc),
    };
    for combination in combinations.into_vec() {
        split.push(mono, combination)?;
    }
    Ok(split)
}

/// Adds the one joined with each of the others after `made`. Large exactly where one of these
/// passes its limits.
fn push_joined(
    made: &mut Items<Combination>,
    alloc: Global,
    mono: &Mono,
    first: &Combination,
    seconds: &[Combination],
) -> Result<(), FmEnd>
    requires first { int_lt (pos 0) (at mono.now first.now) ≡ true }
    requires seconds { list_all (λ c. int_lt (at mono.now c) (pos 0)) seconds.now ≡ true }
    ensures ok { OnOk result (made.new ≡ made.old ++ map (resolvent mono.now first.now) seconds.now) }
    ensures within { OnOk result (list_all (resolvent_within mono.now first.now) seconds.now ≡ true) }
    ensures large { IfErr result (λ e. e ≡ FmEnd.Large →
        list_all (resolvent_within mono.now first.now) seconds.now ≡ false) }
{
    for second in seconds {
        let both = joined(alloc, mono, first, second)?;
        made.push(both)?;
    }
    Ok(())
}

/// Adds each of the first joined with each of the second after `made`. Large exactly where one of
/// these passes its limits.
fn push_pairs(
    made: &mut Items<Combination>,
    alloc: Global,
    mono: &Mono,
    firsts: &[Combination],
    seconds: &[Combination],
) -> Result<(), FmEnd>
    requires firsts { list_all (λ c. int_lt (pos 0) (at mono.now c)) firsts.now ≡ true }
    requires seconds { list_all (λ c. int_lt (at mono.now c) (pos 0)) seconds.now ≡ true }
    ensures ok { OnOk result (made.new ≡ made.old ++ pairs mono.now firsts.now seconds.now) }
    ensures within { OnOk result (pairs_within mono.now firsts.now seconds.now ≡ true) }
    ensures large { IfErr result (λ e. e ≡ FmEnd.Large →
        pairs_within mono.now firsts.now seconds.now ≡ false) }
{
    for first in firsts {
        push_joined(made, alloc, mono, first, seconds)?;
    }
    Ok(())
}

/// Whether no more than `limit` combinations come of these.
fn are_few(split: &BySign, limit: u32) -> bool
    ensures { result ≡ nat_le (length split.now.without +
        length split.now.positive * length split.now.negative) limit }
{
    let pairs = split.positive.len() as u128 * split.negative.len() as u128;
    split.without.len() as u128 + pairs <= u128::from(limit)
}

/// The combinations without the monomial, and each pair in which it has opposite signs joined so
/// that it cancels. Large exactly where something that is formed passes its limits, or more than
/// `limit` come of it.
pub(crate) fn stage(
    alloc: Global,
    combinations: Items<Combination>,
    mono: &Mono,
    limit: u32,
) -> Result<Items<Combination>, FmEnd>
    ensures { Forms FmEnd.Large result (stage_formed limit mono.now combinations) }
{
    let split = split(alloc, combinations, mono)?;
    if !are_few(&split, limit) {
        return Err(FmEnd::Large);
    }
    let BySign {
        mut without,
        positive,
        negative,
    } = split;
    push_pairs(
        &mut without,
        alloc,
        mono,
        positive.as_slice(),
        negative.as_slice(),
    )?;
    Ok(without)
}
