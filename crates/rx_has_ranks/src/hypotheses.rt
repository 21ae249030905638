//! The pairs of hypotheses inside the domains.
ghost use Rattle.std.specs.Prelude.{◌≡◌, ◌++◌, All, IfOk, OnOk};
ghost use Rattle.rx_pairs.specs.Inside.{listing};
ghost use Rattle.rx_pairs.specs.Pairs.{HasRoot};

use rx_pairs::{Listing, Pair, PolyEnd, pairs_in};
use rx_plain::{Items, NoMemory};
use rx_term::{Rule, RuleSet};
use std::alloc::Global;

/// Adds the pairs of these hypotheses after the others, until those of one pass the limits. Whether
/// none do.
fn push_listed(
    pairs: &mut Items<Pair>,
    alloc: Global,
    rules: &RuleSet,
    hypotheses: &[Rule],
) -> Result<bool, NoMemory>
    requires { All HasRoot hypotheses.now }
    ensures whole { IfOk result (λ whole. whole ≡ (listing rules.now hypotheses.now).whole) }
    ensures pairs { OnOk result (pairs.new ≡
        pairs.old ++ (listing rules.now hypotheses.now).pairs) }
{
    for rule in hypotheses {
        match pairs_in(alloc, rules, rule) {
            Ok(more) => pairs.append(Items::from_vec(more))?,
            Err(PolyEnd::Large) => return Ok(false),
            Err(PolyEnd::NoMemory) => return Err(NoMemory),
        }
    }
    Ok(true)
}

/// The pairs of the hypotheses inside the domains, up to the first whose pairs pass the limits.
pub(crate) fn hypothesis_pairs(
    alloc: Global,
    rules: &RuleSet,
    hypotheses: &[Rule],
) -> Result<Listing, NoMemory>
    requires { All HasRoot hypotheses.now }
    ensures { IfOk result (λ made. made ≡ listing rules.now hypotheses.now) }
{
    let mut pairs = Items::new(alloc);
    let whole = push_listed(&mut pairs, alloc, rules, hypotheses)?;
    Ok(Listing { pairs, whole })
}
