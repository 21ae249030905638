//! The pairs of rules inside the domains, in one list.
ghost use Rattle.std.specs.Prelude.{◌≡◌, ◌++◌, All, IfOk, OnOk};
ghost use Rattle.rx_pairs.specs.Inside.{listing};
ghost use Rattle.rx_pairs.specs.Pairs.{HasRoot};

use crate::pair::Pair;
use crate::pairs::pairs_in;
use rx_plain::{Items, NoMemory};
use rx_poly::PolyEnd;
use rx_term::{Rule, RuleSet};
use std::alloc::Global;

/// The pairs of rules inside the domains, up to the first rule whose pairs pass the limits.
#[derive(Debug, Drop)]
pub struct Listing {
    /// The pairs in order, those of the first rule first.
    pub pairs: Items<Pair>,
    /// Whether these are all.
    pub whole: bool,
}

/// Adds the pairs of these rules after the others, until those of a rule pass the limits. Whether
/// none do.
fn push_listed(
    pairs: &mut Items<Pair>,
    alloc: Global,
    rules: &RuleSet,
    list: &[Rule],
) -> Result<bool, NoMemory>
    requires { All HasRoot list.now }
    ensures whole { IfOk result (λ whole. whole ≡ (listing rules.now list.now).whole) }
    ensures pairs { OnOk result (pairs.new ≡ pairs.old ++ (listing rules.now list.now).pairs) }
{
    for rule in list {
        match pairs_in(alloc, rules, rule) {
            Ok(more) => pairs.append(Items::from_vec(more))?,
            Err(PolyEnd::Large) => return Ok(false),
            Err(PolyEnd::NoMemory) => return Err(NoMemory),
        }
    }
    Ok(true)
}

/// The pairs inside the domains of the rules, and then those of the hypotheses, up to the first
/// rule or hypothesis whose pairs pass the limits. Fails only where there is no memory.
///
/// The left side of a hypothesis must not be a bare result.
pub fn listed_pairs(
    alloc: Global,
    rules: &RuleSet,
    hypotheses: &[Rule],
) -> Result<Listing, NoMemory>
    requires { All HasRoot hypotheses.now }
    ensures { IfOk result (λ made. made ≡
        listing rules.now (rules.now.rules ++ hypotheses.now)) }
{
    let mut pairs = Items::new(alloc);
    let all = rules.parts();
    let first = push_listed(&mut pairs, alloc, rules, all.rules.as_slice())?;
    if first {
        let whole = push_listed(&mut pairs, alloc, rules, hypotheses)?;
        return Ok(Listing { pairs, whole });
    }
    Ok(Listing {
        pairs,
        whole: false,
    })
}
