//! A rule set with a point s0 and a frame s1, both of one argument, and one failure code.
use rx_plain::Items;
use rx_poly::Poly;
use rx_term::RuleSet;
use std::alloc::Global;
use test_lines::parts;

/// The greatest failure code, the symbols and the rules.
const PARTS: &str = "1 | 2 1e 1f | 4 s0(1*v0) ret(0) 1 eq:1*v0 \
s0(1*v0) s1(1*v0;s0(1*v0+-1)) 1 ne:1*v0 \
s1(1*v0;ret(1*v1)) ret(1*v0+1*v1) 0 \
s1(1*v0;fail(1)) fail(1) 0";

/// The greatest failure code, the symbols and the first of those rules.
const FIRST: &str = "1 | 2 1e 1f | 1 s0(1*v0) ret(0) 1 eq:1*v0";

/// The rule set.
pub fn rules(alloc: Global) -> Option<RuleSet> {
    RuleSet::from_parts(parts(alloc, PARTS)?)
}

/// The set of the first rule.
pub fn first_rule(alloc: Global) -> Option<RuleSet> {
    RuleSet::from_parts(parts(alloc, FIRST)?)
}

/// A list of one polynomial.
pub fn alone(alloc: Global, poly: Poly) -> Option<Items<Poly>> {
    let mut polys = Items::new(alloc);
    polys.push(poly).ok()?;
    Some(polys)
}
