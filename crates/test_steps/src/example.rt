//! A rule set with a point s0 and a frame s1, both of one argument, and one failure code.
use rx_term::RuleSet;
use std::alloc::Global;
use test_lines::parts;

/// The greatest failure code, the symbols and the rules.
const PARTS: &str = "1 | 2 1e 1f | 4 s0(1*v0) ret(0) 1 eq:1*v0 \
s0(1*v0) s1(1*v0;s0(1*v0+-1)) 1 ne:1*v0 \
s1(1*v0;ret(1*v1)) ret(1*v0+1*v1) 0 \
s1(1*v0;fail(1)) fail(1) 0";

/// The rule set.
pub fn rules(alloc: Global) -> Option<RuleSet> {
    RuleSet::from_parts(parts(alloc, PARTS)?)
}
