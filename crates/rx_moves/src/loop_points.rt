//! The loop points of a rule set, found once.
ghost use Rattle.std.specs.Prelude.{◌≡◌, IfOk};
ghost use Rattle.rx_term.specs.declared.rule_set.RuleParts.{RuleParts};
ghost use Rattle.rx_moves.specs.LoopPoints.{AreLoopPoints};
ghost use Rattle.rx_moves.specs.Unfolding.{is_at_loop_point, is_tried, leaves};

use rx_pairs::{Loops, loops_of};
use rx_plain::NoMemory;
use rx_term::{Rule, RuleSet, Sym};
use std::alloc::Global;

/// Which symbols of a rule set are loop points, and which lie in one component of the graph of its
/// pairs.
#[derive(Drop)]
pub struct LoopPoints {
    loops: Loops,
}

/// There are no more symbols than this.
const MOST_SYMBOLS: usize = 1 << 32;

impl LoopPoints {
    /// Those of the rule set. Fails only where there is no memory; a set of more than 2^32 symbols
    /// fits none.
    pub fn new(alloc: Global, rules: &RuleSet) -> Result<LoopPoints, NoMemory>
        ensures { IfOk result (AreLoopPoints rules.now) }
    {
        let parts = rules.parts();
        if parts.symbols.len() > MOST_SYMBOLS {
            return Err(NoMemory);
        }
        Ok(LoopPoints {
            loops: loops_of(alloc, parts)?,
        })
    }

    /// The loop points and components, borrowed.
    pub fn loops(&self) -> &Loops
        ensures { result.now ≡ self.now.loops }
    {
        &self.loops
    }

    /// Whether the right side of the rule doesn't begin in the component of the symbol.
    fn leaves(&self, from: Sym, rule: &Rule) -> bool
        ensures { (parts : RuleParts) → AreLoopPoints parts self.now → result ≡
            leaves parts from rule.now }
    {
        match rule.right.root() {
            Some(root) => !self.loops.in_one_component(from.0, root.0),
            None => true,
        }
    }

    /// Whether there is a symbol and it is a loop point.
    pub(crate) fn is_at_loop_point(&self, redex: Option<Sym>) -> bool
        ensures { (parts : RuleParts) → AreLoopPoints parts self.now → result ≡
            is_at_loop_point parts redex }
    {
        match redex {
            Some(sym) => self.loops.is_loop_point(sym.0),
            None => false,
        }
    }

    /// Whether the rule is tried: all are, or those that leave the component of a symbol.
    pub(crate) fn is_tried(&self, from: Option<Sym>, rule: &Rule) -> bool
        ensures { (parts : RuleParts) → AreLoopPoints parts self.now → result ≡
            is_tried parts from rule.now }
    {
        match from {
            Some(sym) => self.leaves(sym, rule),
            None => true,
        }
    }
}
