//! What the lines of a rule text have said so far.
ghost use Rattle.std.specs.Prelude.{◌≡◌, OnOk};
ghost use Rattle.rx_rulefile.specs.Gathering as spec;

use crate::rule_line::RuleLine;
use rx_plain::{Items, NoMemory};
use rx_term::{Equation, RuleParts};
use std::alloc::Global;

/// The parts of a rule set as far as they have come, and the equation once it has.
#[derive(Drop)]
pub(crate) struct Gathered {
    pub(crate) parts: RuleParts,
    pub(crate) goal: Option<Equation>,
}

impl Gathered {
    /// Nothing yet.
    pub(crate) fn new(alloc: Global) -> Gathered
        ensures { result ≡ spec.blank }
    {
        Gathered {
            parts: RuleParts {
                symbols: Items::new(alloc),
                domains: Items::new(alloc),
                rules: Items::new(alloc),
                fails: 0,
            },
            goal: None,
        }
    }

    /// Adds what the line says.
    pub(crate) fn push(&mut self, line: RuleLine) -> Result<(), NoMemory>
        ensures { OnOk result (self.new ≡ spec.pushed line self.old) }
    {
        match line {
            RuleLine::Header => {}
            RuleLine::Fails(fails) => self.parts.fails = fails,
            RuleLine::Symbol { info, .. } => self.parts.symbols.push(info)?,
            RuleLine::Rule(rule) => self.parts.rules.push(rule)?,
            RuleLine::Equation(equation) => self.goal = Some(equation),
            RuleLine::End => {}
        }
        Ok(())
    }
}
