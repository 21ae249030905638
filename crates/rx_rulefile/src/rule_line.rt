//! The lines of a rule text.

use rx_term::{Equation, Rule, SymInfo};

/// A line of a rule text.
#[derive(Drop)]
pub enum RuleLine {
    /// The first line, which names the format.
    Header,
    /// The greatest failure code.
    Fails(u8),
    /// A symbol.
    Symbol {
        /// Its number.
        number: u32,
        /// What it is.
        info: SymInfo,
    },
    /// A rule.
    Rule(Rule),
    /// The equation.
    Equation(Equation),
    /// The last line.
    End,
}
