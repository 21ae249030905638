//! Equations and rules between terms, each under rows that are to hold.
ghost use Rattle.std.specs.Prelude.{◌≡◌, ◌↔◌, IsTrue, IfOk};

use crate::term::Term;
use rx_row::Constraint;
use std::alloc::{AllocError, Global};

/// Two terms that are to be equal wherever the rows hold.
#[derive(Drop)]
pub struct Equation {
    /// The left side.
    pub left: Term,
    /// The right side.
    pub right: Term,
    /// Under which the two are equal.
    pub rows: Constraint,
}

/// A rule: the left side steps to the right one wherever the rows hold.
#[derive(Drop)]
pub struct Rule {
    /// What is replaced.
    pub left: Term,
    /// What is in its place.
    pub right: Term,
    /// Under which it may be replaced.
    pub rows: Constraint,
}

impl Equation {
    /// Whether the two are one equation. Takes no memory.
    pub fn is_same(&self, other: &Equation) -> bool
        ensures { IsTrue result ↔ (self.now ≡ other.now) }
    {
        self.left.is_same(&other.left)
            && self.right.is_same(&other.right)
            && self.rows.is_same(&other.rows)
    }

    /// The same equation once more; fails only when out of memory.
    pub fn try_clone(&self, alloc: Global) -> Result<Equation, AllocError>
        ensures { IfOk result (λ e. e ≡ self.now) }
    {
        Ok(Equation {
            left: self.left.try_clone(alloc)?,
            right: self.right.try_clone(alloc)?,
            rows: self.rows.try_clone(alloc)?,
        })
    }
}

impl Rule {
    /// Whether the two are one rule. Takes no memory.
    pub fn is_same(&self, other: &Rule) -> bool
        ensures { IsTrue result ↔ (self.now ≡ other.now) }
    {
        self.left.is_same(&other.left)
            && self.right.is_same(&other.right)
            && self.rows.is_same(&other.rows)
    }

    /// The same rule once more; fails only when out of memory.
    pub fn try_clone(&self, alloc: Global) -> Result<Rule, AllocError>
        ensures { IfOk result (λ r. r ≡ self.now) }
    {
        Ok(Rule {
            left: self.left.try_clone(alloc)?,
            right: self.right.try_clone(alloc)?,
            rows: self.rows.try_clone(alloc)?,
        })
    }
}
