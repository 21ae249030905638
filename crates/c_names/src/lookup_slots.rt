//! Scopes (ISO/IEC 9899:1999, 6.2.1): the variables in scope, each at its slot.
ghost use Rattle.std.specs.Prelude.{◌≤◌, length};

use crate::error::ScopeEnd;
use crate::names::name_at;
use rx_plain::{Items, NoMemory};
use std::alloc::Global;

const MAX_SLOTS: usize = 64;

/// The names in scope, and where the innermost scope begins. A scope inside is a copy, so that the
/// slots of its variables are given back with it.
#[derive(Drop)]
pub struct Scope {
    /// The names of the variables in scope by slot, in the order of declaration.
    pub names: Items<u32>,
    /// How many of them the innermost scope found in scope when it began.
    pub outer: usize,
    ghost few: { length names ≤ 64 },
    ghost within: { outer ≤ length names },
}

impl Scope {
    ghost use Rattle.std.specs.Prelude.{◌≡◌, ◌+◌, IfOk, OnOk};
    ghost use Rattle.c_names.specs.Names as name_spec;
    ghost use Rattle.c_names.specs.LookupSlots as spec;
    ghost use Rattle.c_names.specs.LookupSlots.{GivesScope};
    ghost use Rattle.c_names.specs.Views.{model_of};

    /// No variable is in scope.
    pub fn new(alloc: Global) -> Scope
        ensures { model_of result ≡ spec.empty_scope }
    {
        Scope {
            names: Items::new(alloc),
            outer: 0,
        }
    }

    /// The scope again; fails only when out of memory.
    pub fn try_clone(&self, alloc: Global) -> Result<Scope, NoMemory>
        ensures { IfOk result (λ s. model_of s ≡ model_of self.now) }
    {
        Ok(Scope {
            names: Items::from_slice(alloc, self.names.as_slice())?,
            outer: self.outer,
        })
    }

    /// A scope that begins inside this one; fails only when out of memory.
    pub fn inner_scope(&self, alloc: Global) -> Result<Scope, NoMemory>
        ensures { IfOk result (λ s. model_of s ≡ spec.inner_scope (model_of self.now)) }
    {
        Ok(Scope {
            names: Items::from_slice(alloc, self.names.as_slice())?,
            outer: self.names.len(),
        })
    }

    /// Declares the variable of this token in the innermost scope, and answers its slot.
    pub fn declare(&mut self, names: &[u32], token: u32) -> Result<u32, ScopeEnd>
        ensures slot { IfOk result (λ slot. slot ≡ length self.old.names) }
        ensures more { OnOk result (length self.new.names ≡ length self.old.names + 1) }
        ensures scope { GivesScope result (model_of self.new)
            (spec.declare token (name_spec.name_at names.now token) (model_of self.old)) }
    {
        let name = name_at(names, token);
        if self.is_declared(name) {
            return Err(ScopeEnd::TwiceDeclared { token });
        }
        if self.names.len() >= MAX_SLOTS {
            return Err(ScopeEnd::TooManySlots { token });
        }
        let slot = self.names.len() as u32;
        self.names.push(name)?;
        Ok(slot)
    }

    // Whether the innermost scope has a variable of this name.
    fn is_declared(&self, name: u32) -> bool
        ensures { result ≡ spec.is_declared (model_of self.now) name }
    {
        self.names.as_slice()[self.outer..].contains(&name)
    }
}
