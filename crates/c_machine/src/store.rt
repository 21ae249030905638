//! What a run keeps: the slots of all functions that have begun, in one list, the values that wait
//! for their operator or call, and how many slots there were as each scope began.
ghost use Rattle.std.specs.Prelude.{◌≡◌, ◌++◌, ◌∷◌, ◌<◌, ◌≤◌, [], IfOk, OnOk, length, take, drop, reverse, slice_set, int_lt, if◌then◌else◌};
ghost use Rattle.c_meaning.specs.Expressions.{slot};
ghost use Rattle.c_code.specs.Flat as spec;
ghost use Rattle.c_code.specs.Stores.{below_top, called, ended, entered, given_back, left_scope, pushed, top, with_state, with_values};

use c_code::{Leaf, Operand};
use rx_plain::NoMemory;
use std::alloc::Global;
use std::marker::Model;

/// The slots, values and scopes of a run.
#[derive(Drop)]
pub(crate) struct Store {
    slots: Vec<i128>,
    base: usize,
    values: Vec<i128>,
    scopes: Vec<usize>,
}

impl Model for Store {
    ghost use Rattle.std.specs.Prelude.{◌≤◌, length, take, drop, reverse};
    ghost use Rattle.c_code.specs.Stores.{Kept};

    ghost Value = { Kept };

    ghost view = { λ s. record {
      values = reverse s.values.items;
      below = take s.base s.slots.items;
      state = drop s.base s.slots.items;
      scopes = reverse s.scopes.items;
    } };

    ghost invariant = { λ s. s.base ≤ length s.slots.items };
}

/// Writes a value in place of another.
#[inline(always)]
fn put(slots: &mut Vec<i128>, at: usize, value: i128)
    requires { at < length slots.old.items }
    ensures { slots.new.items ≡ slice_set slots.old.items at value }
{
    slots[at] = value;
}

/// The first position where it holds, and else the second.
#[inline(always)]
fn either(holds: bool, first: usize, second: usize) -> usize
    ensures { result ≡ if holds then first else second }
{
    if holds { first } else { second }
}

/// Adds values at the end, one by one: they are few.
#[inline(always)]
fn push_all(slots: &mut Vec<i128>, values: &[i128]) -> Result<(), NoMemory>
    ensures added { OnOk result (slots.new.items ≡ slots.old.items ++ values.now) }
    ensures grown { length slots.old.items ≤ length slots.new.items }
{
    for value in values {
        slots.push(*value)?;
    }
    Ok(())
}

impl Store {
    /// Nothing is kept.
    pub fn new(alloc: Global) -> Store
        ensures { result ≡ record { values = []; below = []; state = []; scopes = [] } }
    {
        Store {
            slots: Vec::new(alloc),
            base: 0,
            values: Vec::new(alloc),
            scopes: Vec::new(alloc),
        }
    }

    /// Keeps nothing but these slots.
    pub fn begin(&mut self, state: &[i128]) -> Result<(), NoMemory>
        ensures { OnOk result (self.new ≡ record {
          values = [];
          below = [];
          state = state.now;
          scopes = [];
        }) }
    {
        self.base = 0;
        self.slots.clear();
        self.values.clear();
        self.scopes.clear();
        push_all(&mut self.slots, state)?;
        Ok(())
    }

    /// The value of a slot; 0 where it isn't in scope.
    #[inline(always)]
    pub fn value_at(&self, at: u32) -> i128
        ensures { result ≡ slot self.now.state at }
    {
        match self.slots.as_slice().get(self.base + at as usize) {
            Some(value) => *value,
            None => 0,
        }
    }

    /// How many slots are in scope.
    #[inline(always)]
    pub fn count(&self) -> usize
        ensures { result ≡ length self.now.state }
    {
        self.slots.len() - self.base
    }

    /// Gives a slot a value, where it is in scope.
    #[inline(always)]
    pub fn assign(&mut self, at: u32, value: i128)
        ensures { self.new ≡ with_state self.old (slice_set self.old.state at value) }
    {
        let at = self.base + at as usize;
        if at < self.slots.len() {
            put(&mut self.slots, at, value);
        }
    }

    /// Lets go of all but the first `count` slots.
    #[inline(always)]
    fn keep_first(&mut self, count: usize)
        ensures { self.new ≡ with_state self.old (take count self.old.state) }
    {
        if count < self.count() {
            self.slots.truncate(self.base + count);
        }
    }

    /// Adds a slot after the first `at`; the others are let go of.
    #[inline(always)]
    pub fn declare(&mut self, at: u32, value: i128) -> Result<(), NoMemory>
        ensures { OnOk result (self.new ≡ with_state self.old
            (take at self.old.state ++ value ∷ [])) }
    {
        self.keep_first(at as usize);
        self.slots.push(value)?;
        Ok(())
    }

    /// Pushes a value on top.
    #[inline(always)]
    pub fn push(&mut self, value: i128) -> Result<(), NoMemory>
        ensures { OnOk result (self.new ≡ pushed self.old value) }
    {
        self.values.push(value)?;
        Ok(())
    }

    /// Takes the value on top off; 0 where there is none.
    #[inline(always)]
    fn pop(&mut self) -> i128
        ensures value { result ≡ top self.old.values }
        ensures kept { self.new ≡ with_values self.old (below_top self.old.values) }
    {
        match self.values.pop() {
            Some(value) => value,
            None => 0,
        }
    }

    /// Reads an operand.
    #[inline(always)]
    pub fn read(&mut self, operand: Operand) -> i128
        ensures value { result ≡ spec.read operand self.old }
        ensures kept { self.new ≡ spec.after operand self.old }
    {
        match operand {
            Operand::Constant(value) => i128::from(value),
            Operand::Slot(at) => self.value_at(at),
            Operand::Popped => self.pop(),
        }
    }

    /// The value of a leaf.
    #[inline(always)]
    pub fn leaf_value(&self, leaf: &Leaf) -> i128
        ensures { result ≡ spec.leaf_value leaf.now self.now }
    {
        match leaf {
            Leaf::Constant(value) => i128::from(*value),
            Leaf::Slot(at) => self.value_at(*at),
        }
    }

    /// Where it goes on after two leaves are compared: at `less` where the first is less.
    #[inline(always)]
    pub fn compare(&self, x: &Leaf, y: &Leaf, less: usize, other: usize) -> usize
        ensures { result ≡ if int_lt (spec.leaf_value x.now self.now)
            (spec.leaf_value y.now self.now) then less else other }
    {
        let x = self.leaf_value(x);
        let y = self.leaf_value(y);
        either(x < y, less, other)
    }

    /// Begins a scope.
    #[inline(always)]
    pub fn enter(&mut self) -> Result<(), NoMemory>
        ensures { OnOk result (self.new ≡ entered self.old) }
    {
        let count = self.count();
        self.scopes.push(count)?;
        Ok(())
    }

    /// Ends a scope.
    #[inline(always)]
    pub fn leave(&mut self)
        ensures { self.new ≡ left_scope self.old }
    {
        let count = match self.scopes.pop() {
            Some(count) => count,
            None => 0,
        };
        self.keep_first(count);
    }

    /// Ends a function, in which n scopes have begun: none of its slots is read any more.
    #[inline(always)]
    pub fn end(&mut self, scopes: usize)
        ensures { self.new ≡ ended self.old scopes }
    {
        self.slots.truncate(self.base);
        if scopes > 0 {
            let left = self.scopes.len().saturating_sub(scopes);
            self.scopes.truncate(left);
        }
    }

    /// Begins a function, whose slots are n values from the top; returns where the slots of its
    /// caller begin.
    #[inline(always)]
    pub fn call(&mut self, count: usize) -> Result<usize, NoMemory>
        ensures base { IfOk result (λ base. base ≡ length self.old.below) }
        ensures kept { OnOk result (self.new ≡ called self.old count) }
    {
        let base = self.base;
        let first = self.values.len().saturating_sub(count);
        self.base = self.slots.len();
        push_all(&mut self.slots, &self.values[first..])?;
        self.values.truncate(first);
        Ok(base)
    }

    /// Ends a function; the slots of its caller begin at `base`.
    #[inline(always)]
    pub fn return_to(&mut self, base: usize)
        ensures { self.new ≡ given_back self.old base }
    {
        self.slots.truncate(self.base);
        self.base = base.min(self.slots.len());
    }
}
