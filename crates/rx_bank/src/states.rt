//! Packing states and unpacking them again.
ghost use Rattle.std.specs.Prelude.{◌≡◌, true, IfOk, length};
ghost use Rattle.rx_bank.specs.Numbers.{KeepsNumbers};
ghost use Rattle.rx_bank.specs.Packing.{StandsFor, is_within, unpacked};

use crate::bank::Bank;
use crate::packed::Packed;
use crate::packing::{pack_goals, pack_rules};
use crate::parts::are_equations_within;
use crate::unpacking::{unpack_equations, unpack_rules};
use rx_plain::NoMemory;
use rx_steps::State;
use std::alloc::Global;

/// A state has fewer goals and fewer hypotheses than this.
const LIMIT: usize = 1 << 32;

impl Bank {
    /// The state with the numbers of its polynomials, which go last where they are new. All others
    /// keep their numbers, also where memory runs out. What is packed represents the state then and
    /// after any more calls.
    pub fn pack(&mut self, alloc: Global, state: &State) -> Result<Packed, NoMemory>
        ensures packed { IfOk result (λ packed. StandsFor self.new packed state.now) }
        ensures stay { KeepsNumbers self.old self.new }
    {
        let goals = pack_goals(self, alloc, state)?;
        let hypotheses = pack_rules(self, alloc, state.hypotheses())?;
        if goals.len() >= LIMIT || hypotheses.len() >= LIMIT {
            return Err(NoMemory);
        }
        Ok(Packed { goals, hypotheses })
    }

    /// Whether all numbers of the packed state are numbers of polynomials here. Takes no memory.
    pub fn holds(&self, packed: &Packed) -> bool
        ensures { result ≡ is_within (length self.now) packed.now }
    {
        let count = self.len();
        are_equations_within(count, packed.goals.as_slice())
            && are_equations_within(count, packed.hypotheses.as_slice())
    }

    /// The state that the packed one represents: each number is replaced by its polynomial. Each
    /// must be the number of a polynomial here.
    pub fn unpack(&self, alloc: Global, packed: &Packed) -> Result<State, NoMemory>
        requires { is_within (length self.now) packed.now ≡ true }
        ensures { IfOk result (λ state. state ≡ unpacked self.now packed.now) }
    {
        let goals = unpack_equations(self, alloc, packed.goals.as_slice())?;
        let hypotheses = unpack_rules(self, alloc, packed.hypotheses.as_slice())?;
        State::from_parts(alloc, goals, hypotheses)
    }
}
