//! Polynomials with numbers.
ghost use Rattle.std.specs.Prelude.{◌≡◌, [], ◌∷◌, ◌++◌, length, slice_get, Contains, Some, IfOk, OnErr, OnOk};
ghost use Rattle.std.specs.Option.{option_copied};
ghost use Rattle.rx_bank.specs.Numbers.{AreDistinct, KeepsNumbers};

use indexmap::IndexSet;
use rx_plain::NoMemory;
use rx_poly::Poly;
use std::alloc::Global;
use std::marker::Model;

/// A list of polynomials, none of which is there twice. The number of each is its place, counted
/// from 0.
#[derive(Drop)]
pub struct Bank {
    polys: IndexSet<Poly>,
}

impl Model for Bank {
    ghost use Rattle.std.specs.Prelude.{List};
    ghost use Rattle.std.specs.Coded.{coded_list};
    ghost use Rattle.rx_poly.specs.contracts.poly.Poly as poly_row;
    ghost use Rattle.rx_poly.specs.declared.body.Body.{Body};

    ghost Value = { List Body };

    ghost coded = { coded_list poly_row.the_row.coded };

    ghost view = { λ b. b.polys.keys };
}

impl Bank {
    /// The empty list. Takes no memory until a polynomial is numbered.
    pub fn new(alloc: Global) -> Bank
        ensures { result ≡ [] }
    {
        Bank {
            polys: IndexSet::new(alloc),
        }
    }

    /// The number of the polynomial, which goes last where it is new. All others keep their
    /// numbers. Without memory the list stays as it was.
    pub fn number(&mut self, alloc: Global, poly: &Poly) -> Result<usize, NoMemory>
        ensures number { IfOk result (λ at. slice_get self.new at ≡ Some poly.now) }
        ensures known { Contains self.old poly.now → self.new ≡ self.old }
        ensures new { OnOk result (¬ (Contains self.old poly.now) → self.new ≡ self.old ++
            poly.now ∷ []) }
        ensures err { OnErr result (self.new ≡ self.old) }
        ensures stay { KeepsNumbers self.old self.new }
    {
        if let Some(at) = self.polys.get_index_of(poly) {
            return Ok(at);
        }
        let copy = poly.try_clone(alloc)?;
        let (at, _) = self.polys.insert_full(copy)?;
        Ok(at)
    }

    /// How many polynomials there are; none is there twice.
    pub fn len(&self) -> usize
        ensures len { result ≡ length self.now }
        ensures distinct { AreDistinct self.now }
    {
        self.polys.len()
    }

    /// The polynomial of that number, borrowed; None exactly past the end. Takes no memory.
    pub fn poly(&self, at: usize) -> Option<&Poly>
        ensures { option_copied result ≡ slice_get self.now at }
    {
        self.polys.get_index(at)
    }
}
