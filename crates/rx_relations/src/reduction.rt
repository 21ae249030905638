//! Which combinations of polynomials have the value 0.
ghost use Rattle.std.specs.Prelude.{◌≡◌, OnOk};
ghost use Rattle.rx_plain.specs.Formed.{Forms, FormsAs};
ghost use Rattle.rx_poly.specs.declared.body.Body.{out-Body};
ghost use Rattle.rx_relations.specs.Cancelling.{vanishing};
ghost use Rattle.rx_relations.specs.Reducing.{placed, taken, vanishing_in_order};

use crate::cancelling::reduced;
use crate::combination::Combination;
use rx_plain::Items;
use rx_poly::{Poly, PolyEnd};
use std::alloc::{AllocError, Global};

/// Combinations that were taken: those of other values than 0, by which later ones are reduced, and
/// the relations of the others.
#[derive(Drop)]
pub(crate) struct Reduction {
    pub(crate) pivots: Items<Combination>,
    pub(crate) vanishing: Items<Poly>,
}

impl Reduction {
    /// Keeps the relation of a combination of value 0; any other one is a pivot for those after it.
    fn place(&mut self, combination: Combination) -> Result<(), AllocError>
        ensures { OnOk result (self.new ≡
            placed (out-Body combination.value).terms self.old combination) }
    {
        if !combination.value.body().terms.is_empty() {
            return self.pivots.push(combination);
        }
        let Combination {
            value: _value,
            relation,
        } = combination;
        self.vanishing.push(relation)
    }

    /// Takes the combination, reduced by the pivots; Large exactly where a polynomial on the way
    /// passes the limits.
    fn take(&mut self, alloc: Global, combination: &Combination) -> Result<(), PolyEnd>
        ensures { FormsAs (λ _. self.new) PolyEnd.Large result (taken self.old combination.now) }
    {
        let rest = reduced(alloc, combination, self.pivots.as_slice())?;
        Ok(self.place(rest)?)
    }
}

/// The relations of value 0 among the combinations of these, which are taken one after the other;
/// Large exactly where a polynomial on the way passes the limits.
fn reduce_all(alloc: Global, combinations: &[Combination]) -> Result<Items<Poly>, PolyEnd>
    ensures { Forms PolyEnd.Large result (vanishing_in_order combinations.now) }
{
    let mut done = Reduction {
        pivots: Items::new(alloc),
        vanishing: Items::new(alloc),
    };
    for combination in combinations {
        done.take(alloc, combination)?;
    }
    Ok(done.vanishing)
}

/// The relations of value 0 among the combinations of these; Large exactly where a polynomial on
/// the way passes the limits.
pub(crate) fn vanishing_combinations(
    alloc: Global,
    combinations: &[Combination],
) -> Result<Items<Poly>, PolyEnd>
    ensures { Forms PolyEnd.Large result (vanishing combinations.now) }
{
    reduce_all(alloc, combinations)
}
