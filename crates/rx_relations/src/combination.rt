//! Combinations of polynomials, with the values that they have at a goal.
ghost use Rattle.std.specs.Prelude.{◌≡◌, IfOk};
ghost use Rattle.rx_relations.specs.Content.{common_content, primitive_parts};

use crate::content::{divided_poly, gcd_with};
use rx_poly::Poly;
use std::alloc::{AllocError, Global};

/// A combination of polynomials, with its value at a goal.
#[derive(Drop)]
pub(crate) struct Combination {
    pub(crate) value: Poly,
    pub(crate) relation: Poly,
}

impl Combination {
    /// The same combination once more, which takes no memory; fails only where no more copies can
    /// be counted.
    pub(crate) fn try_clone(&self, alloc: Global) -> Result<Combination, AllocError>
        ensures { IfOk result (λ c. c ≡ self.now) }
    {
        let value = self.value.try_clone(alloc)?;
        let relation = self.relation.try_clone(alloc)?;
        Ok(Combination { value, relation })
    }

    /// The greatest common divisor of all coefficients of both parts.
    fn common_content(&self) -> u128
        ensures { result ≡ common_content self.now }
    {
        let of_value = gcd_with(0, self.value.body().terms.as_slice());
        gcd_with(of_value, self.relation.body().terms.as_slice())
    }
}

/// Both parts divided by the greatest common divisor of all their coefficients.
pub(crate) fn primitive_parts(
    alloc: Global,
    combination: Combination,
) -> Result<Combination, AllocError>
    ensures { IfOk result (λ c. c ≡ primitive_parts combination) }
{
    let by = combination.common_content();
    if by == 1 {
        return Ok(combination);
    }
    let value = divided_poly(alloc, &combination.value, by)?;
    let relation = divided_poly(alloc, &combination.relation, by)?;
    Ok(Combination { value, relation })
}
