//! Variables that the arguments of a part set.
ghost use Rattle.std.specs.Prelude.{◌≡◌, IfOk};
ghost use Rattle.std.specs.List.{zip};
ghost use Rattle.rx_poly.specs.Reading.{variable_of};
ghost use Rattle.rx_poly.specs.declared.body.Body.{out-Body};
ghost use Rattle.rx_term.specs.Variables.{arguments_of};
ghost use Rattle.rx_match.specs.Arguments.{set_by_arguments, set_by_pairs, set_lone};

use crate::settings::{is_set, set_to};
use rx_plain::Items;
use rx_poly::Poly;
use rx_term::Term;
use std::alloc::{AllocError, Global};

/// The settings with the pattern set to the polynomial, where it is a variable that isn't set.
fn set_lone(
    alloc: Global,
    settings: Items<(u32, Poly)>,
    pattern: &Poly,
    poly: &Poly,
) -> Result<Items<(u32, Poly)>, AllocError>
    ensures { IfOk result (λ ws. ws ≡ set_lone (variable_of (out-Body pattern.now).terms) poly.now
        settings) }
{
    match pattern.as_variable() {
        Some(variable) if !is_set(settings.as_slice(), variable) => {
            set_to(settings, variable, poly.try_clone(alloc)?)
        }
        _ => Ok(settings),
    }
}

/// The settings with what the polynomials set, one by one, as far as there are patterns.
fn set_by_pairs(
    alloc: Global,
    patterns: &[Poly],
    polys: &[Poly],
    settings: Items<(u32, Poly)>,
) -> Result<Items<(u32, Poly)>, AllocError>
    ensures { IfOk result (λ ws. ws ≡ set_by_pairs (zip patterns.now polys.now) settings) }
{
    let mut settings = settings;
    let mut others = polys;
    for pattern in patterns {
        let Some((poly, more)) = others.split_first() else {
            return Ok(settings);
        };
        settings = set_lone(alloc, settings, pattern, poly)?;
        others = more;
    }
    Ok(settings)
}

/// The settings with what the polynomials of the part set, by those of the pattern.
pub(crate) fn set_by_terms(
    alloc: Global,
    pattern: &Term,
    part: &Term,
    settings: Items<(u32, Poly)>,
) -> Result<Items<(u32, Poly)>, AllocError>
    ensures { IfOk result (λ ws. ws ≡ set_by_pairs
        (zip (arguments_of pattern.now) (arguments_of part.now)) settings) }
{
    if let (Term::Call(_, patterns), Term::Call(_, polys)) = (pattern, part) {
        return set_by_pairs(alloc, patterns.as_slice(), polys.as_slice(), settings);
    }
    let patterns = pattern.arguments(alloc)?;
    let polys = part.arguments(alloc)?;
    set_by_pairs(alloc, patterns.as_slice(), polys.as_slice(), settings)
}

/// What the polynomials of the part set, by those of the pattern.
pub(crate) fn set_by_arguments(
    alloc: Global,
    pattern: &Term,
    part: &Term,
) -> Result<Items<(u32, Poly)>, AllocError>
    ensures { IfOk result (λ ws. ws ≡ set_by_arguments pattern.now part.now) }
{
    set_by_terms(alloc, pattern, part, Items::new(alloc))
}
