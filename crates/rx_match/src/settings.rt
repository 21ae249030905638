//! Variables that are set, each to a polynomial, in the order of their numbers.
ghost use Rattle.std.specs.Prelude.{◌≡◌, ◌≤◌, IfOk, length};
ghost use Rattle.rx_match.specs.Settings.{is_set, place_for, set_to};

use rx_plain::Items;
use rx_poly::Poly;
use std::alloc::AllocError;

/// Whether the variable is set.
pub(crate) fn is_set(settings: &[(u32, Poly)], variable: u32) -> bool
    ensures { result ≡ is_set settings.now variable }
{
    for (set, _) in settings {
        if *set == variable {
            return true;
        }
    }
    false
}

/// How many of the first settings have lower numbers.
fn place_for(settings: &[(u32, Poly)], variable: u32) -> usize
    ensures { result ≡ place_for variable settings.now }
{
    let mut place = 0;
    for (set, _) in settings {
        if variable <= *set {
            return place;
        }
        place += 1;
    }
    place
}

/// The settings with the variable set to the polynomial.
pub(crate) fn set_to(
    settings: Items<(u32, Poly)>,
    variable: u32,
    poly: Poly,
) -> Result<Items<(u32, Poly)>, AllocError>
    ensures { IfOk result (λ ws. ws ≡ set_to variable poly settings) }
{
    let place = place_for(settings.as_slice(), variable);
    let mut made = settings.into_vec();
    made.insert(place, (variable, poly))?;
    Ok(Items::from_vec(made))
}
