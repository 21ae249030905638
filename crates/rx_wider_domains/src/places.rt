//! The places of variables among arguments.
ghost use Rattle.std.specs.Prelude.{◌≡◌, ◌≤◌, ◌^◌, length, IfOk, OnOk, ◌++◌};
ghost use Rattle.std.specs.List.{list_all};
ghost use Rattle.rx_poly.specs.Variables.{is_one_of};
ghost use Rattle.rx_wider_domains.specs.Places.{is_placed, placed, placed_at, places};

use rx_plain::NoMemory;
use rx_poly::Poly;
use rx_poly_laws::variables_of;
use std::alloc::Global;

/// Adds the variable, if there is one, with that of the place.
fn push_place(
    found: &mut Vec<(u32, Poly)>,
    alloc: Global,
    place: u32,
    variable: Option<u32>,
) -> Result<(), NoMemory>
    ensures { OnOk result (found.new.items ≡ found.old.items ++ placed_at place variable) }
{
    if let Some(variable) = variable {
        found.push((variable, Poly::variable(alloc, place)?))?;
    }
    Ok(())
}

/// Each variable that is an argument alone, with that of the argument's number.
pub(crate) fn find_places(alloc: Global, args: &[Poly]) -> Result<Vec<(u32, Poly)>, NoMemory>
    requires { length args.now ≤ 2 ^ 32 }
    ensures { IfOk result (λ ws. ws.items ≡ places args.now) }
{
    let mut found = Vec::new(alloc);
    for (place, arg) in args.iter().enumerate() {
        push_place(&mut found, alloc, place as u32, arg.as_variable())?;
    }
    Ok(found)
}

/// Whether the variable has a place.
fn has_place(places: &[(u32, Poly)], variable: u32) -> bool
    ensures { result ≡ is_one_of variable (placed places.now) }
{
    for (other, _) in places {
        if *other == variable {
            return true;
        }
    }
    false
}

/// Whether all these variables have a place.
fn have_places(places: &[(u32, Poly)], variables: &[u32]) -> bool
    ensures { result ≡ list_all (λ v. is_one_of v (placed places.now)) variables.now }
{
    for variable in variables {
        if !has_place(places, *variable) {
            return false;
        }
    }
    true
}

/// Whether each variable of the polynomial has a place.
pub(crate) fn is_placed(
    alloc: Global,
    places: &[(u32, Poly)],
    poly: &Poly,
) -> Result<bool, NoMemory>
    ensures { IfOk result (λ b. b ≡ is_placed places.now poly.now) }
{
    let variables = variables_of(alloc, poly)?;
    Ok(have_places(places, variables.as_slice()))
}
