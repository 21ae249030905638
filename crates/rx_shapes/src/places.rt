//! The polynomials of an equation, place by place.
ghost use Rattle.std.specs.Prelude.{◌↔◌, ◌≡◌, IsTrue, IfOk};
ghost use Rattle.rx_shapes.specs.Places.{HaveOneShape, places_of};

use rx_plain::Items;
use rx_poly::Poly;
use rx_term::Equation;
use std::alloc::{AllocError, Global};

/// The polynomials at the places of the equation, copied: those of the left side, then those of the
/// right one. Fails only where there is no memory.
pub fn places_of(alloc: Global, equation: &Equation) -> Result<Items<Poly>, AllocError>
    ensures { IfOk result (λ ps. ps ≡ places_of equation.now) }
{
    let mut places = equation.left.arguments(alloc)?;
    places.append(equation.right.arguments(alloc)?)?;
    Ok(places)
}

/// Whether both sides of the two have the same frames, calls and failure codes, whatever their
/// polynomials are. Takes no memory.
pub fn have_one_shape(one: &Equation, other: &Equation) -> bool
    ensures { IsTrue result ↔ HaveOneShape one.now other.now }
{
    one.left.has_shape_of(&other.left) && one.right.has_shape_of(&other.right)
}
