//! General sides: a variable of its own at each place.
ghost use Rattle.std.specs.Prelude.{◌≡◌, ◌+◌, ◌<◌, ◌^◌, [], ◌∷◌, ◌++◌, length, IfOk, OnOk};
ghost use Rattle.rx_term.specs.Variables.{arguments_of};
ghost use Rattle.rx_shapes.specs.Building.{over_frames};
ghost use Rattle.rx_shapes.specs.General as spec;
ghost use Rattle.rx_shapes.specs.Places as places;

use rx_plain::{Boxed, Items};
use rx_poly::Poly;
use rx_term::{Equation, Sym, Term};
use std::alloc::{AllocError, Global};

/// The general sides of a shape: v0, v1, and so on at its places, the left side's first.
#[derive(Drop)]
pub struct GeneralSides {
    /// The left side.
    pub left: Term,
    /// The right side.
    pub right: Term,
}

/// A frame with its arguments, over nothing yet.
#[derive(Drop)]
pub(crate) struct OpenFrame {
    /// Its symbol.
    pub(crate) symbol: Sym,
    /// Its polynomials.
    pub(crate) arguments: Items<Poly>,
}

/// A variable for each of the polynomials, numbered on from `first`. Fails only where there is no
/// memory.
pub fn variables_from(alloc: Global, first: u32, polys: &[Poly]) -> Result<Items<Poly>, AllocError>
    requires few { first + length polys.now < 2 ^ 32 }
    ensures { IfOk result (λ ps. ps ≡ spec.variables_from first polys.now) }
{
    let mut made = Items::with_capacity(alloc, polys.len())?;
    let mut next = first;
    for _ in polys {
        made.push(Poly::variable(alloc, next)?)?;
        next += 1;
    }
    Ok(made)
}

/// The frame over the term.
fn over_frame(alloc: Global, frame: OpenFrame, inner: Term) -> Result<Term, AllocError>
    ensures { IfOk result (λ t. t ≡ Term.Frame frame.symbol frame.arguments inner) }
{
    let OpenFrame { symbol, arguments } = frame;
    Ok(Term::Frame(symbol, arguments, Boxed::new(alloc, inner)?))
}

/// The frames, the first of them outside, over the term.
#[tactic(auto, using(crate::proofs::Frames::over_last))]
fn over_frames(alloc: Global, frames: Vec<OpenFrame>, inner: Term) -> Result<Term, AllocError>
    ensures { IfOk result (λ t. t ≡ over_frames frames.items inner) }
{
    let mut left = frames;
    let mut whole = inner;
    while let Some(frame) = left.pop() {
        whole = over_frame(alloc, frame, whole)?;
    }
    Ok(whole)
}

/// Adds the frame with variables, numbered on from `first`, in place of its polynomials.
fn push_frame(
    frames: &mut Vec<OpenFrame>,
    alloc: Global,
    symbol: Sym,
    first: u32,
    polys: &[Poly],
) -> Result<(), AllocError>
    requires few { first + length polys.now < 2 ^ 32 }
    ensures { OnOk result (frames.new.items ≡
        frames.old.items ++ spec.open_frame symbol first polys.now ∷ []) }
{
    let arguments = variables_from(alloc, first, polys)?;
    frames.push(OpenFrame { symbol, arguments })?;
    Ok(())
}

/// The term with variables, numbered on from `first`, in place of its polynomials.
#[tactic(auto, using(crate::proofs::Frames::over_last))]
fn general_from(alloc: Global, first: u32, term: &Term) -> Result<Term, AllocError>
    requires few { first + length (arguments_of term.now) < 2 ^ 32 }
    ensures { IfOk result (λ t. t ≡ spec.general_from first term.now) }
{
    let mut here = term;
    let mut next = first;
    let mut frames = Vec::new(alloc);
    loop {
        match here {
            Term::Return(_) => {
                return over_frames(alloc, frames, Term::Return(Poly::variable(alloc, next)?));
            }
            Term::Fail(code) => return over_frames(alloc, frames, Term::Fail(*code)),
            Term::Call(symbol, args) => {
                let arguments = variables_from(alloc, next, args.as_slice())?;
                return over_frames(alloc, frames, Term::Call(*symbol, arguments));
            }
            Term::Frame(symbol, args, inner) => {
                push_frame(&mut frames, alloc, *symbol, next, args.as_slice())?;
                next += args.len() as u32;
                here = inner.get();
            }
        }
    }
}

/// The general sides of the equation's shape. Fails only where there is no memory.
pub fn general_sides(alloc: Global, equation: &Equation) -> Result<GeneralSides, AllocError>
    requires few { length (places.places_of equation.now) < 2 ^ 32 }
    ensures { IfOk result (λ sides. sides ≡ spec.general_of equation.now) }
{
    let left = general_from(alloc, 0, &equation.left)?;
    let count = equation.left.arguments(alloc)?.len() as u32;
    let right = general_from(alloc, count, &equation.right)?;
    Ok(GeneralSides { left, right })
}
