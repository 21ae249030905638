//! Left sides of rules: a point over the first variables, or a frame over these and over the next
//! variable or a failure code.
ghost use Rattle.std.specs.Prelude.{◌≡◌};
ghost use Rattle.rx_term.specs.MadeTest.{is_variable, is_variable_atom, left_width, variable_count, width_over};
ghost use Rattle.rx_poly.specs.declared.body.Atom.{out-Atom};
ghost use Rattle.rx_term.specs.declared.term.Term.{out-Term};

use crate::term::Term;
use rx_poly::{Atom, Poly};

/// How many variables there are.
const VARIABLES: u32 = 1 << 31;

/// Whether the atom is that variable.
fn is_variable_atom(atom: &Atom, number: u32) -> bool
    ensures { result ≡ is_variable_atom number (out-Atom atom.now) }
{
    match atom {
        Atom::Var(of) => *of == number,
        Atom::Div(_, _) => false,
        Atom::Mod(_, _) => false,
    }
}

/// Whether the polynomial is that variable.
fn is_variable(poly: &Poly, number: u32) -> bool
    ensures { result ≡ is_variable number poly.now }
{
    let Some((term, more)) = poly.body().terms.as_slice().split_first() else {
        return false;
    };
    let Some((atom, others)) = term.0.atoms.as_slice().split_first() else {
        return false;
    };
    more.is_empty() && term.1 == 1 && others.is_empty() && is_variable_atom(atom, number)
}

/// How many polynomials there are, where they are the first variables in order.
fn variable_count(args: &[Poly]) -> Option<u32>
    ensures { result ≡ variable_count args.now }
{
    let mut count = 0;
    for arg in args {
        if count == VARIABLES || !is_variable(arg, count) {
            return None;
        }
        count += 1;
    }
    Some(count)
}

/// How many variables a left side has that is a frame of n over this.
fn width_over(count: u32, inner: &Term) -> Option<u32>
    ensures { result ≡ width_over count (out-Term inner.now) }
{
    match inner {
        Term::Return(value) if count < VARIABLES && is_variable(value, count) => Some(count + 1),
        Term::Fail(_) => Some(count),
        _ => None,
    }
}

/// How many variables a left side has; None for what is no left side.
pub(crate) fn left_width(left: &Term) -> Option<u32>
    ensures { result ≡ left_width left.now }
{
    match left {
        Term::Call(_, args) => variable_count(args.as_slice()),
        Term::Frame(_, args, inner) => match variable_count(args.as_slice()) {
            Some(count) => width_over(count, inner.get()),
            None => None,
        },
        _ => None,
    }
}
