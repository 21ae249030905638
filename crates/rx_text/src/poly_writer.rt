//! Polynomials written as text.
ghost use Rattle.std.specs.Prelude.{◌≡◌, ◌∷◌, [], ◌++◌, OnOk};
ghost use Rattle.rx_text.specs.Polynomials.{atom_text, mono_text, poly_text, text_of_term};

use crate::numbers::{push_integer, push_natural};
use crate::words::push_word;
use rx_plain::NoMemory;
use rx_poly::{Atom, Body, Mono, Poly};

/// Adds an atom.
#[cycle(writing)]
fn push_atom(out: &mut Vec<u8>, atom: &Atom) -> Result<(), NoMemory>
    ensures { OnOk result (out.new.items ≡ out.old.items ++ atom_text atom.now) }
{
    match atom {
        Atom::Var(number) => {
            push_word(out, b"v")?;
            push_natural(out, *number)
        }
        Atom::Div(num, den) => {
            push_word(out, b"div(")?;
            push_sum(out, num)?;
            push_word(out, b",")?;
            push_sum(out, den)?;
            push_word(out, b")")
        }
        Atom::Mod(num, den) => {
            push_word(out, b"mod(")?;
            push_sum(out, num)?;
            push_word(out, b",")?;
            push_sum(out, den)?;
            push_word(out, b")")
        }
    }
}

/// Adds the atoms of a monomial, each after `*`.
#[cycle(writing)]
fn push_mono(out: &mut Vec<u8>, mono: &Mono) -> Result<(), NoMemory>
    ensures { OnOk result (out.new.items ≡ out.old.items ++ mono_text mono.now) }
{
    for atom in mono.atoms.as_slice() {
        push_word(out, b"*")?;
        push_atom(out, atom)?;
    }
    Ok(())
}

/// Adds a term.
#[cycle(writing)]
fn push_term(out: &mut Vec<u8>, term: &(Mono, i128)) -> Result<(), NoMemory>
    ensures { OnOk result (out.new.items ≡ out.old.items ++ text_of_term term.now) }
{
    push_integer(out, &term.1)?;
    push_mono(out, &term.0)
}

/// Adds a sum.
#[cycle(writing)]
fn push_sum(out: &mut Vec<u8>, sum: &Body) -> Result<(), NoMemory>
    ensures { OnOk result (out.new.items ≡ out.old.items ++ poly_text sum.now) }
{
    let Some((first, more)) = sum.terms.as_slice().split_first() else {
        return push_word(out, b"0");
    };
    push_term(out, first)?;
    for term in more {
        push_word(out, b"+")?;
        push_term(out, term)?;
    }
    Ok(())
}

/// Adds the text of the polynomial after the bytes; fails only where there is no memory.
pub fn push_poly(out: &mut Vec<u8>, poly: &Poly) -> Result<(), NoMemory>
    ensures { OnOk result (out.new.items ≡ out.old.items ++ poly_text poly.now) }
{
    push_sum(out, poly.body())
}
