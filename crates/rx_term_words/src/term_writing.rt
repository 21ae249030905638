//! Terms and equations are written.
ghost use Rattle.std.specs.Prelude.{◌≡◌, ◌++◌, IfOk, OnOk, codes};
ghost use Rattle.rx_term_words.specs.Equations.{equations};
ghost use Rattle.rx_term_words.specs.Layers.{failures, values};
ghost use Rattle.rx_term_words.specs.Terms.{applied_text, polys_text, term_text};
ghost use Rattle.rx_term_words.specs.Written.{closing_text, innermost_of, opening_text};

use rx_plain::NoMemory;
use rx_poly::Poly;
use rx_row::Row;
use rx_term::{Sym, Term};
use rx_text::{push_natural, push_poly, push_word};
use rx_words::push_rows;

/// The polynomials, with a comma between two.
fn push_polys(polys: &[Poly], out: &mut Vec<u8>) -> Result<(), NoMemory>
    ensures { OnOk result (out.new.items ≡ out.old.items ++ polys_text polys.now) }
{
    let Some((first, more)) = polys.split_first() else {
        return Ok(());
    };
    push_poly(out, first)?;
    for poly in more {
        push_word(out, b",")?;
        push_poly(out, poly)?;
    }
    Ok(())
}

/// A symbol with its polynomials, up to what closes them.
fn push_applied(sym: Sym, polys: &[Poly], out: &mut Vec<u8>) -> Result<(), NoMemory>
    ensures { OnOk result (out.new.items ≡ out.old.items ++ applied_text sym polys.now) }
{
    push_word(out, b"s")?;
    push_natural(out, sym.0)?;
    push_word(out, b"(")?;
    push_polys(polys, out)
}

/// A call.
fn push_call(sym: Sym, polys: &[Poly], out: &mut Vec<u8>) -> Result<(), NoMemory>
    ensures { OnOk result (out.new.items ≡ out.old.items ++
        (applied_text sym polys.now ++ codes ")")) }
{
    push_applied(sym, polys, out)?;
    push_word(out, b")")
}

/// A returned value.
fn push_value(value: &Poly, out: &mut Vec<u8>) -> Result<(), NoMemory>
    ensures { OnOk result (out.new.items ≡ out.old.items ++ values.text value.now) }
{
    push_word(out, b"ret(")?;
    push_poly(out, value)?;
    push_word(out, b")")
}

/// A failure with its code.
fn push_failure(code: u8, out: &mut Vec<u8>) -> Result<(), NoMemory>
    ensures { OnOk result (out.new.items ≡ out.old.items ++ failures.text code) }
{
    push_word(out, b"fail(")?;
    push_natural(out, code as u32)?;
    push_word(out, b")")
}

/// What is under all frames: a result, or a call; of a frame nothing.
fn push_innermost(term: &Term, out: &mut Vec<u8>) -> Result<(), NoMemory>
    requires { innermost_of term.now ≡ term.now }
    ensures { OnOk result (out.new.items ≡ out.old.items ++ term_text term.now) }
{
    match term {
        Term::Return(value) => push_value(value, out),
        Term::Fail(code) => push_failure(*code, out),
        Term::Call(sym, polys) => push_call(*sym, polys.as_slice(), out),
        Term::Frame(_, _, _) => Ok(()),
    }
}

/// The frames up to what is under them all, which is borrowed.
fn push_openings<'a>(term: &'a Term, out: &mut Vec<u8>) -> Result<&'a Term, NoMemory>
    ensures text { OnOk result (out.new.items ≡ out.old.items ++ opening_text term.now) }
    ensures inner { IfOk result (λ inner. inner.now ≡ innermost_of term.now) }
{
    let mut here = term;
    while let Term::Frame(sym, polys, inner) = here {
        push_applied(*sym, polys.as_slice(), out)?;
        push_word(out, b";")?;
        here = inner.get();
    }
    Ok(here)
}

/// What closes the frames.
fn push_closings(term: &Term, out: &mut Vec<u8>) -> Result<(), NoMemory>
    ensures { OnOk result (out.new.items ≡ out.old.items ++ closing_text term.now) }
{
    let mut here = term;
    while let Term::Frame(_, _, inner) = here {
        push_word(out, b")")?;
        here = inner.get();
    }
    Ok(())
}

/// Writes the text of the term after what was written before. It may have as many frames as memory
/// holds. Fails only when out of memory, and then some of the text may have been written.
pub fn push_term(term: &Term, out: &mut Vec<u8>) -> Result<(), NoMemory>
    ensures { OnOk result (out.new.items ≡ out.old.items ++ term_text term.now) }
{
    let inner = push_openings(term, out)?;
    push_innermost(inner, out)?;
    push_closings(term, out)
}

/// Writes the text of the equation of the two sides under those rows after what was written before.
/// Fails only when out of memory, and then some of the text may have been written.
pub fn push_equation(
    left: &Term,
    right: &Term,
    rows: &[Row],
    out: &mut Vec<u8>,
) -> Result<(), NoMemory>
    ensures { OnOk result (out.new.items ≡ out.old.items
        ++ equations.text (record { left = left.now; right = right.now; rows = rows.now })) }
{
    push_term(left, out)?;
    push_word(out, b" ")?;
    push_term(right, out)?;
    push_word(out, b" ")?;
    push_rows(rows, out)
}
