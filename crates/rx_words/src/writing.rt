//! Certificates are written: their first words, and the certificates in them.
ghost use Rattle.std.specs.Prelude.{◌≡◌, ◌++◌, ◌∷◌, OnOk};
ghost use Rattle.rx_words.specs.Certificates.{cert_text};
ghost use Rattle.rx_words.specs.Heads.{heads};
ghost use Rattle.rx_words.specs.declared.heads.Head.{Head};

use crate::pairs::push_pair;
use crate::parts::push_parts;
use rx_cert::{Cert, Parts};
use rx_plain::{Boxed, NoMemory};
use rx_poly::Poly;
use rx_row::Row;
use rx_text::{push_natural, push_row, push_word};

/// The first words of a sum.
fn push_sum(parts: &Parts, out: &mut Vec<u8>) -> Result<(), NoMemory>
    ensures { OnOk result (out.new.items ≡ out.old.items ++ heads.text (Head.Sum parts.now)) }
{
    push_word(out, b"sum ")?;
    push_parts(parts, out)
}

/// The first words of a rounded sum.
fn push_cut(parts: &Parts, div: &i128, out: &mut Vec<u8>) -> Result<(), NoMemory>
    ensures { OnOk result (out.new.items ≡ out.old.items ++ heads.text (Head.Cut parts.now div.now)) }
{
    push_word(out, b"cut ")?;
    push_pair(parts, div, out)
}

/// The first words of a row or its negation.
fn push_split(row: &Row, out: &mut Vec<u8>) -> Result<(), NoMemory>
    ensures { OnOk result (out.new.items ≡ out.old.items ++ heads.text (Head.Split row.now)) }
{
    push_word(out, b"split ")?;
    push_row(out, row)
}

/// The first words of at least 1, or at most -1.
fn push_differ(at: u32, out: &mut Vec<u8>) -> Result<(), NoMemory>
    ensures { OnOk result (out.new.items ≡ out.old.items ++ heads.text (Head.Differ at)) }
{
    push_word(out, b"differ ")?;
    push_natural(out, at)
}

/// The first words of a replaced variable.
fn push_solve(first: u32, second: u32, var: u32, out: &mut Vec<u8>) -> Result<(), NoMemory>
    ensures { OnOk result (out.new.items ≡ out.old.items ++
        heads.text (Head.Solve first second var)) }
{
    push_word(out, b"solve ")?;
    push_natural(out, first)?;
    push_word(out, b" ")?;
    push_natural(out, second)?;
    push_word(out, b" ")?;
    push_natural(out, var)
}

/// The first words of a quotient and a remainder.
fn push_division(num: &Poly, den: &i128, out: &mut Vec<u8>) -> Result<(), NoMemory>
    ensures { OnOk result (out.new.items ≡ out.old.items ++
        heads.text (Head.DivFacts num.now den.now)) }
{
    push_word(out, b"div ")?;
    push_pair(num, den, out)
}

/// One certificate after a space.
#[cycle(writing)]
fn push_one(cert: &Boxed<Cert>, out: &mut Vec<u8>) -> Result<(), NoMemory>
    ensures { OnOk result (out.new.items ≡ out.old.items ++ (32 ∷ cert_text cert.now)) }
{
    push_word(out, b" ")?;
    push_cert(cert.get(), out)
}

/// Writes the text of the certificate after what was written before. Fails only when out of memory,
/// and then some of the text may have been written.
#[cycle(writing)]
pub fn push_cert(cert: &Cert, out: &mut Vec<u8>) -> Result<(), NoMemory>
    ensures { OnOk result (out.new.items ≡ out.old.items ++ cert_text cert.now) }
{
    match cert {
        Cert::Sum(parts) => push_sum(parts, out),
        Cert::Cut { parts, div, rest } => {
            push_cut(parts, div, out)?;
            push_one(rest, out)
        }
        Cert::Split { row, yes, no } => {
            push_split(row, out)?;
            push_one(yes, out)?;
            push_one(no, out)
        }
        Cert::Differ { at, pos, neg } => {
            push_differ(*at, out)?;
            push_one(pos, out)?;
            push_one(neg, out)
        }
        Cert::Solve {
            first,
            second,
            var,
            rest,
        } => {
            push_solve(*first, *second, *var, out)?;
            push_one(rest, out)
        }
        Cert::DivFacts { num, den, pos, neg } => {
            push_division(num, den, out)?;
            push_one(pos, out)?;
            push_one(neg, out)
        }
    }
}
