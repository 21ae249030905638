//! The line that says how two functions compare over all points.
ghost use Rattle.std.specs.Prelude.{◌≡◌, ◌++◌, codes, IfOk, OnOk};
ghost use Rattle.rx_text.specs.Numbers.{natural_text};
ghost use Rattle.rx_report.specs.Texts as spec;
ghost use Rattle.rx_report.specs.Texts.{alike_line, arguments_text, different_line, outcome_text};

use crate::NoMemory;
use c_refute::{Compared, Outcome};
use rx_text::{push_integer, push_natural, push_word};
use std::alloc::Global;

// Adds an outcome: the integer, or `div0`.
fn push_outcome(outcome: Outcome, out: &mut Vec<u8>) -> Result<(), NoMemory>
    ensures { OnOk result (out.new.items ≡ out.old.items ++ outcome_text outcome) }
{
    match outcome {
        Outcome::Value(value) => push_integer(out, &value),
        Outcome::DivError => push_word(out, b"div0"),
        Outcome::More | Outcome::Over => push_word(out, b""),
    }
}

// Adds arguments, each after a space. There are at most 16 of them.
fn push_arguments(arguments: &[i128], out: &mut Vec<u8>) -> Result<(), NoMemory>
    ensures { OnOk result (out.new.items ≡ out.old.items ++ arguments_text arguments.now) }
{
    match arguments.split_first() {
        None => push_word(out, b""),
        Some((first, others)) => {
            push_word(out, b" ")?;
            push_integer(out, first)?;
            push_arguments(others, out)
        }
    }
}

// Adds the second outcome, and the line's end.
fn push_second(second: Outcome, out: &mut Vec<u8>) -> Result<(), NoMemory>
    ensures { OnOk result (out.new.items
        ≡ out.old.items ++ spec.last_text (codes " ") (outcome_text second)) }
{
    push_word(out, b" ")?;
    push_outcome(second, out)?;
    push_word(out, b"\n")
}

// Adds both outcomes, and the line's end.
fn push_outcomes(first: Outcome, second: Outcome, out: &mut Vec<u8>) -> Result<(), NoMemory>
    ensures { OnOk result (out.new.items
        ≡ out.old.items ++ spec.outcomes_text first second) }
{
    push_word(out, b" : ")?;
    push_outcome(first, out)?;
    push_second(second, out)
}

// Adds the line of two different outcomes at these arguments.
fn push_different(
    arguments: &[i128],
    first: Outcome,
    second: Outcome,
    out: &mut Vec<u8>,
) -> Result<(), NoMemory>
    ensures { OnOk result (out.new.items
        ≡ out.old.items ++ different_line arguments.now first second) }
{
    push_word(out, b"DIFFERENT")?;
    push_arguments(arguments, out)?;
    push_outcomes(first, second, out)
}

// Adds the number of points that are undecided, and the line's end.
fn push_undecided(undecided: u32, out: &mut Vec<u8>) -> Result<(), NoMemory>
    ensures { OnOk result (out.new.items
        ≡ out.old.items ++ spec.last_text (codes " undecided ") (natural_text undecided)) }
{
    push_word(out, b" undecided ")?;
    push_natural(out, undecided)?;
    push_word(out, b"\n")
}

// Adds the line of n points found alike and m undecided.
fn push_alike(points: u32, undecided: u32, out: &mut Vec<u8>) -> Result<(), NoMemory>
    ensures { OnOk result (out.new.items ≡ out.old.items ++ alike_line points undecided) }
{
    push_word(out, b"ALIKE points ")?;
    push_natural(out, points)?;
    push_undecided(undecided, out)
}

// Adds the line.
fn push_found(found: &Compared, out: &mut Vec<u8>) -> Result<(), NoMemory>
    ensures { OnOk result (out.new.items ≡ out.old.items ++ spec.found_text found.now) }
{
    match found {
        Compared::Different {
            args,
            first,
            second,
        } => push_different(args.as_slice(), *first, *second, out),
        Compared::Alike { points, undecided } => push_alike(*points, *undecided, out),
    }
}

/// The line on what was found.
pub fn found_line(alloc: Global, found: &Compared) -> Result<Vec<u8>, NoMemory>
    ensures { IfOk result (λ text. text.items ≡ spec.found_text found.now) }
{
    let mut text = Vec::new(alloc);
    push_found(found, &mut text)?;
    Ok(text)
}
