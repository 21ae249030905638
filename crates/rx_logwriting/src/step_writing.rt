//! Steps are written, each as a line without what ends it.
ghost use Rattle.std.specs.Prelude.{◌≡◌, ◌++◌, ◌∷◌, [], OnOk};
ghost use Rattle.rx_inference.specs.declared.step.Step.TheVariants as step;
ghost use Rattle.rx_log.specs.declared.version.Version.TheVariants.{One};
ghost use Rattle.rx_logtext.specs.Steps.{keep_text, side_text, step_text};
ghost use Rattle.rx_logwriting.specs.Frames.{new_certs_text};
ghost use Rattle.rx_text.specs.Numbers.{natural_text};
ghost use Rattle.rx_words.specs.Certificates.{certificate_lists};
ghost use Rattle.rx_words.specs.Substitutions.{substitutions};
ghost use Rattle.rx_words.specs.Words.{spaced};

use rx_cert::Cert;
use rx_inference::{Delete, Side, Step};
use rx_log::Version;
use rx_plain::{Items, NoMemory};
use rx_poly::Poly;
use rx_row::{Constraint, Row};
use rx_term::Term;
use rx_term_words::push_equation;
use rx_text::{push_natural, push_row, push_word};
use rx_words::{push_cert, push_certs, push_subst};

/// A side.
fn push_side(side: Side, out: &mut Vec<u8>) -> Result<(), NoMemory>
    ensures { OnOk result (out.new.items ≡ out.old.items ++ side_text side) }
{
    match side {
        Side::Left => push_word(out, b"l"),
        Side::Right => push_word(out, b"r"),
    }
}

/// Whether the goal is kept.
fn push_keep(keep: bool, out: &mut Vec<u8>) -> Result<(), NoMemory>
    ensures { OnOk result (out.new.items ≡ out.old.items ++ keep_text keep) }
{
    if keep {
        push_word(out, b"keep")
    } else {
        push_word(out, b"drop")
    }
}

/// A rule is applied.
fn push_simplify(
    side: Side,
    rule: u32,
    certs: &Items<Cert>,
    out: &mut Vec<u8>,
) -> Result<(), NoMemory>
    ensures { OnOk result (out.new.items ≡ out.old.items ++
        step_text One (step.Simplify side rule certs.now)) }
{
    push_word(out, b"simplify ")?;
    push_side(side, out)?;
    push_word(out, b" ")?;
    push_natural(out, rule)?;
    push_word(out, b" ")?;
    push_certs(certs, out)
}

/// Two numbers.
fn push_numbers(first: u32, second: u32, out: &mut Vec<u8>) -> Result<(), NoMemory>
    ensures { OnOk result (out.new.items ≡ out.old.items
        ++ spaced (natural_text first ∷ natural_text second ∷ [])) }
{
    push_natural(out, first)?;
    push_word(out, b" ")?;
    push_natural(out, second)
}

/// A substitution and certificates.
fn push_instance(
    subst: &Items<(u32, Poly)>,
    certs: &Items<Cert>,
    out: &mut Vec<u8>,
) -> Result<(), NoMemory>
    ensures { OnOk result (out.new.items ≡ out.old.items
        ++ spaced (substitutions.text subst.now ∷ certificate_lists.text certs.now ∷ [])) }
{
    push_subst(subst.as_slice(), out)?;
    push_word(out, b" ")?;
    push_certs(certs, out)
}

/// A hypothesis is used.
fn push_hyp(
    side: Side,
    place: u32,
    hyp: u32,
    subst: &Items<(u32, Poly)>,
    certs: &Items<Cert>,
    out: &mut Vec<u8>,
) -> Result<(), NoMemory>
    ensures { OnOk result (out.new.items ≡ out.old.items
        ++ step_text One (step.Hyp side place hyp subst.now certs.now)) }
{
    push_word(out, b"hyp ")?;
    push_side(side, out)?;
    push_word(out, b" ")?;
    push_numbers(place, hyp, out)?;
    push_word(out, b" ")?;
    push_instance(subst, certs, out)
}

/// A goal is expanded.
fn push_expand(side: Side, keep: bool, out: &mut Vec<u8>) -> Result<(), NoMemory>
    ensures { OnOk result (out.new.items ≡ out.old.items ++ step_text One (step.Expand side keep)) }
{
    push_word(out, b"expand ")?;
    push_side(side, out)?;
    push_word(out, b" ")?;
    push_keep(keep, out)
}

/// A goal is deleted.
fn push_delete(by: &Delete, out: &mut Vec<u8>) -> Result<(), NoMemory>
    ensures { OnOk result (out.new.items ≡ out.old.items ++ step_text One (step.Delete by.now)) }
{
    match by {
        Delete::Absurd(cert) => {
            push_word(out, b"absurd ")?;
            push_cert(cert, out)
        }
        Delete::Equal(certs) => {
            push_word(out, b"equal ")?;
            push_certs(certs, out)
        }
    }
}

/// A goal is an instance of another.
fn push_generalise(
    left: &Term,
    right: &Term,
    rows: &Constraint,
    subst: &Items<(u32, Poly)>,
    certs: &Items<Cert>,
    out: &mut Vec<u8>,
) -> Result<(), NoMemory>
    ensures { OnOk result (out.new.items ≡ out.old.items
        ++ step_text One (step.Generalise left.now right.now rows.now subst.now certs.now)) }
{
    push_word(out, b"generalise ")?;
    push_equation(left, right, rows.rows(), out)?;
    push_word(out, b" ")?;
    push_instance(subst, certs, out)
}

/// Certificates after a space; version 1 has none.
fn push_new_certs(version: Version, certs: &Items<Cert>, out: &mut Vec<u8>) -> Result<(), NoMemory>
    ensures { OnOk result (out.new.items ≡ out.old.items ++ new_certs_text version certs.now) }
{
    match version {
        Version::One => Ok(()),
        Version::Two => {
            push_word(out, b" ")?;
            push_certs(certs, out)
        }
    }
}

/// Another goal is added.
fn push_postulate(
    version: Version,
    left: &Term,
    right: &Term,
    rows: &Constraint,
    certs: &Items<Cert>,
    out: &mut Vec<u8>,
) -> Result<(), NoMemory>
    ensures { OnOk result (out.new.items ≡ out.old.items
        ++ step_text version (step.Postulate left.now right.now rows.now certs.now)) }
{
    push_word(out, b"postulate ")?;
    push_equation(left, right, rows.rows(), out)?;
    push_new_certs(version, certs, out)
}

/// A goal is split by a row.
fn push_split(row: &Row, out: &mut Vec<u8>) -> Result<(), NoMemory>
    ensures { OnOk result (out.new.items ≡ out.old.items ++ step_text One (step.Split row.now)) }
{
    push_word(out, b"split ")?;
    push_row(out, row)
}

/// Equal frames are taken off.
fn push_decompose(certs: &Items<Cert>, out: &mut Vec<u8>) -> Result<(), NoMemory>
    ensures { OnOk result (out.new.items ≡ out.old.items ++ step_text One (step.Decompose certs.now)) }
{
    push_word(out, b"decompose ")?;
    push_certs(certs, out)
}

/// Equal calls are replaced by what they may come to.
fn push_results(
    left: u32,
    right: u32,
    certs: &Items<Cert>,
    out: &mut Vec<u8>,
) -> Result<(), NoMemory>
    ensures { OnOk result (out.new.items ≡ out.old.items
        ++ step_text One (step.Results left right certs.now)) }
{
    push_word(out, b"results ")?;
    push_numbers(left, right, out)?;
    push_word(out, b" ")?;
    push_certs(certs, out)
}

/// Writes the text of the step in logs of the version after what was written before.
pub(crate) fn push_step(version: Version, step: &Step, out: &mut Vec<u8>) -> Result<(), NoMemory>
    ensures { OnOk result (out.new.items ≡ out.old.items ++ step_text version step.now) }
{
    match step {
        Step::Simplify { side, rule, certs } => push_simplify(*side, *rule, certs, out),
        Step::Hyp {
            side,
            place,
            hyp,
            subst,
            certs,
        } => push_hyp(*side, *place, *hyp, subst, certs, out),
        Step::Expand { side, keep } => push_expand(*side, *keep, out),
        Step::Delete(by) => push_delete(by, out),
        Step::EqDelete => push_word(out, b"eqdelete"),
        Step::Generalise {
            left,
            right,
            rows,
            subst,
            certs,
        } => push_generalise(left, right, rows, subst, certs, out),
        Step::Postulate {
            left,
            right,
            rows,
            certs,
        } => push_postulate(version, left, right, rows, certs, out),
        Step::Split { row } => push_split(row, out),
        Step::Decompose { certs } => push_decompose(certs, out),
        Step::Results { left, right, certs } => push_results(*left, *right, certs, out),
    }
}
