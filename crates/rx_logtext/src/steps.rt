//! Lines of steps, read from bytes.
ghost use Rattle.std.specs.Prelude.{◌≡◌, ◌++◌, codes, IfOk, drop};
ghost use Rattle.rx_log.specs.declared.version.Version.TheVariants.{One};
ghost use Rattle.rx_logtext.specs.Lines.{ReadsAll};
ghost use Rattle.rx_logtext.specs.Steps.{postulate_parts, steps_of};

use crate::part::{is_word, read_rest, skip_beginning};
use rx_cert::Cert;
use rx_inference::{Delete, Side, Step};
use rx_log::Version;
use rx_plain::{Items, NoMemory};
use rx_poly::Poly;
use rx_row::Row;
use rx_term::Equation;
use std::alloc::Global;

/// A line that begins with `simplify `.
fn read_simplify(
    alloc: Global,
    version: Version,
    line: &[u8],
    at: usize,
) -> Result<Option<Step>, NoMemory>
    requires { line.now ≡ codes "simplify " ++ drop at line.now }
    ensures { IfOk result (ReadsAll (steps_of version) line.now) }
{
    match read_rest::<(Side, (u32, Items<Cert>))>(alloc, line, at)? {
        Some((side, (rule, certs))) => Ok(Some(Step::Simplify { side, rule, certs })),
        None => Ok(None),
    }
}

/// A line that begins with `hyp `.
fn read_hyp(
    alloc: Global,
    version: Version,
    line: &[u8],
    at: usize,
) -> Result<Option<Step>, NoMemory>
    requires { line.now ≡ codes "hyp " ++ drop at line.now }
    ensures { IfOk result (ReadsAll (steps_of version) line.now) }
{
    match read_rest::<(Side, (u32, (u32, (Items<(u32, Poly)>, Items<Cert>))))>(alloc, line, at)? {
        Some((side, (place, (hyp, (subst, certs))))) => Ok(Some(Step::Hyp {
            side,
            place,
            hyp,
            subst,
            certs,
        })),
        None => Ok(None),
    }
}

/// A line that begins with `expand `.
fn read_expand(
    alloc: Global,
    version: Version,
    line: &[u8],
    at: usize,
) -> Result<Option<Step>, NoMemory>
    requires { line.now ≡ codes "expand " ++ drop at line.now }
    ensures { IfOk result (ReadsAll (steps_of version) line.now) }
{
    match read_rest::<(Side, bool)>(alloc, line, at)? {
        Some((side, keep)) => Ok(Some(Step::Expand { side, keep })),
        None => Ok(None),
    }
}

/// A line that begins with `absurd `.
fn read_absurd(
    alloc: Global,
    version: Version,
    line: &[u8],
    at: usize,
) -> Result<Option<Step>, NoMemory>
    requires { line.now ≡ codes "absurd " ++ drop at line.now }
    ensures { IfOk result (ReadsAll (steps_of version) line.now) }
{
    match read_rest::<Cert>(alloc, line, at)? {
        Some(cert) => Ok(Some(Step::Delete(Delete::Absurd(cert)))),
        None => Ok(None),
    }
}

/// A line that begins with `equal `.
fn read_equal(
    alloc: Global,
    version: Version,
    line: &[u8],
    at: usize,
) -> Result<Option<Step>, NoMemory>
    requires { line.now ≡ codes "equal " ++ drop at line.now }
    ensures { IfOk result (ReadsAll (steps_of version) line.now) }
{
    match read_rest::<Items<Cert>>(alloc, line, at)? {
        Some(certs) => Ok(Some(Step::Delete(Delete::Equal(certs)))),
        None => Ok(None),
    }
}

/// A line that begins with `generalise `.
fn read_generalise(
    alloc: Global,
    version: Version,
    line: &[u8],
    at: usize,
) -> Result<Option<Step>, NoMemory>
    requires { line.now ≡ codes "generalise " ++ drop at line.now }
    ensures { IfOk result (ReadsAll (steps_of version) line.now) }
{
    match read_rest::<(Equation, (Items<(u32, Poly)>, Items<Cert>))>(alloc, line, at)? {
        Some((Equation { left, right, rows }, (subst, certs))) => Ok(Some(Step::Generalise {
            left,
            right,
            rows,
            subst,
            certs,
        })),
        None => Ok(None),
    }
}

/// The new goal of a postulate in version 1, where it has no certificates.
fn read_alone(
    alloc: Global,
    line: &[u8],
    at: usize,
) -> Result<Option<(Equation, Items<Cert>)>, NoMemory>
    ensures { IfOk result (ReadsAll (postulate_parts One) (drop at line.now)) }
{
    match read_rest::<Equation>(alloc, line, at)? {
        Some(goal) => Ok(Some((goal, Items::new(alloc)))),
        None => Ok(None),
    }
}

/// The new goal of a postulate with its certificates.
fn read_new(
    alloc: Global,
    version: Version,
    line: &[u8],
    at: usize,
) -> Result<Option<(Equation, Items<Cert>)>, NoMemory>
    ensures { IfOk result (ReadsAll (postulate_parts version) (drop at line.now)) }
{
    match version {
        Version::One => read_alone(alloc, line, at),
        Version::Two => read_rest::<(Equation, Items<Cert>)>(alloc, line, at),
    }
}

/// A line that begins with `postulate `.
fn read_postulate(
    alloc: Global,
    version: Version,
    line: &[u8],
    at: usize,
) -> Result<Option<Step>, NoMemory>
    requires { line.now ≡ codes "postulate " ++ drop at line.now }
    ensures { IfOk result (ReadsAll (steps_of version) line.now) }
{
    match read_new(alloc, version, line, at)? {
        Some((Equation { left, right, rows }, certs)) => Ok(Some(Step::Postulate {
            left,
            right,
            rows,
            certs,
        })),
        None => Ok(None),
    }
}

/// A line that begins with `split `.
fn read_split(
    alloc: Global,
    version: Version,
    line: &[u8],
    at: usize,
) -> Result<Option<Step>, NoMemory>
    requires { line.now ≡ codes "split " ++ drop at line.now }
    ensures { IfOk result (ReadsAll (steps_of version) line.now) }
{
    match read_rest::<Row>(alloc, line, at)? {
        Some(row) => Ok(Some(Step::Split { row })),
        None => Ok(None),
    }
}

/// A line that begins with `decompose `.
fn read_decompose(
    alloc: Global,
    version: Version,
    line: &[u8],
    at: usize,
) -> Result<Option<Step>, NoMemory>
    requires { line.now ≡ codes "decompose " ++ drop at line.now }
    ensures { IfOk result (ReadsAll (steps_of version) line.now) }
{
    match read_rest::<Items<Cert>>(alloc, line, at)? {
        Some(certs) => Ok(Some(Step::Decompose { certs })),
        None => Ok(None),
    }
}

/// A line that begins with `results `.
fn read_results(
    alloc: Global,
    version: Version,
    line: &[u8],
    at: usize,
) -> Result<Option<Step>, NoMemory>
    requires { line.now ≡ codes "results " ++ drop at line.now }
    ensures { IfOk result (ReadsAll (steps_of version) line.now) }
{
    match read_rest::<(u32, (u32, Items<Cert>))>(alloc, line, at)? {
        Some((left, (right, certs))) => Ok(Some(Step::Results { left, right, certs })),
        None => Ok(None),
    }
}

/// The step whose line this is in logs of the version; None exactly where it is that of none in
/// range.
pub(crate) fn read_step(
    alloc: Global,
    version: Version,
    line: &[u8],
) -> Result<Option<Step>, NoMemory>
    ensures { IfOk result (ReadsAll (steps_of version) line.now) }
{
    if let Some(at) = skip_beginning(line, b"simplify ") {
        return read_simplify(alloc, version, line, at);
    }
    if let Some(at) = skip_beginning(line, b"hyp ") {
        return read_hyp(alloc, version, line, at);
    }
    if let Some(at) = skip_beginning(line, b"expand ") {
        return read_expand(alloc, version, line, at);
    }
    if let Some(at) = skip_beginning(line, b"absurd ") {
        return read_absurd(alloc, version, line, at);
    }
    if let Some(at) = skip_beginning(line, b"equal ") {
        return read_equal(alloc, version, line, at);
    }
    if let Some(at) = skip_beginning(line, b"generalise ") {
        return read_generalise(alloc, version, line, at);
    }
    if let Some(at) = skip_beginning(line, b"postulate ") {
        return read_postulate(alloc, version, line, at);
    }
    if let Some(at) = skip_beginning(line, b"split ") {
        return read_split(alloc, version, line, at);
    }
    if let Some(at) = skip_beginning(line, b"decompose ") {
        return read_decompose(alloc, version, line, at);
    }
    if let Some(at) = skip_beginning(line, b"results ") {
        return read_results(alloc, version, line, at);
    }
    if is_word(line, b"eqdelete") {
        return Ok(Some(Step::EqDelete));
    }
    Ok(None)
}
