//! Lines, read from bytes.
ghost use Rattle.std.specs.Prelude.{◌≡◌, ◌≤◌, ◌++◌, None, codes, true, drop, length, IfOk};
ghost use Rattle.rx_log.specs.declared.version.Version.TheVariants.{One, Two};
ghost use Rattle.rx_text.specs.Formats.{is_over};
ghost use Rattle.rx_words.specs.Words.{in_word, words};
ghost use Rattle.rx_logtext.specs.Frames.{IsNoFront, IsNoMark};
ghost use Rattle.rx_logtext.specs.Lines.{ReadsAll, ReadsEach, ReadsLine, lines_of};
ghost use Rattle.rx_logtext.specs.Steps.{steps_of};
ghost use Rattle.rx_logtext.specs.Lines as spec;

use crate::log_end::LogEnd;
use crate::part::{Part, is_word, read_rest, skip_beginning};
use crate::steps::read_step;
use rx_cert::Cert;
use rx_cover::CoverTree;
use rx_log::{Line, Version};
use rx_pairs::PairCert;
use rx_plain::{Items, NoMemory};
use rx_poly::Poly;
use rx_row::{Constraint, Row};
use rx_text::skip_word;
use rx_words::read_number;
use std::alloc::Global;

/// The parts that the bytes from the place on are, each after a space; None exactly where they are
/// no such list.
fn read_each<T: Part>(
    alloc: Global,
    bytes: &[u8],
    from: usize,
) -> Result<Option<Items<T>>, NoMemory>
    requires within { from ≤ length bytes.now }
    requires over { is_over in_word (drop from bytes.now) ≡ true }
    ensures { IfOk result (ReadsEach (words T.text T.in_range) (drop from bytes.now)) }
{
    let mut parts = Items::new(alloc);
    let mut at = from;
    while at < bytes.len() {
        let Some(next) = skip_word(bytes, at, b" ") else {
            return Ok(None);
        };
        let Some((part, end)) = T::read_part(alloc, bytes, next)? else {
            return Ok(None);
        };
        parts.push(part)?;
        at = end;
    }
    Ok(Some(parts))
}

/// A line that begins with `domain s`.
fn read_domain(
    alloc: Global,
    version: Version,
    line: &[u8],
    at: usize,
) -> Result<Option<(Line, u32)>, NoMemory>
    requires { line.now ≡ codes "domain s" ++ drop at line.now }
    ensures { IfOk result (ReadsAll (lines_of version) line.now) }
{
    match read_rest::<(u32, Items<Row>)>(alloc, line, at)? {
        Some((symbol, rows)) => {
            let rows = Constraint::from_rows(rows.into_vec());
            Ok(Some((Line::Domain(rows), symbol)))
        }
        None => Ok(None),
    }
}

/// A line that begins with `keep `.
fn read_keep(
    alloc: Global,
    version: Version,
    line: &[u8],
    at: usize,
) -> Result<Option<(Line, u32)>, NoMemory>
    requires { line.now ≡ codes "keep " ++ drop at line.now }
    ensures { IfOk result (ReadsAll (lines_of version) line.now) }
{
    match read_rest::<Items<Cert>>(alloc, line, at)? {
        Some(certs) => Ok(Some((Line::Keep(certs), 0))),
        None => Ok(None),
    }
}

/// A line that begins with `cover s`.
fn read_cover(
    alloc: Global,
    version: Version,
    line: &[u8],
    at: usize,
) -> Result<Option<(Line, u32)>, NoMemory>
    requires { line.now ≡ codes "cover s" ++ drop at line.now }
    ensures { IfOk result (ReadsAll (lines_of version) line.now) }
{
    let Some((symbol, end)) = read_number(line, at) else {
        return Ok(None);
    };
    match read_each::<CoverTree>(alloc, line, end)? {
        Some(trees) => Ok(Some((Line::Cover(trees), symbol))),
        None => Ok(None),
    }
}

/// Whether a rank may have n columns: 1 to 15.
pub fn is_width(columns: usize) -> bool
    ensures { result ≡ spec.is_width columns }
{
    1 <= columns && columns <= 15
}

/// A line that begins with `rank s`.
fn read_rank(
    alloc: Global,
    version: Version,
    line: &[u8],
    at: usize,
) -> Result<Option<(Line, u32)>, NoMemory>
    requires { line.now ≡ codes "rank s" ++ drop at line.now }
    ensures { IfOk result (ReadsAll (lines_of version) line.now) }
{
    let Some((symbol, end)) = read_number(line, at) else {
        return Ok(None);
    };
    match read_each::<Poly>(alloc, line, end)? {
        Some(rank) => {
            if is_width(rank.len()) {
                Ok(Some((Line::Rank(rank), symbol)))
            } else {
                Ok(None)
            }
        }
        None => Ok(None),
    }
}

/// A line that begins with `ranks `.
fn read_ranks(
    alloc: Global,
    version: Version,
    line: &[u8],
    at: usize,
) -> Result<Option<(Line, u32)>, NoMemory>
    requires { line.now ≡ codes "ranks " ++ drop at line.now }
    ensures { IfOk result (ReadsAll (lines_of version) line.now) }
{
    match read_rest::<u32>(alloc, line, at)? {
        Some(columns) => {
            if is_width(columns as usize) {
                Ok(Some((Line::Ranks(columns), 0)))
            } else {
                Ok(None)
            }
        }
        None => Ok(None),
    }
}

/// A line that begins with `pair `.
fn read_pair(
    alloc: Global,
    version: Version,
    line: &[u8],
    at: usize,
) -> Result<Option<(Line, u32)>, NoMemory>
    requires { line.now ≡ codes "pair " ++ drop at line.now }
    ensures { IfOk result (ReadsAll (lines_of version) line.now) }
{
    match read_rest::<(u32, Items<Cert>)>(alloc, line, at)? {
        Some((column, certs)) => Ok(Some((Line::Pair(PairCert { column, certs }), 0))),
        None => Ok(None),
    }
}

/// A line of ranks or of a pair, where it is none of the others.
fn read_order(alloc: Global, version: Version, line: &[u8]) -> Result<Option<(Line, u32)>, NoMemory>
    requires { IsNoFront version line.now }
    ensures { IfOk result (ReadsAll (lines_of version) line.now) }
{
    if let Some(at) = skip_beginning(line, b"ranks ") {
        return read_ranks(alloc, version, line, at);
    }
    if let Some(at) = skip_beginning(line, b"rank s") {
        return read_rank(alloc, version, line, at);
    }
    if let Some(at) = skip_beginning(line, b"pair ") {
        return read_pair(alloc, version, line, at);
    }
    Ok(None)
}

/// A line that is no step, no header and not the end.
fn read_content(
    alloc: Global,
    version: Version,
    line: &[u8],
) -> Result<Option<(Line, u32)>, NoMemory>
    requires { IsNoMark version line.now }
    ensures { IfOk result (ReadsAll (lines_of version) line.now) }
{
    if let Some(at) = skip_beginning(line, b"cover s") {
        return read_cover(alloc, version, line, at);
    }
    if let Some(at) = skip_beginning(line, b"domain s") {
        return read_domain(alloc, version, line, at);
    }
    if let Some(at) = skip_beginning(line, b"keep ") {
        return read_keep(alloc, version, line, at);
    }
    read_order(alloc, version, line)
}

/// A line that is no step.
fn read_frame(alloc: Global, version: Version, line: &[u8]) -> Result<Option<(Line, u32)>, NoMemory>
    requires { ReadsAll (steps_of version) line.now None }
    ensures { IfOk result (ReadsAll (lines_of version) line.now) }
{
    if is_word(line, b"ctrl-log 1") {
        return Ok(Some((Line::Header, 0)));
    }
    if is_word(line, b"ctrl-log 2") {
        return Ok(Some((Line::Header2, 0)));
    }
    if is_word(line, b"EQUIVALENT") {
        return Ok(Some((Line::End, 0)));
    }
    read_content(alloc, version, line)
}

/// The line that the bytes are in logs of the version, with the number of the symbol in it, or 0
/// where none is there; None exactly where they are no such line.
pub(crate) fn read_numbered(
    alloc: Global,
    version: Version,
    bytes: &[u8],
) -> Result<Option<(Line, u32)>, NoMemory>
    ensures { IfOk result (ReadsAll (lines_of version) bytes.now) }
{
    match read_step(alloc, version, bytes)? {
        Some(step) => Ok(Some((Line::Step(step), 0))),
        None => read_frame(alloc, version, bytes),
    }
}

/// Whether logs of the version have lines of this kind.
fn is_of(version: Version, line: &Line) -> bool
    ensures { result ≡ spec.is_of version line.now }
{
    match (version, line) {
        (Version::One, Line::Header2 | Line::Domain(_) | Line::Keep(_)) => false,
        (Version::Two, Line::Header) => false,
        _ => true,
    }
}

/// Lets go of a line.
fn let_go(_line: Line) {}

/// The line of a log of the version that the bytes are, with BadLine as `read_line` has it.
fn read_line_of(alloc: Global, version: Version, bytes: &[u8]) -> Result<Line, LogEnd>
    ensures { ReadsLine version bytes.now result }
{
    let Some((line, _)) = read_numbered(alloc, version, bytes)? else {
        return Err(LogEnd::BadLine { line: 1 });
    };
    if is_of(version, &line) {
        Ok(line)
    } else {
        let_go(line);
        Err(LogEnd::BadLine { line: 1 })
    }
}

/// The line of a log of version 1 that the bytes are, given without the line feed that ends it.
/// BadLine with the number 1 exactly where they are no line of any. Where a symbol is in it, its
/// number isn't kept. Fails else only when out of memory.
pub fn read_line(alloc: Global, bytes: &[u8]) -> Result<Line, LogEnd>
    ensures { ReadsLine One bytes.now result }
{
    read_line_of(alloc, Version::One, bytes)
}

/// The same of a log of version 2.
pub fn read_line_2(alloc: Global, bytes: &[u8]) -> Result<Line, LogEnd>
    ensures { ReadsLine Two bytes.now result }
{
    read_line_of(alloc, Version::Two, bytes)
}
