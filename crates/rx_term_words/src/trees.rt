//! Cover trees are read as words.
ghost use Rattle.std.specs.Prelude.{◌≡◌, IfOk};
ghost use Rattle.rx_text.specs.Formats.{Reads};
ghost use Rattle.rx_text.specs.Rows.{row_format};
ghost use Rattle.rx_term_words.specs.Branches.{
  ReadsTreeKind,
  as_absurd,
  as_split,
  as_use,
  branches_within,
  splits_within,
  uses,
};
ghost use Rattle.rx_term_words.specs.Trees.{trees, trees_within};
ghost use Rattle.rx_words.specs.Words.{word};

use rx_cert::Cert;
use rx_cover::CoverTree;
use rx_plain::{Boxed, Items, NoMemory};
use rx_row::Row;
use rx_text::{read_row, skip_word};
use rx_words::{ending_word, read_cert, read_certs, read_number};
use std::alloc::Global;

/// How deep a tree may be that has a text.
const DEEPEST: u32 = 200;

/// The kinds of cover trees.
#[derive(Clone, Copy)]
pub(crate) enum TreeKind {
    /// A rule applies.
    Use,
    /// A row or its negation.
    Split,
    /// No arguments meet the rows.
    Absurd,
}

/// The kind whose word is at the place, with the place after the word and its space.
fn read_tree_kind(bytes: &[u8], at: usize) -> Option<(TreeKind, usize)>
    ensures { ReadsTreeKind bytes.now at result }
{
    if let Some(next) = skip_word(bytes, at, b"use ") {
        return Some((TreeKind::Use, next));
    }
    if let Some(next) = skip_word(bytes, at, b"split ") {
        return Some((TreeKind::Split, next));
    }
    if let Some(next) = skip_word(bytes, at, b"absurd ") {
        return Some((TreeKind::Absurd, next));
    }
    None
}

/// The number of a rule and its certificates, as a tree.
fn as_use(found: Option<((u32, Items<Cert>), usize)>) -> Option<(CoverTree, usize)>
    ensures { result ≡ as_use found }
{
    match found {
        Some(((rule, certs), end)) => Some((CoverTree::Use { rule, certs }, end)),
        None => None,
    }
}

/// A row and two trees, as a tree.
fn as_split(
    found: Option<((Row, (Boxed<CoverTree>, Boxed<CoverTree>)), usize)>,
) -> Option<(CoverTree, usize)>
    ensures { result ≡ as_split found }
{
    match found {
        Some(((row, (yes, no)), end)) => Some((CoverTree::Split { row, yes, no }, end)),
        None => None,
    }
}

/// A certificate, as a tree.
fn as_absurd(found: Option<(Cert, usize)>) -> Option<(CoverTree, usize)>
    ensures { result ≡ as_absurd found }
{
    match found {
        Some((cert, end)) => Some((CoverTree::Absurd(cert), end)),
        None => None,
    }
}

/// The number of a rule and its certificates that are at the place.
fn read_use(
    alloc: Global,
    bytes: &[u8],
    at: usize,
) -> Result<Option<((u32, Items<Cert>), usize)>, NoMemory>
    ensures { IfOk result (λ found. Reads uses bytes.now at found) }
{
    let Some((rule, middle)) = read_number(bytes, at) else {
        return Ok(None);
    };
    let Some(next) = skip_word(bytes, middle, b" ") else {
        return Ok(None);
    };
    let Some((certs, end)) = read_certs(alloc, bytes, next)? else {
        return Ok(None);
    };
    Ok(Some(((rule, certs), end)))
}

/// The row whose text is at the place, up to the end of a word.
fn read_row_word(alloc: Global, bytes: &[u8], at: usize) -> Result<Option<(Row, usize)>, NoMemory>
    ensures { IfOk result (λ found. Reads (word row_format) bytes.now at found) }
{
    Ok(ending_word(bytes, read_row(alloc, bytes, at)?))
}

/// The two trees at most so deep that are at the place, with a space between them.
#[cycle(trees)]
fn read_branches(
    alloc: Global,
    bytes: &[u8],
    at: usize,
    most: u32,
) -> Result<Option<((Boxed<CoverTree>, Boxed<CoverTree>), usize)>, NoMemory>
    ensures { IfOk result (λ found. Reads (branches_within most) bytes.now at found) }
{
    let Some((yes, middle)) = read_within(alloc, bytes, at, most)? else {
        return Ok(None);
    };
    let Some(next) = skip_word(bytes, middle, b" ") else {
        return Ok(None);
    };
    let Some((no, end)) = read_within(alloc, bytes, next, most)? else {
        return Ok(None);
    };
    let yes = Boxed::new(alloc, yes)?;
    let no = Boxed::new(alloc, no)?;
    Ok(Some(((yes, no), end)))
}

/// The row and the two trees at most so deep that are at the place, with spaces between them.
#[cycle(trees)]
fn read_split(
    alloc: Global,
    bytes: &[u8],
    at: usize,
    most: u32,
) -> Result<Option<((Row, (Boxed<CoverTree>, Boxed<CoverTree>)), usize)>, NoMemory>
    ensures { IfOk result (λ found. Reads (splits_within most) bytes.now at found) }
{
    let Some((row, middle)) = read_row_word(alloc, bytes, at)? else {
        return Ok(None);
    };
    let Some(next) = skip_word(bytes, middle, b" ") else {
        return Ok(None);
    };
    let Some((branches, end)) = read_branches(alloc, bytes, next, most)? else {
        return Ok(None);
    };
    Ok(Some(((row, branches), end)))
}

/// The tree at most so deep that is at the place.
#[cycle(trees)]
fn read_within(
    alloc: Global,
    bytes: &[u8],
    at: usize,
    most: u32,
) -> Result<Option<(CoverTree, usize)>, NoMemory>
    ensures { IfOk result (λ found. Reads (trees_within most) bytes.now at found) }
{
    if most == 0 {
        return Ok(None);
    }
    let Some((kind, next)) = read_tree_kind(bytes, at) else {
        return Ok(None);
    };
    match kind {
        TreeKind::Use => Ok(as_use(read_use(alloc, bytes, next)?)),
        TreeKind::Split => Ok(as_split(read_split(alloc, bytes, next, most - 1)?)),
        TreeKind::Absurd => Ok(as_absurd(read_cert(alloc, bytes, next)?)),
    }
}

/// The cover tree whose text is at the place, and the place after it. None exactly where no tree
/// has its text there: one has that is at most 200 deep, and whose certificates each are, with
/// variables below 1,000,000.
pub fn read_tree(
    alloc: Global,
    bytes: &[u8],
    at: usize,
) -> Result<Option<(CoverTree, usize)>, NoMemory>
    ensures { IfOk result (λ found. Reads trees bytes.now at found) }
{
    read_within(alloc, bytes, at, DEEPEST)
}
