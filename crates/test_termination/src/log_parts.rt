//! Parts of a log, from text: lists of trees, ranks, and why pairs are lower.
use rx_cover::CoverTree;
use rx_pairs::{PairCert, RankTable};
use rx_plain::{Items, NoMemory};
use rx_poly::Poly;
use rx_term_words::read_tree;
use rx_text::{read_poly, skip_word};
use rx_words::{read_certs, read_number};
use std::alloc::Global;
use test_lines::{list, list_at, several};

fn tree_at(alloc: Global, text: &[u8], at: usize) -> Result<Option<(CoverTree, usize)>, NoMemory> {
    read_tree(alloc, text, at)
}

fn trees_at(
    alloc: Global,
    text: &[u8],
    at: usize,
) -> Result<Option<(Items<CoverTree>, usize)>, NoMemory> {
    list_at(alloc, text, at, &tree_at)
}

/// The lists of trees that the text is.
pub fn lists(alloc: Global, text: &str) -> Option<Items<Items<CoverTree>>> {
    list(alloc, text, trees_at)
}

fn poly_at(alloc: Global, text: &[u8], at: usize) -> Result<Option<(Poly, usize)>, NoMemory> {
    read_poly(alloc, text, at)
}

// The ranks that are counted, each with as many columns.
fn ranks_at(
    alloc: Global,
    text: &[u8],
    from: usize,
    count: u32,
    columns: u32,
) -> Option<(Items<Items<Poly>>, usize)> {
    let mut ranks = Items::new(alloc);
    let mut at = from;
    for _ in 0..count {
        let (rank, end) = several(alloc, text, at, columns, &poly_at).ok()??;
        ranks.push(rank).ok()?;
        at = end;
    }
    Some((ranks, at))
}

// Two numbers with a space between them, and the place after them.
fn numbers(text: &[u8]) -> Option<(u32, u32, usize)> {
    let (first, end) = read_number(text, 0)?;
    let (second, end) = read_number(text, skip_word(text, end, b" ")?)?;
    Some((first, second, end))
}

// The number of columns, and a list of ranks, at the beginning of the text.
fn table(alloc: Global, text: &[u8]) -> Option<(RankTable, usize)> {
    let (columns, count, from) = numbers(text)?;
    let (ranks, end) = ranks_at(alloc, text, from, count, columns)?;
    Some((RankTable { columns, ranks }, end))
}

// The certificates for a column.
fn by_column(
    alloc: Global,
    text: &[u8],
    column: u32,
    end: usize,
) -> Result<Option<(PairCert, usize)>, NoMemory> {
    let Some(first) = skip_word(text, end, b" ") else {
        return Ok(None);
    };
    match read_certs(alloc, text, first)? {
        Some((certs, end)) => Ok(Some((PairCert { column, certs }, end))),
        None => Ok(None),
    }
}

fn pair_at(alloc: Global, text: &[u8], at: usize) -> Result<Option<(PairCert, usize)>, NoMemory> {
    match read_number(text, at) {
        Some((column, end)) => by_column(alloc, text, column, end),
        None => Ok(None),
    }
}

/// Ranks, and why the pairs are lower by them.
#[derive(Drop)]
pub struct Ranked {
    /// The ranks.
    pub table: RankTable,
    /// Of each pair, the column and the certificates.
    pub pairs: Items<PairCert>,
}

// The ranks with the certificates that are the rest of the text, after a space.
fn with_pairs(alloc: Global, table: RankTable, text: &[u8], end: usize) -> Option<Ranked> {
    let first = skip_word(text, end, b" ")?;
    let (pairs, end) = list_at(alloc, text, first, &pair_at).ok()??;
    if end == text.len() {
        Some(Ranked { table, pairs })
    } else {
        None
    }
}

/// The ranks and the certificates that the text is.
pub fn ranking_of(alloc: Global, text: &str) -> Option<Ranked> {
    let (table, end) = table(alloc, text.as_bytes())?;
    with_pairs(alloc, table, text.as_bytes(), end)
}
