//! What calls find, as text: words with a space between them, a list after its number of elements.
use rx_cover::CoverTree;
use rx_find_ranks::Ranking;
use rx_pairs::{PairCert, RankTable};
use rx_plain::{Items, NoMemory};
use rx_poly::Poly;
use rx_term_words::push_tree;
use rx_text::{push_natural, push_poly, push_word};
use rx_words::push_count;
use test_lines::{push_each, push_list};

fn push_trees(trees: &Items<CoverTree>, out: &mut Vec<u8>) -> Result<(), NoMemory> {
    push_list(trees.as_slice(), out, |tree, out| push_tree(tree, out))
}

/// The trees of each symbol.
pub fn push_cover(cover: &Items<Items<CoverTree>>, out: &mut Vec<u8>) -> Result<(), NoMemory> {
    push_list(cover.as_slice(), out, push_trees)
}

fn push_column(column: &Poly, out: &mut Vec<u8>) -> Result<(), NoMemory> {
    push_poly(out, column)
}

fn push_ranks(table: &RankTable, out: &mut Vec<u8>) -> Result<(), NoMemory> {
    for rank in table.ranks.as_slice() {
        push_each(rank.as_slice(), out, push_column)?;
    }
    Ok(())
}

/// The number of columns, and then those of each symbol.
pub fn push_table(found: &Ranking, out: &mut Vec<u8>) -> Result<(), NoMemory> {
    push_natural(out, found.table.columns)?;
    push_ranks(&found.table, out)
}

fn push_pair(pair: &PairCert, out: &mut Vec<u8>) -> Result<(), NoMemory> {
    push_natural(out, pair.column)?;
    push_word(out, b" ")?;
    push_count(out, pair.certs.len())
}

/// The number of pairs, and then the column of each and how many certificates it has.
pub fn push_lowering(found: &Ranking, out: &mut Vec<u8>) -> Result<(), NoMemory> {
    push_list(found.certs.as_slice(), out, push_pair)
}
