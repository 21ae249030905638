//! Certificates and trees in the notation of a log, and lists of them. Each function answers None
//! where the text is no such value, or where there is no memory.
use rx_cert::Cert;
use rx_cover::CoverTree;
use rx_plain::{Items, NoMemory};
use rx_term_words::read_tree;
use rx_words::read_certs;
use std::alloc::Global;
use test_lines::{list, list_at, whole};

/// A list of certificates.
pub fn certs(alloc: Global, text: &str) -> Option<Items<Cert>> {
    whole(alloc, text, |alloc, text, at| read_certs(alloc, text, at))
}

fn tree_at(alloc: Global, text: &[u8], at: usize) -> Result<Option<(CoverTree, usize)>, NoMemory> {
    read_tree(alloc, text, at)
}

/// A list of trees.
pub fn trees(alloc: Global, text: &str) -> Option<Items<CoverTree>> {
    list(alloc, text, tree_at)
}

fn trees_at(
    alloc: Global,
    text: &[u8],
    at: usize,
) -> Result<Option<(Items<CoverTree>, usize)>, NoMemory> {
    list_at(alloc, text, at, &tree_at)
}

/// Lists of trees.
pub fn lists(alloc: Global, text: &str) -> Option<Items<Items<CoverTree>>> {
    list(alloc, text, trees_at)
}
