//! Cover trees.
ghost use Rattle.std.specs.Prelude.{◌≡◌};
ghost use Rattle.std.specs.List.{list_all};
ghost use Rattle.rx_term_words.specs.Trees as spec;
ghost use Rattle.rx_term_words.specs.Trees.{is_readable_tree};

use crate::certificates::{cert_has_text, certs_have_text};
use crate::polynomials::row_has_text;
use crate::ranges_depth::is_tree_within;
use rx_cover::CoverTree;

/// How deep a tree is at most.
const DEEPEST: u32 = 200;

/// Whether all in the tree has a text. It is walked as deep as it is.
fn is_readable(tree: &CoverTree) -> bool
    ensures { result ≡ is_readable_tree tree.now }
{
    match tree {
        CoverTree::Use { rule, certs } => {
            let _rule = *rule;
            certs_have_text(certs.as_slice())
        }
        CoverTree::Split { row, yes, no } => {
            row_has_text(row) && is_readable(yes.get()) && is_readable(no.get())
        }
        CoverTree::Absurd(cert) => cert_has_text(cert),
    }
}

/// Whether the tree has a text: whether it is at most 200 deep, and its rows and certificates have
/// a text. Nothing deeper is walked.
pub fn tree_has_text(tree: &CoverTree) -> bool
    ensures { result ≡ spec.trees.in_range tree.now }
{
    is_tree_within(tree, DEEPEST) && is_readable(tree)
}

/// Whether all of the trees have a text.
pub fn trees_have_text(trees: &[CoverTree]) -> bool
    ensures { result ≡ list_all spec.trees.in_range trees.now }
{
    for tree in trees {
        if !tree_has_text(tree) {
            return false;
        }
    }
    true
}
