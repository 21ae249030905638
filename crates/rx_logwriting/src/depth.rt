//! Whether certificates and trees are at most 200 deep. Nothing deeper is walked.
ghost use Rattle.std.specs.Prelude.{◌≡◌};
ghost use Rattle.rx_log.specs.Depth.{are_shallow, has_shallow_certs, is_shallow, is_shallow_tree};
ghost use Rattle.std.specs.List.{list_all};

use crate::ranges_depth::{is_tree_within, is_within};
use rx_cert::Cert;
use rx_cover::CoverTree;

/// How deep a certificate or a tree is at most.
const DEEPEST: u32 = 200;

/// Whether all certificates are at most 200 deep.
pub(crate) fn are_shallow(certs: &[Cert]) -> bool
    ensures { result ≡ are_shallow certs.now }
{
    for cert in certs {
        if !is_within(cert, DEEPEST) {
            return false;
        }
    }
    true
}

/// Whether all certificates in the tree are at most 200 deep. The tree is walked whole.
fn has_shallow_certs(tree: &CoverTree) -> bool
    ensures { result ≡ has_shallow_certs tree.now }
{
    match tree {
        CoverTree::Use { certs, .. } => are_shallow(certs.as_slice()),
        CoverTree::Split { yes, no, .. } => {
            has_shallow_certs(yes.get()) && has_shallow_certs(no.get())
        }
        CoverTree::Absurd(cert) => is_within(cert, DEEPEST),
    }
}

/// Whether all trees, and all certificates in them, are at most 200 deep.
pub(crate) fn are_shallow_trees(trees: &[CoverTree]) -> bool
    ensures { result ≡ list_all is_shallow_tree trees.now }
{
    for tree in trees {
        if !is_tree_within(tree, DEEPEST) || !has_shallow_certs(tree) {
            return false;
        }
    }
    true
}
