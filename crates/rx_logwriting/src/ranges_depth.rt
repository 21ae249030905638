//! How deep certificates and trees are. Nothing deeper than is asked is walked.
ghost use Rattle.std.specs.Prelude.{◌≡◌, nat_le};
ghost use Rattle.rx_cert.specs.Depth.{cert_depth};
ghost use Rattle.rx_cover.specs.Depth.{tree_depth};

use rx_cert::Cert;
use rx_cover::CoverTree;

/// Whether the certificate is at most so deep.
pub fn is_within(cert: &Cert, most: u32) -> bool
    ensures { result ≡ nat_le (cert_depth cert.now) most }
{
    if most == 0 {
        return false;
    }
    let left = most - 1;
    match cert {
        Cert::Sum(_) => true,
        Cert::Cut { rest, .. } => is_within(rest.get(), left),
        Cert::Split { yes, no, .. } => is_within(yes.get(), left) && is_within(no.get(), left),
        Cert::Differ { pos, neg, .. } => is_within(pos.get(), left) && is_within(neg.get(), left),
        Cert::Solve { rest, .. } => is_within(rest.get(), left),
        Cert::DivFacts { pos, neg, .. } => is_within(pos.get(), left) && is_within(neg.get(), left),
    }
}

/// Whether the tree is at most so deep.
pub fn is_tree_within(tree: &CoverTree, most: u32) -> bool
    ensures { result ≡ nat_le (tree_depth tree.now) most }
{
    if most == 0 {
        return false;
    }
    match tree {
        CoverTree::Split { yes, no, .. } => {
            is_tree_within(yes.get(), most - 1) && is_tree_within(no.get(), most - 1)
        }
        _ => true,
    }
}
