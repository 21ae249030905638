//! Cover trees as trees.
ghost use Rattle.std.specs.Prelude.{◌≡◌, ◌<◌, ◌^◌, IfOk};
ghost use Rattle.rx_cover.specs.Depth.{tree_depth};

use rx_cert::Cert;
use rx_plain::{Boxed, Items};
use rx_row::Row;
use std::alloc::{AllocError, Global};

/// Why some rule of one shape applies at all arguments that meet the rows of a path.
#[derive(Debug, Drop)]
pub enum CoverTree {
    /// This rule does.
    Use {
        /// The number of the rule, counted from 0.
        rule: u32,
        /// One certificate for each of its rows that isn't plain, in order.
        certs: Items<Cert>,
    },
    /// A row holds, or its negation does.
    Split {
        /// The row.
        row: Row,
        /// The tree at the path with the row.
        yes: Boxed<CoverTree>,
        /// The tree at the path with its negation.
        no: Boxed<CoverTree>,
    },
    /// No arguments meet the rows of the path.
    Absurd(Cert),
}

/// A copy of the tree in the box, in a box of its own.
#[cycle(clones)]
fn copy(alloc: Global, tree: &Boxed<CoverTree>) -> Result<Boxed<CoverTree>, AllocError>
    ensures { IfOk result (λ t. t ≡ tree.now) }
{
    let copy = tree.get().try_clone(alloc)?;
    Boxed::new(alloc, copy)
}

/// Copies of the certificates.
fn copy_certs(alloc: Global, certs: &[Cert]) -> Result<Items<Cert>, AllocError>
    ensures { IfOk result (λ copies. copies ≡ certs.now) }
{
    let mut copies = Items::new(alloc);
    for cert in certs {
        copies.push(cert.try_clone(alloc)?)?;
    }
    Ok(copies)
}

impl CoverTree {
    /// How deep the tree is: 1, and 1 more for each level of splits in it. Takes no memory.
    pub fn depth(&self) -> u32
        requires { tree_depth self.now < 2 ^ 32 }
        ensures { result ≡ tree_depth self.now }
    {
        match self {
            CoverTree::Use { .. } => 1,
            CoverTree::Split { yes, no, .. } => 1 + yes.get().depth().max(no.get().depth()),
            CoverTree::Absurd(_) => 1,
        }
    }

    /// A copy that equals the tree.
    #[cycle(clones)]
    pub fn try_clone(&self, alloc: Global) -> Result<CoverTree, AllocError>
        ensures { IfOk result (λ t. t ≡ self.now) }
    {
        match self {
            CoverTree::Use { rule, certs } => Ok(CoverTree::Use {
                rule: *rule,
                certs: copy_certs(alloc, certs.as_slice())?,
            }),
            CoverTree::Split { row, yes, no } => Ok(CoverTree::Split {
                row: row.try_clone(alloc)?,
                yes: copy(alloc, yes)?,
                no: copy(alloc, no)?,
            }),
            CoverTree::Absurd(cert) => Ok(CoverTree::Absurd(cert.try_clone(alloc)?)),
        }
    }
}
