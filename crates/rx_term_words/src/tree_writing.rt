//! Cover trees are written: the word of their kind, and all that comes after it.
ghost use Rattle.std.specs.Prelude.{◌≡◌, ◌++◌, ◌∷◌, OnOk};
ghost use Rattle.rx_text.specs.Rows.{row_text};
ghost use Rattle.rx_term_words.specs.Branches.{tree_word, uses};
ghost use Rattle.rx_words.specs.Certificates.{cert_text};
ghost use Rattle.rx_term_words.specs.Trees.{tree_text};
ghost use Rattle.rx_term_words.specs.declared.trees.TreeKind.{TreeKind};

use rx_cert::Cert;
use rx_cover::CoverTree;
use rx_plain::{Boxed, Items, NoMemory};
use rx_row::Row;
use rx_text::{push_natural, push_row, push_word};
use rx_words::{push_cert, push_certs};

/// A rule that applies, with its certificates.
fn push_use(rule: u32, certs: &Items<Cert>, out: &mut Vec<u8>) -> Result<(), NoMemory>
    ensures { OnOk result (out.new.items ≡ out.old.items ++
        (tree_word TreeKind.Use ++ uses.text (rule, certs.now))) }
{
    push_word(out, b"use ")?;
    push_natural(out, rule)?;
    push_word(out, b" ")?;
    push_certs(certs, out)
}

/// The first words of a row or its negation.
fn push_row_split(row: &Row, out: &mut Vec<u8>) -> Result<(), NoMemory>
    ensures { OnOk result (out.new.items ≡ out.old.items ++
        (tree_word TreeKind.Split ++ row_text row.now)) }
{
    push_word(out, b"split ")?;
    push_row(out, row)
}

/// A certificate that no arguments meet the rows.
fn push_absurd(cert: &Cert, out: &mut Vec<u8>) -> Result<(), NoMemory>
    ensures { OnOk result (out.new.items ≡ out.old.items ++
        (tree_word TreeKind.Absurd ++ cert_text cert.now)) }
{
    push_word(out, b"absurd ")?;
    push_cert(cert, out)
}

/// One tree after a space.
#[cycle(tree_writing)]
fn push_branch(tree: &Boxed<CoverTree>, out: &mut Vec<u8>) -> Result<(), NoMemory>
    ensures { OnOk result (out.new.items ≡ out.old.items ++ (32 ∷ tree_text tree.now)) }
{
    push_word(out, b" ")?;
    push_tree(tree.get(), out)
}

/// Writes the text of the tree after what was written before. Fails only when out of memory, and
/// then some of the text may have been written.
#[cycle(tree_writing)]
pub fn push_tree(tree: &CoverTree, out: &mut Vec<u8>) -> Result<(), NoMemory>
    ensures { OnOk result (out.new.items ≡ out.old.items ++ tree_text tree.now) }
{
    match tree {
        CoverTree::Use { rule, certs } => push_use(*rule, certs, out),
        CoverTree::Split { row, yes, no } => {
            push_row_split(row, out)?;
            push_branch(yes, out)?;
            push_branch(no, out)
        }
        CoverTree::Absurd(cert) => push_absurd(cert, out),
    }
}
