//! The examination of a cover tree at a path. The path's rows are borrowed: what a branch appends
//! to them it takes off again.
ghost use Rattle.std.specs.Prelude.{◌≡◌, ◌∷◌, ◌++◌, [], Some, None, slice_get, IfOk, IfErr, OnOk};
ghost use Rattle.rx_cover.specs.Covering.{symbol};
ghost use Rattle.rx_cert.specs.Findings.{Beyond, said};
ghost use Rattle.rx_cover.specs.Redexes.{shape_at};
ghost use Rattle.rx_cover.specs.Trees.{tree_finding, tree_level, use_finding};
ghost use Rattle.rx_cover.specs.declared.cover_tree.CoverTree.TheOpen.{CoverTree-F};

use crate::cover_tree::CoverTree;
use crate::redex::{Redex, is_redex_of};
use rx_cert::{Cert, ConditionsAnswer, check_conditions, shows};
use rx_plain::Boxed;
use rx_poly::PolyEnd;
use rx_row::{Constraint, Row};
use rx_term::Rule;
use std::alloc::Global;

/// Whether the rule with that number is there, has the shape, and its rows follow from the path's.
fn examine_use(
    alloc: Global,
    rules: &[Rule],
    sym: usize,
    redex: Redex,
    path: &Constraint,
    number: u32,
    certs: &[Cert],
) -> Result<bool, PolyEnd>
    ensures answer { IfOk result (λ b. use_finding (shape_at (symbol sym) redex)
        (slice_get rules.now number) path.now certs.now ≡ said b) }
    ensures large { IfErr result (λ e. e ≡ PolyEnd.Large →
        use_finding (shape_at (symbol sym) redex) (slice_get rules.now number) path.now certs.now ≡
        Beyond) }
{
    let Some(rule) = rules.get(number as usize) else {
        return Ok(false);
    };
    if !is_redex_of(&rule.left, sym, redex) {
        return Ok(false);
    }
    match check_conditions(alloc, path, rule.rows.rows(), certs)? {
        ConditionsAnswer::Shown => Ok(true),
        ConditionsAnswer::WrongCount => Ok(false),
        ConditionsAnswer::NotShown(_) => Ok(false),
    }
}

/// The row after those of the path.
fn append(path: &mut Constraint, row: Row) -> Result<(), PolyEnd>
    ensures new { OnOk result (path.new ≡ path.old ++ row ∷ []) }
    ensures large { IfErr result (λ e. e ≡ PolyEnd.Large → ⊥) }
{
    match path.append(row) {
        Ok(_) => Ok(()),
        Err(_) => Err(PolyEnd::NoMemory),
    }
}

/// Whether the tree shows its shape at the path with one more row.
#[cycle(examination)]
fn examine_with(
    alloc: Global,
    rules: &[Rule],
    sym: usize,
    redex: Redex,
    path: &mut Constraint,
    row: Row,
    tree: &Boxed<CoverTree>,
) -> Result<bool, PolyEnd>
    ensures answer { IfOk result (λ b. tree_finding rules.now (shape_at (symbol sym) redex) tree.now
        (path.old ++ row ∷ []) ≡ said b) }
    ensures large { IfErr result (λ e. e ≡ PolyEnd.Large →
        tree_finding rules.now (shape_at (symbol sym) redex) tree.now (path.old ++ row ∷ []) ≡
        Beyond) }
    ensures kept { OnOk result (path.new ≡ path.old) }
{
    let count = path.rows().len();
    append(path, row)?;
    let found = examine(alloc, rules, sym, redex, path, tree.get())?;
    path.truncate(count);
    Ok(found)
}

/// Whether both trees show their shape, one at the path with the row, the other at the path with
/// its negation.
#[cycle(examination)]
fn examine_split(
    alloc: Global,
    rules: &[Rule],
    sym: usize,
    redex: Redex,
    path: &mut Constraint,
    row: &Row,
    yes: &Boxed<CoverTree>,
    no: &Boxed<CoverTree>,
) -> Result<bool, PolyEnd>
    ensures answer { IfOk result (λ b. tree_level rules.now (shape_at (symbol sym) redex)
        (CoverTree-F.Split row.now (tree_finding rules.now (shape_at (symbol sym) redex) yes.now)
        (tree_finding rules.now (shape_at (symbol sym) redex) no.now)) path.old ≡ said b) }
    ensures large { IfErr result (λ e. e ≡ PolyEnd.Large →
        tree_level rules.now (shape_at (symbol sym) redex)
        (CoverTree-F.Split row.now (tree_finding rules.now (shape_at (symbol sym) redex) yes.now)
        (tree_finding rules.now (shape_at (symbol sym) redex) no.now)) path.old ≡ Beyond) }
    ensures kept { OnOk result (path.new ≡ path.old) }
{
    let same = row.try_clone(alloc)?;
    if !examine_with(alloc, rules, sym, redex, path, same, yes)? {
        return Ok(false);
    }
    let negation = row.negate(alloc)?;
    examine_with(alloc, rules, sym, redex, path, negation, no)
}

/// Whether the tree shows that at the path some rule of the shape applies. Large exactly where a
/// polynomial passes the limits before that is seen.
#[cycle(examination)]
#[tactic(auto, using(crate::proofs::Equations::finding_use, crate::proofs::Equations::finding_split, crate::proofs::Equations::finding_absurd, crate::proofs::Equations::depth_split))]
pub(crate) fn examine(
    alloc: Global,
    rules: &[Rule],
    sym: usize,
    redex: Redex,
    path: &mut Constraint,
    tree: &CoverTree,
) -> Result<bool, PolyEnd>
    ensures answer { IfOk result (λ b. tree_finding rules.now (shape_at (symbol sym) redex) tree.now
        path.old ≡ said b) }
    ensures large { IfErr result (λ e. e ≡ PolyEnd.Large →
        tree_finding rules.now (shape_at (symbol sym) redex) tree.now path.old ≡ Beyond) }
    ensures kept { OnOk result (path.new ≡ path.old) }
{
    match tree {
        CoverTree::Use { rule, certs } => {
            examine_use(alloc, rules, sym, redex, path, *rule, certs.as_slice())
        }
        CoverTree::Split { row, yes, no } => {
            examine_split(alloc, rules, sym, redex, path, row, yes, no)
        }
        CoverTree::Absurd(cert) => shows(alloc, path, cert),
    }
}
