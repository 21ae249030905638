//! The search for a tree at a path. The path's rows are borrowed: what a branch appends to them it
//! takes off again.
ghost use Rattle.std.specs.Prelude.{◌≡◌, ◌∷◌, ◌++◌, ◌+◌, [], true, false, Some, IfOk, IfErr, IfSome, OnOk};
ghost use Rattle.std.specs.Option.{option_map};
ghost use Rattle.rx_cover.specs.Covering.{symbol};
ghost use Rattle.rx_cover.specs.declared.cover_tree.CoverTree.TheVariants.{Split};
ghost use Rattle.rx_find_cover.specs.Answers.{outcome};
ghost use Rattle.rx_find_cover.specs.Coverable.{covering_at, splitting, unless_used};
ghost use Rattle.rx_find_cover.specs.Coverage.{formed_then, noting};
ghost use Rattle.rx_cover.specs.Redexes.{shape_at};
ghost use Rattle.rx_find_cover.specs.Trees.{IsOwnRow, IsTree};
ghost use Rattle.rx_row.specs.Negation.{negation, negation_within};
ghost use Rattle.rx_solve.specs.Answers.{IsSolver};
ghost use Rattle.rx_term.specs.Paired.{rules_of_shape};

use crate::built::{Built, into_noted, noted_before};
use crate::splits::find_split_row;
use crate::uses::{find_use, refute_path};
use rx_cert::Cert;
use rx_cover::{CoverTree, Redex};
use rx_fm::FmEnd;
use rx_plain::{Boxed, NoMemory};
use rx_poly::PolyEnd;
use rx_row::{Constraint, Row};
use rx_term::Rule;
use std::alloc::Global;

/// The tree at the path with one more row.
#[cycle(building)]
fn build_with<S: FnMut(&Constraint) -> Result<Option<Cert>, FmEnd>>(
    alloc: Global,
    rules: &[Rule],
    sym: usize,
    redex: Redex,
    path: &mut Constraint,
    row: Row,
    left: u32,
    solve: &mut S,
) -> Result<Built<CoverTree>, NoMemory>
    requires solver { IsSolver S.FnMut solve.old }
    ensures solver { IsSolver S.FnMut solve.new }
    ensures coverage { IfOk result (λ b. outcome b ≡
        covering_at (rules_of_shape (shape_at (symbol sym) redex) rules.now) left
        (path.old ++ row ∷ [])) }
    ensures tree { IfOk result (λ b. IfSome b.made
        (IsTree rules.now (shape_at (symbol sym) redex) (left + 1) (path.old ++ row ∷ []))) }
    ensures kept { OnOk result (path.new ≡ path.old) }
{
    let count = path.rows().len();
    path.append(row)?;
    let built = build(alloc, rules, sym, redex, path, left, solve)?;
    path.truncate(count);
    Ok(built)
}

/// The tree at the path with the negation of the row, which is formed for it.
#[cycle(building)]
fn build_with_negation<S: FnMut(&Constraint) -> Result<Option<Cert>, FmEnd>>(
    alloc: Global,
    rules: &[Rule],
    sym: usize,
    redex: Redex,
    path: &mut Constraint,
    row: &Row,
    left: u32,
    solve: &mut S,
) -> Result<Built<CoverTree>, NoMemory>
    requires solver { IsSolver S.FnMut solve.old }
    ensures solver { IsSolver S.FnMut solve.new }
    ensures coverage { IfOk result (λ b. outcome b ≡
        formed_then (negation_within row.now)
        (covering_at (rules_of_shape (shape_at (symbol sym) redex) rules.now) left
        (path.old ++ negation row.now ∷ []))) }
    ensures tree { IfOk result (λ b. IfSome b.made
        (IsTree rules.now (shape_at (symbol sym) redex) (left + 1)
        (path.old ++ negation row.now ∷ []))) }
    ensures formed { IfOk result (λ b. IfSome b.made (λ t. negation_within row.now ≡ true)) }
    ensures kept { OnOk result (path.new ≡ path.old) }
{
    match row.negate(alloc) {
        Ok(negation) => build_with(alloc, rules, sym, redex, path, negation, left, solve),
        Err(PolyEnd::Large) => Ok(Built {
            made: None,
            noted: true,
        }),
        Err(PolyEnd::NoMemory) => Err(NoMemory),
    }
}

/// The split by the row, where the second branch has a tree too.
fn join(
    alloc: Global,
    row: &Row,
    yes: Boxed<CoverTree>,
    noted: bool,
    second: Built<CoverTree>,
) -> Result<Built<CoverTree>, NoMemory>
    ensures made { IfOk result (λ b. b.made ≡ option_map (Split row.now yes) second.made) }
    ensures outcome { IfOk result (λ b. outcome b ≡ noting noted (outcome second)) }
{
    let noted = noted || second.noted;
    let Some(no) = second.made else {
        return Ok(Built { made: None, noted });
    };
    let no = Boxed::new(alloc, no)?;
    let row = row.try_clone(alloc)?;
    Ok(Built {
        made: Some(CoverTree::Split { row, yes, no }),
        noted,
    })
}

/// The split of the path by the row: the branch with it, and then the one with its negation.
#[cycle(building)]
fn build_split<S: FnMut(&Constraint) -> Result<Option<Cert>, FmEnd>>(
    alloc: Global,
    rules: &[Rule],
    sym: usize,
    redex: Redex,
    path: &mut Constraint,
    row: &Row,
    left: u32,
    solve: &mut S,
) -> Result<Built<CoverTree>, NoMemory>
    requires solver { IsSolver S.FnMut solve.old }
    requires own { IsOwnRow rules.now row.now }
    ensures solver { IsSolver S.FnMut solve.new }
    ensures coverage { IfOk result (λ b. outcome b ≡
        splitting (Some row.now) (covering_at
        (rules_of_shape (shape_at (symbol sym) redex) rules.now) left) path.old) }
    ensures tree { IfOk result (λ b. IfSome b.made
        (IsTree rules.now (shape_at (symbol sym) redex) (left + 2) path.old)) }
    ensures kept { OnOk result (path.new ≡ path.old) }
{
    let same = row.try_clone(alloc)?;
    let first = build_with(alloc, rules, sym, redex, path, same, left, solve)?;
    let noted = first.noted;
    let made = first.made;
    let Some(yes) = made else {
        return Ok(Built { made: None, noted });
    };
    let yes = Boxed::new(alloc, yes)?;
    let second = build_with_negation(alloc, rules, sym, redex, path, row, left, solve)?;
    join(alloc, row, yes, noted, second)
}

/// The tree at a path at which no rule is used: a split by the first row by which the path can be
/// split, where a split is left, or else a refutation of the path.
#[cycle(building)]
fn build_unless_used<S: FnMut(&Constraint) -> Result<Option<Cert>, FmEnd>>(
    alloc: Global,
    rules: &[Rule],
    sym: usize,
    redex: Redex,
    path: &mut Constraint,
    left: u32,
    solve: &mut S,
) -> Result<Built<CoverTree>, NoMemory>
    requires solver { IsSolver S.FnMut solve.old }
    ensures solver { IsSolver S.FnMut solve.new }
    ensures coverage { IfOk result (λ b. outcome b ≡
        unless_used (rules_of_shape (shape_at (symbol sym) redex) rules.now) left path.old) }
    ensures tree { IfOk result (λ b. IfSome b.made
        (IsTree rules.now (shape_at (symbol sym) redex) (left + 1) path.old)) }
    ensures kept { OnOk result (path.new ≡ path.old) }
{
    if left == 0 {
        return refute_path(path, solve);
    }
    match find_split_row(rules, sym, redex, path) {
        Some(row) => build_split(alloc, rules, sym, redex, path, row, left - 1, solve),
        None => refute_path(path, solve),
    }
}

/// The tree for the shape at the path, with at most that many splits on a way through it: the use
/// of the first rule whose rows follow from the path's, or else what is found without.
#[cycle(building)]
pub(crate) fn build<S: FnMut(&Constraint) -> Result<Option<Cert>, FmEnd>>(
    alloc: Global,
    rules: &[Rule],
    sym: usize,
    redex: Redex,
    path: &mut Constraint,
    left: u32,
    solve: &mut S,
) -> Result<Built<CoverTree>, NoMemory>
    requires solver { IsSolver S.FnMut solve.old }
    ensures solver { IsSolver S.FnMut solve.new }
    ensures coverage { IfOk result (λ b. outcome b ≡
        covering_at (rules_of_shape (shape_at (symbol sym) redex) rules.now) left path.old) }
    ensures tree { IfOk result (λ b. IfSome b.made
        (IsTree rules.now (shape_at (symbol sym) redex) (left + 1) path.old)) }
    ensures kept { OnOk result (path.new ≡ path.old) }
{
    let used = find_use(alloc, rules, sym, redex, path, solve)?;
    if used.made.is_some() {
        return Ok(used);
    }
    let noted = into_noted(used);
    let built = build_unless_used(alloc, rules, sym, redex, path, left, solve)?;
    Ok(noted_before(noted, built))
}
