//! The leaves of a tree: a rule that is used, and a path that is refuted.
ghost use Rattle.std.specs.Prelude.{◌≡◌, List, slice_get, IfOk, IfSome};
ghost use Rattle.rx_cover.specs.Covering.{symbol};
ghost use Rattle.rx_find_cover.specs.Answers.{outcome};
ghost use Rattle.rx_find_cover.specs.Coverable.{using};
ghost use Rattle.rx_find_cover.specs.Coverage.{as_said};
ghost use Rattle.rx_cover.specs.Redexes.{shape_at};
ghost use Rattle.rx_find_cover.specs.Trees.{IsTree, IsUse};
ghost use Rattle.rx_cert.specs.Showing.{all_shown};
ghost use Rattle.rx_solve.specs.Answers.{IsSolver};
ghost use Rattle.rx_solve.specs.Refuter.{refuted};
ghost use Rattle.rx_term.specs.Paired.{rules_of_shape};
ghost use Rattle.rx_term.specs.Shapes.{Shape};
ghost use Rattle.rx_term.specs.declared.rule.Rule.{Rule};

use crate::built::{Built, into_noted, noted_before};
use rx_cert::Cert;
use rx_cover::{CoverTree, Redex, is_redex_of};
use rx_fm::FmEnd;
use rx_plain::NoMemory;
use rx_row::{Constraint, Row};
use rx_solve::{AllShown, ask, show_all};
use rx_term::Rule;
use std::alloc::Global;

/// The number as trees have it. A set with more rules than that fits no memory.
fn rule_number(number: usize) -> Result<u32, NoMemory>
    ensures { IfOk result (λ n. n ≡ number) }
{
    match u32::try_from(number) {
        Ok(number) => Ok(number),
        Err(_) => Err(NoMemory),
    }
}

/// The use of the rule with that number and these rows, where they follow from the path's.
fn try_use<S: FnMut(&Constraint) -> Result<Option<Cert>, FmEnd>>(
    alloc: Global,
    path: &Constraint,
    number: u32,
    rows: &[Row],
    solve: &mut S,
) -> Result<Built<CoverTree>, NoMemory>
    requires solver { IsSolver S.FnMut solve.old }
    ensures solver { IsSolver S.FnMut solve.new }
    ensures coverage { IfOk result (λ b. outcome b ≡ as_said (all_shown refuted path.now rows.now)) }
    ensures tree { IfOk result (λ b. IfSome b.made (IsUse number path.now rows.now)) }
{
    match show_all(alloc, path, rows, solve)? {
        AllShown::Shown(certs) => Ok(Built {
            made: Some(CoverTree::Use {
                rule: number,
                certs,
            }),
            noted: false,
        }),
        AllShown::NotShown => Ok(Built {
            made: None,
            noted: false,
        }),
        AllShown::TooLarge => Ok(Built {
            made: None,
            noted: true,
        }),
    }
}

/// The use of the first rule of the shape whose rows follow from the path's.
pub(crate) fn find_use<S: FnMut(&Constraint) -> Result<Option<Cert>, FmEnd>>(
    alloc: Global,
    rules: &[Rule],
    sym: usize,
    redex: Redex,
    path: &Constraint,
    solve: &mut S,
) -> Result<Built<CoverTree>, NoMemory>
    requires solver { IsSolver S.FnMut solve.old }
    ensures solver { IsSolver S.FnMut solve.new }
    ensures coverage { IfOk result (λ b. outcome b ≡
        using path.now (rules_of_shape (shape_at (symbol sym) redex) rules.now)) }
    ensures tree { IfOk result (λ b. IfSome b.made
        (IsTree rules.now (shape_at (symbol sym) redex) 1 path.now)) }
{
    let mut noted = false;
    for (number, rule) in rules.iter().enumerate() {
        if !is_redex_of(&rule.left, sym, redex) {
            continue;
        }
        let tried = try_use(alloc, path, rule_number(number)?, rule.rows.rows(), solve)?;
        if tried.made.is_some() {
            return Ok(noted_before(noted, tried));
        }
        let also = into_noted(tried);
        noted = noted || also;
    }
    Ok(Built { made: None, noted })
}

/// The refutation of the path's rows, where the refuter has one.
pub(crate) fn refute_path<S: FnMut(&Constraint) -> Result<Option<Cert>, FmEnd>>(
    path: &Constraint,
    solve: &mut S,
) -> Result<Built<CoverTree>, NoMemory>
    requires solver { IsSolver S.FnMut solve.old }
    ensures solver { IsSolver S.FnMut solve.new }
    ensures coverage { IfOk result (λ b. outcome b ≡ as_said (refuted path.now)) }
    ensures tree { IfOk result (λ b. IfSome b.made
        (λ t. (rules : List Rule) (shape : Shape) → IsTree rules shape 1 path.now t)) }
{
    match ask(path, solve) {
        Ok(Some(cert)) => Ok(Built {
            made: Some(CoverTree::Absurd(cert)),
            noted: false,
        }),
        Ok(None) => Ok(Built {
            made: None,
            noted: false,
        }),
        Err(FmEnd::Large) => Ok(Built {
            made: None,
            noted: true,
        }),
        Err(FmEnd::NoMemory) => Err(NoMemory),
    }
}
