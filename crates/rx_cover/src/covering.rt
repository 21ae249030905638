//! Whether lists of trees cover a rule set, symbol by symbol.
ghost use Rattle.std.specs.Prelude.{◌≡◌, ◌<◌, ◌+◌, ◌∷◌, [], true, false, Some, None, length, slice_get, IfOk, IfErr, OnOk, MatchResult};
ghost use Rattle.rx_cover.specs.Answers.{Tells};
ghost use Rattle.rx_cover.specs.Covering.{Covers, covering, goes_on, in_turn, one_covered, over_failures, redex_shapes, shapes_finding, symbol};
ghost use Rattle.rx_cert.specs.Findings.{Beyond, said};
ghost use Rattle.rx_term.specs.Covered.{IsCoveredOver};
ghost use Rattle.rx_term.specs.Domains.{domain_of, root_domains};

use crate::cover_end::CoverEnd;
use crate::cover_tree::CoverTree;
use crate::examination::examine;
use crate::redex::Redex;
use rx_plain::Items;
use rx_poly::PolyEnd;
use rx_row::Constraint;
use rx_term::{Rule, RuleParts, RuleSet};
use std::alloc::{AllocError, Global};

/// Whether the trees show, one each, the frame over the failures with the codes 1, 2, and so on, at
/// the path.
fn examine_failures(
    alloc: Global,
    rules: &[Rule],
    sym: usize,
    path: &mut Constraint,
    trees: &[CoverTree],
) -> Result<bool, PolyEnd>
    requires { length trees.now < 256 }
    ensures answer { IfOk result (λ b. in_turn rules.now path.old
        (over_failures (symbol sym) 1 (length trees.now)) trees.now ≡ said b) }
    ensures large { IfErr result (λ e. e ≡ PolyEnd.Large → in_turn rules.now path.old
        (over_failures (symbol sym) 1 (length trees.now)) trees.now ≡ Beyond) }
{
    for (at, tree) in trees.iter().enumerate() {
        let code = at as u8 + 1;
        if !examine(alloc, rules, sym, Redex::OverFail(code), path, tree)? {
            return Ok(false);
        }
    }
    Ok(true)
}

/// Whether the trees show the shapes of a frame at the path: over a returned value, and over each
/// failure code.
fn examine_frame(
    alloc: Global,
    rules: &[Rule],
    fails: u8,
    sym: usize,
    path: &mut Constraint,
    trees: &[CoverTree],
) -> Result<bool, PolyEnd>
    requires { length trees.now ≡ fails + 1 }
    ensures answer { IfOk result (λ b. in_turn rules.now path.old
        (redex_shapes (symbol sym) true fails) trees.now ≡ said b) }
    ensures large { IfErr result (λ e. e ≡ PolyEnd.Large → in_turn rules.now path.old
        (redex_shapes (symbol sym) true fails) trees.now ≡ Beyond) }
{
    let Some((first, others)) = trees.split_first() else {
        return Ok(false);
    };
    if !examine(alloc, rules, sym, Redex::OverReturn, path, first)? {
        return Ok(false);
    }
    examine_failures(alloc, rules, sym, path, others)
}

/// Whether the first tree shows the shape of a point at the path.
fn examine_point(
    alloc: Global,
    rules: &[Rule],
    fails: u8,
    sym: usize,
    path: &mut Constraint,
    trees: &[CoverTree],
) -> Result<bool, PolyEnd>
    ensures answer { IfOk result (λ b. in_turn rules.now path.old
        (redex_shapes (symbol sym) false fails) trees.now ≡ said b) }
    ensures large { IfErr result (λ e. e ≡ PolyEnd.Large → in_turn rules.now path.old
        (redex_shapes (symbol sym) false fails) trees.now ≡ Beyond) }
{
    let Some((tree, _)) = trees.split_first() else {
        return Ok(false);
    };
    examine(alloc, rules, sym, Redex::Call, path, tree)
}

/// Whether the trees are as many as the symbol, a frame or a point, has shapes, and show these at
/// the path.
fn examine_shapes(
    alloc: Global,
    rules: &[Rule],
    fails: u8,
    sym: usize,
    frame: bool,
    path: &mut Constraint,
    trees: &[CoverTree],
) -> Result<bool, PolyEnd>
    ensures answer { IfOk result (λ b. shapes_finding rules.now fails (symbol sym) frame path.old
        trees.now ≡ said b) }
    ensures large { IfErr result (λ e. e ≡ PolyEnd.Large →
        shapes_finding rules.now fails (symbol sym) frame path.old trees.now ≡ Beyond) }
{
    if frame {
        if trees.len() != fails as usize + 1 {
            return Ok(false);
        }
        examine_frame(alloc, rules, fails, sym, path, trees)
    } else {
        if trees.len() != 1 {
            return Ok(false);
        }
        examine_point(alloc, rules, fails, sym, path, trees)
    }
}

/// The domain of the symbol with that number, copied; no rows where it has none. Fails only when
/// out of memory.
pub fn domain_rows(alloc: Global, parts: &RuleParts, sym: usize) -> Result<Constraint, AllocError>
    ensures { IfOk result (λ rows. rows ≡ domain_of parts.now sym) }
{
    match parts.domains.as_slice().get(sym) {
        Some(rows) => rows.try_clone(alloc),
        None => Ok(Constraint::from_rows(Vec::new(alloc))),
    }
}

/// Whether the trees cover the symbol with that number; false where there is none.
fn examine_symbol(
    alloc: Global,
    rules: &RuleSet,
    sym: usize,
    trees: &[CoverTree],
) -> Result<bool, PolyEnd>
    ensures answer { IfOk result (λ b. one_covered rules.now sym trees.now ≡ said b) }
    ensures large { IfErr result (λ e. e ≡ PolyEnd.Large → one_covered rules.now sym trees.now ≡
        Beyond) }
{
    let Some(info) = rules.symbols().get(sym) else {
        return Ok(false);
    };
    let mut path = domain_rows(alloc, rules.parts(), sym)?;
    let (all, fails) = (rules.rules(), rules.fails());
    examine_shapes(alloc, all, fails, sym, info.frame, &mut path, trees)
}

/// Whether the trees cover the symbol with that number: one tree for a point, and for a frame one
/// over a returned value and one over each failure code, in this order. The path of each begins with
/// the symbol's domain. NotCovered with the number exactly where there is no such symbol or its trees
/// fail, Large exactly where they pass the limits first.
pub fn cover_one(
    alloc: Global,
    rules: &RuleSet,
    sym: usize,
    trees: &[CoverTree],
) -> Result<(), CoverEnd>
    ensures exact { Tells (goes_on sym (one_covered rules.now sym trees.now) Covers) result }
{
    match examine_symbol(alloc, rules, sym, trees) {
        Ok(true) => Ok(()),
        Ok(false) => Err(CoverEnd::NotCovered(sym)),
        Err(PolyEnd::Large) => Err(CoverEnd::Large(sym)),
        Err(PolyEnd::NoMemory) => Err(CoverEnd::NoMemory),
    }
}

/// The symbols in order, each with its list.
fn examine_lists(alloc: Global, rules: &RuleSet, lists: &[Items<CoverTree>]) -> Result<(), CoverEnd>
    ensures { Tells (covering rules.now lists.now) result }
{
    for (sym, trees) in lists.iter().enumerate() {
        cover_one(alloc, rules, sym, trees.as_slice())?;
    }
    if lists.len() < rules.symbols().len() {
        return Err(CoverEnd::NotCovered(lists.len()));
    }
    Ok(())
}

/// Whether the lists of trees, one for each symbol in order, cover the rule set: then at each redex
/// whose arguments meet the domain of its symbol some rule applies. NotCovered exactly at the first
/// symbol whose trees fail or are missing, and at the number of symbols where there are more lists;
/// Large exactly at the first symbol whose trees pass the limits before they fail, with none before
/// it that fails. A tree is examined by recursion, as deep as it is.
pub fn covers(alloc: Global, rules: &RuleSet, lists: &[Items<CoverTree>]) -> Result<(), CoverEnd>
    ensures exact { Tells (covering rules.now lists.now) result }
    ensures covered { OnOk result (IsCoveredOver (root_domains rules.now) rules.now) }
{
    examine_lists(alloc, rules, lists)
}
