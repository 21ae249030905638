//! Whether lists of rows serve: the rules with the domains that come of them are coverable, and
//! have ranks by the wider ranking.
ghost use Rattle.std.specs.Prelude.{◌≡◌, ◌≤◌, ◌^◌, None, [], length, IfOk};
ghost use Rattle.rx_domain.specs.Setting.{bad_domain, with_domains};
ghost use Rattle.rx_find_cover.specs.Coverable.{is_coverable};
ghost use Rattle.rx_find_domains.specs.Finding.{is_yes};
ghost use Rattle.rx_find_domains.specs.Groups.{groups};
ghost use Rattle.rx_rank.specs.Ranking.{ranked};
ghost use Rattle.rx_rank.specs.declared.kind.RankingKind.TheVariants.{Wider};
ghost use Rattle.rx_solve.specs.Answers.{IsSolver};
ghost use Rattle.rx_wider_domains.specs.Finding.{domains_of, is_ready, serves};

use crate::by_symbol::rows_by_symbol;
use rx_cert::Cert;
use rx_domain::{DomainEnd, set_domains};
use rx_find_cover::find_cover;
use rx_find_domains::settle_rows;
use rx_fm::FmEnd;
use rx_has_ranks::{RankMemo, has_ranks_with};
use rx_pairs::listed_pairs;
use rx_plain::{Items, NoMemory};
use rx_rank::RankingKind;
use rx_row::Constraint;
use rx_term::{Equation, RuleSet};
use std::alloc::Global;

/// What domains are looked for.
#[derive(Clone, Copy)]
pub(crate) struct Aim<'a> {
    /// By symbol the name of its group.
    pub(crate) names: &'a [u32],
    /// The rules.
    pub(crate) rules: &'a RuleSet,
    /// The goal.
    pub(crate) goal: &'a Equation,
}

/// Whether trees are found that cover the rules.
fn is_covered<S: FnMut(&Constraint) -> Result<Option<Cert>, FmEnd>>(
    alloc: Global,
    rules: &RuleSet,
    solve: &mut S,
) -> Result<bool, NoMemory>
    requires solver { IsSolver S.FnMut solve.old }
    ensures solver { IsSolver S.FnMut solve.new }
    ensures covered { IfOk result (λ is. is ≡ is_coverable rules.now) }
{
    match find_cover(alloc, rules, solve) {
        Ok(Some(_)) => Ok(true),
        Ok(None) | Err(FmEnd::Large) => Ok(false),
        Err(FmEnd::NoMemory) => Err(NoMemory),
    }
}

/// Whether the rules have ranks by the wider ranking; not where something on the way passes the limits.
fn is_ranked<S: FnMut(&Constraint) -> Result<Option<Cert>, FmEnd>>(
    alloc: Global,
    rules: &RuleSet,
    memo: &mut RankMemo,
    solve: &mut S,
) -> Result<bool, NoMemory>
    requires solver { IsSolver S.FnMut solve.old }
    ensures solver { IsSolver S.FnMut solve.new }
    ensures ranked { IfOk result (λ is. is ≡ is_yes (ranked Wider rules.now [])) }
{
    let listed = listed_pairs(alloc, rules, &[])?;
    match has_ranks_with(alloc, RankingKind::Wider, rules, &listed, &[], memo, solve) {
        Ok(ranked) => Ok(ranked),
        Err(FmEnd::Large) => Ok(false),
        Err(FmEnd::NoMemory) => Err(NoMemory),
    }
}

/// Whether they are coverable and have ranks.
fn is_ready<S: FnMut(&Constraint) -> Result<Option<Cert>, FmEnd>>(
    alloc: Global,
    rules: &RuleSet,
    memo: &mut RankMemo,
    solve: &mut S,
) -> Result<bool, NoMemory>
    requires solver { IsSolver S.FnMut solve.old }
    ensures solver { IsSolver S.FnMut solve.new }
    ensures ready { IfOk result (λ is. is ≡ is_ready rules.now) }
{
    let covered = is_covered(alloc, rules, solve)?;
    if !covered {
        return Ok(false);
    }
    is_ranked(alloc, rules, memo, solve)
}

/// The rules with these domains, which are lawful.
fn set_inside(alloc: Global, rules: &RuleSet, rows: &[Constraint]) -> Result<RuleSet, NoMemory>
    requires { bad_domain rules.now.symbols rows.now ≡ None }
    ensures { IfOk result (λ set. set ≡ with_domains rules.now rows.now) }
{
    match set_domains(alloc, rules, rows) {
        Ok(set) => Ok(set),
        Err(DomainEnd::NoMemory) => Err(NoMemory),
        Err(DomainEnd::BadDomain(_) | DomainEnd::NotKept(_) | DomainEnd::Large(_)) => {
            unreachable!()
        }
    }
}

/// The domains that come of the lists.
fn find_domains_of<S: FnMut(&Constraint) -> Result<Option<Cert>, FmEnd>>(
    alloc: Global,
    aim: Aim,
    lists: &[Constraint],
    solve: &mut S,
) -> Result<Items<Constraint>, NoMemory>
    requires solver { IsSolver S.FnMut solve.old }
    requires names { aim.names.now ≡ groups aim.rules.now }
    requires few { length aim.rules.now.symbols ≤ 2 ^ 32 }
    ensures solver { IsSolver S.FnMut solve.new }
    ensures rows { IfOk result (λ rows. rows ≡
        domains_of aim.entry.rules.now aim.entry.goal.now lists.now) }
{
    let rows = rows_by_symbol(alloc, aim.names, aim.rules.symbols(), lists)?;
    settle_rows(alloc, aim.rules, aim.goal, rows, solve)
}

/// Whether the lists serve. Tests of pairs are kept in the memo.
pub(crate) fn serves<S: FnMut(&Constraint) -> Result<Option<Cert>, FmEnd>>(
    alloc: Global,
    aim: Aim,
    lists: &[Constraint],
    memo: &mut RankMemo,
    solve: &mut S,
) -> Result<bool, NoMemory>
    requires solver { IsSolver S.FnMut solve.old }
    requires names { aim.names.now ≡ groups aim.rules.now }
    requires few { length aim.rules.now.symbols ≤ 2 ^ 32 }
    ensures solver { IsSolver S.FnMut solve.new }
    ensures serves { IfOk result (λ b. b ≡
        serves aim.entry.rules.now aim.entry.goal.now lists.now) }
{
    let rows = find_domains_of(alloc, aim, lists, solve)?;
    let inside = set_inside(alloc, aim.rules, rows.as_slice())?;
    is_ready(alloc, &inside, memo, solve)
}
