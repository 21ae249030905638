//! The wider domains that are found.
ghost use Rattle.std.specs.Prelude.{◌≡◌, ◌≤◌, ◌^◌, true, None, [], length, IfOk, IfSome, OnOk};
ghost use Rattle.std.specs.Option.{option_map};
ghost use Rattle.rx_cert.specs.Findings.{Yes};
ghost use Rattle.rx_domain.specs.Keeping.{Keeps, keeping};
ghost use Rattle.rx_domain.specs.Setting.{bad_domain, with_domains};
ghost use Rattle.rx_domain.specs.declared.domains.Domains.{Domains};
ghost use Rattle.rx_find_cover.specs.Coverable.{is_coverable};
ghost use Rattle.rx_find_domains.specs.Groups.{groups};
ghost use Rattle.rx_find_domains.specs.Kept.{AreAllKeeps};
ghost use Rattle.rx_rank.specs.Ranking.{ranked};
ghost use Rattle.rx_rank.specs.declared.kind.RankingKind.TheVariants.{Wider};
ghost use Rattle.rx_solve.specs.Answers.{IsSolver};
ghost use Rattle.rx_wider_domains.specs.Finding.{domains_by, domains_of, left_out, serves, wider_domains};
ghost use Rattle.rx_wider_domains.specs.Found.{AreReady};
ghost use Rattle.rx_wider_domains.specs.Groups.{by_symbol};
ghost use Rattle.rx_wider_domains.specs.Lists.{wider_lists};

use crate::by_symbol::rows_by_symbol;
use crate::handing::find_lists;
use crate::leaving_out::leave_out;
use crate::serving::{Aim, serves};
use rx_cert::Cert;
use rx_domain::Domains;
use rx_find_domains::{find_groups, settled_domains};
use rx_fm::FmEnd;
use rx_has_ranks::RankMemo;
use rx_plain::NoMemory;
use rx_row::Constraint;
use rx_term::{Equation, RuleSet};
use std::alloc::Global;

/// By symbol the name of its group.
fn group_names(alloc: Global, rules: &RuleSet) -> Result<Vec<u32>, NoMemory>
    ensures names { IfOk result (λ names. names.items ≡ groups rules.now) }
    ensures few { OnOk result (length rules.now.symbols ≤ 2 ^ 32) }
{
    let parts = rules.parts();
    if parts.symbols.len() > u32::MAX as usize {
        return Err(NoMemory);
    }
    find_groups(alloc, parts)
}

/// The longer lists by group.
fn group_rows_of(
    alloc: Global,
    names: &[u32],
    rules: &RuleSet,
    goal: &Equation,
) -> Result<Vec<Constraint>, NoMemory>
    requires { names.now ≡ groups rules.now }
    ensures { IfOk result (λ lists. lists.items ≡ wider_lists rules.now goal.now) }
{
    let lists = find_lists(alloc, names, rules.parts(), goal)?;
    Ok(lists)
}

/// The rows that the wider domains are taken from, by symbol: those of the longer list of the
/// symbol's group that are over its own arguments, and of these the first 24. Fails only where
/// there is no memory, which is also the answer for 2^32 symbols or more.
pub fn wider_candidates(
    alloc: Global,
    rules: &RuleSet,
    goal: &Equation,
) -> Result<Vec<Constraint>, NoMemory>
    ensures { IfOk result (λ lists. lists.items ≡
        by_symbol rules.now (wider_lists rules.now goal.now)) }
{
    let names = group_names(alloc, rules)?;
    let own = names.as_slice();
    let lists = group_rows_of(alloc, own, rules, goal)?;
    let made = rows_by_symbol(alloc, own, rules.symbols(), lists.as_slice())?;
    Ok(made)
}

/// The domains that come of lists that serve.
fn domains_from<S: FnMut(&Constraint) -> Result<Option<Cert>, FmEnd>>(
    alloc: Global,
    aim: Aim,
    lists: &[Constraint],
    solve: &mut S,
) -> Result<Domains, NoMemory>
    requires solver { IsSolver S.FnMut solve.old }
    requires names { aim.names.now ≡ groups aim.rules.now }
    requires few { length aim.rules.now.symbols ≤ 2 ^ 32 }
    requires serves { serves aim.rules.now aim.goal.now lists.now ≡ true }
    ensures solver { IsSolver S.FnMut solve.new }
    ensures rows { IfOk result (λ d. d.rows ≡
        domains_of aim.entry.rules.now aim.entry.goal.now lists.now) }
    ensures found { IfOk result (AreReady aim.entry.rules.now aim.entry.goal.now) }
{
    let rows = rows_by_symbol(alloc, aim.names, aim.rules.symbols(), lists)?;
    let domains = settled_domains(alloc, aim.rules, aim.goal, rows, solve)?;
    Ok(domains)
}

/// What is left of lists that serve once each row is left out that isn't needed, as domains.
fn least_domains<S: FnMut(&Constraint) -> Result<Option<Cert>, FmEnd>>(
    alloc: Global,
    aim: Aim,
    lists: Vec<Constraint>,
    memo: &mut RankMemo,
    solve: &mut S,
) -> Result<Domains, NoMemory>
    requires solver { IsSolver S.FnMut solve.old }
    requires names { aim.names.now ≡ groups aim.rules.now }
    requires few { length aim.rules.now.symbols ≤ 2 ^ 32 }
    requires serves { serves aim.rules.now aim.goal.now lists.items ≡ true }
    ensures solver { IsSolver S.FnMut solve.new }
    ensures rows { IfOk result (λ d. d.rows ≡ domains_of aim.entry.rules.now aim.entry.goal.now
        (left_out aim.entry.rules.now aim.entry.goal.now lists.items)) }
    ensures found { IfOk result (AreReady aim.entry.rules.now aim.entry.goal.now) }
{
    let mut lists = lists;
    leave_out(&mut lists, alloc, aim, memo, solve)?;
    domains_from(alloc, aim, lists.as_slice(), solve)
}

/// The domains where the longer lists serve.
fn domains_where<S: FnMut(&Constraint) -> Result<Option<Cert>, FmEnd>>(
    alloc: Global,
    aim: Aim,
    lists: Vec<Constraint>,
    memo: &mut RankMemo,
    solve: &mut S,
) -> Result<Option<Domains>, NoMemory>
    requires solver { IsSolver S.FnMut solve.old }
    requires names { aim.names.now ≡ groups aim.rules.now }
    requires few { length aim.rules.now.symbols ≤ 2 ^ 32 }
    ensures solver { IsSolver S.FnMut solve.new }
    ensures rows { IfOk result (λ found. option_map (λ (d : Domains). d.rows) found ≡
        domains_by aim.entry.rules.now aim.entry.goal.now lists.items) }
    ensures found { IfOk result (λ found. IfSome found
        (AreReady aim.entry.rules.now aim.entry.goal.now)) }
{
    let served = serves(alloc, aim, lists.as_slice(), memo, solve)?;
    if !served {
        return Ok(None);
    }
    let domains = least_domains(alloc, aim, lists, memo, solve)?;
    Ok(Some(domains))
}

/// Wider domains for the symbols of the rules: rows of a longer list that both sides of the goal
/// and the right sides of the rules keep, as the solver shows it, with certificates of that, and
/// inside which the rules are coverable and have ranks by the wider ranking. The rules' own domains
/// aren't looked at.
///
/// The longer list of a group of symbols (those of `find_domains`) has the rows of the goal and of
/// the rules, and behind each `p = 0` and `p != 0` also `p >= 0` and `-p >= 0`; then, of each
/// occurrence of a symbol of the group, that an argument which is a number is at least and at most
/// that number, and that one which isn't is what it is, where all its variables are arguments
/// alone; and then, twice, the rows of another group's symbol where it leads to a symbol of the
/// group, said of the arguments there. The rows of a symbol are the first 24 over its own
/// arguments. Where the domains that are settled from these have a cover and ranks, each row, of
/// the last 128, is left out in turn if they have these without it.
///
/// None where the rules with the domains that are settled from the longer list aren't coverable or
/// have no such ranks, also where something on the way passes the limits. Tests of pairs are kept
/// in the memo. Fails only where there is no memory, which is also the answer for 2^32 symbols or
/// more.
pub fn find_wider_domains<S: FnMut(&Constraint) -> Result<Option<Cert>, FmEnd>>(
    alloc: Global,
    rules: &RuleSet,
    goal: &Equation,
    memo: &mut RankMemo,
    solve: &mut S,
) -> Result<Option<Domains>, NoMemory>
    requires solver { IsSolver S.FnMut solve.old }
    ensures solver { IsSolver S.FnMut solve.new }
    ensures rows { IfOk result (λ found. option_map (λ (d : Domains). d.rows) found ≡
        wider_domains rules.now goal.now) }
    ensures lawful { IfOk result (λ found. IfSome found (λ d.
        bad_domain rules.now.symbols d.rows ≡ None)) }
    ensures keeps { IfOk result (λ found. IfSome found (λ d.
        keeping (with_domains rules.now d.rows) goal.now d.keeps ≡ Keeps)) }
    ensures certificates { IfOk result (λ found. IfSome found (λ d.
        AreAllKeeps (with_domains rules.now d.rows) goal.now d.keeps)) }
    ensures coverable { IfOk result (λ found. IfSome found (λ d.
        is_coverable (with_domains rules.now d.rows) ≡ true)) }
    ensures ranked { IfOk result (λ found. IfSome found (λ d.
        ranked Wider (with_domains rules.now d.rows) [] ≡ Yes)) }
{
    let names = group_names(alloc, rules)?;
    let aim = Aim {
        names: names.as_slice(),
        rules,
        goal,
    };
    let lists = group_rows_of(alloc, names.as_slice(), rules, goal)?;
    domains_where(alloc, aim, lists, memo, solve)
}
