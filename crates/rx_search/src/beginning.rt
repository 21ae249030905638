//! Where a search begins: over the rules, or inside domains that are found for the goal.
ghost use Rattle.std.specs.Prelude.{◌≡◌, [], IfOk, None, false};
ghost use Rattle.rx_domain.specs.Setting.{bad_domain, with_domains};
ghost use Rattle.rx_find_cover.specs.Coverable.{is_coverable};
ghost use Rattle.rx_pairs.specs.Inside.{listing};
ghost use Rattle.rx_search.specs.Beginning.{Unranked, begun_inside, begun_over, stated_beginning};
ghost use Rattle.rx_search.specs.Begun.{AreFound, BeginsWith, IsBegun, IsInside, IsReady, IsStatedBegun, begun_unless};
ghost use Rattle.rx_find_domains.specs.Finding.{found_domains};
ghost use Rattle.rx_rank.specs.declared.kind.RankingKind.TheVariants as RankingKind;
ghost use Rattle.rx_solve.specs.Answers.{IsSolver};

use crate::dropping::dropped;
use rx_cert::Cert;
use rx_domain::{DomainEnd, Domains, set_domains};
use rx_find_cover::find_cover;
use rx_find_domains::find_domains;
use rx_fm::FmEnd;
use rx_has_ranks::{RankMemo, has_ranks_with};
use rx_pairs::{Listing, listed_pairs};
use rx_plain::NoMemory;
use rx_rank::RankingKind;
use rx_row::Constraint;
use rx_term::{Equation, RuleSet};
use rx_wider_domains::find_wider_domains;
use std::alloc::Global;

/// The rules with domains, as a search goes over them.
#[derive(Drop)]
pub struct Inside {
    /// The rules with these domains.
    pub rules: RuleSet,
    /// The domains that are found for the goal, and why they are kept.
    pub domains: Domains,
    /// The pairs of the rules inside the domains.
    pub listed: Listing,
    /// The kind of all rankings inside the domains.
    pub kind: RankingKind,
}

/// Where a search begins.
#[derive(Drop)]
pub enum Beginning {
    /// Over the rules as they are: these have ranks.
    Bare,
    /// Inside the domains that are found, or the wider ones: the rules alone have no ranks, and
    /// inside these domains they have, and are coverable.
    Inside(Inside),
    /// Nowhere: the rules alone have no ranks, and inside the domains that are found they have none
    /// or no cover; and where nothing passed the limits on the way to ranks, there are no wider
    /// domains.
    Unranked {
        /// Whether something passed the limits on the way to ranks.
        noted: bool,
    },
}

/// The pairs of the rules inside their domains. Fails only where there is no memory.
pub fn rule_pairs(alloc: Global, rules: &RuleSet) -> Result<Listing, NoMemory>
    ensures { IfOk result (λ listed. listed ≡ listing rules.now rules.now.rules) }
{
    listed_pairs(alloc, rules, &[])
}

/// The rules with these domains, which are lawful.
fn set_inside(alloc: Global, rules: &RuleSet, rows: &[Constraint]) -> Result<RuleSet, NoMemory>
    requires { bad_domain rules.now.symbols rows.now ≡ None }
    ensures { IfOk result (λ set. set ≡ with_domains rules.now rows.now) }
{
    match set_domains(alloc, rules, rows) {
        Ok(set) => Ok(set),
        Err(DomainEnd::NoMemory) => Err(NoMemory),
        Err(DomainEnd::BadDomain(_) | DomainEnd::NotKept(_) | DomainEnd::Large(_)) => {
            unreachable!()
        }
    }
}

/// The rules with domains, once their pairs are listed.
fn listed_inside(
    alloc: Global,
    rules: RuleSet,
    domains: Domains,
    kind: RankingKind,
) -> Result<Inside, NoMemory>
    ensures { IfOk result (λ inside. inside ≡ record {
      rules = rules;
      domains = domains;
      listed = listing rules rules.rules;
      kind = kind;
    }) }
{
    match rule_pairs(alloc, &rules) {
        Ok(listed) => Ok(Inside {
            rules,
            domains,
            listed,
            kind,
        }),
        Err(NoMemory) => Err(dropped((rules, domains), NoMemory)),
    }
}

/// The rules with domains of this kind for a goal.
fn inside_of(
    alloc: Global,
    rules: &RuleSet,
    goal: &Equation,
    domains: Domains,
    kind: RankingKind,
) -> Result<Inside, NoMemory>
    requires { AreFound kind rules.now goal.now domains }
    ensures inside { IfOk result (IsInside rules.now goal.now) }
    ensures kind { IfOk result (λ inside. inside.kind ≡ kind) }
    ensures domains { IfOk result (λ inside. inside.domains ≡ domains) }
{
    match set_inside(alloc, rules, domains.rows.as_slice()) {
        Ok(set) => listed_inside(alloc, set, domains, kind),
        Err(NoMemory) => Err(dropped(domains, NoMemory)),
    }
}

/// Whether trees are found that cover the rules.
fn is_covered<S: FnMut(&Constraint) -> Result<Option<Cert>, FmEnd>>(
    alloc: Global,
    rules: &RuleSet,
    solve: &mut S,
) -> Result<bool, NoMemory>
    requires solver { IsSolver S.FnMut solve.old }
    ensures solver { IsSolver S.FnMut solve.new }
    ensures covered { IfOk result (λ is. is ≡ is_coverable rules.now) }
{
    match find_cover(alloc, rules, solve) {
        Ok(Some(_)) => Ok(true),
        Ok(None) | Err(FmEnd::Large) => Ok(false),
        Err(FmEnd::NoMemory) => Err(NoMemory),
    }
}

/// None where a search begins inside the domains; else whether something passed the limits on the
/// way to ranks, as `noted` says of the rules alone.
fn unless_inside<S: FnMut(&Constraint) -> Result<Option<Cert>, FmEnd>>(
    alloc: Global,
    inside: &Inside,
    noted: bool,
    memo: &mut RankMemo,
    solve: &mut S,
) -> Result<Option<bool>, NoMemory>
    requires solver { IsSolver S.FnMut solve.old }
    requires listed { inside.now.listed ≡ listing inside.now.rules inside.now.rules.rules }
    ensures solver { IsSolver S.FnMut solve.new }
    ensures ready { IfOk result (λ o. o ≡ None → IsReady RankingKind.Plain inside.now.rules) }
    ensures begun { IfOk result (λ o. begun_unless o inside.now.domains.rows ≡
        begun_over inside.now.rules noted inside.now.domains.rows) }
{
    let covered = is_covered(alloc, &inside.rules, solve)?;
    if !covered {
        return Ok(Some(noted));
    }
    let plain = RankingKind::Plain;
    let Inside { rules, listed, .. } = inside;
    match has_ranks_with(alloc, plain, rules, listed, &[], memo, solve) {
        Ok(true) => Ok(None),
        Ok(false) => Ok(Some(noted)),
        Err(FmEnd::Large) => Ok(Some(true)),
        Err(FmEnd::NoMemory) => Err(NoMemory),
    }
}

/// Where a search begins with these domains, by whether the limits were passed before.
fn begin_with<S: FnMut(&Constraint) -> Result<Option<Cert>, FmEnd>>(
    alloc: Global,
    inside: Inside,
    noted: bool,
    memo: &mut RankMemo,
    solve: &mut S,
) -> Result<Beginning, NoMemory>
    requires solver { IsSolver S.FnMut solve.old }
    requires listed { inside.listed ≡ listing inside.rules inside.rules.rules }
    ensures solver { IsSolver S.FnMut solve.new }
    ensures begun { IfOk result (BeginsWith inside noted) }
{
    match unless_inside(alloc, &inside, noted, memo, solve) {
        Ok(None) => Ok(Beginning::Inside(inside)),
        Ok(Some(noted)) => Ok(dropped(inside, Beginning::Unranked { noted })),
        Err(NoMemory) => Err(dropped(inside, NoMemory)),
    }
}

/// Where a search begins that doesn't go over the rules as they are, before wider domains are
/// looked for.
fn begin_inside<S: FnMut(&Constraint) -> Result<Option<Cert>, FmEnd>>(
    alloc: Global,
    rules: &RuleSet,
    goal: &Equation,
    noted: bool,
    memo: &mut RankMemo,
    solve: &mut S,
) -> Result<Beginning, NoMemory>
    requires solver { IsSolver S.FnMut solve.old }
    requires begun { stated_beginning rules.now goal.now ≡
        begun_inside rules.now noted (found_domains rules.now goal.now) }
    ensures solver { IsSolver S.FnMut solve.new }
    ensures begun { IfOk result (IsStatedBegun rules.now goal.now) }
{
    let domains = find_domains(alloc, rules, goal, solve)?;
    let inside = inside_of(alloc, rules, goal, domains, RankingKind::Plain)?;
    begin_with(alloc, inside, noted, memo, solve)
}

/// Where a search begins with the plain ranking.
fn begin_plain<S: FnMut(&Constraint) -> Result<Option<Cert>, FmEnd>>(
    alloc: Global,
    rules: &RuleSet,
    listed: &Listing,
    goal: &Equation,
    memo: &mut RankMemo,
    solve: &mut S,
) -> Result<Beginning, NoMemory>
    requires solver { IsSolver S.FnMut solve.old }
    requires listed { listed.now ≡ listing rules.now rules.now.rules }
    ensures solver { IsSolver S.FnMut solve.new }
    ensures begun { IfOk result (IsStatedBegun rules.now goal.now) }
{
    let plain = RankingKind::Plain;
    match has_ranks_with(alloc, plain, rules, listed, &[], memo, solve) {
        Ok(true) => Ok(Beginning::Bare),
        Ok(false) => begin_inside(alloc, rules, goal, false, memo, solve),
        Err(FmEnd::Large) => begin_inside(alloc, rules, goal, true, memo, solve),
        Err(FmEnd::NoMemory) => Err(NoMemory),
    }
}

/// Where a search begins inside the wider domains, if there are some.
fn begin_wider<S: FnMut(&Constraint) -> Result<Option<Cert>, FmEnd>>(
    alloc: Global,
    rules: &RuleSet,
    goal: &Equation,
    memo: &mut RankMemo,
    solve: &mut S,
) -> Result<Beginning, NoMemory>
    requires solver { IsSolver S.FnMut solve.old }
    requires begun { stated_beginning rules.now goal.now ≡ Unranked false }
    ensures solver { IsSolver S.FnMut solve.new }
    ensures begun { IfOk result (IsBegun rules.now goal.now) }
{
    match find_wider_domains(alloc, rules, goal, memo, solve)? {
        Some(domains) => {
            let inside = inside_of(alloc, rules, goal, domains, RankingKind::Wider)?;
            Ok(Beginning::Inside(inside))
        }
        None => Ok(Beginning::Unranked { noted: false }),
    }
}

/// Where a search for the goal begins: over the rules, whose pairs are listed, where these have
/// ranks; inside the domains that are found for the goal, where the rules alone have no ranks, and
/// the rules with these domains are coverable and have ranks; inside the wider domains, where there
/// are none so, nothing passed the limits on the way to ranks, and there are wider domains; and
/// else nowhere. Tests of pairs are kept in the memo. Fails only where there is no memory.
pub fn begin<S: FnMut(&Constraint) -> Result<Option<Cert>, FmEnd>>(
    alloc: Global,
    rules: &RuleSet,
    listed: &Listing,
    goal: &Equation,
    memo: &mut RankMemo,
    solve: &mut S,
) -> Result<Beginning, NoMemory>
    requires solver { IsSolver S.FnMut solve.old }
    requires listed { listed.now ≡ listing rules.now rules.now.rules }
    ensures solver { IsSolver S.FnMut solve.new }
    ensures begun { IfOk result (IsBegun rules.now goal.now) }
{
    match begin_plain(alloc, rules, listed, goal, memo, solve)? {
        Beginning::Bare => Ok(Beginning::Bare),
        Beginning::Inside(inside) => Ok(Beginning::Inside(inside)),
        Beginning::Unranked { noted: true } => Ok(Beginning::Unranked { noted: true }),
        Beginning::Unranked { noted: false } => begin_wider(alloc, rules, goal, memo, solve),
    }
}
