//! What comes of the symbols of a component, some of them as its anchors.
ghost use Rattle.std.specs.Prelude.{◌≡◌, ℕ, IfOk, IfSome, List, [], Some, if◌then◌else◌};
ghost use Rattle.std.specs.Prelude.{not, take};
ghost use Rattle.std.specs.List.{list_any};
ghost use Rattle.std.specs.Option.{option_map};
ghost use Rattle.rx_poly.specs.Normal.{is_empty};
ghost use Rattle.rx_anchors.specs.Choices.{lists_in, products};
ghost use Rattle.rx_rank.specs.Answers.{AreOf, IsComponentFit, IsFirstFit, pairs_at, partition_of};
ghost use Rattle.rx_rank.specs.Answers.{still_open, tried_as};
ghost use Rattle.rx_rank.specs.Choices.{all_choices};
ghost use Rattle.rx_rank.specs.Ranking.{first_fit, fit_by, has_domain_row};
ghost use Rattle.rx_rank.specs.Tries.{noting};
ghost use Rattle.rx_solve.specs.Answers.{IsSolver};

use crate::attempt::{Attempt, noted_before};
use crate::candidates::{CandidateLists, all_lists};
use crate::choice::first_fit;
use crate::choice_problem::ChoiceProblem;
use crate::fitting::Fit;
use crate::numbered::NumberedPairs;
use crate::open_component::OpenComponent;
use crate::order::order_of;
use crate::pair_memo::PairMemo;
use rx_anchors::Members;
use rx_cert::Cert;
use rx_fm::FmEnd;
use rx_pairs::Pair;
use rx_plain::NoMemory;
use rx_poly::Poly;
use rx_row::{Constraint, Row};
use rx_term::{RuleParts, SymInfo};
use std::alloc::Global;

/// Whether there is a row.
fn has_row(rows: &[Row]) -> bool
    ensures { result ≡ not (is_empty rows.now) }
{
    match rows.first() {
        Some(_) => true,
        None => false,
    }
}

/// Whether there is a row in one of these.
fn have_row(domains: &[Constraint]) -> bool
    ensures { result ≡ list_any (λ rows. not (is_empty rows)) domains.now }
{
    for rows in domains {
        if has_row(rows.rows()) {
            return true;
        }
    }
    false
}

/// Whether a symbol has a domain row.
fn has_domain_row(parts: &RuleParts) -> bool
    ensures { result ≡ has_domain_row parts.now }
{
    have_row(parts.domains.as_slice())
}

/// The symbols that may be raised: the others, where a symbol has a domain row.
fn raisable_of<'a>(parts: &RuleParts, others: &'a [u32]) -> &'a [u32]
    ensures { result.now ≡ (if has_domain_row parts.now then others.now else []) }
{
    if has_domain_row(parts) { others } else { &[] }
}

/// The first of at most so many choices of candidates that is fit. What the memo has of the pairs is
/// used, and it keeps what is found out of them.
fn first_fit_with<S: FnMut(&Constraint) -> Result<Option<Cert>, FmEnd>>(
    alloc: Global,
    most: usize,
    infos: &[SymInfo],
    pairs: &[&Pair],
    anchors: &[u32],
    raisable: &[u32],
    lists: &[Vec<Poly>],
    order: &[u32],
    memo: &mut PairMemo,
    solve: &mut S,
) -> Result<Attempt<Fit>, NoMemory>
    requires solver { IsSolver S.FnMut solve.old }
    ensures solver { IsSolver S.FnMut solve.new }
    ensures tried { IfOk result (λ t. tried_as
        (λ fit. still_open (pairs_at pairs.now) fit.falls.items) t ≡
        first_fit most infos.now (pairs_at pairs.now) anchors.now raisable.now (lists_in lists.now)
        (Some order.now)) }
    ensures fit { IfOk result (λ t. IfSome t.made
        (IsFirstFit infos.now (pairs_at pairs.now) anchors.now order.now
        (all_choices raisable.now (take most (products (lists_in lists.now)))))) }
{
    let problem = ChoiceProblem {
        infos,
        anchors,
        lists,
        order,
        raisable,
    };
    let mut numbered = NumberedPairs::new(alloc, memo.take(alloc, pairs)?);
    let fit = first_fit(alloc, most, &problem, &mut numbered, solve)?;
    memo.put_back(numbered.into_pairs())?;
    Ok(fit)
}

/// The first of at most so many choices of these candidates that is fit, where the other symbols
/// have an order.
fn fit_in_order<S: FnMut(&Constraint) -> Result<Option<Cert>, FmEnd>>(
    alloc: Global,
    most: usize,
    infos: &[SymInfo],
    pairs: &[&Pair],
    anchors: &[u32],
    raisable: &[u32],
    all: CandidateLists,
    order: Option<Vec<u32>>,
    memo: &mut PairMemo,
    solve: &mut S,
) -> Result<Attempt<Fit>, NoMemory>
    requires solver { IsSolver S.FnMut solve.old }
    ensures solver { IsSolver S.FnMut solve.new }
    ensures tried { IfOk result (λ t. tried_as
        (λ fit. still_open (pairs_at pairs.now) fit.falls.items) t ≡
        noting all.noted (first_fit most infos.now (pairs_at pairs.now) anchors.now raisable.now
        (lists_in all.lists.items) (option_map (λ v. v.items) order))) }
    ensures fit { IfOk result (λ t. IfSome t.made (λ fit. (fs : List ℕ) ×
        (option_map (λ v. v.items) order ≡ Some fs) ×
        IsFirstFit infos.now (pairs_at pairs.now) anchors.now fs
        (all_choices raisable.now (take most (products (lists_in all.lists.items))))
        fit)) }
{
    let noted = all.noted;
    let Some(order) = order else {
        return Ok(Attempt { made: None, noted });
    };
    let lists = all.lists.as_slice();
    let others = order.as_slice();
    let fit = first_fit_with(
        alloc, most, infos, pairs, anchors, raisable, lists, others, memo, solve,
    )?;
    Ok(noted_before(noted, fit))
}

/// The first fit choice of the component with these anchors, of at most so many: the polynomials of
/// its symbols, with the certificates by which all pairs hold and some fall. All candidates are
/// made first.
pub(crate) fn fit_by<S: FnMut(&Constraint) -> Result<Option<Cert>, FmEnd>>(
    alloc: Global,
    component: &OpenComponent,
    members: &Members,
    most: usize,
    memo: &mut PairMemo,
    solve: &mut S,
) -> Result<Attempt<Fit>, NoMemory>
    requires solver { IsSolver S.FnMut solve.old }
    requires members { AreOf component.now.names.now component.now.name (partition_of members.now) }
    ensures solver { IsSolver S.FnMut solve.new }
    ensures tried { IfOk result (λ t. tried_as
        (λ fit. still_open (pairs_at component.now.pairs.now) fit.falls.items) t ≡
        fit_by component.now.kind component.now.parts.now component.now.hypotheses.now most
        component.now.names.now component.now.name (pairs_at component.now.pairs.now)
        (partition_of members.now)) }
    ensures fit { IfOk result (λ t. IfSome t.made
        (IsComponentFit component.now.kind component.now.parts.now component.now.hypotheses.now
        component.now.names.now component.now.name (pairs_at component.now.pairs.now))) }
{
    let infos = component.parts.symbols.as_slice();
    let pairs = component.pairs;
    let anchors = members.anchors.as_slice();
    let others = members.others.as_slice();
    let all = all_lists(alloc, component, anchors)?;
    let order = order_of(alloc, pairs, others)?;
    let raisable = raisable_of(component.parts, others);
    fit_in_order(
        alloc, most, infos, pairs, anchors, raisable, all, order, memo, solve,
    )
}
