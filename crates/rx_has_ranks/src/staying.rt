//! The pairs that stay open after a column. The certificates of those that fall are let go.
ghost use Rattle.std.specs.Prelude.{◌≡◌, ◌≤◌, ◌^◌, ℕ, false, IfOk, IfSome, is_some, length};
ghost use Rattle.std.specs.Prelude.{slice_get};
ghost use Rattle.std.specs.List.{filter};
ghost use Rattle.std.specs.Option.{option_map_or};
ghost use Rattle.rx_graph.specs.Graph.{IsOver};
ghost use Rattle.rx_pairs.specs.Graph.{edges_of};
ghost use Rattle.rx_rank.specs.Answers.{pairs_at, still_open, tried_as};
ghost use Rattle.rx_rank.specs.Components.{inside, is_inside, representatives_of, pairs_in};
ghost use Rattle.rx_rank.specs.Ranking.{polynomials, tried_in};
ghost use Rattle.rx_solve.specs.Answers.{IsSolver};

use crate::components_memo::ComponentsMemo;
use crate::problem::RankingProblem;
use rx_anchors::is_member;
use rx_cert::Cert;
use rx_fm::FmEnd;
use rx_pairs::Pair;
use rx_plain::{Items, NoMemory};
use rx_rank::{Attempt, Fit, PairMemo, fit_component, is_inside};
use rx_row::Constraint;
use std::alloc::Global;

/// The pairs that stay open after a column of heights: those inside a component.
fn inside_of<'a>(
    alloc: Global,
    names: &[u32],
    pairs: &[&'a Pair],
) -> Result<Vec<&'a Pair>, NoMemory>
    ensures { IfOk result (λ left. pairs_at left.items ≡
        filter (is_inside names.now) (pairs_at pairs.now)) }
{
    let mut left = Vec::with_capacity(alloc, pairs.len())?;
    for pair in pairs {
        if is_inside(names, *pair) {
            left.push(*pair)?;
        }
    }
    Ok(left)
}

/// Open pairs, with the components of their graph.
#[derive(Drop)]
pub(crate) struct OpenPairs<'a> {
    /// By symbol the least symbol of its component.
    pub(crate) names: Vec<u32>,
    /// The pairs.
    pub(crate) pairs: Vec<&'a Pair>,
}

/// The pairs that stay open after a column of heights, with the components of their graph, which
/// are those of the graph of all pairs.
pub(crate) fn open_pairs<'a>(
    alloc: Global,
    problem: &RankingProblem,
    pairs: &[&'a Pair],
    memo: &mut ComponentsMemo,
) -> Result<OpenPairs<'a>, NoMemory>
    requires over { IsOver (length problem.now.rules.now.symbols) (edges_of (pairs_at pairs.now)) }
    requires few { length problem.now.rules.now.symbols ≤ 2 ^ 32 }
    ensures pairs { IfOk result (λ o. pairs_at o.pairs.items ≡
        inside (length problem.now.rules.now.symbols) (pairs_at pairs.now)) }
    ensures names { IfOk result (λ o. o.names.items ≡
        representatives_of (length problem.now.rules.now.symbols) (pairs_at o.pairs.items)) }
    ensures over { IfOk result (λ o.
        IsOver (length problem.now.rules.now.symbols) (edges_of (pairs_at o.pairs.items))) }
{
    let names = memo.representatives(alloc, problem.symbols(), pairs)?;
    let left = inside_of(alloc, names.as_slice(), pairs)?;
    Ok(OpenPairs { names, pairs: left })
}

/// The pairs that begin in the component with that name.
fn pairs_in<'a>(
    alloc: Global,
    names: &[u32],
    name: u32,
    pairs: &[&'a Pair],
) -> Result<Vec<&'a Pair>, NoMemory>
    ensures { IfOk result (λ mine. pairs_at mine.items ≡
        pairs_in names.now name (pairs_at pairs.now)) }
{
    let mut mine = Vec::new(alloc);
    for pair in pairs {
        if is_member(names, name, pair.left.0) {
            mine.push(*pair)?;
        }
    }
    Ok(mine)
}

/// Whether there are certificates that the pair at that place falls.
fn is_fallen(falls: &[Option<Items<Cert>>], at: usize) -> bool
    ensures { result ≡ option_map_or is_some (slice_get falls.now at) false }
{
    match falls.get(at) {
        Some(fall) => fall.is_some(),
        None => false,
    }
}

/// The pairs without certificates that they fall.
fn still_open<'a>(
    alloc: Global,
    pairs: &[&'a Pair],
    falls: &[Option<Items<Cert>>],
) -> Result<Vec<&'a Pair>, NoMemory>
    ensures { IfOk result (λ left. pairs_at left.items ≡
        still_open (pairs_at pairs.now) falls.now) }
{
    let mut left = Vec::new(alloc);
    for (at, pair) in pairs.iter().enumerate() {
        if !is_fallen(falls, at) {
            left.push(*pair)?;
        }
    }
    Ok(left)
}

/// The pairs of a component that its fit leaves open, if it has one.
fn after_fit<'a>(
    alloc: Global,
    pairs: &[&'a Pair],
    tried: Attempt<Fit>,
) -> Result<Attempt<Vec<&'a Pair>>, NoMemory>
    ensures tried { IfOk result (λ t. tried_as (λ left. pairs_at left.items) t ≡
        tried_as (λ fit. still_open (pairs_at pairs.now) fit.falls.items) tried) }
    ensures over { IfOk result (λ t. IfSome t.made (λ left.
        (n : ℕ) → IsOver n (edges_of (pairs_at pairs.now)) →
        IsOver n (edges_of (pairs_at left.items)))) }
{
    let noted = tried.noted;
    match tried.made {
        Some(fit) => Ok(Attempt {
            made: Some(still_open(alloc, pairs, fit.falls.as_slice())?),
            noted,
        }),
        None => Ok(Attempt { made: None, noted }),
    }
}

/// The pairs of the component with that name that stay open after its first fit choice.
fn left_in<'a, S: FnMut(&Constraint) -> Result<Option<Cert>, FmEnd>>(
    alloc: Global,
    problem: &RankingProblem,
    opened: &OpenPairs<'a>,
    name: u32,
    memo: &mut PairMemo,
    solve: &mut S,
) -> Result<Attempt<Vec<&'a Pair>>, NoMemory>
    requires solver { IsSolver S.FnMut solve.old }
    ensures solver { IsSolver S.FnMut solve.new }
    ensures tried { IfOk result (λ t. tried_as (λ left. pairs_at left.items) t ≡
        tried_in problem.now.kind problem.now.rules.now problem.now.hypotheses.now
        opened.now.names.items (pairs_at opened.now.pairs.items) name) }
    ensures over { IfOk result (λ t. IfSome t.made (λ left.
        (n : ℕ) → IsOver n (edges_of (pairs_at opened.now.pairs.items)) →
        IsOver n (edges_of (pairs_at left.items)))) }
{
    let names = opened.names.as_slice();
    let mine = pairs_in(alloc, names, name, opened.pairs.as_slice())?;
    if mine.len() == 0 {
        return Ok(Attempt {
            made: Some(mine),
            noted: false,
        });
    }
    let kind = problem.kind;
    let parts = problem.rules.parts();
    let hypotheses = problem.hypotheses;
    let pairs = mine.as_slice();
    let tried = fit_component(
        alloc, kind, parts, hypotheses, names, name, pairs, memo, solve,
    )?;
    after_fit(alloc, pairs, tried)
}

/// The pairs that stay open after a column of polynomials.
pub(crate) fn left_after<'a, S: FnMut(&Constraint) -> Result<Option<Cert>, FmEnd>>(
    alloc: Global,
    problem: &RankingProblem,
    opened: &OpenPairs<'a>,
    memo: &mut PairMemo,
    solve: &mut S,
) -> Result<Attempt<Vec<&'a Pair>>, NoMemory>
    requires solver { IsSolver S.FnMut solve.old }
    requires over { IsOver (length problem.now.rules.now.symbols)
        (edges_of (pairs_at opened.now.pairs.items)) }
    requires names { opened.now.names.items ≡
        representatives_of (length problem.now.rules.now.symbols)
        (pairs_at opened.now.pairs.items) }
    requires few { length problem.now.rules.now.symbols ≤ 2 ^ 32 }
    ensures solver { IsSolver S.FnMut solve.new }
    ensures tried { IfOk result (λ t. tried_as (λ left. pairs_at left.items) t ≡
        polynomials problem.now.kind problem.now.rules.now problem.now.hypotheses.now
        (pairs_at opened.now.pairs.items)) }
    ensures over { IfOk result (λ t. IfSome t.made (λ left.
        IsOver (length problem.now.rules.now.symbols) (edges_of (pairs_at left.items)))) }
{
    let symbols = problem.symbols();
    let mut left = Vec::new(alloc);
    let mut noted = false;
    for name in 0..symbols {
        let tried = left_in(alloc, problem, opened, name as u32, memo, solve)?;
        noted |= tried.noted;
        match tried.made {
            Some(mut more) => left.append(&mut more)?,
            None => return Ok(Attempt { made: None, noted }),
        }
    }
    Ok(Attempt {
        made: Some(left),
        noted,
    })
}
