//! Whether there are ranks, without a table of them.
ghost use Rattle.std.specs.Prelude.{◌≡◌, ◌≤◌, ◌^◌, ◌++◌, true, All, IfOk, OnOk, length};
ghost use Rattle.rx_graph.specs.Graph.{IsOver};
ghost use Rattle.rx_pairs.specs.Graph.{edges_of};
ghost use Rattle.rx_pairs.specs.Inside.{listing};
ghost use Rattle.rx_pairs.specs.Pairs.{HasRoot, SidesFit};
ghost use Rattle.rx_rank.specs.Answers.{pairs_at, tried_only};
ghost use Rattle.rx_rank.specs.Ranking.{ranked, ranking, ranking_from};
ghost use Rattle.rx_has_ranks.specs.HasRanks.{HasRanksAnswer};
ghost use Rattle.rx_solve.specs.Answers.{IsSolver};
ghost use Rattle.rx_solve.specs.Attempts.{beyond};

use crate::hypotheses::hypothesis_pairs;
use crate::problem::RankingProblem;
use crate::rank_memo::RankMemo;
use crate::staying::{left_after, open_pairs};
use rx_cert::Cert;
use rx_fm::FmEnd;
use rx_pairs::{Listing, Pair};
use rx_plain::NoMemory;
use rx_rank::{Attempt, RankingKind, noted_before};
use rx_row::Constraint;
use rx_term::{Rule, RuleSet};
use std::alloc::Global;

/// Adds the pairs, borrowed.
fn push_borrowed<'a>(refs: &mut Vec<&'a Pair>, pairs: &'a [Pair]) -> Result<(), NoMemory>
    ensures { OnOk result (pairs_at refs.new.items ≡ pairs_at refs.old.items ++ pairs.now) }
{
    for pair in pairs {
        refs.push(pair)?;
    }
    Ok(())
}

/// Whether there are ranks for the open pairs, with n rounds left.
fn decide_from<S: FnMut(&Constraint) -> Result<Option<Cert>, FmEnd>>(
    alloc: Global,
    problem: &RankingProblem,
    left: u32,
    pairs: &[&Pair],
    memo: &mut RankMemo,
    solve: &mut S,
) -> Result<Attempt<()>, NoMemory>
    requires solver { IsSolver S.FnMut solve.old }
    requires over { IsOver (length problem.now.rules.now.symbols) (edges_of (pairs_at pairs.now)) }
    requires few { length problem.now.rules.now.symbols ≤ 2 ^ 32 }
    ensures solver { IsSolver S.FnMut solve.new }
    ensures tried { IfOk result (λ t. tried_only t ≡
        ranking_from problem.now.kind problem.now.rules.now problem.now.hypotheses.now left
        (pairs_at pairs.now)) }
{
    let opened = open_pairs(alloc, problem, pairs, &mut memo.components)?;
    if opened.pairs.len() == 0 {
        return Ok(Attempt {
            made: Some(()),
            noted: false,
        });
    }
    if left == 0 {
        return Ok(Attempt {
            made: None,
            noted: false,
        });
    }
    let tried = left_after(alloc, problem, &opened, &mut memo.pairs, solve)?;
    let noted = tried.noted;
    match tried.made {
        Some(next) => {
            let next = next.as_slice();
            let rest = decide_from(alloc, problem, left - 1, next, memo, solve)?;
            Ok(noted_before(noted, rest))
        }
        None => Ok(Attempt { made: None, noted }),
    }
}

/// What comes where not all pairs are listed.
fn not_listed() -> Attempt<()>
    ensures { tried_only result ≡ beyond }
{
    Attempt {
        made: None,
        noted: true,
    }
}

/// What comes of the ranking of all these pairs.
fn decide_listed<S: FnMut(&Constraint) -> Result<Option<Cert>, FmEnd>>(
    alloc: Global,
    problem: &RankingProblem,
    first: &[Pair],
    others: &[Pair],
    memo: &mut RankMemo,
    solve: &mut S,
) -> Result<Attempt<()>, NoMemory>
    requires solver { IsSolver S.FnMut solve.old }
    requires over { IsOver (length problem.now.rules.now.symbols)
        (edges_of (first.now ++ others.now)) }
    requires few { length problem.now.rules.now.symbols ≤ 2 ^ 32 }
    ensures solver { IsSolver S.FnMut solve.new }
    ensures tried { IfOk result (λ t. tried_only t ≡
        ranking_from problem.now.kind problem.now.rules.now problem.now.hypotheses.now 7
        (first.now ++ others.now)) }
{
    let mut refs = Vec::with_capacity(alloc, first.len())?;
    push_borrowed(&mut refs, first)?;
    push_borrowed(&mut refs, others)?;
    decide_from(alloc, problem, 7, refs.as_slice(), memo, solve)
}

/// What comes of the ranking of the pairs of the rules, which are all listed, and of those of the
/// hypotheses.
fn decide_after<S: FnMut(&Constraint) -> Result<Option<Cert>, FmEnd>>(
    alloc: Global,
    problem: &RankingProblem,
    first: &[Pair],
    memo: &mut RankMemo,
    solve: &mut S,
) -> Result<Attempt<()>, NoMemory>
    requires solver { IsSolver S.FnMut solve.old }
    requires listed { record { pairs = first.now; whole = true } ≡
        listing problem.now.rules.now problem.now.rules.now.rules }
    requires roots { All HasRoot problem.now.hypotheses.now }
    requires fits { All (SidesFit problem.now.rules.now) problem.now.hypotheses.now }
    ensures solver { IsSolver S.FnMut solve.new }
    ensures tried { IfOk result (λ t. tried_only t ≡
        ranking problem.now.kind problem.now.rules.now problem.now.hypotheses.now) }
{
    if problem.rules.parts().symbols.len() > u32::MAX as usize {
        return Err(NoMemory);
    }
    let more = hypothesis_pairs(alloc, problem.rules, problem.hypotheses)?;
    if more.whole {
        let others = more.pairs.as_slice();
        decide_listed(alloc, problem, first, others, memo, solve)
    } else {
        Ok(not_listed())
    }
}

/// What comes of the ranking of the pairs of the rules and of the hypotheses. Where those of the
/// rules aren't all listed, none of the hypotheses is made.
fn decide_all<S: FnMut(&Constraint) -> Result<Option<Cert>, FmEnd>>(
    alloc: Global,
    problem: &RankingProblem,
    listed: &Listing,
    memo: &mut RankMemo,
    solve: &mut S,
) -> Result<Attempt<()>, NoMemory>
    requires solver { IsSolver S.FnMut solve.old }
    requires listed { listed.now ≡
        listing problem.now.rules.now problem.now.rules.now.rules }
    requires roots { All HasRoot problem.now.hypotheses.now }
    requires fits { All (SidesFit problem.now.rules.now) problem.now.hypotheses.now }
    ensures solver { IsSolver S.FnMut solve.new }
    ensures tried { IfOk result (λ t. tried_only t ≡
        ranking problem.now.kind problem.now.rules.now problem.now.hypotheses.now) }
{
    if listed.whole {
        let first = listed.pairs.as_slice();
        decide_after(alloc, problem, first, memo, solve)
    } else {
        Ok(not_listed())
    }
}

/// Whether there are ranks by which all pairs of the rules and of the hypotheses inside the domains
/// are lower, as the solver shows it; Large where there are none and something on the way passed the
/// limits, as where the pairs aren't all listed. Those of the rules are given. Tests of pairs and
/// components of graphs are kept in the memo.
pub fn has_ranks_with<S: FnMut(&Constraint) -> Result<Option<Cert>, FmEnd>>(
    alloc: Global,
    kind: RankingKind,
    rules: &RuleSet,
    listed: &Listing,
    hypotheses: &[Rule],
    memo: &mut RankMemo,
    solve: &mut S,
) -> Result<bool, FmEnd>
    requires solver { IsSolver S.FnMut solve.old }
    requires listed { listed.now ≡ listing rules.now rules.now.rules }
    requires roots { All HasRoot hypotheses.now }
    requires fits { All (SidesFit rules.now) hypotheses.now }
    ensures solver { IsSolver S.FnMut solve.new }
    ensures answer { HasRanksAnswer (ranked kind rules.now hypotheses.now) result }
{
    let problem = RankingProblem {
        kind,
        rules,
        hypotheses,
    };
    match decide_all(alloc, &problem, listed, memo, solve) {
        Ok(tried) => {
            let noted = tried.noted;
            match tried.made {
                Some(()) => Ok(true),
                None if noted => Err(FmEnd::Large),
                None => Ok(false),
            }
        }
        Err(NoMemory) => Err(FmEnd::NoMemory),
    }
}
