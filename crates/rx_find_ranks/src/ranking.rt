//! Finding ranks for a rule set and hypotheses.
ghost use Rattle.std.specs.Prelude.{◌≡◌, All, IfOk, IfSome};
ghost use Rattle.rx_pairs.specs.Pairs.{HasRoot, SidesFit};
ghost use Rattle.rx_rank.specs.Answers.{tried_only};
ghost use Rattle.rx_find_ranks.specs.Found.{HasColumns, LowersAll, RanksAnswer};
ghost use Rattle.rx_rank.specs.Ranking.{ranked, ranking};
ghost use Rattle.rx_solve.specs.Answers.{IsSolver};

use crate::problem::RankingProblem;
use crate::progress::{Progress, begin};
use crate::rounds::rank_from;
use crate::table::ranking_of;
use rx_cert::Cert;
use rx_fm::FmEnd;
use rx_pairs::{PairCert, RankTable, listed_pairs};
use rx_plain::{Items, NoMemory};
use rx_rank::{Attempt, PairMemo, RankingKind};
use rx_row::Constraint;
use rx_term::{Rule, RuleSet};
use std::alloc::Global;

/// Ranks, and why all pairs are lower by them.
#[derive(Drop)]
pub struct Ranking {
    /// The ranks.
    pub table: RankTable,
    /// Why each pair is lower.
    pub certs: Items<PairCert>,
}

/// The ranking of the pairs of the rules and of the hypotheses inside the domains; without a table
/// where these pass the limits, which is noted.
fn rank_all<S: FnMut(&Constraint) -> Result<Option<Cert>, FmEnd>>(
    alloc: Global,
    problem: &RankingProblem,
    memo: &mut PairMemo,
    solve: &mut S,
) -> Result<Attempt<Ranking>, NoMemory>
    requires solver { IsSolver S.FnMut solve.old }
    requires roots { All HasRoot problem.now.hypotheses.now }
    requires fits { All (SidesFit problem.now.rules.now) problem.now.hypotheses.now }
    ensures solver { IsSolver S.FnMut solve.new }
    ensures tried { IfOk result (λ t. tried_only t ≡
        ranking problem.now.kind problem.now.rules.now problem.now.hypotheses.now) }
    ensures lowers { IfOk result (λ t. IfSome t.made
        (LowersAll problem.now.rules.now problem.now.hypotheses.now)) }
    ensures columns { IfOk result (λ t. IfSome t.made (λ found. HasColumns found.table)) }
{
    let symbols = problem.rules.parts().symbols.len();
    if symbols > u32::MAX as usize {
        return Err(NoMemory);
    }
    let listed = listed_pairs(alloc, problem.rules, problem.hypotheses)?;
    if !listed.whole {
        return Ok(Attempt {
            made: None,
            noted: true,
        });
    }
    let pairs = listed.pairs.into_vec();
    let start = begin(alloc, pairs)?;
    let tried = rank_from(alloc, problem, 7, start, memo, solve)?;
    let noted = tried.noted;
    match tried.made {
        Some(done) => {
            let Progress {
                columns,
                closed,
                ..
            } = done;
            let found = ranking_of(alloc, columns.as_slice(), symbols, closed)?;
            Ok(Attempt {
                made: Some(found),
                noted,
            })
        }
        None => Ok(Attempt { made: None, noted }),
    }
}

/// Finds ranks by which all pairs of the rules and of the hypotheses inside the domains are lower,
/// as the solver shows it, in one to fifteen columns. None where there are none of the kind that is
/// tried; Large where there are none and something on the way passed the limits. What is found out
/// of pairs is kept in the memo, and what it has isn't asked again; it may come from other rules,
/// hypotheses and solvers.
pub fn find_ranks_with<S: FnMut(&Constraint) -> Result<Option<Cert>, FmEnd>>(
    alloc: Global,
    kind: RankingKind,
    rules: &RuleSet,
    hypotheses: &[Rule],
    memo: &mut PairMemo,
    solve: &mut S,
) -> Result<Option<Ranking>, FmEnd>
    requires solver { IsSolver S.FnMut solve.old }
    requires roots { All HasRoot hypotheses.now }
    requires fits { All (SidesFit rules.now) hypotheses.now }
    ensures solver { IsSolver S.FnMut solve.new }
    ensures answer { RanksAnswer (ranked kind rules.now hypotheses.now) result }
    ensures lowers { IfOk result (λ a. IfSome a (LowersAll rules.now hypotheses.now)) }
    ensures columns { IfOk result (λ a. IfSome a (λ found. HasColumns found.table)) }
{
    let problem = RankingProblem {
        kind,
        rules,
        hypotheses,
    };
    match rank_all(alloc, &problem, memo, solve) {
        Ok(tried) => {
            let noted = tried.noted;
            match tried.made {
                Some(found) => Ok(Some(found)),
                None if noted => Err(FmEnd::Large),
                None => Ok(None),
            }
        }
        Err(NoMemory) => Err(FmEnd::NoMemory),
    }
}

/// A rank table as `find_ranks_with` finds it, with a memo of its own.
pub fn find_ranks<S: FnMut(&Constraint) -> Result<Option<Cert>, FmEnd>>(
    alloc: Global,
    kind: RankingKind,
    rules: &RuleSet,
    hypotheses: &[Rule],
    solve: &mut S,
) -> Result<Option<Ranking>, FmEnd>
    requires solver { IsSolver S.FnMut solve.old }
    requires roots { All HasRoot hypotheses.now }
    requires fits { All (SidesFit rules.now) hypotheses.now }
    ensures solver { IsSolver S.FnMut solve.new }
    ensures answer { RanksAnswer (ranked kind rules.now hypotheses.now) result }
    ensures lowers { IfOk result (λ a. IfSome a (LowersAll rules.now hypotheses.now)) }
    ensures columns { IfOk result (λ a. IfSome a (λ found. HasColumns found.table)) }
{
    let mut memo = PairMemo::new(alloc);
    find_ranks_with(alloc, kind, rules, hypotheses, &mut memo, solve)
}
