//! The rounds of a ranking.
ghost use Rattle.std.specs.Prelude.{◌≡◌, ◌≤◌, ◌^◌, ◌+◌, ◌*◌, IfOk, IfSome, List};
ghost use Rattle.std.specs.Prelude.{Some, false, length};
ghost use Rattle.rx_graph.specs.Graph.{IsOver};
ghost use Rattle.rx_pairs.specs.Graph.{edges_of};
ghost use Rattle.rx_rank.specs.Answers.{tried_only};
ghost use Rattle.rx_rank.specs.Components.{inside};
ghost use Rattle.rx_rank.specs.Ranking.{ranking_from};
ghost use Rattle.rx_find_ranks.specs.Rounds.{IsGrownOrSame, IsLonger, IsRanked};
ghost use Rattle.rx_find_ranks.specs.Tables.{pairs_open};
ghost use Rattle.rx_solve.specs.Answers.{IsSolver};
ghost use Rattle.rx_term.specs.declared.rule_set.SymInfo.{SymInfo};

use crate::polynomials::add_polynomials;
use crate::problem::RankingProblem;
use crate::progress::{Progress, add_heights};
use rx_cert::Cert;
use rx_fm::FmEnd;
use rx_plain::NoMemory;
use rx_rank::{Attempt, PairMemo, noted_before};
use rx_row::Constraint;
use std::alloc::Global;

/// One column more, of heights, as a round begins; none where no round is left and no pair is open.
fn add_needed_heights(
    alloc: Global,
    symbols: usize,
    left: u32,
    progress: Progress,
) -> Result<Progress, NoMemory>
    requires over { IsOver symbols (edges_of (pairs_open progress.entries.items)) }
    requires few { symbols ≤ 2 ^ 32 }
    requires width { length progress.columns.items ≤ 14 }
    ensures pairs { IfOk result (λ after. pairs_open after.entries.items ≡
        inside symbols (pairs_open progress.entries.items)) }
    ensures grown { IfOk result (λ after. (infos : List SymInfo) → symbols ≡ length infos →
        IsGrownOrSame infos progress after) }
    ensures more { IfOk result (IsLonger left progress) }
{
    if left == 0 && progress.is_done() {
        return Ok(progress);
    }
    add_heights(alloc, symbols, progress)
}

/// A ranking that is found, with nothing that passed the limits.
fn found(progress: Progress) -> Attempt<Progress>
    ensures made { result.made ≡ Some progress }
    ensures noted { result.noted ≡ false }
{
    Attempt {
        made: Some(progress),
        noted: false,
    }
}

/// A ranking with n rounds left: a column of heights, where pairs are open then one of polynomials,
/// and so on; where no round is left and pairs are open, a last column of heights.
pub(crate) fn rank_from<S: FnMut(&Constraint) -> Result<Option<Cert>, FmEnd>>(
    alloc: Global,
    problem: &RankingProblem,
    left: u32,
    progress: Progress,
    memo: &mut PairMemo,
    solve: &mut S,
) -> Result<Attempt<Progress>, NoMemory>
    requires solver { IsSolver S.FnMut solve.old }
    requires over { IsOver (length problem.now.rules.now.symbols)
        (edges_of (pairs_open progress.entries.items)) }
    requires few { length problem.now.rules.now.symbols ≤ 2 ^ 32 }
    requires width { length progress.columns.items + 2 * left ≤ 14 }
    ensures solver { IsSolver S.FnMut solve.new }
    ensures tried { IfOk result (λ t. tried_only t ≡
        ranking_from problem.now.kind problem.now.rules.now problem.now.hypotheses.now left
        (pairs_open progress.entries.items)) }
    ensures made { IfOk result (λ t. IfSome t.made
        (IsRanked problem.now.rules.now.symbols progress)) }
    ensures more { IfOk result (λ t. IfSome t.made (IsLonger left progress)) }
{
    let grown = add_needed_heights(alloc, problem.symbols(), left, progress)?;
    if grown.is_done() {
        return Ok(found(grown));
    }
    if left == 0 {
        return Ok(Attempt {
            made: None,
            noted: false,
        });
    }
    let tried = add_polynomials(alloc, problem, grown, memo, solve)?;
    let noted = tried.noted;
    let Some(next) = tried.made else {
        return Ok(Attempt { made: None, noted });
    };
    let rest = rank_from(alloc, problem, left - 1, next, memo, solve)?;
    Ok(noted_before(noted, rest))
}
