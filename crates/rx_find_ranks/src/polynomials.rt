//! Columns of polynomials: the pairs that fall by the first fit choices are closed.
ghost use Rattle.std.specs.Prelude.{◌≡◌, ◌≤◌, ◌^◌, ◌++◌, ◌∷◌, [], IfOk, IfSome, length};
ghost use Rattle.rx_graph.specs.Graph.{IsOver};
ghost use Rattle.rx_pairs.specs.Graph.{edges_of};
ghost use Rattle.rx_rank.specs.Answers.{tried_as};
ghost use Rattle.rx_rank.specs.Ranking.{polynomials};
ghost use Rattle.rx_find_ranks.specs.Closing.{close_all, fallen, fitted, left_open};
ghost use Rattle.rx_find_ranks.specs.Rounds.{IsGrown};
ghost use Rattle.rx_find_ranks.specs.Tables.{pairs_open};
ghost use Rattle.rx_find_ranks.specs.declared.column.FoundColumn.TheVariants.{Polynomials};
ghost use Rattle.rx_solve.specs.Answers.{IsSolver};

use crate::closing::close_fallen;
use crate::column::FoundColumn;
use crate::fits::{Fits, fit_all};
use crate::problem::RankingProblem;
use crate::progress::Progress;
use rx_cert::Cert;
use rx_fm::FmEnd;
use rx_pairs::PairCert;
use rx_plain::NoMemory;
use rx_rank::{Attempt, PairMemo};
use rx_row::Constraint;
use std::alloc::Global;

/// The column of the fits after the columns before; the pairs at which it falls are closed.
fn add_column(
    alloc: Global,
    columns: Vec<FoundColumn>,
    closed: Vec<Option<PairCert>>,
    fits: Fits,
) -> Result<Progress, NoMemory>
    requires { length columns.items ≤ 14 }
    ensures columns { IfOk result (λ after.
        after.columns.items ≡ columns.items ++ Polynomials fits.column ∷ []) }
    ensures staying { IfOk result (λ after. after.entries.items ≡
        left_open (fitted fits.entries.items fits.holds.items fits.falls.items)) }
    ensures leaving { IfOk result (λ after. after.closed.items ≡
        close_all (length after.columns.items) closed.items
        (fallen (fitted fits.entries.items fits.holds.items fits.falls.items))) }
{
    let Fits {
        column,
        entries,
        holds,
        falls,
    } = fits;
    let mut columns = columns;
    let mut closed = closed;
    columns.push(FoundColumn::Polynomials(column))?;
    let number = columns.len() as u32;
    let left = close_fallen(alloc, number, entries, holds, falls, &mut closed)?;
    Ok(Progress {
        columns,
        entries: left,
        closed,
    })
}

/// One column more, of polynomials: each component with an open pair takes its first fit choice,
/// and the pairs that fall are closed.
pub(crate) fn add_polynomials<S: FnMut(&Constraint) -> Result<Option<Cert>, FmEnd>>(
    alloc: Global,
    problem: &RankingProblem,
    progress: Progress,
    memo: &mut PairMemo,
    solve: &mut S,
) -> Result<Attempt<Progress>, NoMemory>
    requires solver { IsSolver S.FnMut solve.old }
    requires over { IsOver (length problem.now.rules.now.symbols)
        (edges_of (pairs_open progress.entries.items)) }
    requires few { length problem.now.rules.now.symbols ≤ 2 ^ 32 }
    requires width { length progress.columns.items ≤ 14 }
    ensures solver { IsSolver S.FnMut solve.new }
    ensures tried { IfOk result (λ t. tried_as (λ after. pairs_open after.entries.items) t ≡
        polynomials problem.now.kind problem.now.rules.now problem.now.hypotheses.now
        (pairs_open progress.entries.items)) }
    ensures grown { IfOk result (λ t. IfSome t.made
        (IsGrown problem.now.rules.now.symbols progress)) }
{
    let Progress {
        columns,
        entries,
        closed,
    } = progress;
    let tried = fit_all(alloc, problem, entries, memo, solve)?;
    let noted = tried.noted;
    let Some(fits) = tried.made else {
        return Ok(Attempt { made: None, noted });
    };
    let after = add_column(alloc, columns, closed, fits)?;
    Ok(Attempt {
        made: Some(after),
        noted,
    })
}
