//! The first fit choices of all components with an open pair.
ghost use Rattle.std.specs.Prelude.{◌≡◌, ◌≤◌, ◌^◌, IfOk, IfSome, length};
ghost use Rattle.rx_graph.specs.Graph.{IsOver};
ghost use Rattle.rx_pairs.specs.Graph.{edges_of};
ghost use Rattle.rx_rank.specs.Answers.{still_open, tried_as};
ghost use Rattle.rx_rank.specs.Components.{representatives_of};
ghost use Rattle.rx_rank.specs.Ranking.{polynomials};
ghost use Rattle.rx_find_ranks.specs.Fits.{AreFits, AreTried};
ghost use Rattle.rx_find_ranks.specs.Groups.{groups_in, ungrouped};
ghost use Rattle.rx_find_ranks.specs.Tables.{pairs_open};
ghost use Rattle.rx_solve.specs.Answers.{IsSolver};

use crate::components::fit_groups;
use crate::groups::{all_entries, group_entries};
use crate::lending::pairs_of;
use crate::open_pair::OpenPair;
use crate::problem::RankingProblem;
use rx_cert::Cert;
use rx_fm::FmEnd;
use rx_plain::{Items, NoMemory};
use rx_poly::Poly;
use rx_rank::{Attempt, Fit, PairMemo, find_representatives};
use rx_row::Constraint;
use std::alloc::Global;

/// The polynomials that components take, and what they say of the open pairs.
#[derive(Drop)]
pub(crate) struct Fits {
    /// The column: polynomials by symbol.
    pub(crate) column: Vec<Option<Poly>>,
    /// The open pairs, those of one component after those of another.
    pub(crate) entries: Vec<OpenPair>,
    /// For each of them the certificates by which the column holds.
    pub(crate) holds: Vec<Items<Cert>>,
    /// For each at which the column falls the certificates of that.
    pub(crate) falls: Vec<Option<Items<Cert>>>,
}

/// By symbol the least symbol of its component in the graph of the open pairs.
fn open_representatives(
    alloc: Global,
    symbols: usize,
    entries: &[OpenPair],
) -> Result<Vec<u32>, NoMemory>
    requires over { IsOver symbols (edges_of (pairs_open entries.now)) }
    requires few { symbols ≤ 2 ^ 32 }
    ensures { IfOk result (λ names. names.items ≡ representatives_of symbols (pairs_open entries.now)) }
{
    let pairs = pairs_of(alloc, entries)?;
    find_representatives(alloc, symbols, pairs.as_slice())
}

/// The fit of the entries in groups, if there is one, with these entries.
fn with_entries(
    alloc: Global,
    groups: Vec<Vec<OpenPair>>,
    tried: Attempt<Fit>,
) -> Result<Attempt<Fits>, NoMemory>
    ensures { IfOk result (AreTried (ungrouped (groups_in groups.items)) tried) }
{
    let noted = tried.noted;
    let Some(fit) = tried.made else {
        return Ok(Attempt { made: None, noted });
    };
    let Fit {
        values,
        holds,
        falls,
    } = fit;
    let fits = Fits {
        column: values,
        entries: all_entries(alloc, groups)?,
        holds,
        falls,
    };
    Ok(Attempt {
        made: Some(fits),
        noted,
    })
}

/// The first fit choices of the components with an open pair, in order, up to the first component
/// that has none.
pub(crate) fn fit_all<S: FnMut(&Constraint) -> Result<Option<Cert>, FmEnd>>(
    alloc: Global,
    problem: &RankingProblem,
    entries: Vec<OpenPair>,
    memo: &mut PairMemo,
    solve: &mut S,
) -> Result<Attempt<Fits>, NoMemory>
    requires solver { IsSolver S.FnMut solve.old }
    requires over { IsOver (length problem.now.rules.now.symbols)
        (edges_of (pairs_open entries.items)) }
    requires few { length problem.now.rules.now.symbols ≤ 2 ^ 32 }
    ensures solver { IsSolver S.FnMut solve.new }
    ensures tried { IfOk result (λ t. tried_as
        (λ fits. still_open (pairs_open fits.entries.items) fits.falls.items) t ≡
        polynomials problem.now.kind problem.now.rules.now problem.now.hypotheses.now
        (pairs_open entries.items)) }
    ensures fits { IfOk result (λ t. IfSome t.made
        (AreFits problem.now.rules.now.symbols entries.items)) }
{
    let components = open_representatives(alloc, problem.symbols(), entries.as_slice())?;
    let names = components.as_slice();
    let groups = group_entries(alloc, names, entries)?;
    let tried = fit_groups(alloc, problem, names, groups.as_slice(), memo, solve)?;
    with_entries(alloc, groups, tried)
}
