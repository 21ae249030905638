//! The table of the columns that were found.
ghost use Rattle.std.specs.Prelude.{◌≡◌, ◌≤◌, ◌^◌, All, IfOk, List, None, [], length, true};
ghost use Rattle.rx_graph.specs.Graph.{IsOver};
ghost use Rattle.rx_pairs.specs.Graph.{edges_of};
ghost use Rattle.rx_pairs.specs.Inside.{descent_in};
ghost use Rattle.rx_pairs.specs.Lowering.{Descends};
ghost use Rattle.rx_pairs.specs.Ranks.{bad_rank};
ghost use Rattle.rx_pairs.specs.declared.pair.Pair.{Pair};
ghost use Rattle.rx_term.specs.declared.rule_set.RuleParts.{RuleParts};
ghost use Rattle.rx_find_ranks.specs.Columns.{columns_in};
ghost use Rattle.rx_find_ranks.specs.Tables.{IsDeepPair, IsLawful, IsSplit};

use crate::column::FoundColumn;
use crate::ranking::Ranking;
use crate::ranks::{certs_of, ranks_of};
use rx_pairs::{PairCert, RankTable};
use rx_plain::NoMemory;
use std::alloc::Global;

/// The ranks of n symbols by the columns, where no pair is open, and why all pairs are lower.
pub(crate) fn ranking_of(
    alloc: Global,
    columns: &[FoundColumn],
    symbols: usize,
    closed: Vec<Option<PairCert>>,
) -> Result<Ranking, NoMemory>
    requires few { symbols ≤ 2 ^ 32 }
    requires width { length columns.now ≤ 15 }
    ensures lawful { IfOk result (λ found. (parts : RuleParts) → symbols ≡ length parts.symbols →
        All (IsLawful parts.symbols) (columns_in columns.now) → bad_rank parts found.table ≡ None) }
    ensures lower { IfOk result (λ found. (pairs : List Pair) →
        IsSplit pairs (columns_in columns.now) [] closed.items →
        IsOver symbols (edges_of pairs) →
        descent_in found.table true 0 pairs found.certs ≡ Descends) }
    ensures deep { IfOk result (λ found. (pairs : List Pair) →
        IsSplit pairs (columns_in columns.now) [] closed.items → All IsDeepPair found.certs) }
    ensures columns { IfOk result (λ found. found.table.columns ≡ length columns.now) }
{
    let ranks = ranks_of(alloc, columns, symbols)?;
    let certs = certs_of(alloc, closed)?;
    let table = RankTable {
        columns: columns.len() as u32,
        ranks,
    };
    Ok(Ranking { table, certs })
}
